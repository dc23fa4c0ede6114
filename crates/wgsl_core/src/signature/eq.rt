// Equality of template parameters and signatures.
ghost use Rattle.std.specs.Prelude.{◌≡◌, ◌↔◌, IsTrue, map, option_map};
ghost use Rattle.wgsl_core.specs.View.{view};
ghost use Rattle.wgsl_core.specs.Instances.{instance_view, literal_view, parameter_view, signature_view};

use crate::literal::{Instance, LiteralInstance};
use crate::signature::{CallSignature, TpltParam};
use crate::ty::Type;
use wgsl_syntax::enumerant::Enumerant;

impl PartialEq for TpltParam {
    ghost use Rattle.std.specs.Ordering.{on};
    ghost use Rattle.wgsl_core.specs.Instances.{parameter_view};
    ghost use Rattle.wgsl_core.specs.RefusalEquality.{parameter_eq, parameter_partial_equivalence};

    ghost eq = { on parameter_view parameter_eq };

    ghost laws = { parameter_partial_equivalence };

    #[tactic(auto, using(crate::specs::RefusalEquality::parameter_eq_decides))]
    fn eq(&self, other: &TpltParam) -> bool
        ensures value { result ≡ on parameter_view parameter_eq self.now other.now }
        ensures same { IsTrue result ↔ (parameter_view self.now ≡ parameter_view other.now) }
    {
        same_parameter(self, other)
    }
}

impl PartialEq for CallSignature {
    ghost use Rattle.std.specs.Ordering.{on};
    ghost use Rattle.wgsl_core.specs.Instances.{signature_view};
    ghost use Rattle.wgsl_core.specs.RefusalEquality.{signature_eq, signature_partial_equivalence};

    ghost eq = { on signature_view signature_eq };

    ghost laws = { signature_partial_equivalence };

    #[tactic(auto, using(crate::specs::RefusalEquality::signature_eq_decides))]
    fn eq(&self, other: &CallSignature) -> bool
        ensures value { result ≡ on signature_view signature_eq self.now other.now }
        ensures same { IsTrue result ↔ (signature_view self.now ≡ signature_view other.now) }
    {
        same_signature(self, other)
    }
}

fn same_parameter(a: &TpltParam, b: &TpltParam) -> bool
    ensures { IsTrue result ↔ (parameter_view a.now ≡ parameter_view b.now) }
{
    match a {
        TpltParam::Ty(t) => match b {
            TpltParam::Ty(u) => same_type(t, u),
            TpltParam::Instance(_) | TpltParam::Enumerant(_) => false,
        },
        TpltParam::Instance(i) => match b {
            TpltParam::Instance(j) => same_instance(i, j),
            TpltParam::Ty(_) | TpltParam::Enumerant(_) => false,
        },
        TpltParam::Enumerant(e) => match b {
            TpltParam::Enumerant(f) => same_enumerant(e, f),
            TpltParam::Ty(_) | TpltParam::Instance(_) => false,
        },
    }
}

fn same_instance(a: &Instance, b: &Instance) -> bool
    ensures { IsTrue result ↔ (instance_view a.now ≡ instance_view b.now) }
{
    let Instance::Literal(l) = a;
    let Instance::Literal(m) = b;
    same_literal(l, m)
}

#[tactic(auto, using(crate::specs::Equality::type_eq_decides))]
pub(crate) fn same_type(a: &Type, b: &Type) -> bool
    ensures { IsTrue result ↔ (view a.now ≡ view b.now) }
{
    a == b
}

#[tactic(auto, using(crate::proofs::Sames::literal_same))]
pub(crate) fn same_literal(a: &LiteralInstance, b: &LiteralInstance) -> bool
    ensures { IsTrue result ↔ (literal_view a.now ≡ literal_view b.now) }
{
    a == b
}

#[tactic(auto, using(crate::proofs::Sames::enumerant_same))]
fn same_enumerant(a: &Enumerant, b: &Enumerant) -> bool
    ensures { IsTrue result ↔ (a.now ≡ b.now) }
{
    a == b
}

pub(crate) fn same_signature(a: &CallSignature, b: &CallSignature) -> bool
    ensures { IsTrue result ↔ (signature_view a.now ≡ signature_view b.now) }
{
    a.name == b.name && same_template(&a.tplt, &b.tplt) && same_arguments(&a.args, &b.args)
}

fn same_template(a: &Option<Vec<TpltParam>>, b: &Option<Vec<TpltParam>>) -> bool
    ensures { IsTrue result
        ↔ (option_map (λ ps. map parameter_view ps.items) a.now
        ≡ option_map (λ ps. map parameter_view ps.items) b.now) }
{
    match a {
        Some(parameters) => match b {
            Some(others) => same_parameters(parameters, others),
            None => false,
        },
        None => b.is_none(),
    }
}

fn same_parameters(a: &Vec<TpltParam>, b: &Vec<TpltParam>) -> bool
    ensures { IsTrue result ↔ (map parameter_view a.now.items ≡ map parameter_view b.now.items) }
{
    if a.len() != b.len() {
        return false;
    }
    for i in 0..a.len() {
        if !same_parameter(&a[i], &b[i]) {
            return false;
        }
    }
    true
}

fn same_arguments(a: &Vec<Type>, b: &Vec<Type>) -> bool
    ensures { IsTrue result ↔ (map view a.now.items ≡ map view b.now.items) }
{
    if a.len() != b.len() {
        return false;
    }
    for i in 0..a.len() {
        if !same_type(&a[i], &b[i]) {
            return false;
        }
    }
    true
}
