// How types are printed.
ghost use Rattle.std.specs.Prelude.{◌++◌, option_map};
ghost use Rattle.std.specs.Fmt.{DisplaysStyledOnOk, WritesOnOk};
ghost use Rattle.wgsl_syntax.specs.Scalar.{scalar_text};
ghost use Rattle.wgsl_rules.specs.types.Spelling.{count_end, spelling_by};
ghost use Rattle.wgsl_core.specs.Forms.{form_view, scalar_of};
ghost use Rattle.wgsl_core.specs.View.{view};
ghost use Rattle.wgsl_core.specs.internal.Spelling.{start_by, end_of};

use crate::ty::Type;
use crate::ty::form::Form;
use std::fmt;
use std::fmt::Write;
use wgsl_syntax::rules::RuleSet;
use wgsl_syntax::texture::ShownTexture;

impl fmt::Display for Type {
    ghost use Rattle.std.specs.Prelude.{Some, option_map};
    ghost use Rattle.wgsl_syntax.specs.Scalar.{scalar_text};
    ghost use Rattle.wgsl_rules.specs.types.Spelling.{spelling};
    ghost use Rattle.wgsl_core.specs.Forms.{scalar_of};
    ghost use Rattle.wgsl_core.specs.View.{view};

    ghost output = { λ t. Some (spelling (view t)) };

    // Of a scalar: the same text, whatever the width.
    ghost styled_output = { λ t _. option_map scalar_text (scalar_of (view t)) };

    fn fmt<W: Write>(&self, f: &mut fmt::Formatter<W>) -> fmt::Result {
        write_type(f, RuleSet::Ported, self)
    }
}

/// A type, which prints as WGSL spells it, by these rules.
#[derive(Clone, Copy)]
pub struct ShownType<'t> {
    pub ty: &'t Type,
    pub rules: RuleSet,
}

impl fmt::Display for ShownType<'_> {
    ghost use Rattle.std.specs.Prelude.{Some};
    ghost use Rattle.wgsl_rules.specs.types.Spelling.{spelling_by};
    ghost use Rattle.wgsl_core.specs.View.{view};

    ghost output = { λ s. Some (spelling_by s.rules (view s.ty.now)) };

    fn fmt<W: Write>(&self, f: &mut fmt::Formatter<W>) -> fmt::Result {
        write_type(f, self.rules, self.ty)
    }
}

/// Writes a type as WGSL spells it, by these rules.
#[cycle(shown)]
pub fn write_type<W: Write>(f: &mut fmt::Formatter<W>, rules: RuleSet, ty: &Type) -> fmt::Result
    ensures plain { WritesOnOk W.write_str_gives f.old result (spelling_by rules (view ty.now)) f.new }
    ensures styled { DisplaysStyledOnOk W.write_str_gives f.old result
        (option_map scalar_text (scalar_of (view ty.now))) f.new }
{
    let form = ty.form();
    write_start(f, rules, form)?;
    match ty {
        Type::Array(t, _) => write_inside(f, rules, t, form),
        Type::Vec(_, t) => write_inside(f, rules, t, form),
        Type::Mat(_, _, t) => write_inside(f, rules, t, form),
        Type::Atomic(t) => write_inside(f, rules, t, form),
        Type::Ptr(_, t, _) => write_inside(f, rules, t, form),
        Type::Ref(_, t, _) => write_inside(f, rules, t, form),
        Type::BindingArray(t, _) => write_inside(f, rules, t, form),
        Type::Bool
        | Type::AbstractInt
        | Type::AbstractFloat
        | Type::I32
        | Type::U32
        | Type::F32
        | Type::F16
        | Type::I64
        | Type::U64
        | Type::F64
        | Type::Struct(_)
        | Type::Texture(_)
        | Type::Sampler(_)
        | Type::RayQuery(_)
        | Type::AccelerationStructure(_) => Ok(()),
    }
}

/// Writes the type inside a type of this form, and the end behind it.
#[cycle(shown)]
fn write_inside<W: Write>(
    f: &mut fmt::Formatter<W>,
    rules: RuleSet,
    inside: &Type,
    around: Form<'_>,
) -> fmt::Result
    ensures { WritesOnOk W.write_str_gives f.old result
        (spelling_by rules (view inside.now) ++ end_of (form_view around.entry)) f.new }
{
    write_type(f, rules, inside)?;
    write_end(f, around)
}

/// Writes what stands in front of the type inside, or all of a type that has none.
fn write_start<W: Write>(f: &mut fmt::Formatter<W>, rules: RuleSet, form: Form<'_>) -> fmt::Result
    ensures plain { WritesOnOk W.write_str_gives f.old result (start_by rules (form_view form.entry)) f.new }
    ensures styled { DisplaysStyledOnOk W.write_str_gives f.old result
        (option_map scalar_text (scalar_of (form_view form.entry))) f.new }
{
    match form {
        Form::Scalar(s) => f.write_str(s.name()),
        Form::Array(_, _) => f.write_str("array<"),
        Form::Vector(n, _) => write!(f, "vec{n}<"),
        Form::Matrix(c, r, _) => write!(f, "mat{c}x{r}<"),
        Form::Struct(s) => f.write_str(&s.name),
        Form::Atomic(_) => f.write_str("atomic<"),
        Form::Pointer(s, _, _) => {
            let space = s.name_by(rules);
            write!(f, "ptr<{space}, ")
        }
        Form::Reference(s, _, _) => {
            let space = s.name_by(rules);
            write!(f, "ref<{space}, ")
        }
        Form::Texture(texture) => {
            let shown = ShownTexture { texture, rules };
            write!(f, "{shown}")
        }
        Form::Sampler(s) => write!(f, "{s}"),
        Form::BindingArray(_, _) => f.write_str("binding_array<"),
        Form::RayQuery(None) => f.write_str("ray_query"),
        Form::RayQuery(Some(flag)) => write!(f, "ray_query<{flag}>"),
        Form::AccelerationStructure(None) => f.write_str("acceleration_structure"),
        Form::AccelerationStructure(Some(flag)) => write!(f, "acceleration_structure<{flag}>"),
    }
}

/// Writes what stands behind the type inside, if there is one.
fn write_end<W: Write>(f: &mut fmt::Formatter<W>, form: Form<'_>) -> fmt::Result
    ensures { WritesOnOk W.write_str_gives f.old result (end_of (form_view form.entry)) f.new }
{
    match form {
        Form::Array(n, _) | Form::BindingArray(n, _) => write_count(f, n),
        Form::Vector(_, _) | Form::Matrix(_, _, _) | Form::Atomic(_) => f.write_str(">"),
        Form::Pointer(_, _, access) | Form::Reference(_, _, access) => write!(f, ", {access}>"),
        _ => Ok(()),
    }
}

/// Writes the end of an array's type, behind its element.
pub fn write_count<W: Write>(f: &mut fmt::Formatter<W>, count: Option<usize>) -> fmt::Result
    ensures { WritesOnOk W.write_str_gives f.old result (count_end count) f.new }
{
    match count {
        Some(n) => write!(f, ", {n}>"),
        None => f.write_str(">"),
    }
}
