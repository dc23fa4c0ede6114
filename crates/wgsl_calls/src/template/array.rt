// The templates of arrays and of binding arrays.
ghost use Rattle.std.specs.Prelude.{◌≡◌, IfOk, Some, map};
ghost use Rattle.wgsl_rules.specs.types.Types.{array, binding_array};
ghost use Rattle.wgsl_rules.specs.types.Inner.{inner_of};
ghost use Rattle.wgsl_rules.specs.templates.Templates.{count_of, element_and_count as element_and_count_of, array_template, binding_array_template};
ghost use Rattle.wgsl_core.specs.View.{view};
ghost use Rattle.wgsl_core.specs.Instances.{instance_view, parameter_view};
ghost use Rattle.wgsl_core.specs.Answer.{AnswersAs};
ghost use Rattle.wgsl_calls.specs.Templates.{array_view, binding_array_view};

use std::alloc::{AllocError, Global};
use wgsl_core::conversion::typed::Ty;
use wgsl_core::error::{Error, Fail};
use wgsl_core::literal::{Instance, LiteralInstance};
use wgsl_core::signature::TpltParam;
use wgsl_core::ty::Type;
use wgsl_core::ty::clone::boxed_copy;

/// The template of an array (WGSL, "Array Types"): its element, and the number of elements if there is one.
#[derive(Drop)]
pub struct ArrayTemplate {
    ty: Type,
    n: Option<usize>,
}

impl ArrayTemplate {
    /// A template with this element and this number of elements, or None if runtime-sized.
    pub fn new(ty: Type, n: Option<usize>) -> ArrayTemplate
        ensures { array_view result ≡ array n (view ty) }
    {
        ArrayTemplate { ty, n }
    }

    /// Reads a type, or a type and a literal; else `TemplateArgs`. `Builtin` if the literal isn't an integer above 0.
    pub fn parse(alloc: Global, tplt: &[TpltParam]) -> Result<ArrayTemplate, Fail<Error>>
        ensures { AnswersAs array_view (λ r. r
            ≡ array_template (map parameter_view tplt.now)) result }
    {
        let (ty, n) = element_and_count(
            alloc,
            "array",
            "the array element count must evaluate to a `u32` or a `i32` greater than `0`",
            tplt,
        )?;
        Ok(ArrayTemplate { ty, n })
    }

    /// The array.
    pub fn ty(&self, alloc: Global) -> Result<Type, AllocError>
        ensures { IfOk result (λ t. view t ≡ array_view self.now) }
    {
        Ok(Type::Array(boxed_copy(alloc, &self.ty)?, self.n))
    }

    /// A copy of the element.
    pub fn inner_ty(&self, alloc: Global) -> Result<Type, AllocError>
        ensures { IfOk result (λ t. view t ≡ inner_of (array_view self.now)) }
    {
        self.ty.clone(alloc)
    }

    /// The number of elements, if there is one.
    pub fn n(&self) -> Option<usize>
        ensures { array_view self.now ≡ array result (inner_of (array_view self.now)) }
    {
        self.n
    }
}

/// The template of naga's binding array: its element, and the number of elements if there is one.
#[derive(Drop)]
pub struct BindingArrayTemplate {
    ty: Type,
    n: Option<usize>,
}

impl BindingArrayTemplate {
    /// Reads a type, or a type and a literal; else `TemplateArgs`. `Builtin` if the literal isn't an integer above 0.
    pub fn parse(alloc: Global, tplt: &[TpltParam]) -> Result<BindingArrayTemplate, Fail<Error>>
        ensures { AnswersAs binding_array_view (λ r. r
            ≡ binding_array_template (map parameter_view tplt.now)) result }
    {
        let (ty, n) = element_and_count(
            alloc,
            "binding_array",
            "the binding_array element count must evaluate to a `u32` or a `i32` greater than `0`",
            tplt,
        )?;
        Ok(BindingArrayTemplate { ty, n })
    }

    /// The binding array.
    pub fn ty(&self, alloc: Global) -> Result<Type, AllocError>
        ensures { IfOk result (λ t. view t ≡ binding_array_view self.now) }
    {
        Ok(Type::BindingArray(boxed_copy(alloc, &self.ty)?, self.n))
    }

    /// A copy of the element.
    pub fn inner_ty(&self, alloc: Global) -> Result<Type, AllocError>
        ensures { IfOk result (λ t. view t ≡ inner_of (binding_array_view self.now)) }
    {
        self.ty.clone(alloc)
    }

    /// The number of elements, if there is one.
    pub fn n(&self) -> Option<usize>
        ensures { binding_array_view self.now
            ≡ binding_array result (inner_of (binding_array_view self.now)) }
    {
        self.n
    }
}

fn element_and_count(
    alloc: Global,
    name: &'static str,
    message: &'static str,
    tplt: &[TpltParam],
) -> Result<(Type, Option<usize>), Fail<Error>>
    ensures { AnswersAs (λ p. (view p.0, p.1)) (λ r. r
        ≡ element_and_count_of name.now message.now (map parameter_view tplt.now)) result }
{
    match tplt {
        [TpltParam::Ty(ty)] => Ok((ty.clone(alloc)?, None)),
        [TpltParam::Ty(ty), TpltParam::Instance(instance)] => match element_count(instance) {
            Some(n) => Ok((ty.clone(alloc)?, Some(n))),
            None => Err(Fail::Error(Error::Builtin(message))),
        },
        _ => Err(Fail::Error(Error::TemplateArgs(name))),
    }
}

/// The number of elements that a literal says, if it is an integer above 0.
pub fn element_count(instance: &Instance) -> Option<usize>
    ensures { result ≡ count_of (instance_view instance.now) }
{
    let Instance::Literal(literal) = instance;
    match literal {
        LiteralInstance::Bool(_) => None,
        LiteralInstance::AbstractInt(n) => if *n > 0 {
            usize::try_from(*n).ok()
        } else {
            None
        },
        LiteralInstance::I32(n) => if *n > 0 {
            usize::try_from(*n).ok()
        } else {
            None
        },
        LiteralInstance::U32(n) => if *n > 0 {
            usize::try_from(*n).ok()
        } else {
            None
        },
        LiteralInstance::I64(n) => if *n > 0 {
            usize::try_from(*n).ok()
        } else {
            None
        },
        LiteralInstance::U64(n) => if *n > 0 {
            usize::try_from(*n).ok()
        } else {
            None
        },
    }
}
