// The types that a built-in function gets from its arguments, before they are built.
ghost use Rattle.std.specs.Prelude.{◌≡◌, IfSome, map, option_map, option_and_then, slice_get};
ghost use Rattle.wgsl_syntax.specs.TextureKind.{dimensions};
ghost use Rattle.wgsl_rules.specs.types.Types.{scalar, vec};
ghost use Rattle.wgsl_rules.specs.types.Inner.{inner_of};
ghost use Rattle.wgsl_rules.specs.calls.ResultTypes.{transposed_of, size_type};
ghost use Rattle.wgsl_rules.specs.calls.Rows.{IsSource, IsCommonOf, texture_in, sampled_in, channel_in, vector_like};
ghost use Rattle.wgsl_core.specs.View.{view};
ghost use Rattle.wgsl_core.specs.internal.Resolution.{element_view, resolved_view};

use wgsl_core::conversion::convert_ty;
use wgsl_core::operators::resolve::{Element, ResolvedType};
use wgsl_core::ty::Type;
use wgsl_core::ty::form::Form;
use wgsl_syntax::call::Source;
use wgsl_syntax::overload::Dimensions;
use wgsl_syntax::scalar::Scalar;
use wgsl_syntax::texture::{TextureDimensions, TextureType};

/// The type that the source names, if the arguments have one.
#[inline(always)]
pub fn type_of_source(source: Source, args: &[Type]) -> Option<Element<'_>>
    ensures { IsSource source (map view args.now) (option_map element_view result) }
{
    match source {
        Source::Argument => as_element(argument(args, 0)),
        Source::Inner => as_element(inner(argument(args, 0))),
        Source::InnerOfInner => as_element(inner(inner(argument(args, 0)))),
        Source::Common => as_element(common(argument(args, 0), argument(args, 1))),
        Source::InnerOfCommon => as_element(inner(common(argument(args, 0), argument(args, 1)))),
        Source::CommonOfThree => as_element(common(
            common(argument(args, 0), argument(args, 1)),
            argument(args, 2),
        )),
        Source::CommonOfInner => as_element(common(
            common(inner(argument(args, 0)), inner(argument(args, 1))),
            argument(args, 2),
        )),
        Source::The(scalar) => Some(Element::Scalar(scalar)),
        Source::SampledAs => sampled(argument(args, 1)),
        Source::Channel => channel(argument(args, 0)),
    }
}

fn as_element(ty: Option<&Type>) -> Option<Element<'_>>
    ensures { option_map element_view result ≡ option_map (λ t. view t.now) ty.entry }
{
    match ty {
        Some(ty) => Some(Element::Type(ty)),
        None => None,
    }
}

/// The argument at an index, if there is one.
pub fn argument(args: &[Type], index: usize) -> Option<&Type>
    ensures { option_map (λ t. view t.now) result ≡ slice_get (map view args.now) index }
{
    args.get(index)
}

/// The type inside a type.
pub fn inner(ty: Option<&Type>) -> Option<&Type>
    ensures { option_map (λ t. view t.now) result
        ≡ option_map inner_of (option_map (λ t. view t.now) ty.entry) }
{
    match ty {
        Some(ty) => Some(ty.inner()),
        None => None,
    }
}

fn common<'a>(a: Option<&'a Type>, b: Option<&'a Type>) -> Option<&'a Type>
    ensures { IsCommonOf (option_map (λ t. view t.now) a.entry)
        (option_map (λ t. view t.now) b.entry)
        (option_map (λ t. view t.now) result) }
{
    match a {
        Some(a) => match b {
            Some(b) => convert_ty(a, b),
            None => None,
        },
        None => None,
    }
}

fn texture(ty: &Type) -> Option<TextureType>
    ensures { result ≡ texture_in (view ty.now) }
{
    match ty.form() {
        Form::Texture(texture) => Some(texture),
        _ => None,
    }
}

/// The sampled type of a texture.
fn sampled<'a>(ty: Option<&'a Type>) -> Option<Element<'a>>
    ensures { option_map element_view result
        ≡ option_and_then sampled_in (option_map (λ t. view t.now) ty.entry) }
{
    let sampled = texture(ty?)?.sampled_type()?;
    Some(Element::Scalar(Scalar::from(sampled)))
}

/// The type that the channels of a texture are read as.
fn channel<'a>(ty: Option<&'a Type>) -> Option<Element<'a>>
    ensures { option_map element_view result
        ≡ option_and_then channel_in (option_map (λ t. view t.now) ty.entry) }
{
    let texture = texture(ty?)?;
    Some(Element::Scalar(Scalar::from(texture.channel_type())))
}

/// A vector of the element.
pub fn in_vector(components: u8, element: Option<Element<'_>>) -> Option<ResolvedType<'_>>
    ensures { option_map resolved_view result
        ≡ option_map (vec components) (option_map element_view element.entry) }
{
    Some(ResolvedType {
        dimensions: Dimensions::Vector(components),
        element: element?,
    })
}

/// A vector of the element, as long as another.
pub fn as_long<'a>(like: Option<&Type>, element: Option<Element<'a>>) -> Option<ResolvedType<'a>>
    ensures { option_map resolved_view result
        ≡ option_and_then
        (λ l. option_and_then (vector_like l) (option_map element_view element.entry))
        (option_map (λ t. view t.now) like.entry) }
{
    match like?.form() {
        Form::Vector(components, _) => in_vector(components, element),
        _ => None,
    }
}

/// A matrix with columns and rows exchanged.
pub fn transposed(ty: Option<&Type>) -> Option<ResolvedType<'_>>
    ensures { option_map resolved_view result
        ≡ option_and_then transposed_of (option_map (λ t. view t.now) ty.entry) }
{
    match ty?.form() {
        Form::Matrix(columns, rows, component) => Some(ResolvedType {
            dimensions: Dimensions::Matrix(rows, columns),
            element: Element::Type(component),
        }),
        _ => None,
    }
}

/// The size of a texture.
pub fn texture_size<'a>(ty: Option<&'a Type>) -> Option<ResolvedType<'a>>
    ensures { option_map resolved_view result ≡ option_map (λ x. size_type (dimensions x))
        (option_and_then texture_in (option_map (λ t. view t.now) ty.entry)) }
{
    let dimensions = match texture(ty?)?.dimensions() {
        TextureDimensions::D1 => Dimensions::Single,
        TextureDimensions::D2 => Dimensions::Vector(2),
        TextureDimensions::D3 => Dimensions::Vector(3),
    };
    Some(ResolvedType::of_scalar(dimensions, Scalar::U32))
}
