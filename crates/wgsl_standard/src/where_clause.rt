// What the letters of an overload stand for, as it is printed after the overload.
ghost use Rattle.std.specs.Prelude.{◌≡◌, ◌++◌};
ghost use Rattle.std.specs.Fmt.{WritesOnOk};
ghost use Rattle.std.specs.Option.{option_to_list};
ghost use Rattle.wgsl_rules.specs.standard.Overloads.{in_order};
ghost use Rattle.wgsl_rules.specs.standard.Signatures.{first_resource, is_storage as storage_there, kind_text as kind_written, letters_text, others_text, scalars_text, t_text, usage_text};

use crate::written::{parameter_count, pattern_at};
use std::fmt;
use std::fmt::Write;
use wgsl_syntax::overload::{Kind, Overload, Parameters, Pattern, Resource, Usage};

/// The set of textures or pointers of a parameter, if there is one.
pub fn resource_of(parameters: &Parameters) -> Option<Resource>
    ensures { result ≡ first_resource (in_order parameters.now) }
{
    for index in 0..parameter_count(parameters) {
        match resource_in(pattern_at(parameters, index)) {
            Some(resource) => return Some(resource),
            None => {}
        }
    }
    None
}

fn resource_in(pattern: Option<Pattern>) -> Option<Resource>
    ensures { result ≡ first_resource (option_to_list pattern) }
{
    match pattern {
        Some(Pattern::Resource(resource)) => Some(resource),
        Some(Pattern::Value(_, _) | Pattern::Sampler(_) | Pattern::Texture(_)) | None => None,
    }
}

/// Writes what each letter of an overload stands for.
pub fn write_letters<W: Write>(
    f: &mut fmt::Formatter<W>,
    overload: &Overload,
    resource: Option<Resource>,
) -> fmt::Result
    ensures { WritesOnOk W.write_str_gives f.old result (letters_text resource overload.now) f.new }
{
    write_scalars(f, overload, is_storage(resource))?;
    f.write_str(other_letters(resource))
}

fn write_scalars<W: Write>(
    f: &mut fmt::Formatter<W>,
    overload: &Overload,
    of_channels: bool,
) -> fmt::Result
    ensures { WritesOnOk W.write_str_gives f.old result (scalars_text of_channels overload.now) f.new }
{
    match overload {
        Overload::Plain(_, _) => Ok(()),
        Overload::WithT(_, _, t) => write_t(f, *t, of_channels),
        Overload::WithTAndU(_, _, t, u) => {
            write_t(f, *t, of_channels)?;
            write_letter(f, ", U: ", *u)
        }
        Overload::WithThree(_, _, t, u, v) => {
            write_t(f, *t, of_channels)?;
            write_letter(f, ", U: ", *u)?;
            write_letter(f, ", V: ", *v)
        }
        Overload::WithFour(_, _, t, u, v, w) => {
            write_t(f, *t, of_channels)?;
            write_letter(f, ", U: ", *u)?;
            write_letter(f, ", V: ", *v)?;
            write_letter(f, ", W: ", *w)
        }
    }
}

fn write_t<W: Write>(f: &mut fmt::Formatter<W>, kind: Kind, of_channels: bool) -> fmt::Result
    ensures { WritesOnOk W.write_str_gives f.old result (t_text of_channels kind) f.new }
{
    if of_channels {
        f.write_str(", T: channel type of F")
    } else {
        write_letter(f, ", T: ", kind)
    }
}

fn write_letter<W: Write>(f: &mut fmt::Formatter<W>, letter: &str, kind: Kind) -> fmt::Result
    ensures { WritesOnOk W.write_str_gives f.old result (letter.now ++ kind_written kind) f.new }
{
    f.write_str(letter)?;
    f.write_str(kind_text(kind))
}

fn kind_text(kind: Kind) -> &'static str
    ensures { result.now ≡ kind_written kind }
{
    match kind {
        Kind::AnyScalar => "scalar",
        Kind::Number => "number",
        Kind::SignedNumber => "signed number",
        Kind::Integer => "integer",
        Kind::SignedInteger => "signed integer",
        Kind::Float => "float",
        Kind::ConcreteScalar => "concrete scalar",
        Kind::ConcreteNumber => "concrete number",
        Kind::ConcreteInteger => "concrete integer",
        Kind::ConcreteFloat => "concrete float",
        Kind::Number32 => "i32 or u32 or f32",
        Kind::ShortFloat => "AbstractFloat or f32 or f16",
    }
}

fn is_storage(resource: Option<Resource>) -> bool
    ensures { result ≡ storage_there resource }
{
    matches!(
        resource,
        Some(
            Resource::TextureStorage1D(_)
                | Resource::TextureStorage2D(_)
                | Resource::TextureStorage2DArray(_)
                | Resource::TextureStorage3D(_)
        )
    )
}

/// What the letters A, E and S stand for.
fn other_letters(resource: Option<Resource>) -> &'static str
    ensures { result.now ≡ others_text resource }
{
    match resource {
        Some(
            Resource::TextureStorage1D(usage)
            | Resource::TextureStorage2D(usage)
            | Resource::TextureStorage2DArray(usage)
            | Resource::TextureStorage3D(usage),
        ) => access_modes(usage),
        Some(Resource::AtomicPointer) => ", S: workgroup or storage",
        Some(Resource::WorkgroupPointer) => ", E: concrete constructible type",
        Some(Resource::ArrayPointer) => ", E: type, A: read or read_write",
        _ => "",
    }
}

fn access_modes(usage: Usage) -> &'static str
    ensures { result.now ≡ usage_text usage }
{
    match usage {
        Usage::Reads => ", A: read or read_write",
        Usage::Writes => ", A: write or read_write",
        Usage::Asks => ", A: read or write or read_write",
    }
}
