// The parameters and results of overloads, as WGSL writes them.
ghost use Rattle.std.specs.Prelude.{◌≡◌, ◌++◌, codes, drop, length, slice_get, true};
ghost use Rattle.std.specs.Fmt.{WritesOnOk};
ghost use Rattle.std.specs.List.{flat_map, list_any};
ghost use Rattle.std.specs.Option.{option_to_list};
ghost use Rattle.wgsl_rules.specs.standard.Overloads.{in_order};
ghost use Rattle.wgsl_standard.specs.internal.Listed.{AreListed};
ghost use Rattle.wgsl_rules.specs.standard.Signatures.{after_comma, component_text, count_text, is_scalar_or_vector, parameters_text, pattern_text, patterns_text, resource_text as resource_written, result_text, template_text, value_text, vector_text};

use std::fmt;
use std::fmt::Write;
use wgsl_syntax::overload::{Component, Count, Parameters, Pattern, Resource, Returns, Shape};
use wgsl_syntax::result_struct::{ResultFunction, ResultShape};

/// The number of parameters.
pub fn parameter_count(parameters: &Parameters) -> usize
    ensures { result ≡ length (in_order parameters.now) }
{
    match parameters {
        Parameters::Nothing => 0,
        Parameters::One(_) => 1,
        Parameters::Two(_, _) => 2,
        Parameters::Three(_, _, _) => 3,
        Parameters::Four(_, _, _, _) => 4,
        Parameters::Five(_, _, _, _, _) => 5,
        Parameters::Six(_, _, _, _, _, _) => 6,
        Parameters::Seven(_, _, _, _, _, _, _) => 7,
        Parameters::Times(count, _) => *count as usize,
        Parameters::AndTimes(_, count, _) => *count as usize + 1,
    }
}

/// The parameter at an index, if there is one.
pub fn pattern_at(parameters: &Parameters, index: usize) -> Option<Pattern>
    ensures { result ≡ slice_get (in_order parameters.now) index }
{
    if index < parameter_count(parameters) {
        Some(*patterns_of(parameters)[index.min(6)])
    } else {
        None
    }
}

/// The first seven parameters. All after the seventh are as the seventh, so the parameter at an index above 6 is that
/// at 6.
pub fn patterns_of(parameters: &Parameters) -> [&Pattern; 7]
    ensures { AreListed (in_order parameters.now) result }
{
    match parameters {
        Parameters::Nothing => [&Pattern::Value(Shape::One, Component::T); 7],
        Parameters::One(a) => [a; 7],
        Parameters::Two(a, b) => [a, b, b, b, b, b, b],
        Parameters::Three(a, b, c) => [a, b, c, c, c, c, c],
        Parameters::Four(a, b, c, d) => [a, b, c, d, d, d, d],
        Parameters::Five(a, b, c, d, e) => [a, b, c, d, e, e, e],
        Parameters::Six(a, b, c, d, e, f) => [a, b, c, d, e, f, f],
        Parameters::Seven(a, b, c, d, e, f, g) => [a, b, c, d, e, f, g],
        Parameters::Times(_, a) => [a; 7],
        Parameters::AndTimes(a, _, b) => [a, b, b, b, b, b, b],
    }
}

/// Whether a parameter is a scalar or a vector.
pub fn takes_either(parameters: &Parameters) -> bool
    ensures { result ≡ list_any is_scalar_or_vector (in_order parameters.now) }
{
    for index in 0..parameter_count(parameters) {
        if is_either(pattern_at(parameters, index)) {
            return true;
        }
    }
    false
}

fn is_either(pattern: Option<Pattern>) -> bool
    ensures { result ≡ list_any is_scalar_or_vector (option_to_list pattern) }
{
    match pattern {
        Some(Pattern::Value(shape, _)) => matches!(shape, Shape::OneOrVector),
        Some(Pattern::Sampler(_) | Pattern::Texture(_) | Pattern::Resource(_)) | None => false,
    }
}

/// The parameters, after the template if the first parameter is one.
pub fn write_parameters<W: Write>(
    f: &mut fmt::Formatter<W>,
    parameters: &Parameters,
    has_template: bool,
    of_vectors: bool,
) -> fmt::Result
    ensures { WritesOnOk W.write_str_gives f.old result
        (parameters_text has_template of_vectors (in_order parameters.now)) f.new }
{
    if has_template {
        write_template(f, pattern_at(parameters, 0), of_vectors)?;
        write_from(f, parameters, 1, of_vectors)
    } else {
        write_from(f, parameters, 0, of_vectors)
    }
}

fn write_template<W: Write>(
    f: &mut fmt::Formatter<W>,
    template: Option<Pattern>,
    of_vectors: bool,
) -> fmt::Result
    ensures { WritesOnOk W.write_str_gives f.old result
        (template_text true of_vectors (option_to_list template)) f.new }
{
    match template {
        Some(template) => {
            f.write_str("<")?;
            write_pattern(f, template, of_vectors)?;
            f.write_str(">")
        }
        None => Ok(()),
    }
}

/// The parameters from an index on, in parentheses.
fn write_from<W: Write>(
    f: &mut fmt::Formatter<W>,
    parameters: &Parameters,
    first: u8,
    of_vectors: bool,
) -> fmt::Result
    ensures { WritesOnOk W.write_str_gives f.old result
        (codes "(" ++ patterns_text of_vectors (drop first (in_order parameters.now)) ++ codes ")") f.new }
{
    f.write_str("(")?;
    write_list(f, parameters, first, of_vectors)?;
    f.write_str(")")
}

fn write_list<W: Write>(
    f: &mut fmt::Formatter<W>,
    parameters: &Parameters,
    first: u8,
    of_vectors: bool,
) -> fmt::Result
    ensures { WritesOnOk W.write_str_gives f.old result
        (patterns_text of_vectors (drop first (in_order parameters.now))) f.new }
{
    match pattern_at(parameters, first as usize) {
        Some(pattern) => {
            write_pattern(f, pattern, of_vectors)?;
            write_after(f, parameters, first as usize + 1, of_vectors)
        }
        None => Ok(()),
    }
}

/// The parameters from an index on, each after a comma.
fn write_after<W: Write>(
    f: &mut fmt::Formatter<W>,
    parameters: &Parameters,
    first: usize,
    of_vectors: bool,
) -> fmt::Result
    ensures { WritesOnOk W.write_str_gives f.old result
        (flat_map (after_comma of_vectors) (drop first (in_order parameters.now))) f.new }
{
    for index in first..parameter_count(parameters) {
        write_next(f, pattern_at(parameters, index), of_vectors)?;
    }
    Ok(())
}

fn write_next<W: Write>(
    f: &mut fmt::Formatter<W>,
    pattern: Option<Pattern>,
    of_vectors: bool,
) -> fmt::Result
    ensures { WritesOnOk W.write_str_gives f.old result
        (flat_map (after_comma of_vectors) (option_to_list pattern)) f.new }
{
    match pattern {
        Some(pattern) => {
            f.write_str(", ")?;
            write_pattern(f, pattern, of_vectors)
        }
        None => Ok(()),
    }
}

/// Writes a parameter, as one of scalars or of vectors.
pub fn write_pattern<W: Write>(
    f: &mut fmt::Formatter<W>,
    pattern: Pattern,
    of_vectors: bool,
) -> fmt::Result
    ensures { WritesOnOk W.write_str_gives f.old result (pattern_text of_vectors pattern) f.new }
{
    match pattern {
        Pattern::Value(shape, component) => write_value(f, shape, component, of_vectors),
        Pattern::Sampler(sampler) => write!(f, "{sampler}"),
        Pattern::Texture(texture) => write!(f, "{texture}"),
        Pattern::Resource(resource) => f.write_str(resource_text(resource)),
    }
}

fn write_value<W: Write>(
    f: &mut fmt::Formatter<W>,
    shape: Shape,
    component: Component,
    of_vectors: bool,
) -> fmt::Result
    ensures { WritesOnOk W.write_str_gives f.old result (value_text of_vectors shape component) f.new }
{
    match shape {
        Shape::One => write_component(f, component),
        Shape::Vector(count) => write_vector(f, count, component),
        Shape::Matrix(columns, rows) => {
            f.write_str("mat")?;
            write_count(f, columns)?;
            f.write_str("x")?;
            write_count(f, rows)?;
            write_within(f, component)
        }
        Shape::OneOrVector => {
            if of_vectors {
                write_vector(f, Count::N, component)
            } else {
                write_component(f, component)
            }
        }
    }
}

fn write_vector<W: Write>(
    f: &mut fmt::Formatter<W>,
    count: Count,
    component: Component,
) -> fmt::Result
    ensures { WritesOnOk W.write_str_gives f.old result (vector_text count component) f.new }
{
    f.write_str("vec")?;
    write_count(f, count)?;
    write_within(f, component)
}

fn write_within<W: Write>(f: &mut fmt::Formatter<W>, component: Component) -> fmt::Result
    ensures { WritesOnOk W.write_str_gives f.old result (codes "<" ++ component_text component ++ codes ">") f.new }
{
    f.write_str("<")?;
    write_component(f, component)?;
    f.write_str(">")
}

fn write_component<W: Write>(f: &mut fmt::Formatter<W>, component: Component) -> fmt::Result
    ensures { WritesOnOk W.write_str_gives f.old result (component_text component) f.new }
{
    match component {
        Component::T => f.write_str("T"),
        Component::U => f.write_str("U"),
        Component::V => f.write_str("V"),
        Component::W => f.write_str("W"),
        Component::The(scalar) => write!(f, "{scalar}"),
    }
}

fn write_count<W: Write>(f: &mut fmt::Formatter<W>, count: Count) -> fmt::Result
    ensures { WritesOnOk W.write_str_gives f.old result (count_text count) f.new }
{
    match count {
        Count::N => f.write_str("N"),
        Count::M => f.write_str("M"),
        Count::K => f.write_str("K"),
        Count::Exactly(n) => write!(f, "{n}"),
    }
}

fn resource_text(resource: Resource) -> &'static str
    ensures { result.now ≡ resource_written resource }
{
    match resource {
        Resource::Texture1D => "texture_1d<T>",
        Resource::Texture2D => "texture_2d<T>",
        Resource::Texture2DArray => "texture_2d_array<T>",
        Resource::Texture3D => "texture_3d<T>",
        Resource::TextureCube => "texture_cube<T>",
        Resource::TextureCubeArray => "texture_cube_array<T>",
        Resource::TextureMultisampled2D => "texture_multisampled_2d<T>",
        Resource::TextureStorage1D(_) => "texture_storage_1d<F, A>",
        Resource::TextureStorage2D(_) => "texture_storage_2d<F, A>",
        Resource::TextureStorage2DArray(_) => "texture_storage_2d_array<F, A>",
        Resource::TextureStorage3D(_) => "texture_storage_3d<F, A>",
        Resource::AtomicPointer => "ptr<S, atomic<T>, read_write>",
        Resource::WorkgroupAtomicPointer => "ptr<workgroup, atomic<T>, read_write>",
        Resource::WorkgroupPointer => "ptr<workgroup, E, read_write>",
        Resource::ArrayPointer => "ptr<storage, array<E>, A>",
    }
}

/// An arrow and the result, if there is one.
pub fn write_returns<W: Write>(
    f: &mut fmt::Formatter<W>,
    returns: Returns,
    of_vectors: bool,
) -> fmt::Result
    ensures { WritesOnOk W.write_str_gives f.old result (result_text of_vectors returns) f.new }
{
    match returns {
        Returns::NoValue => Ok(()),
        Returns::Gives(pattern) => {
            f.write_str(" -> ")?;
            write_pattern(f, pattern, of_vectors)
        }
        Returns::GivesStruct(function, shape) => {
            f.write_str(match function {
                ResultFunction::Frexp => " -> __frexp_result_",
                ResultFunction::Modf => " -> __modf_result_",
            })?;
            f.write_str(match shape {
                ResultShape::Scalar => "T",
                ResultShape::Vec2 => "vec2_T",
                ResultShape::Vec3 => "vec3_T",
                ResultShape::Vec4 => "vec4_T",
            })
        }
        Returns::GivesExchange => f.write_str(" -> __atomic_compare_exchange_result<T>"),
        Returns::GivesPointee => f.write_str(" -> E"),
    }
}
