// The structs that `frexp` and `modf` return, by name.

/// The function that returns a result struct.
#[derive(Clone, Copy, PartialEq, Eq)]
pub enum ResultFunction {
    Frexp,
    Modf,
}

/// The shape of the function's argument: a scalar, or a vector of two to four components.
#[derive(Clone, Copy, PartialEq, Eq)]
pub enum ResultShape {
    Scalar,
    Vec2,
    Vec3,
    Vec4,
}

/// The float type of the function's argument.
#[derive(Clone, Copy, PartialEq, Eq)]
pub enum ResultPrecision {
    /// `__modf_result_vec4_abstract`
    Abstract,
    /// `__modf_result_vec4_f32`
    F32,
    /// `__modf_result_vec4_f16`
    F16,
}

/// One of the 24 structs that `frexp` and `modf` return (WGSL, "frexp" and "modf").
#[derive(Clone, Copy, PartialEq, Eq)]
pub struct ResultStruct {
    pub function: ResultFunction,
    pub shape: ResultShape,
    pub precision: ResultPrecision,
}

impl ResultStruct {
    ghost use Rattle.std.specs.Prelude.{◌≡◌};
    ghost use Rattle.wgsl_syntax.specs.ResultStruct.{result_name};

    /// The name of the struct, for example `__modf_result_vec2_f32`.
    pub fn name(self) -> &'static str
        ensures { result.now ≡ result_name self }
    {
        match self.function {
            ResultFunction::Frexp => match self.shape {
                ResultShape::Scalar => match self.precision {
                    ResultPrecision::Abstract => "__frexp_result_abstract",
                    ResultPrecision::F32 => "__frexp_result_f32",
                    ResultPrecision::F16 => "__frexp_result_f16",
                },
                ResultShape::Vec2 => match self.precision {
                    ResultPrecision::Abstract => "__frexp_result_vec2_abstract",
                    ResultPrecision::F32 => "__frexp_result_vec2_f32",
                    ResultPrecision::F16 => "__frexp_result_vec2_f16",
                },
                ResultShape::Vec3 => match self.precision {
                    ResultPrecision::Abstract => "__frexp_result_vec3_abstract",
                    ResultPrecision::F32 => "__frexp_result_vec3_f32",
                    ResultPrecision::F16 => "__frexp_result_vec3_f16",
                },
                ResultShape::Vec4 => match self.precision {
                    ResultPrecision::Abstract => "__frexp_result_vec4_abstract",
                    ResultPrecision::F32 => "__frexp_result_vec4_f32",
                    ResultPrecision::F16 => "__frexp_result_vec4_f16",
                },
            },
            ResultFunction::Modf => match self.shape {
                ResultShape::Scalar => match self.precision {
                    ResultPrecision::Abstract => "__modf_result_abstract",
                    ResultPrecision::F32 => "__modf_result_f32",
                    ResultPrecision::F16 => "__modf_result_f16",
                },
                ResultShape::Vec2 => match self.precision {
                    ResultPrecision::Abstract => "__modf_result_vec2_abstract",
                    ResultPrecision::F32 => "__modf_result_vec2_f32",
                    ResultPrecision::F16 => "__modf_result_vec2_f16",
                },
                ResultShape::Vec3 => match self.precision {
                    ResultPrecision::Abstract => "__modf_result_vec3_abstract",
                    ResultPrecision::F32 => "__modf_result_vec3_f32",
                    ResultPrecision::F16 => "__modf_result_vec3_f16",
                },
                ResultShape::Vec4 => match self.precision {
                    ResultPrecision::Abstract => "__modf_result_vec4_abstract",
                    ResultPrecision::F32 => "__modf_result_vec4_f32",
                    ResultPrecision::F16 => "__modf_result_vec4_f16",
                },
            },
        }
    }
}
