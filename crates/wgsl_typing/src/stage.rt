// When the value of an expression is known.
ghost use Rattle.std.specs.Prelude.{◌≡◌};
ghost use Rattle.wgsl_typing.specs.Stages.{is_const, is_early, later};

/// When the value of an expression is known (WGSL, "Early Evaluation Expressions").
#[derive(Clone, Copy, Debug)]
pub enum Stage {
    /// When the shader module is made.
    Const,
    /// When the pipeline is made.
    Override,
    /// When the shader runs.
    Runtime,
}

impl Stage {
    /// The later of two: what is made of parts is known when the last of them is.
    pub fn later(self, other: Stage) -> Stage
        ensures { result ≡ later self other }
    {
        match (self, other) {
            (Stage::Const, other) => other,
            (Stage::Override, Stage::Runtime) => Stage::Runtime,
            (Stage::Override, _) => Stage::Override,
            (Stage::Runtime, _) => Stage::Runtime,
        }
    }

    /// Whether it is known when the module is made.
    pub fn is_const(self) -> bool
        ensures { result ≡ is_const self }
    {
        matches!(self, Stage::Const)
    }

    /// Whether it is known before the shader runs.
    pub fn is_early(self) -> bool
        ensures { result ≡ is_early self }
    {
        !matches!(self, Stage::Runtime)
    }
}
