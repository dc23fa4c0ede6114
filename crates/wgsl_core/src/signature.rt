// Template parameters, the signatures of calls, and the stages of a shader.
mod clone;
pub(crate) mod eq;

use crate::literal::Instance;
use crate::ty::Type;
use std::fmt;
use std::fmt::Write;
use wgsl_syntax::enumerant::Enumerant;

/// A template parameter (WGSL, "Template Lists").
#[derive(Debug, Drop)]
pub enum TpltParam {
    /// A type.
    Ty(Type),
    /// A value.
    Instance(Instance),
    /// An enumerant.
    Enumerant(Enumerant),
}

/// A call (WGSL, "Function Calls"): its name, its template parameters if it has a template, and the types of its
/// arguments.
#[derive(Debug, Drop)]
pub struct CallSignature {
    /// The name of what is called.
    pub name: String,
    /// The template's parameters, if the call has a template.
    pub tplt: Option<Vec<TpltParam>>,
    /// The types of the arguments.
    pub args: Vec<Type>,
}

/// When an expression is evaluated (WGSL, "Early Evaluation Expressions"): at shader creation, at pipeline creation, or
/// while the shader runs.
#[derive(Clone, Copy, PartialEq, Eq, Hash, Debug)]
pub enum ShaderStage {
    /// At shader creation.
    Const,
    /// At pipeline creation.
    Override,
    /// While the shader runs.
    Exec,
}

impl fmt::Display for TpltParam {
    ghost use Rattle.std.specs.Prelude.{Some};
    ghost use Rattle.wgsl_rules.specs.types.Signatures.{parameter_text};
    ghost use Rattle.wgsl_core.specs.Instances.{parameter_view};

    ghost output = { λ p. Some (parameter_text (parameter_view p)) };

    fn fmt<W: Write>(&self, f: &mut fmt::Formatter<W>) -> fmt::Result {
        match self {
            TpltParam::Ty(ty) => write!(f, "{ty}"),
            TpltParam::Instance(instance) => write!(f, "{instance}"),
            TpltParam::Enumerant(Enumerant::AccessMode(access)) => write!(f, "{access}"),
            TpltParam::Enumerant(Enumerant::AddressSpace(space)) => write!(f, "{space}"),
            TpltParam::Enumerant(Enumerant::TexelFormat(format)) => write!(f, "{format}"),
            TpltParam::Enumerant(Enumerant::AccelerationStructureFlags(flag)) => write!(
                f,
                "{flag}"
            ),
        }
    }
}

impl fmt::Display for CallSignature {
    ghost use Rattle.std.specs.Prelude.{Some};
    ghost use Rattle.wgsl_rules.specs.types.Signatures.{signature_text};
    ghost use Rattle.wgsl_core.specs.Instances.{signature_view};

    ghost output = { λ c. Some (signature_text (signature_view c)) };

    fn fmt<W: Write>(&self, f: &mut fmt::Formatter<W>) -> fmt::Result {
        match &self.tplt {
            None => write!(f, "{}({})", self.name, Arguments(&self.args)),
            Some(parameters) => write!(
                f,
                "{}<{}>({})",
                self.name,
                Parameters(parameters),
                Arguments(&self.args)
            ),
        }
    }
}

#[derive(Drop)]
struct Parameters<'a>(&'a Vec<TpltParam>);

impl<'a> fmt::Display for Parameters<'a> {
    ghost use Rattle.std.specs.Prelude.{Some};
    ghost use Rattle.wgsl_rules.specs.types.Signatures.{listed, parameter_text};
    ghost use Rattle.wgsl_core.specs.Instances.{parameter_view};

    ghost output = { λ ps. Some (listed (λ p. parameter_text (parameter_view p)) (ps.0.now).items) };

    fn fmt<W: Write>(&self, f: &mut fmt::Formatter<W>) -> fmt::Result {
        let Some((first, rest)) = self.0.split_first() else {
            return Ok(());
        };
        write!(f, "{first}")?;
        for parameter in rest {
            write!(f, ", {parameter}")?;
        }
        Ok(())
    }
}

#[derive(Drop)]
struct Arguments<'a>(&'a Vec<Type>);

impl<'a> fmt::Display for Arguments<'a> {
    ghost use Rattle.std.specs.Prelude.{Some};
    ghost use Rattle.wgsl_rules.specs.types.Signatures.{listed};
    ghost use Rattle.wgsl_rules.specs.types.Spelling.{spelling};
    ghost use Rattle.wgsl_core.specs.View.{view};

    ghost output = { λ ts. Some (listed (λ t. spelling (view t)) (ts.0.now).items) };

    fn fmt<W: Write>(&self, f: &mut fmt::Formatter<W>) -> fmt::Result {
        let Some((first, rest)) = self.0.split_first() else {
            return Ok(());
        };
        write!(f, "{first}")?;
        for ty in rest {
            write!(f, ", {ty}")?;
        }
        Ok(())
    }
}
