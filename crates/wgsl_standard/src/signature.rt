// Prints overloads as WGSL writes them, one per line. An overload that takes scalars or vectors has two lines.
ghost use Rattle.std.specs.Prelude.{◌≡◌, ◌<◌, ◌++◌, ◌^◌, All, IfOk, false, map};
ghost use Rattle.std.specs.Fmt.{WritesOnOk};
ghost use Rattle.wgsl_rules.specs.standard.Signatures.{overload_lines};
ghost use Rattle.wgsl_standard.specs.Lines.{StandsAtIndex};
ghost use Rattle.wgsl_standard.specs.Texts.{callee_text, line_of, lines_with, overload_texts};
ghost use Rattle.wgsl_standard.specs.internal.FirstLines.{HasFirstLine};

use crate::callee::{Callee, listed_overloads};
use crate::lines::{lines_before, lines_of};
use crate::overload::{parameters_of, result_of};
use crate::where_clause::{resource_of, write_letters};
use crate::written::{takes_either, write_parameters, write_returns};
use std::alloc::{AllocError, Global};
use std::fmt;
use std::fmt::Write;
use wgsl_syntax::overload::Overload;

/// An overload of a name, for scalars or for vectors. It prints as `clamp(vecN<T>, vecN<T>, vecN<T>) -> vecN<T>, T: number`.
#[derive(Clone, Copy)]
pub struct Signature<'a> {
    pub callee: Callee<'a>,
    /// The index of its line among the signatures of all that has its name: the unary operator, the binary one, the built-in
    /// function, the constructor.
    pub index: usize,
    pub overload: &'static Overload,
    /// Whether its first parameter is a template.
    pub has_template: bool,
    /// Whether it is the one for vectors, if the overload takes scalars or vectors.
    pub of_vectors: bool,
}

/// The signatures of what is called, those without a template first; none if the name isn't listed.
pub fn signatures<'a>(alloc: Global, callee: Callee<'a>) -> Result<Vec<Signature<'a>>, AllocError>
    ensures texts { IfOk result (λ v. map line_of v.items ≡ overload_texts callee.entry) }
    ensures indices { IfOk result (λ v. All StandsAtIndex v.items) }
{
    let mut signatures = Vec::new(alloc);
    push_signatures(&mut signatures, callee, false)?;
    push_signatures(&mut signatures, callee, true)?;
    Ok(signatures)
}

fn push_signatures<'a>(
    signatures: &mut Vec<Signature<'a>>,
    callee: Callee<'a>,
    has_template: bool,
) -> Result<(), AllocError>
    ensures texts { IfOk result (λ u. map line_of signatures.new.items
        ≡ map line_of signatures.old.items ++ lines_with callee.entry has_template) }
    ensures indices { IfOk result (λ u. All StandsAtIndex signatures.old.items → All StandsAtIndex signatures.new.items) }
{
    let listed = listed_overloads(callee, has_template);
    let mut line = lines_before(callee, has_template, &[]);
    for overload in listed {
        let signature = Signature {
            callee,
            index: line,
            overload,
            has_template,
            of_vectors: false,
        };
        push_signature(signatures, signature)?;
        line += lines_of(overload);
    }
    Ok(())
}

/// Adds the signature of an overload, or those for scalars and for vectors.
fn push_signature<'a>(
    signatures: &mut Vec<Signature<'a>>,
    signature: Signature<'a>,
) -> Result<(), AllocError>
    requires scalars { signature.of_vectors ≡ false }
    requires few { signature.index < 2 ^ 12 }
    ensures texts { IfOk result (λ u. map line_of signatures.new.items
        ≡ map line_of signatures.old.items ++ overload_lines (callee_text signature.entry.callee)
        signature.entry.has_template signature.entry.overload.now) }
    ensures indices { IfOk result (λ u. HasFirstLine signature.entry
        → All StandsAtIndex signatures.old.items → All StandsAtIndex signatures.new.items) }
{
    signatures.push(signature)?;
    if takes_either(parameters_of(signature.overload)) {
        signatures.push(Signature {
            index: signature.index + 1,
            of_vectors: true,
            ..signature
        })?;
    }
    Ok(())
}

impl fmt::Display for Signature<'_> {
    ghost use Rattle.std.specs.Prelude.{Some};
    ghost use Rattle.wgsl_standard.specs.Texts.{line_of};

    ghost output = { λ s. Some (line_of s) };

    fn fmt<W: Write>(&self, f: &mut fmt::Formatter<W>) -> fmt::Result {
        write_callee(f, self.callee)?;
        let parameters = parameters_of(self.overload);
        write_parameters(f, parameters, self.has_template, self.of_vectors)?;
        write_returns(f, *result_of(self.overload), self.of_vectors)?;
        write_letters(f, self.overload, resource_of(parameters))
    }
}

fn write_callee<W: Write>(f: &mut fmt::Formatter<W>, callee: Callee<'_>) -> fmt::Result
    ensures { WritesOnOk W.write_str_gives f.old result (callee_text callee.entry) f.new }
{
    match callee {
        Callee::Unary(operator) => write!(f, "{operator}"),
        Callee::Binary(operator) => write!(f, "{operator}"),
        Callee::Function(name) => f.write_str(name),
        Callee::Constructor(name) => f.write_str(name),
    }
}
