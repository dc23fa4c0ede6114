// Why a call has no overload, one note per overload.
ghost use Rattle.std.specs.Prelude.{◌≡◌, ◌∷◌, ◌++◌, All, IfOk, List, codes, map, option_map};
ghost use Rattle.std.specs.Fmt.{WritesOnOk};
ghost use Rattle.std.specs.List.{prefix_len};
ghost use Rattle.wgsl_syntax.specs.declared.overload.Overload.{Overload};
ghost use Rattle.wgsl_rules.specs.types.Spelling.{wgsl_spelling};
ghost use Rattle.wgsl_rules.specs.standard.Choice.{value_of};
ghost use Rattle.wgsl_core.specs.View.{view};
ghost use Rattle.wgsl_standard.specs.Operands.{given_type, operands_view};
ghost use Rattle.wgsl_standard.specs.Callees.{overloads_of};
ghost use Rattle.wgsl_standard.specs.Explained.{or_none, note_view, AreNotes, IsExplained};
ghost use Rattle.wgsl_standard.specs.Lines.{NoteStandsAtIndex};
ghost use Rattle.wgsl_standard.specs.Mismatches.{is_nearer};
ghost use Rattle.wgsl_standard.specs.Texts.{begins_with_vector as vector_first, count_text, counts_text, is_vector as vector_there, line_with, note_line, note_text, operand_text, reason_text, type_refused, types_given};
ghost use Rattle.wgsl_standard.specs.internal.FirstLines.{HasFirstLine};

use crate::answer::{is_template, operands_with};
use crate::callee::{Callee, listed_overloads};
use crate::lines::{lines_before, lines_of};
use crate::operand::{Operand, OperandType, loaded};
use crate::refusal::{Mismatch, refused_by};
use crate::signature::Signature;
use std::alloc::{AllocError, Global};
use std::fmt;
use std::fmt::Write;
use wgsl_core::ty::Type;
use wgsl_core::ty::form::Form;
use wgsl_syntax::overload::Dimensions;

/// Why an overload doesn't take the operands. It prints as `dot(vecN<T>, vecN<T>) -> T, T: number: argument 2 is f32`.
#[derive(Clone, Copy)]
pub struct Note<'a> {
    /// Its index is that of the overload's first line.
    pub signature: Signature<'a>,
    pub mismatch: Mismatch,
    /// The number of operands, the template among them.
    pub count: usize,
    /// The type of the operand that isn't taken.
    pub found: Option<OperandType<'a>>,
}

/// A note for each overload that doesn't take the operands. The nearest come first: those with the fewest arguments too many
/// or missing, then those that take the most before one that doesn't fit, then in the order of the overloads. There is none
/// if the name isn't listed, or if the template is abstract or a reference.
pub fn explain<'a>(
    alloc: Global,
    callee: Callee<'a>,
    template: Option<&'a Type>,
    operands: &[Operand<'a>],
) -> Result<Vec<Note<'a>>, AllocError>
    ensures notes { IfOk result (λ v. IsExplained callee.entry (option_map (λ t. view t.now) template.entry)
        (operands_view operands.now) (map note_view v.items)) }
    ensures texts { IfOk result (λ v. map note_text v.items
        ≡ map (note_line callee.entry (option_map (λ t. view t.now) template.entry) (types_given operands.now)) (map note_view v.items)) }
    ensures indices { IfOk result (λ v. All NoteStandsAtIndex v.items) }
{
    match template {
        Some(template) => {
            if !is_template(template) {
                return Ok(Vec::new(alloc));
            }
            let all = operands_with(alloc, template, operands)?;
            notes(alloc, callee, true, &all)
        }
        None => notes(alloc, callee, false, operands),
    }
}

fn notes<'a>(
    alloc: Global,
    callee: Callee<'a>,
    has_template: bool,
    operands: &[Operand<'a>],
) -> Result<Vec<Note<'a>>, AllocError>
    ensures notes { IfOk result (λ v. AreNotes (operands_view operands.now)
        (or_none (overloads_of callee.entry has_template)) (map note_view v.items)) }
    ensures texts { IfOk result (λ v. map note_text v.items
        ≡ map (line_with callee.entry has_template (types_given operands.now)) (map note_view v.items)) }
    ensures indices { IfOk result (λ v. All NoteStandsAtIndex v.items) }
{
    let listed = listed_overloads(callee, has_template);
    let of_vectors = begins_with_vector(operands);
    let mut line = lines_before(callee, has_template, listed);
    let mut notes = Vec::new(alloc);
    for index in (0..listed.len()).rev() {
        let overload = &listed[index];
        line -= lines_of(overload);
        let signature = Signature {
            callee,
            index: line,
            overload,
            has_template,
            of_vectors,
        };
        put_note(&mut notes, signature, operands)?;
    }
    Ok(notes)
}

/// Puts a note on an overload, if it doesn't take the operands, among those on the overloads behind it.
fn put_note<'a>(
    notes: &mut Vec<Note<'a>>,
    signature: Signature<'a>,
    operands: &[Operand<'a>],
) -> Result<(), AllocError>
    requires { signature.of_vectors ≡ vector_first (types_given operands.now) }
    ensures note { IfOk result (λ u. (os : List Overload) → AreNotes (operands_view operands.now) os (map note_view notes.old.items)
        → AreNotes (operands_view operands.now) (signature.entry.overload.now ∷ os) (map note_view notes.new.items)) }
    ensures text { IfOk result (λ u. (map note_text notes.old.items
        ≡ map (line_with signature.entry.callee signature.entry.has_template (types_given operands.now)) (map note_view notes.old.items))
        → map note_text notes.new.items
        ≡ map (line_with signature.entry.callee signature.entry.has_template (types_given operands.now)) (map note_view notes.new.items)) }
    ensures index { IfOk result (λ u. HasFirstLine signature.entry
        → All NoteStandsAtIndex notes.old.items → All NoteStandsAtIndex notes.new.items) }
{
    if let Some(mismatch) = refused_by(signature.overload, operands) {
        let index = nearer(notes, mismatch, operands.len());
        notes.insert(index, note_of(signature, mismatch, operands))?;
    }
    Ok(())
}

/// How many of the first notes are nearer than one with this reason.
fn nearer(notes: &[Note<'_>], mismatch: Mismatch, given: usize) -> usize
    ensures { result ≡ prefix_len (λ n. is_nearer given n.mismatch mismatch) notes.now }
{
    notes
        .iter()
        .take_while(|note| note.mismatch.is_nearer(mismatch, given))
        .count()
}

fn note_of<'a>(signature: Signature<'a>, mismatch: Mismatch, operands: &[Operand<'a>]) -> Note<'a>
    requires { signature.of_vectors ≡ vector_first (types_given operands.now) }
    ensures note { note_view result ≡ (signature.entry.overload.now, mismatch) }
    ensures text { note_text result
        ≡ line_with signature.entry.callee signature.entry.has_template (types_given operands.now) (note_view result) }
    ensures index { HasFirstLine signature.entry → NoteStandsAtIndex result }
{
    Note {
        signature,
        mismatch,
        count: operands.len(),
        found: found(mismatch, operands),
    }
}

fn begins_with_vector(operands: &[Operand<'_>]) -> bool
    ensures { result ≡ vector_first (types_given operands.now) }
{
    match operands {
        [operand, ..] => is_vector(operand.ty),
        [] => false,
    }
}

fn is_vector(ty: OperandType<'_>) -> bool
    ensures { result ≡ vector_there (value_of (given_type ty.entry)) }
{
    match ty {
        OperandType::Value(dimensions, _) => matches!(dimensions, Dimensions::Vector(_)),
        OperandType::Any(ty) => is_vector_type(loaded(ty)),
    }
}

fn is_vector_type(ty: &Type) -> bool
    ensures { result ≡ vector_there (view ty.now) }
{
    matches!(ty.form(), Form::Vector(_, _))
}

fn found<'a>(mismatch: Mismatch, operands: &[Operand<'a>]) -> Option<OperandType<'a>>
    ensures { option_map given_type result ≡ type_refused mismatch (types_given operands.now) }
{
    match mismatch {
        Mismatch::Count(_) => None,
        Mismatch::Argument(index) => match operands.get(index) {
            Some(operand) => Some(operand.ty.loaded()),
            None => None,
        },
    }
}

impl fmt::Display for Note<'_> {
    ghost use Rattle.std.specs.Prelude.{Some};
    ghost use Rattle.wgsl_standard.specs.Texts.{note_text};

    ghost output = { λ n. Some (note_text n) };

    fn fmt<W: Write>(&self, f: &mut fmt::Formatter<W>) -> fmt::Result {
        write!(f, "{}: ", self.signature)?;
        write_reason(
            f,
            self.signature.has_template,
            self.count,
            self.found,
            self.mismatch,
        )
    }
}

fn write_reason<W: Write>(
    f: &mut fmt::Formatter<W>,
    has_template: bool,
    count: usize,
    found: Option<OperandType<'_>>,
    mismatch: Mismatch,
) -> fmt::Result
    ensures { WritesOnOk W.write_str_gives f.old result
        (reason_text has_template count (option_map given_type found.entry) mismatch) f.new }
{
    match mismatch {
        Mismatch::Count(expected) => write_counts(f, has_template, expected, count),
        Mismatch::Argument(index) => match found {
            Some(ty) => write_argument(f, has_template, index, ty),
            None => Ok(()),
        },
    }
}

/// The numbers of parameters and of operands, without the template.
fn write_counts<W: Write>(
    f: &mut fmt::Formatter<W>,
    has_template: bool,
    expected: usize,
    count: usize,
) -> fmt::Result
    ensures { WritesOnOk W.write_str_gives f.old result (counts_text has_template expected count) f.new }
{
    if has_template {
        write_count(f, expected.saturating_sub(1), count.saturating_sub(1))
    } else {
        write_count(f, expected, count)
    }
}

fn write_count<W: Write>(f: &mut fmt::Formatter<W>, expected: usize, count: usize) -> fmt::Result
    ensures { WritesOnOk W.write_str_gives f.old result (count_text expected count) f.new }
{
    if expected == 1 {
        write!(f, "takes {expected} argument, not {count}")
    } else {
        write!(f, "takes {expected} arguments, not {count}")
    }
}

fn write_argument<W: Write>(
    f: &mut fmt::Formatter<W>,
    has_template: bool,
    index: usize,
    ty: OperandType<'_>,
) -> fmt::Result
    ensures { WritesOnOk W.write_str_gives f.old result
        (operand_text has_template index ++ codes " is " ++ wgsl_spelling (given_type ty.entry)) f.new }
{
    if !has_template {
        let number = index.saturating_add(1);
        return write!(f, "argument {number} is {ty}");
    }
    if index == 0 {
        write!(f, "the template is {ty}")
    } else {
        write!(f, "argument {index} is {ty}")
    }
}
