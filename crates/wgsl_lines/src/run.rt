// Lines in, answers out.
ghost use Rattle.std.specs.Prelude.{◌≡◌, ◌+◌, ◌-◌, ◌^◌, ◌++◌, ℕ, List, [], IfErr, IfOk, IfSome, IsOk, IsOkUnless, OnErr, OnOk, MatchResult, Option, min, string_bytes};
ghost use Rattle.std.specs.Io.KnownBytes.{Appends};
ghost use Rattle.wgsl_lines.specs.Output.{AnswersLine, HasPrinted, HasStopped, HasTaken, IsAtStart, IsBetween, Prints, PrintsFirst, PrintsUntil, StopsAfter, bad_line, reply_of_kind, status_of};
ghost use Rattle.wgsl_lines.specs.declared.run.RunError.TheVariants.{Memory};
ghost use Rattle.wgsl_replies.specs.Replies.{IsReplyToLine};

use crate::line::{Line, split_line};
use std::alloc::{AllocError, Global};
use std::io::{ErrorKind, Read, Write};
use wgsl_replies::request::{ReplyKind, TextKind, Why, has_place, write_reply, write_why};
use wgsl_syntax::rules::RuleSet;

/// Why a run stopped.
#[derive(Clone, Copy, Debug, PartialEq, Eq)]
pub enum RunError {
    /// A read failed, or the input did not end.
    Read,
    /// A write failed.
    Write,
    /// Out of memory.
    Memory,
}

impl From<AllocError> for RunError {
    ghost from_gives = { λ e error. error ≡ Memory };

    fn from(_e: AllocError) -> RunError {
        RunError::Memory
    }
}

/// How many bytes are read at a time.
const BLOCK: usize = 4096;

/// Answers each line of the input by a set of rules, and says whether every one was readable. Notes whether the rules refused
/// an expression.
///
/// The answers to a block that was read are written before the next read, and after them a note on each bad line of the
/// block. A note that can't be written is left out.
pub fn run<R: Read, W: Write, N: Write>(
    alloc: Global,
    rules: RuleSet,
    program: &'static str,
    input: &mut R,
    output: &mut W,
    notes: &mut N,
    has_refused: &mut bool,
) -> Result<bool, RunError>
    ensures printed { IfOk result (λ readable. IfSome (R.remaining input.old) (λ bytes.
        (text : List ℕ) × Prints rules bytes text readable
        × Appends (W.contents output.old) (W.contents output.new) text)) }
    ensures beginning { IfErr result (λ error. IfSome (R.remaining input.old) (λ bytes.
        (text : List ℕ) × PrintsUntil rules error bytes text × PrintsFirst rules bytes text
        × Appends (W.contents output.old) (W.contents output.new) text)) }
{
    let mut session = Session::new(alloc, program)?;
    let readable = session.answer_all(rules, input, output, notes);
    *has_refused = session.has_refused;
    drop(session);
    readable
}

/// The exit status of a run.
pub fn status(outcome: &Result<bool, RunError>) -> u8
    ensures { result ≡ status_of outcome.now }
{
    match outcome {
        Ok(true) => 0,
        Ok(false) => 2,
        Err(RunError::Read | RunError::Write) => 1,
        Err(RunError::Memory) => 3,
    }
}

/// What a run knows between two reads.
#[derive(Drop)]
struct Session {
    alloc: Global,
    /// The name of the program, with which a note begins.
    program: &'static str,
    line: Line,
    /// The answer to the current line.
    answer: String,
    answers: String,
    /// Why lines can't be read.
    notes: String,
    all_readable: bool,
    /// Whether the rules refused an expression.
    has_refused: bool,
}

impl Session {
    fn new(alloc: Global, program: &'static str) -> Result<Session, AllocError>
        ensures { IfOk result IsAtStart }
    {
        Ok(Session {
            alloc,
            program,
            line: Line::first(alloc)?,
            answer: String::new(alloc),
            answers: String::new(alloc),
            notes: String::new(alloc),
            all_readable: true,
            has_refused: false,
        })
    }

    fn answer_all<R: Read, W: Write, N: Write>(
        &mut self,
        rules: RuleSet,
        input: &mut R,
        output: &mut W,
        notes: &mut N,
    ) -> Result<bool, RunError>
        ensures { IsAtStart self.old → IfSome (R.remaining input.old) (λ bytes.
            MatchResult result
            (HasPrinted rules bytes (W.contents output.old) (W.contents output.new))
            (HasStopped rules bytes (W.contents output.old) (W.contents output.new))) }
    {
        let mut block = [0u8; BLOCK];
        for _ in 0..u64::MAX {
            match input.read(&mut block) {
                Ok(0) => return self.answer_last(rules, output, notes),
                Ok(count) => self.answer_block(rules, &block[..count], output, notes)?,
                Err(e) if e.kind() == ErrorKind::Interrupted => {}
                Err(_) => return Err(RunError::Read),
            }
        }
        Err(RunError::Read)
    }

    /// Answers the lines that end in a block that was read, and writes the answers and the notes.
    fn answer_block<W: Write, N: Write>(
        &mut self,
        rules: RuleSet,
        block: &[u8],
        output: &mut W,
        notes: &mut N,
    ) -> Result<(), RunError>
        ensures { (bytes : List ℕ) (start : Option (List ℕ))
            → IsBetween rules bytes start (W.contents output.old) self.old
            → MatchResult result
            (λ _. IsBetween rules (bytes ++ block.now) start (W.contents output.new) self.new)
            (λ error. (more : List ℕ)
            → HasStopped rules (bytes ++ block.now ++ more) start (W.contents output.new) error) }
    {
        let taken = self.take(rules, block);
        self.write_answers(output)?;
        write_notes(notes, &mut self.notes);
        Ok(taken?)
    }

    /// Answers the last line, writes the answer or the note, and says whether every line was readable.
    fn answer_last<W: Write, N: Write>(
        &mut self,
        rules: RuleSet,
        output: &mut W,
        notes: &mut N,
    ) -> Result<bool, RunError>
        ensures { (bytes : List ℕ) (start : Option (List ℕ))
            → IsBetween rules bytes start (W.contents output.old) self.old
            → MatchResult result
            (HasPrinted rules bytes start (W.contents output.new))
            (HasStopped rules bytes start (W.contents output.new)) }
    {
        let ended = self.end_line(rules, b"");
        self.write_answers(output)?;
        write_notes(notes, &mut self.notes);
        ended?;
        Ok(self.all_readable)
    }

    /// Takes the next bytes of the input, and gathers the answers to the lines that end in them.
    fn take(&mut self, rules: RuleSet, block: &[u8]) -> Result<(), AllocError>
        ensures taken { (bytes before : List ℕ) → HasTaken rules bytes before self.old
            → OnOk result (HasTaken rules (bytes ++ block.now) before self.new) }
        // Also if it runs out of memory.
        ensures so_far { (bytes before : List ℕ) → HasTaken rules bytes before self.old
            → StopsAfter rules RunError.Memory (bytes ++ block.now)
            (before ++ string_bytes self.new.answers) }
    {
        let mut rest = block;
        while let Some((end, after)) = split_line(rest) {
            self.end_line(rules, end)?;
            rest = after;
        }
        self.line.extend(rest);
        Ok(())
    }

    /// Answers the line that ends with these bytes, and goes on to the next.
    fn end_line(&mut self, rules: RuleSet, end: &[u8]) -> Result<(), AllocError>
        ensures empty { OnOk result (self.new.line.bytes.items ≡ []) }
        ensures number { OnOk result
            (self.new.line.number ≡ min (self.old.line.number + 1) (2 ^ 64 - 1)) }

        ensures answered { OnOk result
            (AnswersLine rules (self.old.line.bytes.items ++ end.now) self.old self.new) }

        // An answer is gathered whole or not at all.
        ensures err { OnErr result (string_bytes self.new.answers ≡ string_bytes self.old.answers) }
    {
        self.answer.clear();
        match write_reply_to(self.alloc, rules, &mut self.line, end, &mut self.answer)? {
            ReplyKind::Nothing => {}
            ReplyKind::Answer(kind) => {
                self.has_refused |= matches!(kind, TextKind::Refusal);
                self.answer.push('\n')?;
                self.answers.push_str(&self.answer)?;
            }
            ReplyKind::Unreadable(why) => {
                push_note(self.program, &self.line, end, why, &mut self.notes)?;
                let text = bad_line(self.alloc, self.line.number)?;
                self.answers.push_str(&text)?;
                self.all_readable = false;
            }
        }
        self.line.advance();
        Ok(())
    }

    /// Writes the answers that were gathered.
    fn write_answers<W: Write>(&mut self, output: &mut W) -> Result<(), RunError>
        ensures written { OnOk result
            (Appends (W.contents output.old) (W.contents output.new)
            (string_bytes self.old.answers)) }
        ensures empty { OnOk result (string_bytes self.new.answers ≡ []) }
        ensures line { self.new.line ≡ self.old.line }
        ensures all_readable { self.new.all_readable ≡ self.old.all_readable }
        ensures cut { OnErr result ((text : List ℕ) × (rest : List ℕ)
            × (string_bytes self.old.answers ≡ text ++ rest)
            × Appends (W.contents output.old) (W.contents output.new) text) }
        ensures err { IsOkUnless result RunError.Write }
        ensures nothing { string_bytes self.old.answers ≡ [] → IsOk result }
    {
        if self.answers.is_empty() {
            return Ok(());
        }
        write_whole(output, self.answers.as_bytes())?;
        output.flush().map_err(|_e| RunError::Write)?;
        self.answers.clear();
        Ok(())
    }
}

/// Writes all of the bytes, or a prefix of them if a write fails.
fn write_whole<W: Write>(output: &mut W, bytes: &[u8]) -> Result<(), RunError>
    ensures written { OnOk result
        (Appends (W.contents output.old) (W.contents output.new) bytes.now) }
    ensures cut { OnErr result ((text : List ℕ) × (rest : List ℕ) × (bytes.now ≡ text ++ rest)
        × Appends (W.contents output.old) (W.contents output.new) text) }
    ensures err { IsOkUnless result RunError.Write }
{
    let mut rest = bytes;
    for _ in 0..u64::MAX {
        if rest.is_empty() {
            return Ok(());
        }
        match output.write(rest) {
            Ok(0) => return Err(RunError::Write),
            Ok(count) => rest = &rest[count..],
            Err(e) if e.kind() == ErrorKind::Interrupted => {}
            Err(_) => return Err(RunError::Write),
        }
    }
    Err(RunError::Write)
}

/// Writes the notes that were gathered. Those that can't be written are left out.
fn write_notes<N: Write>(output: &mut N, notes: &mut String) {
    if !notes.is_empty() {
        let _written = write_whole(output, notes.as_bytes());
        notes.clear();
    }
}

/// Gathers a note on the line that ends with these bytes: why it can't be read.
fn push_note(
    program: &str,
    line: &Line,
    end: &[u8],
    why: Why,
    notes: &mut String,
) -> Result<(), AllocError> {
    let number = line.number;
    let before = if has_place(why) { "," } else { ":" };
    write!(notes, "{program}: line {number}{before} ")?;
    let bytes = if line.bytes.is_empty() {
        end
    } else {
        &line.bytes
    };
    write_why(bytes, why, notes)?;
    notes.push('\n')
}

/// The kind of the reply to the line that ends with these bytes; an answer is written at the end of the text.
///
/// A line that lies whole in a block is not copied.
fn write_reply_to(
    alloc: Global,
    rules: RuleSet,
    line: &mut Line,
    end: &[u8],
    text: &mut String,
) -> Result<ReplyKind<Why>, AllocError>
    ensures reply { string_bytes text.old ≡ [] → IfOk result (λ kind.
        IsReplyToLine rules (line.old.bytes.items ++ end.now) (reply_of_kind kind (string_bytes text.new))) }
    ensures number { line.new.number ≡ line.old.number }
{
    if line.bytes.is_empty() {
        return write_reply(alloc, rules, end, text);
    }
    line.extend(end);
    write_reply(alloc, rules, &line.bytes, text)
}

/// What is printed for a line that can't be read.
fn bad_line(alloc: Global, number: u64) -> Result<String, AllocError>
    ensures { IfOk result (λ text. string_bytes text ≡ bad_line number) }
{
    format!(in alloc; "bad line {number}\n")
}
