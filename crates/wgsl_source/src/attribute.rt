// Attributes, and where each may stand (WGSL, "Attributes").

ghost use Rattle.std.specs.Prelude.{◌≡◌, ℕ, List, [], IfOk, OnOk, Option, Some};
ghost use Rattle.wgsl_syntax.specs.Names.{named};
ghost use Rattle.wgsl_source.specs.Attributes.{AreRead, Say, attribute_names, attribute_of, is_severity};
ghost use Rattle.wgsl_source.specs.Declarations.{BehindAttributes};
ghost use Rattle.wgsl_source.specs.WrittenTypes.{meaning_of};
ghost use Rattle.wgsl_source.specs.declared.scope.Meaning.{Meaning as of_meaning};
ghost use Rattle.wgsl_source.specs.declared.text.Text.{Text as of_text};
ghost use Rattle.wgsl_source.specs.internal.Others.{Adds, SameValues};

use crate::directive::severity_fault;
use crate::entry::{Stage, WorkgroupExtent};
use crate::fault::{Cause, Stop};
use crate::parts::{split_argument, split_attribute, split_first, without_last};
use crate::scope::Scope;
use wgsl_reader::mark::Mark;
use wgsl_reader::read::Event;
use wgsl_reader::token::Token;

/// What attributes stand in front of.
#[derive(Clone, Copy, PartialEq, Eq)]
pub enum Owner {
    /// A member of a struct.
    Member,
    /// A parameter or the result of an entry point: such an attribute also stands in front of a member.
    InOut,
    /// A parameter or the result of another function: it has none.
    Plain,
    Variable,
    Override,
    Function,
    /// A statement: `@diagnostic` alone stands there.
    Statement,
}

/// An attribute of WGSL.
#[derive(Clone, Copy, PartialEq, Eq)]
pub enum Name {
    Align,
    Binding,
    BlendSrc,
    Builtin,
    Compute,
    Diagnostic,
    Fragment,
    Group,
    Id,
    Interpolate,
    Invariant,
    Location,
    MustUse,
    Size,
    Vertex,
    WorkgroupSize,
}

/// The attributes of a declaration or a member that are read.
#[derive(Clone, Copy)]
pub struct Attributes {
    pub size: Option<u32>,
    pub align: Option<u32>,
    pub group: Option<u32>,
    pub binding: Option<u32>,
    pub id: Option<u32>,
    pub stage: Option<Stage>,
    pub workgroup_size: Option<[WorkgroupExtent; 3]>,
    /// Which attributes are present, in the order of `Name`.
    is_there: [bool; 16],
}

/// The attribute with this name.
pub fn attribute_named(word: &str) -> Option<Name>
    ensures { result ≡ named attribute_names word.now }
{
    match word {
        "align" => Some(Name::Align),
        "binding" => Some(Name::Binding),
        "blend_src" => Some(Name::BlendSrc),
        "builtin" => Some(Name::Builtin),
        "compute" => Some(Name::Compute),
        "diagnostic" => Some(Name::Diagnostic),
        "fragment" => Some(Name::Fragment),
        "group" => Some(Name::Group),
        "id" => Some(Name::Id),
        "interpolate" => Some(Name::Interpolate),
        "invariant" => Some(Name::Invariant),
        "location" => Some(Name::Location),
        "must_use" => Some(Name::MustUse),
        "size" => Some(Name::Size),
        "vertex" => Some(Name::Vertex),
        "workgroup_size" => Some(Name::WorkgroupSize),
        _ => None,
    }
}

impl Name {
    /// What it stands in front of.
    fn owner(self) -> Owner {
        match self {
            Name::Align | Name::Size => Owner::Member,
            Name::BlendSrc | Name::Builtin | Name::Interpolate | Name::Invariant | Name::Location =>
                Owner::InOut,
            Name::Binding | Name::Group => Owner::Variable,
            Name::Id => Owner::Override,
            Name::Compute
            | Name::Diagnostic
            | Name::Fragment
            | Name::MustUse
            | Name::Vertex
            | Name::WorkgroupSize => Owner::Function,
        }
    }

    /// Whether the attribute may stand there.
    pub fn may_stand(self, owner: Owner) -> bool {
        self.owner() == owner || self.owner() == Owner::InOut && owner == Owner::Member
    }

    /// Whether the attribute takes this number of arguments.
    pub fn takes(self, count: usize) -> bool {
        match self {
            Name::Compute | Name::Fragment | Name::Invariant | Name::MustUse | Name::Vertex => {
                count == 0
            }
            Name::Interpolate => count == 1 || count == 2,
            Name::WorkgroupSize => 1 <= count && count <= 3,
            Name::Diagnostic => true,
            Name::Align
            | Name::Binding
            | Name::BlendSrc
            | Name::Builtin
            | Name::Group
            | Name::Id
            | Name::Location
            | Name::Size => count == 1,
        }
    }
}

impl Attributes {
    fn none() -> Attributes
        ensures { (t : of_text) → (named : List ℕ → Option of_meaning) → Say t named [] result }
    {
        Attributes {
            size: None,
            align: None,
            group: None,
            binding: None,
            id: None,
            stage: None,
            workgroup_size: None,
            is_there: [false; 16],
        }
    }

    /// Notes an attribute. Returns whether it is a repetition; `diagnostic` may be repeated.
    fn is_twice(&mut self, name: Name) -> bool
        ensures { SameValues self.old self.new }
    {
        match self.is_there.get_mut(name as usize) {
            Some(is_there) if name != Name::Diagnostic => {
                let is_twice = *is_there;
                *is_there = true;
                is_twice
            }
            _ => false,
        }
    }
}

/// An attribute of the text.
#[derive(Clone, Copy)]
struct Written<'e> {
    /// The token of its name.
    name: Token,
    /// Its arguments, each with its `Argument`.
    arguments: &'e [Event],
}

impl<'t> Scope<'t> {
    /// The attributes in front of a member or a declaration, and what stands behind them.
    pub fn read_attributes<'e>(
        &self,
        events: &'e [Event],
        owner: Owner,
    ) -> Result<(Attributes, &'e [Event]), Stop>
        ensures behind { IfOk result (λ r. BehindAttributes events.now r.1.now) }
        ensures read { IfOk result (λ r. AreRead self.now.text (meaning_of self.now) events.now r.0) }
    {
        let mut attributes = Attributes::none();
        let mut rest = events;
        while let Some(split) = split_attribute(rest) {
            self.read_attribute(split.front, owner, &mut attributes)?;
            rest = split.rest;
        }
        Ok((attributes, rest))
    }

    fn read_attribute(
        &self,
        events: &[Event],
        owner: Owner,
        attributes: &mut Attributes,
    ) -> Result<(), Stop>
        ensures { OnOk result (Adds self.now.text (meaning_of self.now) (attribute_of self.now.text events.now) attributes.old attributes.new) }
    {
        let Some((first, rest)) = split_first(events) else {
            return Ok(());
        };
        if is_severity(first.mark) {
            return self.read_diagnostic(events, first, owner, attributes);
        }
        let written = Written {
            name: self.text.token_before(first.at),
            arguments: without_last(rest),
        };
        let name = match attribute_named(self.text.word(written.name)) {
            Some(name) => name,
            None if self.extensions.foreign => return Ok(()),
            None => return Err(written.stop(Cause::UnknownAttribute)),
        };
        note(name, written, owner, attributes)?;
        if !name.takes(count_of(written.arguments)) || has_empty_list(first, rest) {
            return Err(written.stop(Cause::AttributeArguments));
        }
        self.read_arguments(name, written.arguments, attributes)
    }

    /// `@diagnostic(off, a.b)`
    fn read_diagnostic(
        &self,
        events: &[Event],
        first: Event,
        owner: Owner,
        attributes: &mut Attributes,
    ) -> Result<(), Stop>
        ensures { SameValues attributes.old attributes.new }
    {
        let written = Written {
            name: self.text.token_before(first.at.saturating_sub(2)),
            arguments: &[],
        };
        note(Name::Diagnostic, written, owner, attributes)?;
        match severity_fault(self.text, events) {
            Some(fault) => Err(Stop::Fault(fault)),
            None => Ok(()),
        }
    }

    fn read_arguments(
        &self,
        name: Name,
        arguments: &[Event],
        attributes: &mut Attributes,
    ) -> Result<(), Stop>
        ensures { OnOk result (Adds self.now.text (meaning_of self.now) (record { name = Some name; arguments = arguments.now }) attributes.old attributes.new) }
    {
        match name {
            Name::Align => attributes.align = Some(self.read_align(arguments)?),
            Name::Size => attributes.size = Some(self.read_number(arguments)?),
            Name::Group => attributes.group = Some(self.read_number(arguments)?),
            Name::Binding => attributes.binding = Some(self.read_number(arguments)?),
            Name::Id => attributes.id = Some(self.read_number(arguments)?),
            Name::WorkgroupSize => {
                attributes.workgroup_size = Some(self.read_workgroup_size(arguments)?);
            }
            Name::Compute => attributes.stage = Some(Stage::Compute),
            Name::Fragment => attributes.stage = Some(Stage::Fragment),
            Name::Vertex => attributes.stage = Some(Stage::Vertex),
            Name::Builtin => self.read_built_in(arguments)?,
            Name::BlendSrc
            | Name::Diagnostic
            | Name::Interpolate
            | Name::Invariant
            | Name::Location
            | Name::MustUse => {}
        }
        Ok(())
    }
}

fn is_severity(mark: Mark) -> bool
    ensures { result ≡ is_severity mark }
{
    matches!(mark, Mark::Severity)
}

/// Whether brackets without an argument stand behind an attribute's name.
fn has_empty_list(name: Event, rest: &[Event]) -> bool {
    match rest {
        [end] => end.at > name.at,
        _ => false,
    }
}

impl Written<'_> {
    /// A `Stop` at the name, for this cause.
    fn stop(self, cause: Cause) -> Stop {
        Stop::at(self.name.at, cause)
    }
}

/// Notes that an attribute is there, if it may be.
fn note(name: Name, written: Written, owner: Owner, attributes: &mut Attributes) -> Result<(), Stop>
    ensures { SameValues attributes.old attributes.new }
{
    if !name.may_stand(owner) {
        Err(written.stop(Cause::MisplacedAttribute))
    } else if attributes.is_twice(name) {
        Err(written.stop(Cause::AttributeTwice))
    } else {
        Ok(())
    }
}

/// How many arguments there are.
fn count_of(arguments: &[Event]) -> usize {
    let mut count: usize = 0;
    let mut rest = arguments;
    while let Some(split) = split_argument(rest) {
        count = count.saturating_add(1);
        rest = split.rest;
    }
    count
}
