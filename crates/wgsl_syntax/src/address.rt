// Address spaces and access modes.
ghost use Rattle.std.specs.Prelude.{◌≡◌, ◌↔◌, IsTrue, MatchOption};
ghost use Rattle.wgsl_syntax.specs.Names.{named, table, Reads, ReadsBut};
ghost use Rattle.wgsl_syntax.specs.Address.{access_modes, access_text, default_access, may_say as said_there, space_text, space_text_by, spaces, IsSpace, MayRead, MayWrite};
ghost use Rattle.wgsl_syntax.specs.declared.address.AddressSpace.TheVariants.{Handle};

use crate::rules::RuleSet;
use std::fmt;
use std::fmt::Write;
use std::str::FromStr;

/// An address space (WGSL, "Address Spaces"), including `handle`.
#[derive(Clone, Copy, PartialEq, Eq, Hash, Debug)]
pub enum AddressSpace {
    /// `function`
    Function,
    /// `private`
    Private,
    /// `workgroup`
    Workgroup,
    /// `uniform`
    Uniform,
    /// `storage`
    Storage,
    /// `handle`
    Handle,
    /// WGSL's `immediate`, naga's `push_constant`
    PushConstant,
}

impl AddressSpace {
    /// The access mode of a variable whose declaration names none (WGSL, "Address Spaces").
    pub fn default_access_mode(self) -> AccessMode
        ensures { result ≡ default_access self }
    {
        match self {
            AddressSpace::Function | AddressSpace::Private | AddressSpace::Workgroup => {
                AccessMode::ReadWrite
            }
            _ => AccessMode::Read,
        }
    }

    /// Whether a variable or a pointer type may say this access mode (WGSL, "Variable Declarations").
    pub fn may_say(self, access: AccessMode) -> bool
        ensures { result ≡ said_there self access }
    {
        match self {
            AddressSpace::Storage => matches!(access, AccessMode::Read | AccessMode::ReadWrite),
            _ => false,
        }
    }

    /// The name by these rules.
    pub fn name_by(self, rules: RuleSet) -> &'static str
        ensures { result.now ≡ space_text_by rules self }
    {
        match (rules, self) {
            (RuleSet::Standard, AddressSpace::PushConstant) => "immediate",
            _ => self.text(),
        }
    }

    /// The address space that has this name by these rules, or that naga calls so.
    pub fn named_by(rules: RuleSet, word: &str) -> Option<AddressSpace>
        ensures { MatchOption result ((s : AddressSpace) → ¬ IsSpace rules word.now s)
            (λ s. IsSpace rules word.now s) }
    {
        match word {
            "immediate" => match rules {
                RuleSet::Standard => Some(AddressSpace::PushConstant),
                RuleSet::Ported => None,
            },
            _ => space_named(word),
        }
    }

    /// naga's name.
    fn text(self) -> &'static str
        ensures { result.now ≡ space_text self }
    {
        match self {
            AddressSpace::Function => "function",
            AddressSpace::Private => "private",
            AddressSpace::Workgroup => "workgroup",
            AddressSpace::Uniform => "uniform",
            AddressSpace::Storage => "storage",
            AddressSpace::Handle => "handle",
            AddressSpace::PushConstant => "push_constant",
        }
    }
}

impl fmt::Display for AddressSpace {
    ghost use Rattle.std.specs.Prelude.{Some};
    ghost use Rattle.std.specs.Fmt.{padded};

    ghost output = { λ x. Some (space_text x) };

    ghost styled_output = { λ x spec. Some (padded spec (space_text x)) };

    fn fmt<W: Write>(&self, f: &mut fmt::Formatter<W>) -> fmt::Result {
        f.pad(self.text())
    }
}

/// The address space that naga calls so.
pub fn space_named(s: &str) -> Option<AddressSpace>
    ensures { result ≡ named (table space_text spaces) s.now }
{
    match s {
        "function" => Some(AddressSpace::Function),
        "private" => Some(AddressSpace::Private),
        "workgroup" => Some(AddressSpace::Workgroup),
        "uniform" => Some(AddressSpace::Uniform),
        "storage" => Some(AddressSpace::Storage),
        "handle" => Some(AddressSpace::Handle),
        "push_constant" => Some(AddressSpace::PushConstant),
        _ => None,
    }
}

impl FromStr for AddressSpace {
    type Err = ();

    ghost from_str_gives = { ReadsBut Handle space_text };

    fn from_str(s: &str) -> Result<AddressSpace, ()> {
        match space_named(s) {
            Some(AddressSpace::Handle) | None => Err(()),
            Some(space) => Ok(space),
        }
    }
}

/// An access mode (WGSL, "Memory Access Mode"), including naga's `atomic` for storage textures.
#[derive(Clone, Copy, PartialEq, Eq, Hash, Debug)]
pub enum AccessMode {
    /// `read`
    Read,
    /// `write`
    Write,
    /// `read_write`
    ReadWrite,
    /// `atomic`
    Atomic,
}

impl AccessMode {
    /// Whether memory with this access mode can be read; false for `atomic`.
    pub fn is_read(self) -> bool
        ensures { IsTrue result ↔ MayRead self }
    {
        matches!(self, AccessMode::Read | AccessMode::ReadWrite)
    }

    /// Whether memory with this access mode can be written; false for `atomic`.
    pub fn is_write(self) -> bool
        ensures { IsTrue result ↔ MayWrite self }
    {
        matches!(self, AccessMode::Write | AccessMode::ReadWrite)
    }

    /// The name.
    fn text(self) -> &'static str
        ensures { result.now ≡ access_text self }
    {
        match self {
            AccessMode::Read => "read",
            AccessMode::Write => "write",
            AccessMode::ReadWrite => "read_write",
            AccessMode::Atomic => "atomic",
        }
    }
}

impl fmt::Display for AccessMode {
    ghost use Rattle.std.specs.Prelude.{Some};
    ghost use Rattle.std.specs.Fmt.{padded};

    ghost output = { λ x. Some (access_text x) };

    ghost styled_output = { λ x spec. Some (padded spec (access_text x)) };

    fn fmt<W: Write>(&self, f: &mut fmt::Formatter<W>) -> fmt::Result {
        f.pad(self.text())
    }
}

/// The access mode of this name.
pub fn access_named(s: &str) -> Option<AccessMode>
    ensures { result ≡ named (table access_text access_modes) s.now }
{
    match s {
        "read" => Some(AccessMode::Read),
        "write" => Some(AccessMode::Write),
        "read_write" => Some(AccessMode::ReadWrite),
        "atomic" => Some(AccessMode::Atomic),
        _ => None,
    }
}

impl FromStr for AccessMode {
    type Err = ();

    ghost from_str_gives = { Reads access_text };

    fn from_str(s: &str) -> Result<AccessMode, ()> {
        access_named(s).ok_or(())
    }
}
