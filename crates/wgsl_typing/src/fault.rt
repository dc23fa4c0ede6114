// What is wrong with a module, and where.
ghost use Rattle.std.specs.Prelude.{◌≡◌};
ghost use Rattle.wgsl_typing.specs.Faults.{last_of, up_to};

/// The rule of WGSL that is broken.
#[derive(Clone, Copy, PartialEq, Eq, Debug)]
pub enum Rule {
    /// The text isn't WGSL.
    Syntax,
    /// A name stands for nothing, or for something else than what stands there.
    Name,
    /// A declaration needs itself, or a function calls itself.
    Cycle,
    /// A second declaration of a name in one block, a second member or parameter with a name.
    Duplicate,
    /// The template list of a type or a variable.
    Template,
    /// No overload takes the operands.
    Overload,
    /// A type that can't stand there.
    Type,
    /// A value that is known, and out of its range.
    Value,
    /// Where control goes on: a path without `return`, `break` outside of a loop.
    Behaviour,
    /// A call whose value must be used.
    MustUse,
    /// The clauses of a `switch`.
    Switch,
    /// The members of a struct.
    Struct,
    /// An attribute that can't stand there, or its arguments.
    Attribute,
    /// What needs `enable`.
    Extension,
    /// A limit of WGSL.
    Limit,
    /// What an entry point takes and returns.
    EntryPoint,
    /// What a shader of this stage can't do.
    Stage,
    /// `@group` and `@binding`.
    Binding,
}

impl Rule {
    /// The word that names the rule in reports.
    pub fn word(self) -> &'static str {
        match self {
            Rule::Syntax => "syntax",
            Rule::Name => "name",
            Rule::Cycle => "cycle",
            Rule::Duplicate => "duplicate",
            Rule::Template => "template",
            Rule::Overload => "overload",
            Rule::Type => "type",
            Rule::Value => "value",
            Rule::Behaviour => "behaviour",
            Rule::MustUse => "must use",
            Rule::Switch => "switch",
            Rule::Struct => "struct",
            Rule::Attribute => "attribute",
            Rule::Extension => "extension",
            Rule::Limit => "limit",
            Rule::EntryPoint => "entry point",
            Rule::Stage => "stage",
            Rule::Binding => "binding",
        }
    }
}

/// The tokens of something: the index of the first, and of the one behind the last.
#[derive(Clone, Copy)]
pub struct Place {
    pub from: usize,
    pub to: usize,
}

impl Place {
    /// The last of that many tokens.
    pub fn last_of(count: usize) -> Place
        ensures { result ≡ last_of count }
    {
        Place {
            from: count.saturating_sub(1),
            to: count,
        }
    }

    /// From the first token of one place to the last of another.
    pub fn up_to(self, end: Place) -> Place
        ensures { result ≡ up_to self end }
    {
        Place {
            from: self.from,
            to: end.to,
        }
    }
}

/// What else there is to say of a fault.
#[derive(Drop)]
pub struct Note {
    /// The other declaration, or the place of the fault.
    pub place: Place,
    pub message: String,
}

/// Something that is wrong.
#[derive(Drop)]
pub struct Fault {
    pub rule: Rule,
    pub place: Place,
    /// In words, for people: no rule says anything of it.
    pub message: String,
    /// Why overloads don't take the operands, the nearest first; or where another declaration is.
    pub notes: Vec<Note>,
}
