// The names that a text declares.
ghost use Rattle.std.specs.Prelude.{◌≡◌, ◌∷◌, [], IfOk, map, option_map, string_bytes};
ghost use Rattle.wgsl_core.specs.View.{view};
ghost use Rattle.wgsl_requests.specs.expressions.Source.{find, last_result, type_named};
ghost use Rattle.wgsl_requests.specs.expressions.Views.{declared_view, meaning_view, scope_view};

use crate::expressions::prelude::*;

/// What a name is declared as.
#[derive(Drop)]
pub enum Meaning {
    /// A type, and how many types are inside it: one per layer and member.
    Type(Type, usize),
    /// A function: the types of its parameters, and that of its result.
    Function(Vec<Type>, Option<Type>),
}

/// A name with what it is declared as.
#[derive(Drop)]
pub struct Declared {
    pub name: String,
    pub meaning: Meaning,
}

/// Declared names (WGSL, "Declaration and Scope"). The last with a name counts.
#[derive(Drop)]
pub struct Scope {
    pub declared: Vec<Declared>,
}

impl Scope {
    /// No names.
    pub fn empty(alloc: Global) -> Scope
        ensures { scope_view result ≡ [] }
    {
        Scope {
            declared: Vec::new(alloc),
        }
    }

    /// Declares one more name.
    pub fn declare(&mut self, name: String, meaning: Meaning) -> Made<()>
        ensures { IfOk result (λ done. scope_view self.new ≡ declared_view (record { name = name; meaning = meaning }) ∷ scope_view self.old) }
    {
        self.declared.push(Declared { name, meaning })?;
        Ok(())
    }

    /// What a name is declared as.
    pub fn find(&self, name: &str) -> Option<&Meaning>
        ensures { option_map (λ m. meaning_view m.now) result ≡ find name.now (scope_view self.now) }
    {
        let mut left = self.declared.len();
        while left > 0 {
            left -= 1;
            let declared = &self.declared[left];
            if declared.name.as_str() == name {
                return Some(&declared.meaning);
            }
        }
        None
    }

    /// The type that has a name, and how many types are inside it.
    pub(crate) fn type_named(&self, name: &str) -> Option<(&Type, usize)>
        ensures { option_map (λ t. (view t.0.now, t.1)) result ≡ type_named name.now (scope_view self.now) }
    {
        match self.find(name)? {
            Meaning::Type(ty, inside) => Some((ty, *inside)),
            Meaning::Function(_, _) => None,
        }
    }

    /// The result of the function that is declared last, if one is; that may be none.
    pub(crate) fn last_result(&self) -> Option<Option<&Type>>
        ensures { option_map (option_map (λ t. view t.now)) result ≡ last_result (scope_view self.now) }
    {
        match &self.declared.last()?.meaning {
            Meaning::Function(_, result) => Some(result.as_ref()),
            Meaning::Type(_, _) => None,
        }
    }
}
