// What the grammar doesn't read.
ghost use Rattle.std.specs.Prelude.{◌≡◌, ℕ, [], IfOk, List, map};
ghost use Rattle.wgsl_module.specs.Declarations.{written};
ghost use Rattle.wgsl_module.specs.Runs.{IsModule};
ghost use Rattle.wgsl_module.specs.States.{State, state};
ghost use Rattle.wgsl_module.specs.Told.{broken, unread};

use crate::checker::Checker;
use crate::declaration::{Declaration, DeclarationKind};
use std::alloc::{AllocError, Global};
use wgsl_reader::kind::Kind;
use wgsl_reader::module::Misread;
use wgsl_reader::token::Token;
use wgsl_source::text::Text;
use wgsl_typing::fault::{Fault, Place, Rule};

/// A fault for each declaration that the grammar doesn't read.
pub fn faults_of_misread(
    alloc: Global,
    text: Text<'_>,
    all: &[Misread],
) -> Result<Vec<Fault>, AllocError>
    ensures { IfOk result (λ faults. map broken faults.items ≡ map unread all.now) }
{
    let mut faults = Vec::new(alloc);
    for misread in all {
        faults.push(unread(alloc, text, *misread)?)?;
    }
    Ok(faults)
}

/// The fault of a declaration, at the token that can't stand there.
fn unread(alloc: Global, text: Text<'_>, misread: Misread) -> Result<Fault, AllocError>
    ensures { IfOk result (λ fault. broken fault ≡ unread misread) }
{
    let message = match text.strange(text.token(misread.at)) {
        Some(cause) => cause.text(),
        None => "this can't stand here",
    };
    Ok(Fault {
        rule: Rule::Syntax,
        place: Place {
            from: misread.at,
            to: misread.at.saturating_add(1),
        },
        message: String::from_str(alloc, message)?,
        notes: Vec::new(alloc),
    })
}

impl<'t> Checker<'t> {
    /// Declares the names of what the grammar doesn't read, which are faulty.
    pub fn declare_misread(&mut self, all: &[Misread]) -> Result<(), AllocError>
        ensures module { IfOk result (λ u. (cycles : List ℕ) (tokens : List Token) (s r : State)
            → IsModule cycles tokens (map written self.new.declarations.items) s r → IsModule cycles tokens (map written self.old.declarations.items) s r) }
        ensures all { IfOk result (λ u. all.now ≡ [] → self.new.declarations.items ≡ self.old.declarations.items) }
        ensures stack { (state self.new).stack ≡ (state self.old).stack }
    {
        for misread in all {
            if let Some(named) = self.misread_name(*misread) {
                self.declarations.push(Declaration {
                    kind: DeclarationKind::Misread,
                    named: Some(named),
                    events: &[],
                    body: &[],
                })?;
            }
        }
        Ok(())
    }

    /// The name of a misread declaration: the first one behind the word that begins it.
    fn misread_name(&self, misread: Misread) -> Option<usize> {
        for index in misread.from..misread.at {
            if matches!(
                self.expressions.token(index).kind,
                Kind::Alias | Kind::Struct | Kind::Const | Kind::Override | Kind::Var | Kind::Fn
            ) {
                let named = index.saturating_add(2);
                return match self.expressions.token_before(named).kind {
                    Kind::Name => Some(named),
                    _ => None,
                };
            }
        }
        None
    }
}
