// The structs of a module in the order of the text.
ghost use Rattle.std.specs.Prelude.{◌≡◌, IfSome, List, OnOk, ◌∷◌, []};
ghost use Rattle.wgsl_source.specs.WrittenTypes.{Environment};
ghost use Rattle.wgsl_source.specs.internal.Read.{IsMeant, IsReadAs, Lists};
ghost use Rattle.wgsl_source.specs.declared.declaration.Declaration.{Declaration as of_declaration};
ghost use Rattle.wgsl_source.specs.declared.structure.Struct.{Struct as of_struct};
ghost use Rattle.wgsl_source.specs.declared.text.Text.{Text as of_text};

use crate::declaration::{Declaration, DeclarationKind};
use crate::measured::TypeKind;
use crate::scope::Meaning;
use std::alloc::{AllocError, Global};

/// The structs of a module in the order of the text.
#[derive(Drop)]
pub struct Listed<'t> {
    /// The indices of the structs.
    pub in_text: Vec<usize>,
    /// The structs that have a fault, or need a declaration that has one.
    pub left_out: Vec<&'t str>,
}

impl<'t> Listed<'t> {
    /// Nothing is listed.
    pub fn none(alloc: Global) -> Listed<'t>
        ensures in_text { result.in_text.items ≡ [] }
        ensures left_out { result.left_out.items ≡ [] }
    {
        Listed {
            in_text: Vec::new(alloc),
            left_out: Vec::new(alloc),
        }
    }

    /// Lists what a declaration declares, if it is a struct.
    pub fn list(
        &mut self,
        declaration: &Declaration<'t>,
        meaning: Meaning,
    ) -> Result<(), AllocError>
        ensures { (t : of_text) (env : Environment) (structs : List of_struct) → IsMeant t env structs declaration.now meaning
            → OnOk result (Lists t env structs (declaration.now ∷ []) self.old self.new) }
    {
        match declaration.kind {
            DeclarationKind::Struct => self.list_struct(declaration, meaning),
            _ => Ok(()),
        }
    }

    fn list_struct(
        &mut self,
        declaration: &Declaration<'t>,
        meaning: Meaning,
    ) -> Result<(), AllocError>
        ensures { (t : of_text) (env : Environment) (structs : List of_struct) → declaration.now.kind ≡ DeclarationKind.Struct
            → IsMeant t env structs declaration.now meaning
            → OnOk result (Lists t env structs (declaration.now ∷ []) self.old self.new) }
    {
        match index_of(meaning) {
            Some(index) => Ok(self.in_text.push(index)?),
            None => Ok(self.left_out.push(declaration.name)?),
        }
    }
}

/// The index of the struct that a name stands for.
fn index_of(meaning: Meaning) -> Option<usize>
    ensures { IfSome result (λ index. (t : of_text) (env : Environment) (structs : List of_struct) (d : of_declaration) → d.kind ≡ DeclarationKind.Struct
        → IsMeant t env structs d meaning → IsReadAs t env structs d index) }
{
    match meaning {
        Meaning::Type(ty) => match ty.kind {
            TypeKind::Struct(index) => Some(index),
            _ => None,
        },
        _ => None,
    }
}
