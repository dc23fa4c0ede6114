// The structs to report on: those with the names that are asked for, and those inside them.

use crate::prelude::*;

/// Which structs of a module to report on.
#[derive(Drop)]
pub struct Choice {
    /// For each struct, whether it has one of the names, or is inside such a struct. Without names all are chosen.
    pub is_chosen: Vec<bool>,
    /// For each name, whether a struct has it.
    pub is_found: Vec<bool>,
}

/// The choice of the structs with these names.
pub fn choose(alloc: Global, module: &Module, names: &[&str]) -> Result<Choice, AllocError> {
    let mut choice = Choice {
        is_chosen: vec![in alloc; names.is_empty(); module.structs.len()]?,
        is_found: Vec::new(alloc),
    };
    for name in names {
        let index = module.structs.iter().position(|s| s.name == *name);
        choice.is_found.push(index.is_some())?;
        choose_one(&mut choice.is_chosen, index);
    }
    choose_inside(&mut choice.is_chosen, module);
    Ok(choice)
}

fn choose_one(is_chosen: &mut [bool], index: Option<usize>) {
    if let Some(index) = index {
        if let Some(is_chosen) = is_chosen.get_mut(index) {
            *is_chosen = true;
        }
    }
}

/// Chooses the structs inside those that are chosen. A struct comes after those inside it.
fn choose_inside(is_chosen: &mut [bool], module: &Module) {
    for (index, structure) in module.structs.iter().enumerate().rev() {
        if is_chosen.get(index) == Some(&true) {
            for member in &structure.members {
                choose_one(is_chosen, inner_struct(module, member.ty));
            }
        }
    }
}
