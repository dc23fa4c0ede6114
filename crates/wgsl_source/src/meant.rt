// What a misspelled word of a module may have meant: WGSL's names, and the module's own.

use crate::declaration::DeclarationKind;
use crate::extension::{ENABLED, REQUIRED};
use crate::fault::{Cause, Expected, ExtensionKind, Named};
use std::alloc::{AllocError, Global};
use wgsl_spelling::meant::{ACCESS_MODES, SCALARS, SPACES, TEXEL_FORMATS, TYPES};
use wgsl_syntax::nearest::{Nearest, word_of_wgsl};
use wgsl_syntax::tables::names::FUNCTIONS;

/// The names that a module declares.
#[derive(Drop)]
pub struct Declared<'t> {
    /// Of its structs and aliases.
    pub types: Vec<&'t str>,
    /// Of its constants and overrides.
    pub values: Vec<&'t str>,
}

impl<'t> Declared<'t> {
    /// No names.
    pub fn none(alloc: Global) -> Declared<'t> {
        Declared {
            types: Vec::new(alloc),
            values: Vec::new(alloc),
        }
    }

    /// Adds the name of a declaration, if it is one of these.
    pub fn add(&mut self, kind: DeclarationKind, name: &'t str) -> Result<(), AllocError> {
        match kind {
            DeclarationKind::Alias | DeclarationKind::Struct => self.types.push(name)?,
            DeclarationKind::Constant | DeclarationKind::Override => self.values.push(name)?,
            DeclarationKind::Variable | DeclarationKind::Function => {}
        }
        Ok(())
    }
}

const ATTRIBUTES: &str = "\
align binding blend_src builtin compute diagnostic fragment group id interpolate invariant location must_use size vertex \
workgroup_size";

const BUILT_IN_VALUES: &str = "\
vertex_index instance_index clip_distances position front_facing frag_depth sample_index sample_mask local_invocation_id \
local_invocation_index global_invocation_id global_invocation_index workgroup_id workgroup_index num_workgroups \
subgroup_invocation_id subgroup_size subgroup_id num_subgroups primitive_index";

/// The severities of diagnostics.
const SEVERITIES: &str = "error warning info off";

/// Whether a list has a word.
pub fn has_word(list: &str, word: &str) -> bool {
    list.split_whitespace().any(|other| other == word)
}

/// Whether WGSL has a built-in value with this name, or naga one for views.
pub fn is_built_in_value(name: &str) -> bool {
    name == "view_index" || has_word(BUILT_IN_VALUES, name)
}

/// Whether WGSL has a severity with this name.
pub fn is_severity(name: &str) -> bool {
    has_word(SEVERITIES, name)
}

/// Whether WGSL has a function with this name.
pub fn is_function(name: &str) -> bool {
    for (function, _, _) in FUNCTIONS {
        if *function == name {
            return true;
        }
    }
    false
}

/// What a word may have meant where it has this fault.
pub fn meant<'t>(cause: Cause, word: &'t str, declared: &Declared<'t>) -> Option<&'t str> {
    match cause {
        Cause::UnknownName(Named::Type) | Cause::Expected(Expected::Type) => {
            word_of_wgsl(word).or(nearest(word, &declared.types, TYPES))
        }
        Cause::Expected(Expected::SampledType) => word_of_wgsl(word).or(nearest(
            word,
            &[],
            SCALARS,
        )),
        Cause::UnknownName(Named::Value) => nearest(word, &declared.values, "true false"),
        Cause::UnknownName(Named::Function) => nearest_function(word),
        _ => nearest(word, &[], names_for(cause)),
    }
}

/// The names that may stand where a word has this fault.
fn names_for(cause: Cause) -> &'static str {
    match cause {
        Cause::Expected(Expected::AddressSpace) => SPACES,
        Cause::Expected(Expected::AccessMode) => ACCESS_MODES,
        Cause::Expected(Expected::TexelFormat) => TEXEL_FORMATS,
        Cause::Expected(Expected::Severity) => SEVERITIES,
        Cause::UnknownAttribute => ATTRIBUTES,
        Cause::UnknownBuiltInValue => BUILT_IN_VALUES,
        Cause::UnknownExtension(ExtensionKind::Enabled) => ENABLED,
        Cause::UnknownExtension(ExtensionKind::Required) => REQUIRED,
        _ => "",
    }
}

/// The nearest of the module's own names and of a list.
fn nearest<'t>(word: &'t str, own: &[&'t str], list: &'static str) -> Option<&'t str> {
    let mut nearest = Nearest::to(word);
    for name in own {
        nearest.offer(*name);
    }
    for name in list.split_whitespace() {
        nearest.offer(name);
    }
    nearest.name
}

fn nearest_function(word: &str) -> Option<&str> {
    let mut nearest = Nearest::to(word);
    for (name, _, _) in FUNCTIONS {
        nearest.offer(*name);
    }
    nearest.name
}
