// Laws of structs by name.
ghost use Rattle.wgsl_typing.specs.Short.{KeepsFacts};

/// A struct that stands for a whole one in types has a fixed footprint, ends in a runtime-sized array and can be shared with the
/// host where the whole one has, does and can.
#[tactic(auto, using(crate::proofs::Shorts::kept))]
pub fn short_keeps_facts()
    ensures { KeepsFacts }
{}
