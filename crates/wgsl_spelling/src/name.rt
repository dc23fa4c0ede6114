// Values of enumerations by their names.
ghost use Rattle.std.specs.Prelude.{◌≡◌};
ghost use Rattle.wgsl_spelling.specs.Names.{format_named, space_named};

use wgsl_syntax::address::AddressSpace;
use wgsl_syntax::rules::RuleSet;
use wgsl_syntax::texel::TexelFormat;

/// `storage`
#[tactic(auto, using(crate::proofs::Names::space_is))]
pub fn space_named(name: &str) -> Option<AddressSpace>
    ensures { result ≡ space_named name.now }
{
    AddressSpace::named_by(RuleSet::Standard, name)
}

/// `rgba8unorm`
#[tactic(auto, using(crate::proofs::Names::format_is))]
pub fn format_named(name: &str) -> Option<TexelFormat>
    ensures { result ≡ format_named name.now }
{
    TexelFormat::named_by(RuleSet::Standard, name)
}
