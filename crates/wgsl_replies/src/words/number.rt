// What a word counts, and the literals that words stand for.
ghost use Rattle.std.specs.Prelude.{◌≡◌, ◌↔◌, ◌^◌, IsTrue, option_map, slice_index};
ghost use Rattle.wgsl_core.specs.Instances.{literal_view};
ghost use Rattle.wgsl_replies.specs.words.Names as spec;
ghost use Rattle.wgsl_replies.specs.words.Templates as templates;

use wgsl_core::literal::LiteralInstance;

/// Whether the word begins with a plus, which `parse` reads and no number of a request has.
pub fn begins_with_plus(word: &str) -> bool
    ensures { IsTrue result ↔ (slice_index word.now 0 ≡ 43) }
{
    let bytes = word.as_bytes();
    !bytes.is_empty() && bytes[0] == b'+'
}

#[tactic(auto, using(crate::proofs::Numbers::plus_is_none, crate::proofs::Numbers::parsed), unfolding(crate::specs::words::Names::small))]
pub fn small(word: &str) -> Option<u8>
    ensures { result ≡ spec.small word.now }
{
    if begins_with_plus(word) {
        return None;
    }
    word.parse::<u8>().ok()
}

/// A number of at most 32 bits.
#[tactic(auto, using(crate::proofs::Numbers::plus_is_none, crate::proofs::Numbers::parsed), unfolding(crate::specs::words::Names::medium))]
pub fn medium(word: &str) -> Option<u32>
    ensures { result ≡ spec.medium word.now }
{
    if begins_with_plus(word) {
        return None;
    }
    word.parse::<u32>().ok()
}

/// A number of at most 64 bits.
#[tactic(auto, using(crate::proofs::Numbers::plus_is_none, crate::proofs::Numbers::parsed), unfolding(crate::specs::words::Names::long))]
pub fn long(word: &str) -> Option<u64>
    ensures { result ≡ spec.long word.now }
{
    if begins_with_plus(word) {
        return None;
    }
    word.parse::<u64>().ok()
}

#[tactic(auto, unfolding(crate::specs::words::Names::count))]
pub fn count(word: &str) -> Option<Option<usize>>
    ensures { result ≡ spec.count word.now }
{
    if word == "*" {
        return Some(None);
    }
    Some(Some(size(word)?))
}

/// A number of elements. Where `usize` has 32 bits, larger ones can't be read.
#[tactic(auto, using(crate::proofs::Numbers::plus_is_none, crate::proofs::Numbers::parsed), unfolding(crate::specs::words::Names::long))]
fn size(word: &str) -> Option<usize>
    ensures { result ≡ spec.long word.now }
{
    if begins_with_plus(word) {
        return None;
    }
    word.parse::<usize>().ok()
}

#[tactic(auto, unfolding(crate::specs::words::Names::attribute))]
pub fn attribute(word: &str) -> Option<Option<u32>>
    ensures { result ≡ spec.attribute word.now }
{
    if word == "-" {
        return Some(None);
    }
    Some(Some(medium(word)?))
}

/// A literal: `true`, `false`, or a number, with the suffix of its kind if it isn't abstract.
#[tactic(auto, unfolding(crate::specs::words::Templates::literal))]
pub fn literal(word: &str) -> Option<LiteralInstance>
    ensures { option_map literal_view result ≡ templates.literal word.now }
{
    match word {
        "true" => Some(LiteralInstance::Bool(true)),
        "false" => Some(LiteralInstance::Bool(false)),
        _ => number(word),
    }
}

/// A number, with the suffix of its kind if it isn't abstract.
#[tactic(auto, unfolding(crate::specs::words::Templates::number))]
fn number(word: &str) -> Option<LiteralInstance>
    ensures { option_map literal_view result ≡ templates.number word.now }
{
    if let Some(digits) = word.strip_suffix("li") {
        Some(LiteralInstance::I64(signed(digits)?))
    } else if let Some(digits) = word.strip_suffix("lu") {
        Some(LiteralInstance::U64(long(digits)?))
    } else {
        short_number(word)
    }
}

#[tactic(auto, unfolding(crate::specs::words::Templates::short_number))]
fn short_number(word: &str) -> Option<LiteralInstance>
    ensures { option_map literal_view result ≡ templates.short_number word.now }
{
    if let Some(digits) = word.strip_suffix("i") {
        Some(LiteralInstance::I32(signed_short(digits)?))
    } else if let Some(digits) = word.strip_suffix("u") {
        Some(LiteralInstance::U32(medium(digits)?))
    } else {
        Some(LiteralInstance::AbstractInt(signed(word)?))
    }
}

/// A signed number of at most 64 bits.
#[tactic(auto, using(crate::proofs::Numbers::plus_is_no_sign))]
fn signed(word: &str) -> Option<i64>
    ensures { result ≡ templates.signed_below (2 ^ 63) word.now }
{
    if begins_with_plus(word) {
        return None;
    }
    word.parse::<i64>().ok()
}

/// A signed number of at most 32 bits.
#[tactic(auto, using(crate::proofs::Numbers::plus_is_no_sign))]
fn signed_short(word: &str) -> Option<i32>
    ensures { result ≡ templates.signed_below (2 ^ 31) word.now }
{
    if begins_with_plus(word) {
        return None;
    }
    word.parse::<i32>().ok()
}
