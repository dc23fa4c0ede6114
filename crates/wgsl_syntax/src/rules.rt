// The two sets of rules.

/// By whose rules a question is answered.
#[derive(Clone, Copy)]
pub enum RuleSet {
    /// Those of wgsl-types, with naga's extensions and names: `rg11b10float`, `push_constant`.
    Ported,
    /// WGSL's own: `rg11b10ufloat`, `immediate`.
    Standard,
}
