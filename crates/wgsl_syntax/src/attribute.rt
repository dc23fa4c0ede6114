// The names that attributes and directives take.
ghost use Rattle.std.specs.Prelude.{◌≡◌};
ghost use Rattle.wgsl_syntax.specs.Names.{named, table, Reads};
ghost use Rattle.wgsl_syntax.specs.Attribute.{depth_text, depths, flag_text, flags, interpolation_text, interpolations, sampling_text, samplings, severities, severity_text};

use crate::named::value_named;
use std::fmt;
use std::fmt::Write;
use std::str::FromStr;

/// The severity of a diagnostic (WGSL, "Diagnostics").
#[derive(Clone, Copy, PartialEq, Eq, Hash, Debug)]
pub enum DiagnosticSeverity {
    /// `error`
    Error,
    /// `warning`
    Warning,
    /// `info`
    Info,
    /// `off`
    Off,
}

static SEVERITIES: &[(DiagnosticSeverity, &str)] = names! {
    DiagnosticSeverity Error "error" Warning "warning" Info "info" Off "off"
};

impl DiagnosticSeverity {
    /// The name.
    fn text(self) -> &'static str
        ensures { result.now ≡ severity_text self }
    {
        SEVERITIES[self as usize].1
    }
}

impl fmt::Display for DiagnosticSeverity {
    ghost use Rattle.std.specs.Prelude.{Some};
    ghost use Rattle.std.specs.Fmt.{padded};

    ghost output = { λ x. Some (severity_text x) };

    ghost styled_output = { λ x spec. Some (padded spec (severity_text x)) };

    fn fmt<W: Write>(&self, f: &mut fmt::Formatter<W>) -> fmt::Result {
        f.pad(self.text())
    }
}

fn severity_named(s: &str) -> Option<DiagnosticSeverity>
    ensures { result ≡ named (table severity_text severities) s.now }
{
    value_named(SEVERITIES, s)
}

impl FromStr for DiagnosticSeverity {
    type Err = ();

    ghost from_str_gives = { Reads severity_text };

    fn from_str(s: &str) -> Result<DiagnosticSeverity, ()> {
        severity_named(s).ok_or(())
    }
}

/// How a user-defined input or output is interpolated (WGSL, "Interpolation").
#[derive(Clone, Copy, PartialEq, Eq, Hash, Debug)]
pub enum InterpolationType {
    /// `perspective`
    Perspective,
    /// `linear`
    Linear,
    /// `flat`
    Flat,
}

static INTERPOLATIONS: &[(InterpolationType, &str)] = names! {
    InterpolationType Perspective "perspective" Linear "linear" Flat "flat"
};

impl InterpolationType {
    /// The name.
    fn text(self) -> &'static str
        ensures { result.now ≡ interpolation_text self }
    {
        INTERPOLATIONS[self as usize].1
    }
}

impl fmt::Display for InterpolationType {
    ghost use Rattle.std.specs.Prelude.{Some};
    ghost use Rattle.std.specs.Fmt.{padded};

    ghost output = { λ x. Some (interpolation_text x) };

    ghost styled_output = { λ x spec. Some (padded spec (interpolation_text x)) };

    fn fmt<W: Write>(&self, f: &mut fmt::Formatter<W>) -> fmt::Result {
        f.pad(self.text())
    }
}

fn interpolation_named(s: &str) -> Option<InterpolationType>
    ensures { result ≡ named (table interpolation_text interpolations) s.now }
{
    value_named(INTERPOLATIONS, s)
}

impl FromStr for InterpolationType {
    type Err = ();

    ghost from_str_gives = { Reads interpolation_text };

    fn from_str(s: &str) -> Result<InterpolationType, ()> {
        interpolation_named(s).ok_or(())
    }
}

/// Where a user-defined input or output is sampled (WGSL, "Interpolation").
#[derive(Clone, Copy, PartialEq, Eq, Hash, Debug)]
pub enum InterpolationSampling {
    /// `center`
    Center,
    /// `centroid`
    Centroid,
    /// `sample`
    Sample,
    /// `first`
    First,
    /// `either`
    Either,
}

static SAMPLINGS: &[(InterpolationSampling, &str)] = names! {
    InterpolationSampling Center "center" Centroid "centroid" Sample "sample" First "first"
    Either "either"
};

impl InterpolationSampling {
    /// The name.
    fn text(self) -> &'static str
        ensures { result.now ≡ sampling_text self }
    {
        SAMPLINGS[self as usize].1
    }
}

impl fmt::Display for InterpolationSampling {
    ghost use Rattle.std.specs.Prelude.{Some};
    ghost use Rattle.std.specs.Fmt.{padded};

    ghost output = { λ x. Some (sampling_text x) };

    ghost styled_output = { λ x spec. Some (padded spec (sampling_text x)) };

    fn fmt<W: Write>(&self, f: &mut fmt::Formatter<W>) -> fmt::Result {
        f.pad(self.text())
    }
}

fn sampling_named(s: &str) -> Option<InterpolationSampling>
    ensures { result ≡ named (table sampling_text samplings) s.now }
{
    value_named(SAMPLINGS, s)
}

impl FromStr for InterpolationSampling {
    type Err = ();

    ghost from_str_gives = { Reads sampling_text };

    fn from_str(s: &str) -> Result<InterpolationSampling, ()> {
        sampling_named(s).ok_or(())
    }
}

/// How a fragment shader may change the depth, for naga's early depth test.
#[derive(Clone, Copy, PartialEq, Eq, Hash, Debug)]
pub enum ConservativeDepth {
    /// `greater_equal`
    GreaterEqual,
    /// `less_equal`
    LessEqual,
    /// `unchanged`
    Unchanged,
}

static DEPTHS: &[(ConservativeDepth, &str)] = names! {
    ConservativeDepth GreaterEqual "greater_equal" LessEqual "less_equal" Unchanged "unchanged"
};

impl ConservativeDepth {
    /// The name.
    fn text(self) -> &'static str
        ensures { result.now ≡ depth_text self }
    {
        DEPTHS[self as usize].1
    }
}

impl fmt::Display for ConservativeDepth {
    ghost use Rattle.std.specs.Prelude.{Some};
    ghost use Rattle.std.specs.Fmt.{padded};

    ghost output = { λ x. Some (depth_text x) };

    ghost styled_output = { λ x spec. Some (padded spec (depth_text x)) };

    fn fmt<W: Write>(&self, f: &mut fmt::Formatter<W>) -> fmt::Result {
        f.pad(self.text())
    }
}

fn depth_named(s: &str) -> Option<ConservativeDepth>
    ensures { result ≡ named (table depth_text depths) s.now }
{
    value_named(DEPTHS, s)
}

impl FromStr for ConservativeDepth {
    type Err = ();

    ghost from_str_gives = { Reads depth_text };

    fn from_str(s: &str) -> Result<ConservativeDepth, ()> {
        depth_named(s).ok_or(())
    }
}

/// A flag of naga's acceleration structures and ray queries.
#[derive(Clone, Copy, PartialEq, Eq, Hash, Debug)]
pub enum AccelerationStructureFlags {
    /// `vertex_return`
    VertexReturn,
}

static FLAGS: &[(AccelerationStructureFlags, &str)] = names! {
    AccelerationStructureFlags VertexReturn "vertex_return"
};

impl AccelerationStructureFlags {
    /// The name.
    fn text(self) -> &'static str
        ensures { result.now ≡ flag_text self }
    {
        FLAGS[self as usize].1
    }
}

impl fmt::Display for AccelerationStructureFlags {
    ghost use Rattle.std.specs.Prelude.{Some};
    ghost use Rattle.std.specs.Fmt.{padded};

    ghost output = { λ x. Some (flag_text x) };

    ghost styled_output = { λ x spec. Some (padded spec (flag_text x)) };

    fn fmt<W: Write>(&self, f: &mut fmt::Formatter<W>) -> fmt::Result {
        f.pad(self.text())
    }
}

/// The flag of this name.
pub fn flag_named(s: &str) -> Option<AccelerationStructureFlags>
    ensures { result ≡ named (table flag_text flags) s.now }
{
    value_named(FLAGS, s)
}

impl FromStr for AccelerationStructureFlags {
    type Err = ();

    ghost from_str_gives = { Reads flag_text };

    fn from_str(s: &str) -> Result<AccelerationStructureFlags, ()> {
        flag_named(s).ok_or(())
    }
}
