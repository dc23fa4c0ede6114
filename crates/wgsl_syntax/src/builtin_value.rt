// The built-in values of shader stages.
ghost use Rattle.std.specs.Prelude.{◌≡◌};
ghost use Rattle.wgsl_syntax.specs.Names.{named, table, Reads};
ghost use Rattle.wgsl_syntax.specs.Attribute.{builtin_text, builtin_values};

use crate::named::value_named;
use std::fmt;
use std::fmt::Write;
use std::str::FromStr;

/// A built-in value (WGSL, "Built-in Inputs and Outputs"), including naga's.
#[derive(Clone, Copy, PartialEq, Eq, Hash, Debug)]
pub enum BuiltinValue {
    /// `vertex_index`
    VertexIndex,
    /// `instance_index`
    InstanceIndex,
    /// `clip_distances`
    ClipDistances,
    /// `position`
    Position,
    /// `front_facing`
    FrontFacing,
    /// `frag_depth`
    FragDepth,
    /// `sample_index`
    SampleIndex,
    /// `sample_mask`
    SampleMask,
    /// `local_invocation_id`
    LocalInvocationId,
    /// `local_invocation_index`
    LocalInvocationIndex,
    /// `global_invocation_id`
    GlobalInvocationId,
    /// `workgroup_id`
    WorkgroupId,
    /// `num_workgroups`
    NumWorkgroups,
    /// `subgroup_invocation_id`
    SubgroupInvocationId,
    /// `subgroup_size`
    SubgroupSize,
    /// `subgroup_id`
    SubgroupId,
    /// `num_subgroups`
    NumSubgroups,
    /// `primitive_index`
    PrimitiveIndex,
    /// `view_index`
    ViewIndex,
}

static BUILTIN_VALUES: &[(BuiltinValue, &str)] = names! {
    BuiltinValue VertexIndex "vertex_index" InstanceIndex "instance_index"
    ClipDistances "clip_distances" Position "position" FrontFacing "front_facing"
    FragDepth "frag_depth" SampleIndex "sample_index" SampleMask "sample_mask"
    LocalInvocationId "local_invocation_id" LocalInvocationIndex "local_invocation_index"
    GlobalInvocationId "global_invocation_id" WorkgroupId "workgroup_id"
    NumWorkgroups "num_workgroups" SubgroupInvocationId "subgroup_invocation_id"
    SubgroupSize "subgroup_size" SubgroupId "subgroup_id" NumSubgroups "num_subgroups"
    PrimitiveIndex "primitive_index" ViewIndex "view_index"
};

impl BuiltinValue {
    /// The name.
    fn text(self) -> &'static str
        ensures { result.now ≡ builtin_text self }
    {
        BUILTIN_VALUES[self as usize].1
    }
}

impl fmt::Display for BuiltinValue {
    ghost use Rattle.std.specs.Prelude.{Some};
    ghost use Rattle.std.specs.Fmt.{padded};

    ghost output = { λ x. Some (builtin_text x) };

    ghost styled_output = { λ x spec. Some (padded spec (builtin_text x)) };

    fn fmt<W: Write>(&self, f: &mut fmt::Formatter<W>) -> fmt::Result {
        f.pad(self.text())
    }
}

fn builtin_named(s: &str) -> Option<BuiltinValue>
    ensures { result ≡ named (table builtin_text builtin_values) s.now }
{
    value_named(BUILTIN_VALUES, s)
}

impl FromStr for BuiltinValue {
    type Err = ();

    ghost from_str_gives = { Reads builtin_text };

    fn from_str(s: &str) -> Result<BuiltinValue, ()> {
        builtin_named(s).ok_or(())
    }
}
