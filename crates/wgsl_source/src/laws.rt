// What follows for a struct inside a struct.
ghost use Rattle.std.specs.Prelude.{◌≡◌, List, None, false, ℕ};
ghost use Rattle.wgsl_rules.specs.layout.Layout.{HaveAlignmentsBy, HaveLayoutsBy, IsStructAlign, IsStructSize};
ghost use Rattle.wgsl_rules.specs.types.Types.{Members};
ghost use Rattle.wgsl_syntax.specs.declared.rules.RuleSet.TheVariants.{Standard};
ghost use Rattle.wgsl_source.specs.Layout.{IsLaidOut, layouts_of};
ghost use Rattle.wgsl_source.specs.Members.{IsMeasuredMember, IsTypeOf};
ghost use Rattle.wgsl_source.specs.declared.measured.MeasuredType.{MeasuredType};
ghost use Rattle.wgsl_source.specs.declared.structure.Member.{Member};
ghost use Rattle.wgsl_source.specs.declared.structure.Struct.{Struct};

/// A member without attributes, whose type is a struct that is laid out, has the size and the alignment that the rules define
/// for the members of that struct.
#[tactic(auto, using(crate::proofs::Members::struct_follows))]
pub fn struct_follows()
    ensures { (elements : List MeasuredType) (inner : Struct) (index : ℕ) (m : Member)
        → IsLaidOut inner.members.items inner.size inner.align → inner.is_runtime_sized ≡ false
        → IsTypeOf inner index m.ty → m.size_attribute ≡ None → m.align_attribute ≡ None → IsMeasuredMember elements m
        → (ms : Members) → HaveLayoutsBy Standard ms (layouts_of inner.members.items)
        → IsStructSize (HaveLayoutsBy Standard ms) m.size × IsStructAlign (HaveAlignmentsBy Standard ms) m.align }
{}
