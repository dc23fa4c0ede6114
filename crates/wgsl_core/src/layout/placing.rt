// The members of a struct are placed one after another.
ghost use Rattle.std.specs.Prelude.{◌≡◌, max, option_map, Some};
ghost use Rattle.wgsl_rules.specs.layout.Layout.{IsExactly, IsStride};
ghost use Rattle.wgsl_core.specs.Placing.{IsSoonestEnd, IsSoonestOffset, IsValue};

/// The members of a struct that are placed so far (WGSL, "Structure Member Layout"), in bytes.
#[derive(Clone, Copy, Debug, PartialEq, Eq)]
pub struct Placing {
    /// The end of the last one; None if a member so far has no size or the alignment 0, or the end is above
    /// 4294967295.
    pub end: Option<u32>,
    /// The greatest alignment, 0 without members.
    pub greatest: u32,
}

impl Placing {
    /// The state before the first member.
    #[inline(always)]
    pub fn start() -> Placing
        ensures { result ≡ record { end = Some 0; greatest = 0 } }
    {
        Placing {
            end: Some(0),
            greatest: 0,
        }
    }

    /// Places one more member at its smallest offset, and returns that; None if the members have no end.
    #[inline(always)]
    pub fn place(&mut self, size: Option<u32>, align: u32) -> Option<u32>
        ensures offset { IsExactly result (IsSoonestOffset self.old.end size align) }
        ensures end { IsExactly self.new.end (IsSoonestEnd self.old.end size align) }
        ensures greatest { self.new.greatest ≡ max self.old.greatest align }
    {
        self.greatest = self.greatest.max(align);
        match soonest(self.end, size, align) {
            Some((offset, end)) => {
                self.end = Some(end);
                Some(offset)
            }
            None => {
                self.end = None;
                None
            }
        }
    }

    /// The size of a struct of these members: their end, rounded up to the greatest alignment. None if they have no
    /// end, if there is no member, and if the size is above 4294967295.
    #[inline(always)]
    pub fn size(self) -> Option<u32>
        ensures { IsExactly result (IsStride (IsValue self.end) (IsValue (Some self.greatest))) }
    {
        rounded_up(self.end, Some(self.greatest))
    }
}

/// The smallest offset of a member from `end` on, and the end of the member.
#[inline(always)]
fn soonest(end: Option<u32>, size: Option<u32>, align: u32) -> Option<(u32, u32)>
    ensures offset { IsExactly (option_map (λ p. p.0) result) (IsSoonestOffset end size align) }
    ensures end { IsExactly (option_map (λ p. p.1) result) (IsSoonestEnd end size align) }
{
    let offset = end?.checked_next_multiple_of(align)?;
    Some((offset, offset.checked_add(size?)?))
}

/// The size rounded up to the alignment, if there are both.
#[inline(always)]
pub(crate) fn rounded_up(size: Option<u32>, align: Option<u32>) -> Option<u32>
    ensures { IsExactly result (IsStride (IsValue size) (IsValue align)) }
{
    size?.checked_next_multiple_of(align?)
}
