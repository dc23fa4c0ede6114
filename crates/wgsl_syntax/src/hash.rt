// A perfect hash: the index of a name in a list, by three of its bytes.
ghost use Rattle.std.specs.Prelude.{◌≡◌, get_or};
ghost use Rattle.wgsl_syntax.specs.Hash.{index_of};

/// The tables of a list of names, which `bench/hints` prints. All but the last are by the length of a name.
pub struct Places {
    /// Where the lowest byte of a name's key stands in it.
    pub first: [u8; 33],
    /// Where the middle one stands.
    pub second: [u8; 33],
    /// Where the highest one stands.
    pub third: [u8; 33],
    /// The factor that gives the names of a length slots of their own by those bytes.
    pub factors: [u32; 33],
    /// The index of the name in this slot, or 0.
    pub indices: [u8; 256],
}

impl Places {
    /// The index of a name of the list; of another name, any number.
    #[inline]
    pub fn index_of(&self, name: &str) -> usize
        ensures { result ≡ index_of self.now name.now }
    {
        let text = name.as_bytes();
        let length = text.len();
        if length > 32 {
            return 0;
        }
        let first = byte_at(text, self.first[length]);
        let second = byte_at(text, self.second[length]).wrapping_mul(256);
        let third = byte_at(text, self.third[length]).wrapping_mul(65536);
        let key = first.wrapping_add(second).wrapping_add(third);
        usize::from(self.indices[usize::from((key.wrapping_mul(self.factors[length]) >> 24) as u8)])
    }
}

#[inline]
fn byte_at(text: &[u8], index: u8) -> u32
    ensures { result ≡ get_or text.now index 0 }
{
    match text.get(usize::from(index)) {
        Some(byte) => u32::from(*byte),
        None => 0,
    }
}
