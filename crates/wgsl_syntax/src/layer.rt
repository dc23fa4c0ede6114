// An array, a vector or a matrix, without its element type.
ghost use Rattle.std.specs.Prelude.{◌≡◌, ◌↔◌, IsTrue};

/// An array, a vector or a matrix, without its element type.
#[derive(Clone, Copy, PartialEq, Eq)]
pub enum Layer {
    /// The number of elements; None if the array is runtime-sized.
    Array(Option<usize>),
    /// The number of components.
    Vec(u8),
    /// The number of columns, and the number of rows.
    Mat(u8, u8),
}

impl Layer {
    /// Whether both are the same layer with the same counts.
    pub fn is(self, other: Layer) -> bool
        ensures { IsTrue result ↔ (self ≡ other) }
    {
        self == other
    }
}
