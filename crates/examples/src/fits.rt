// Whether a value of a type fits into a buffer, with a contract that cites WGSL's rule.
ghost use Rattle.std.specs.Prelude.{◌↔◌, ◌≤◌, ℕ, IsTrue};
ghost use Rattle.wgsl_rules.specs.layout.Layout.{HasSize};
ghost use Rattle.wgsl_core.specs.View.{view};

use std::alloc::Global;
use std::io;
use std::io::Write;
use wgsl_types::Type;

/// True exactly if the type has a size, and the buffer has at least as many bytes.
fn fits(ty: &Type, buffer: u32) -> bool
    ensures { IsTrue result ↔ ((size : ℕ) × HasSize (view ty.now) size × (size ≤ buffer)) }
{
    match ty.size_of() {
        Some(size) => size <= buffer,
        None => false,
    }
}

/// Shows whether four floats fit into two buffers.
pub fn show<W: Write>(alloc: Global, output: &mut W) -> io::Result<()> {
    let weights = Type::array(alloc, Some(4), Type::F32)?;
    writeln!(output, "{weights} in 16 bytes: {}", fits(&weights, 16))?;
    writeln!(output, "{weights} in 12 bytes: {}", fits(&weights, 12))
}
