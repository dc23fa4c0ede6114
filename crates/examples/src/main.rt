// A program over the library, with a contract of its own that cites the rules.
#![tactic(auto)]

mod fits;

use std::io;

fn main(rt: HostRuntime) -> io::Result<()> {
    fits::show(rt.alloc(), &mut rt.stdout())
}
