// Runs the calls on concrete values: the examples of document 01 on changes, then full devices, blocks used again, and the limits on records and extents.
// File k has the name k 02 03 04 05 06 07 08, so file 1 is A and file 2 is B.
#![tactic(auto)]

use std::io;

mod examples;
mod limits;
mod telling;

fn main(rt: HostRuntime) -> io::Result<()> {
    examples::run(&rt)?;
    limits::run(&rt)
}
