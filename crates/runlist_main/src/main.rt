// Runs the call `run_list` over a lent list of extents: no run, one, and as many as the list has places; one more than it has; a stretch cut at the end of the file; numbers near 2^64.
// File k has the name k 02 03 04 05 06 07 08. The list lent has eight places, each of them 7+9 before the call.
#![tactic(auto)]

use mounted::Mounted;
use spec::{Extent, FileBlock, Session};
use std::io;
use trial::{SMALLEST, counted, extent};

// ---- text

// The eight places of a list.
fn places(rt: &impl Print, list: [Extent; 8]) -> io::Result<()> {
    for e in list {
        extent(rt, e)?;
    }
    Ok(())
}

// ---- the call

// The runs of n blocks of file k from a block on, and the whole list behind them.
fn show(rt: &impl Print, t: &Mounted<SMALLEST>, k: u8, from: usize, n: usize) -> io::Result<()> {
    let mut list = [Extent { first: 7, count: 9 }; 8];
    let answer = t.run_list(k, FileBlock(from), n, &mut list);
    print!(rt; "file {k} from {from} count {n}:")?;
    counted(rt, answer)?;
    print!(rt; " of")?;
    places(rt, list)?;
    println!(rt)
}

// ---- the files

// File 1 in blocks 42, 44, 46, 48, 50, 54, 56 and 58, file 2 between them, file 3 in 60 to 62.
fn put_files(t: &mut Mounted<SMALLEST>) {
    for k in 1..4 {
        let _ = t.create(k);
    }
    t.grow_in_turn(8);
    t.grow(3, 3);
}

fn show_some(rt: &impl Print, t: &Mounted<SMALLEST>) -> io::Result<()> {
    // no file, an empty stretch, a stretch past the end
    show(rt, t, 4, 0, 1)?;
    show(rt, t, 3, 0, 0)?;
    show(rt, t, 3, 3, 100)?;
    // one run, whole and cut at both ends
    show(rt, t, 3, 0, 3)?;
    show(rt, t, 3, 1, 1)?;
    show(rt, t, 3, 1, 100)?;
    // many runs
    show(rt, t, 1, 0, 8)?;
    show(rt, t, 1, 2, 3)?;
    show(rt, t, 1, 6, 100)
}

// Numbers near 2^64.
fn show_large(rt: &impl Print, t: &Mounted<SMALLEST>) -> io::Result<()> {
    show(rt, t, 1, usize::MAX, usize::MAX)?;
    show(rt, t, 1, 1, usize::MAX)?;
    show(rt, t, 3, usize::MAX, 1)
}

// With block 63 file 1 has one run more than the list has places: 19, and the list as it was.
fn show_short(rt: &impl Print, t: &Mounted<SMALLEST>) -> io::Result<()> {
    show(rt, t, 1, 0, 9)?;
    show(rt, t, 1, 0, usize::MAX)?;
    show(rt, t, 1, 0, 8)?;
    show(rt, t, 1, 1, 8)
}

fn main(rt: HostRuntime) -> io::Result<()> {
    let mut t = Mounted::empty();
    put_files(&mut t);
    show_some(&rt, &t)?;
    show_large(&rt, &t)?;
    t.grow(1, 9);
    show_short(&rt, &t)?;
    // a session that is closed: 12
    t.lent.session = Session::closed_on(64);
    show(&rt, &t, 1, 0, 8)
}
