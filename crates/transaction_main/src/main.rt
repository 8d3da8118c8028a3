// Runs the transaction's functions: blocks staged, found, overwritten, and seen in the working copy.
#![tactic(auto)]

use spec::{DiskBlock, Phase, Session};
use std::io;
use transaction::{Staged, Volume};
use trial::{Lent, SMALLEST};

// A block's place among the staged ones, and the first byte of its working copy.
fn show(rt: &impl Print, lent: &Lent<SMALLEST>, b: u32) -> io::Result<()> {
    let s = lent.session;
    match Staged::of(&s.staged, s.count).place_of(DiskBlock(b)) {
        Some(i) => print!(rt; " {b} at {i}")?,
        None => print!(rt; " {b} not staged")?,
    }
    let copy = Volume::of(&lent.device, &lent.work, &s).copy;
    println!(rt; " holds {}", block::load(copy.block(DiskBlock(b)), 0))
}

fn count(rt: &impl Print, s: Session) -> io::Result<()> {
    println!(rt; "staged {}", transaction::staged_count(s))
}

fn main(rt: HostRuntime) -> io::Result<()> {
    let mut lent = Lent::sevens(Session::opened(64, Phase::Ready));
    count(&rt, lent.session)?;
    lent.stage(34, 1);
    lent.stage(33, 2);
    lent.stage(34, 3);
    count(&rt, lent.session)?;
    for b in [33, 34, 42, 64] {
        show(&rt, &lent, b)?;
    }
    // As far as there is room.
    for b in 40..80 {
        lent.stage(b, 5);
    }
    count(&rt, lent.session)?;
    show(&rt, &lent, 69)?;
    show(&rt, &lent, 70)?;
    count(&rt, Session::never_opened())
}
