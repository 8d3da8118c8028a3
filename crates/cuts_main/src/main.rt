// Runs a commit of three blocks on a 64-block device with a cut behind each number of stores, a second cut behind each number of stores of the recovery,
// and a third in the recovery of that, then recovers to the end and looks whether all three blocks are new, or none.
#![tactic(auto)]

use block::{block_in, load, load2};
use mounted::Mounted;
use spec::{DiskBlock, Phase, Session};
use std::io;
use trial::SMALLEST;

// The session after a cut: recovering where the header lists a target, else ready. The blocks stored are no sound store, so it is not opened by the call.
fn reopened(device: &[u8]) -> Session {
    let phase = match load2(device, 0) {
        0 => Phase::Ready,
        _ => Phase::Recovering(0),
    };
    Session::opened(64, phase)
}

// The blocks staged, and the byte that each begins with when it is new.
const BLOCKS: [(u32, u8); 3] = [(34, 1), (50, 2), (42, 3)];

fn is_new(device: &[u8], b: u32, byte: u8) -> bool {
    load(block_in(device, DiskBlock(b)), 0) == u32::from(byte)
}

// How many of the three blocks are new.
fn new_blocks(device: &[u8]) -> usize {
    BLOCKS
        .iter()
        .filter(|staged| is_new(device, staged.0, staged.1))
        .count()
}

// The commit of three blocks on an empty store begun, in the memory of the run before: a store of each run's own would be moved from function to function.
fn begin(t: &mut Mounted<SMALLEST>) {
    store::format(&mut t.lent.device, Session::never_opened());
    t.lent.work.fill(9);
    t.lent.session = Session::opened(64, Phase::Ready);
    for (b, byte) in BLOCKS {
        t.lent.stage(b, byte);
    }
    let _ = t.commit();
}

// A cut, and so many stores of the recovery.
fn cut(t: &mut Mounted<SMALLEST>, n: usize) {
    t.lent.session = reopened(&t.lent.device);
    t.advance_by(n);
}

// How many blocks are new after cuts behind i stores of the commit, j of a recovery and m of the next one, and a recovery to the end.
fn after_cuts(t: &mut Mounted<SMALLEST>, i: usize, j: usize, m: usize) -> usize {
    begin(t);
    t.advance_by(i);
    cut(t, j);
    cut(t, m);
    cut(t, 4);
    new_blocks(&t.lent.device)
}

// All second and third cuts behind a cut at i: how many of the 25 runs leave so many blocks new. One range for both cuts: of a `flat_map` over two ranges it
// stayed open that its items can be counted.
fn later_cuts(t: &mut Mounted<SMALLEST>, i: usize, new: usize) -> usize {
    (0..25usize)
        .filter(|k| after_cuts(t, i, *k / 5, *k % 5) == new)
        .count()
}

fn count(rt: &impl Print, word: &str, n: usize) -> io::Result<()> {
    if n != 0 {
        print!(rt; ", {word} of the blocks new in {n}")?;
    }
    Ok(())
}

fn line(rt: &impl Print, t: &mut Mounted<SMALLEST>, i: usize) -> io::Result<()> {
    print!(rt; "cut behind store {i}: of 25 runs")?;
    count(rt, "none", later_cuts(t, i, 0))?;
    count(rt, "all", later_cuts(t, i, 3))?;
    println!(rt)
}

fn main(rt: HostRuntime) -> io::Result<()> {
    let mut t = Mounted::empty();
    for i in 0..9 {
        line(&rt, &mut t, i)?;
    }
    Ok(())
}
