// Runs the journal: headers with each fault, a commit and a recovery store by store, and what is not a log's to list.
#![tactic(auto)]

use block::{block_in, clear_block, load, load2};
use spec::{BlockStored, DiskBlock, Limits, Phase, Refusal, Session};
use std::io;
use transaction::Staged;
use trial::{Lent, SMALLEST, put};

// ---- headers

// The lowest wrong record, how many targets are listed, and whether a log may list them, on a device of 64 blocks.
fn show_header(rt: &impl Print, head: &[u8]) -> io::Result<()> {
    match header::header_fault(64, head) {
        Some(i) => print!(rt; "wrong {i}")?,
        None => print!(rt; "right")?,
    }
    let t = header::targets_in(head);
    print!(rt; ", targets {}", t.len())?;
    if t.are_targets(64) {
        print!(rt; " as a log may list")?;
    }
    println!(rt)
}

// A header that lists 40, 33, 63, with another target in the record at a place.
fn show_target(rt: &impl Print, at: usize, t: u16) -> io::Result<()> {
    let mut head = [0u8; Limits::BLOCK_SIZE];
    put(&mut head, 0, &[40]);
    put(&mut head, 16, &[33]);
    put(&mut head, 32, &[63]);
    put(&mut head, at, &t.to_le_bytes());
    show_header(rt, &head)
}

// A header that lists 40, with a byte that is not zero.
fn show_byte(rt: &impl Print, at: usize) -> io::Result<()> {
    let mut head = [0u8; Limits::BLOCK_SIZE];
    put(&mut head, 0, &[40]);
    put(&mut head, at, &[1]);
    show_header(rt, &head)
}

fn headers(rt: &impl Print) -> io::Result<()> {
    show_header(rt, &[0; Limits::BLOCK_SIZE])?;
    show_target(rt, 16 * 2, 63)?;
    show_target(rt, 16, 32)?;
    show_target(rt, 16, 64)?;
    show_target(rt, 16, 40)?;
    show_target(rt, 16 * 4, 50)?;
    show_target(rt, 16 * 31, 63)?;
    show_target(rt, 0, 0)?;
    for at in [15, 18, 511] {
        show_byte(rt, at)?;
    }
    Ok(())
}

// ---- stores

fn show_answer(rt: &impl Print, a: Result<Option<BlockStored>, Refusal>) -> io::Result<()> {
    match a {
        Err(_) => print!(rt; "refused"),
        Ok(Some(stored)) => show_store(rt, stored),
        Ok(None) => print!(rt; "idle"),
    }
}

fn show_store(rt: &impl Print, stored: BlockStored) -> io::Result<()> {
    print!(rt; "store {} to {}", stored.number, stored.block.0)?;
    if stored.last {
        print!(rt; " last")?;
    }
    Ok(())
}

fn show_session(rt: &impl Print, s: Session) -> io::Result<()> {
    match s.phase {
        Phase::Closed => print!(rt; ", closed")?,
        Phase::Ready => print!(rt; ", ready")?,
        Phase::Committing(d) => print!(rt; ", committing {d}")?,
        Phase::Recovering(d) => print!(rt; ", recovering {d}")?,
    }
    print!(rt; ", staged {}", transaction::staged_count(s))
}

// The first bytes of some blocks.
fn show_blocks(rt: &impl Print, device: &[u8], blocks: [u32; 3]) -> io::Result<()> {
    for b in blocks {
        print!(rt; " {}", load(block_in(device, DiskBlock(b)), 0))?;
    }
    Ok(())
}

// The first targets of the header, and the first bytes of some blocks.
fn show_device(rt: &impl Print, device: &[u8]) -> io::Result<()> {
    print!(rt; ", header")?;
    for at in [0, 16, 32, 48] {
        print!(rt; " {}", load2(device, at))?;
    }
    print!(rt; ", log")?;
    show_blocks(rt, device, [1, 2, 3])?;
    print!(rt; ", 33 34 63:")?;
    show_blocks(rt, device, [33, 34, 63])?;
    println!(rt)
}

// The next store of what is under way.
fn advance(lent: &mut Lent<SMALLEST>) -> Result<Option<BlockStored>, Refusal> {
    let s = lent.session;
    let staged = Staged::of(&s.staged, s.count);
    let answer = journal::advance_in(&mut lent.device, &lent.work, s.blocks, s.phase, staged);
    lent.session = journal::after(s.phase, s, answer);
    answer
}

fn run(rt: &impl Print, lent: &mut Lent<SMALLEST>, steps: usize) -> io::Result<()> {
    for _ in 0..steps {
        show_answer(rt, advance(lent))?;
        show_session(rt, lent.session)?;
        show_device(rt, &lent.device)?;
    }
    Ok(())
}

// Blocks 63, 33 and 34 staged and committed, and one step more.
fn commit(rt: &impl Print) -> io::Result<()> {
    let mut lent = Lent::sevens(Session::opened(64, Phase::Ready));
    lent.stage(63, 1);
    lent.stage(33, 2);
    lent.stage(34, 3);
    lent.session = lent.session.in_phase(Phase::Committing(0));
    run(rt, &mut lent, 9)
}

// Nothing staged; a block staged that no log may list; a place past the end.
fn commit_nothing(rt: &impl Print) -> io::Result<()> {
    let fresh = Session::opened(64, Phase::Committing(0));
    let mut lent = Lent::sevens(fresh);
    run(rt, &mut lent, 1)?;
    for b in [32, 64] {
        lent.session = fresh;
        lent.stage(b, 1);
        run(rt, &mut lent, 1)?;
    }
    lent.session = Session::opened(64, Phase::Committing(4));
    lent.stage(33, 1);
    run(rt, &mut lent, 1)
}

// Two targets listed, in no order; then one outside the device.
fn recover(rt: &impl Print) -> io::Result<()> {
    let recovering = Session::opened(64, Phase::Recovering(0));
    let mut lent = Lent::sevens(recovering);
    clear_block(&mut lent.device, DiskBlock(0));
    put(&mut lent.device, 0, &[63]);
    put(&mut lent.device, 16, &[33]);
    put(&mut lent.device, 512, &[1]);
    put(&mut lent.device, 1024, &[2]);
    run(rt, &mut lent, 4)?;
    lent.session = recovering;
    put(&mut lent.device, 0, &[64]);
    run(rt, &mut lent, 1)
}

fn main(rt: HostRuntime) -> io::Result<()> {
    headers(&rt)?;
    commit(&rt)?;
    commit_nothing(&rt)?;
    recover(&rt)
}
