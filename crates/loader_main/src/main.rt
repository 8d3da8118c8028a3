// Runs loads on devices of 64 blocks: what each step answers, and whether a refused step leaves the device and the work space as they were.
#![tactic(auto)]

use loader::{LoadFault, Loaded, begin, step};
use mounted::Mounted;
use spec::{Limits, Phase, Session};
use std::io;
use trial::{SMALLEST, done, refused, stored};

// ---- text

fn line_refused(rt: &impl Print, fault: LoadFault) -> io::Result<()> {
    print!(rt;
        " refused {}, line {}",
        fault.number(),
        fault.named().unwrap_or(0)
    )
}

fn told(rt: &impl Print, answer: Result<Loaded, LoadFault>) -> io::Result<()> {
    match answer {
        Ok(Loaded::Started(n)) => print!(rt; " started {n}:"),
        Ok(Loaded::Advanced(block)) => stored(rt, block),
        Ok(Loaded::NoneLeft) => print!(rt; " none left"),
        Err(LoadFault::Refused(why)) => refused(rt, why),
        Err(fault) => line_refused(rt, fault),
    }
}

// ---- a load

// A store with a text that is loaded into it, from a place on.
#[derive(Drop)]
struct Load<'a, 't, P: Print> {
    rt: &'a P,
    store: Mounted<SMALLEST>,
    text: &'t [u8],
    at: usize,
}

impl<'a, 't, P: Print> Load<'a, 't, P> {
    // Into an empty store.
    fn new(rt: &'a P, text: &'t [u8], at: usize) -> Load<'a, 't, P> {
        Load {
            rt,
            store: Mounted::empty(),
            text,
            at,
        }
    }

    fn begin(&self) -> io::Result<()> {
        let t = &self.store.lent;
        print!(self.rt; " begin")?;
        done(self.rt, begin(&t.device, &t.work, t.session))?;
        print!(self.rt; ",")
    }

    // One step.
    fn step(&mut self) -> io::Result<()> {
        let t = &mut self.store.lent;
        let r = step(&mut t.device, &mut t.work, t.session, self.text, self.at);
        t.session = r.session;
        self.at = r.next;
        told(self.rt, r.answer)
    }

    // n steps.
    fn steps(&mut self, n: usize) -> io::Result<()> {
        for _ in 0..n {
            self.step()?;
        }
        Ok(())
    }

    // The place behind them.
    fn next(&self) -> io::Result<()> {
        let at = self.at;
        print!(self.rt; ", next {at}")
    }

    // One step, and the place behind it.
    fn line(&mut self) -> io::Result<()> {
        self.step()?;
        self.next()?;
        println!(self.rt)
    }

    // With the work space before and behind it compared.
    fn line_kept(&mut self) -> io::Result<()> {
        let work = self.store.lent.work;
        self.line()?;
        if work == self.store.lent.work {
            println!(self.rt; "its work space: kept")
        } else {
            println!(self.rt; "its work space: changed")
        }
    }

    // One step of another session.
    fn in_session(&mut self, s: Session, words: &str) -> io::Result<()> {
        self.store.lent.session = s;
        print!(self.rt; "{words}")?;
        self.begin()?;
        self.line()
    }
}

// ---- examples

// Two lines with their stores, a line that is refused, twice, and the place behind it.
fn three_lines(rt: &impl Print, text: &[u8]) -> io::Result<()> {
    let mut t = Load::new(rt, text, 0);
    print!(rt; "three lines:")?;
    t.begin()?;
    t.steps(9)?;
    print!(rt; "\nthe second:")?;
    t.steps(9)?;
    print!(rt; "\nthe third:")?;
    t.line()?;
    print!(rt; "and again:")?;
    t.line()?;
    print!(rt; "behind the last:")?;
    t.at = text.len();
    t.line()
}

// 12 comes before any line, also where none is left.
fn not_ready(rt: &impl Print, text: &[u8]) -> io::Result<()> {
    let mut t = Load::new(rt, text, 0);
    t.in_session(Session::never_opened(), "never opened:")?;
    t.in_session(Session::closed_on(64), "closed:")?;
    print!(rt; "closed, no line left:")?;
    t.at = text.len();
    t.line()?;
    t.at = 0;
    t.in_session(Session::opened(64, Phase::Recovering(0)), "recovering:")
}

// A file made by the caller: staged, then its commit under way.
fn foreign(rt: &impl Print, text: &[u8]) -> io::Result<()> {
    let mut t = Load::new(rt, text, 0);
    make(&mut t.store, 0);
    print!(rt; "staged:")?;
    t.begin()?;
    t.line()?;
    let _ = t.store.commit();
    print!(rt; "its commit under way:")?;
    t.begin()?;
    go_on(&mut t)
}

// The four stores of a commit of one block, then a line with its stores.
fn go_on<P: Print>(t: &mut Load<'_, '_, P>) -> io::Result<()> {
    t.steps(4)?;
    t.next()?;
    print!(t.rt; ", then")?;
    t.steps(9)?;
    t.next()?;
    println!(t.rt)
}

// One step on an empty store.
fn one_line(rt: &impl Print, words: &str, text: &[u8], at: usize) -> io::Result<()> {
    print!(rt; "{words}")?;
    Load::new(rt, text, at).line()
}

fn lines(rt: &impl Print) -> io::Result<()> {
    one_line(rt, "empty file:", b"", 0)?;
    one_line(rt, "one feed:", b"\n", 0)?;
    one_line(rt, "small letters:", b"04A1B2C3;H;1\n04a1b2c3;H;1\n", 13)?;
    one_line(rt, "no feed:", b"04A1B2C3;H;1\n04A1B2C4;H;1", 13)?;
    one_line(
        rt,
        "65 bytes:",
        b"04A1B2C3;H;1\n\n01234567890123456789012345678901234567890123456789012345678901234\n",
        14,
    )
}

// A file of this size.
fn make(t: &mut Mounted<SMALLEST>, size: usize) {
    let _ = t.create(1);
    let _ = t.set_size(1, size);
}

// 22 data blocks, all in one file.
fn no_room(rt: &impl Print) -> io::Result<()> {
    let mut t = Load::new(rt, b"04A1B2C3;H;1250\n", 0);
    make(&mut t.store, 10752);
    t.store.commit_whole();
    print!(rt; "one block free:")?;
    t.line()?;
    let mut u = Load::new(rt, b"\n04A1B2C3;H;1250\n", 1);
    make(&mut u.store, 11264);
    u.store.commit_whole();
    print!(rt; "no block free:")?;
    u.line_kept()
}

fn all_records(rt: &impl Print) -> io::Result<()> {
    let mut t = Load::new(rt, b"04A1B2C3;H;1250\n", 0);
    print!(rt; "128 records:")?;
    t.store.create_all(Limits::INODE_COUNT as u8);
    t.store.commit_whole();
    t.line_kept()
}

fn main(rt: HostRuntime) -> io::Result<()> {
    three_lines(
        &rt,
        b"04A1B2C3;H;1250\n69495546249912580;D;5\n3283263748;D;9\n",
    )?;
    not_ready(&rt, b"04A1B2C3;H;1250\n")?;
    foreign(&rt, b"04A1B2C3;H;1250\n")?;
    lines(&rt)?;
    no_room(&rt)?;
    all_records(&rt)
}
