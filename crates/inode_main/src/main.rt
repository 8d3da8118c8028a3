// Runs the functions of inode and extents on a small device written by hand: records found, trees walked, the blocks and runs of files.
#![tactic(auto)]

use extents::Stretch;
use inode::{Inode, InodeNumber, Step};
use spec::{DiskBlock, Extent, FileBlock, Limits, Phase, Session};
use std::io;
use transaction::{Volume, WorkingCopy};
use trial::{SMALLEST, put};
use walk::Walk;

mod walk;

// Where the table begins, and its second block.
const TABLE: usize = Limits::BLOCK_SIZE * (Limits::INODE_START as usize);

const NEXT_TABLE: usize = TABLE + Limits::BLOCK_SIZE;

// Record 0: 1,500 bytes in blocks 50, 51 and 60. Record 17: an empty file.
fn fill_flat(device: &mut [u8]) {
    put(
        device,
        TABLE,
        b"alphabet\xdc\x05\0\0\0\0\0\0\x32\0\x02\0\x3c\0\x01\0",
    );
    put(device, NEXT_TABLE + Limits::INODE_SIZE, b"voidfile");
}

// Record 2, of depth 1 and damaged: the nodes 45 and 46 name blocks 52 to 54, 55, 48 to 49; 50, and 3,000 blocks from 61 on.
fn fill_deep(device: &mut [u8]) {
    put(
        device,
        TABLE + 2 * Limits::INODE_SIZE,
        b"betatest\0\0\x10\0\x01\0\0\0\x2d\0\x06\0\x2e\0\xb9\x0b",
    );
    put(
        device,
        45 * Limits::BLOCK_SIZE,
        b"\x34\0\x03\0\x37\0\x01\0\x30\0\x02\0",
    );
    put(
        device,
        46 * Limits::BLOCK_SIZE,
        b"\x32\0\x01\0\x3d\0\xb8\x0b",
    );
}

// The copy whose records are told, and where.
#[derive(Clone, Copy)]
struct Teller<'a, 'c, P: Print> {
    rt: &'a P,
    copy: &'c WorkingCopy<'c>,
}

impl<'a, 'c, P: Print> Teller<'a, 'c, P> {
    fn show_found(&self, f: Option<InodeNumber>) -> io::Result<()> {
        match f {
            Some(i) => println!(self.rt; " record {}", i.n),
            None => println!(self.rt; " nothing"),
        }
    }

    fn show_find(&self, name: &str) -> io::Result<()> {
        print!(self.rt; "find {name}")?;
        self.show_found(inode::find(self.copy, name.as_bytes()))
    }

    fn show_empty(&self) -> io::Result<()> {
        print!(self.rt; "empty:")?;
        self.show_found(inode::find_empty(self.copy))
    }

    fn show_record(&self, i: InodeNumber) -> io::Result<()> {
        let inode = Inode::of(self.copy, i);
        let size = inode.size();
        let depth = inode.depth();
        print!(self.rt; "record {}: size {size}, depth {depth}", i.n)?;
        if inode.is_empty() {
            print!(self.rt; ", empty")?;
        }
        println!(self.rt)
    }

    fn show_extent(&self, e: Extent) -> io::Result<()> {
        print!(self.rt; " extent {} {}", e.first, e.count)
    }

    // The extents and nodes of a file's tree.
    fn show_walk(&self, i: InodeNumber) -> io::Result<()> {
        print!(self.rt; "walk of {}:", i.n)?;
        for step in Walk::of(self.copy, i) {
            match step {
                Step::Leaf(e) => self.show_extent(e)?,
                Step::Node(b) => print!(self.rt; " node {}", b.0)?,
            }
        }
        println!(self.rt; " end")
    }

    fn show_block(&self, i: InodeNumber, place: usize) -> io::Result<()> {
        print!(self.rt; "block {place} of {}:", i.n)?;
        match extents::extent_at(self.copy, i, FileBlock(place)) {
            Some((e, skip)) => {
                self.show_extent(e)?;
                println!(self.rt; " skip {skip}")
            }
            None => println!(self.rt; " nothing"),
        }
    }

    fn show_run(&self, stretch: Stretch, k: usize) -> io::Result<()> {
        match extents::nth_extent(self.copy, stretch, k) {
            Some(e) => self.show_extent(e),
            None => print!(self.rt; " nothing"),
        }
    }

    fn each_run(&self, stretch: Stretch, many: usize) -> io::Result<()> {
        for k in 0..many {
            self.show_run(stretch, k)?;
        }
        self.show_run(stretch, many)
    }

    // The runs of n blocks of a file from block `from` on, and one more.
    fn show_runs(&self, i: InodeNumber, from: usize, n: usize) -> io::Result<()> {
        let stretch = Stretch {
            i,
            from: FileBlock(from),
            n,
        };
        let many = extents::count_runs(self.copy, stretch);
        print!(self.rt; "stretch {from} {n} of {}: {many} runs", i.n)?;
        self.each_run(stretch, many)?;
        println!(self.rt)
    }

    fn show_all(&self) -> io::Result<()> {
        self.show_find("alphabet")?;
        self.show_find("betatest")?;
        self.show_find("voidfile")?;
        self.show_find("gammaray")?;
        self.show_find("alphabe")?;
        self.show_empty()?;
        self.show_record(InodeNumber { n: 0 })?;
        self.show_record(InodeNumber { n: 1 })?;
        self.show_record(InodeNumber { n: 2 })?;
        self.show_record(InodeNumber { n: 17 })?;
        self.show_walk(InodeNumber { n: 0 })?;
        self.show_walk(InodeNumber { n: 2 })?;
        self.show_walk(InodeNumber { n: 17 })
    }

    fn show_places(&self) -> io::Result<()> {
        let flat = InodeNumber { n: 0 };
        let deep = InodeNumber { n: 2 };
        let empty = InodeNumber { n: 17 };
        self.show_block(flat, 0)?;
        self.show_block(flat, 1)?;
        self.show_block(flat, 2)?;
        self.show_block(flat, 3)?;
        self.show_block(deep, 2)?;
        self.show_block(deep, 5)?;
        self.show_block(deep, Limits::MAX_FILE_BLOCKS - 1)?;
        self.show_block(deep, Limits::MAX_FILE_BLOCKS)?;
        self.show_block(empty, 0)?;
        self.show_runs(flat, 0, 10)?;
        self.show_runs(flat, 1, 1)?;
        self.show_runs(deep, 0, 8)?;
        self.show_runs(deep, 1, 5)?;
        self.show_runs(deep, 0, usize::MAX)?;
        self.show_runs(deep, 5000, 3)?;
        self.show_runs(empty, 0, 10)
    }
}

fn main(rt: HostRuntime) -> io::Result<()> {
    let mut device = [0u8; SMALLEST];
    let work = [0u8; Limits::WORK_SIZE];
    fill_flat(&mut device);
    fill_deep(&mut device);
    let copy = WorkingCopy::of_device(&device);
    let told = Teller {
        rt: &rt,
        copy: &copy,
    };
    told.show_all()?;
    told.show_places()?;
    println!(rt; "table block 34 staged as zeros")?;
    let session = Session::with_cells(
        64,
        Phase::Ready,
        [Limits::INODE_START; Limits::LOG_LENGTH],
        1,
    );
    let volume = Volume::of(&device, &work, &session);
    Teller {
        rt: &rt,
        copy: &volume.copy,
    }
    .show_all()
}
