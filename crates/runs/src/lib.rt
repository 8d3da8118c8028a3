// A file's extents, and growing them at their end.
#![tactic(auto)]

ghost use Rattle.std.specs.Option.{option_copied};
ghost use Rattle.std.specs.Prelude.{◌≡◌, ◌+◌, ◌^◌, ◌<◌, ◌≤◌, length, take, sum_by};
ghost use Rattle.runs.specs.Runs.{listed};
ghost use Rattle.runs.specs.Push.{Pushed, last_count, no_extents};

use spec::{DiskBlock, Extent, Limits};

mod nodes;

pub use nodes::Nodes;

// Which data block of a file: one of fewer than 2^32, so that no function over it has to ask that its bytes can be counted, as one over `FileBlock` would.
#[derive(Clone, Copy)]
pub struct DataBlock(pub u32);

// How many extents a list has, and the block after the last one. It counts the extents that the list's array does not hold.
#[derive(Clone, Copy)]
pub struct ListEnd {
    pub len: usize,
    pub next: usize,
}

// A file's first 512 extents, and where all of them end. No ArrayVec: it does not count the extents past its places, as `end` does.
#[derive(Clone, Copy)]
pub struct ExtentList {
    pub cells: [Extent; Limits::MAX_EXTENTS],
    pub end: ListEnd,
}

impl ExtentList {
    // A list of no extents.
    pub fn empty() -> ExtentList
        ensures { result ≡ no_extents }
    {
        ExtentList {
            cells: [Extent::default(); Limits::MAX_EXTENTS],
            end: ListEnd { len: 0, next: 0 },
        }
    }

    // c blocks from b on, behind the extents: joined to the last one where that ends at b.
    pub fn push(&mut self, b: DiskBlock, c: u32)
        requires { (last_count self.old + c < 4294967296) × (self.old.end.len < 1000000) × (self.old.end.next < 1000000000000) }
        ensures { Pushed self.old b.0 c self.new }
    {
        let len = self.end.len;
        let joins = (0 < len) & (self.end.next == b.0 as usize);
        self.end.next = b.0 as usize + c as usize;
        if joins {
            if len <= Limits::MAX_EXTENTS {
                self.cells[len - 1].count += c;
            }
            return;
        }
        self.end.len = len + 1;
        if len < Limits::MAX_EXTENTS {
            self.cells[len] = Extent {
                first: b.0,
                count: c,
            };
        }
    }

    // The extents, where the array holds all of them.
    pub fn listed(&self) -> Option<&[Extent]>
        ensures { option_copied result ≡ listed self.now }
    {
        self.cells.get(..self.end.len)
    }
}

// How many blocks some extents have.
pub fn block_count(extents: &[Extent]) -> u32
    requires { sum_by (λ e. e.count) extents.now < 2 ^ 32 }
    ensures { result ≡ sum_by (λ e. e.count) extents.now }
{
    extents.iter().map(|e| e.count).sum()
}
