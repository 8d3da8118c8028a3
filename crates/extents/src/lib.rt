// Stretches of a file's data blocks: their pieces and their maximal runs.
#![tactic(auto)]

ghost use Rattle.std.specs.Prelude.{◌≡◌, [], ℕ, ◌+◌, ◌<◌, ◌≤◌, ◌++◌, length};
ghost use Rattle.std.specs.Option.{ForSome};
ghost use Rattle.std.proofs.Math.ListN.{get_elem?};
ghost use Rattle.spec.specs.Bytes.{exactly};
ghost use Rattle.spec.specs.Disk.{Disk};
ghost use Rattle.spec.specs.Inode.{block_of_inode, blocks_in, runs};
ghost use Rattle.transaction.specs.Volumes.{working};
ghost use Rattle.inode.specs.Walk.{leaf};
ghost use Rattle.extents.specs.Stretches.{Places, Starts, SlotSteps, NodeSteps, Passes, run_of, runs_in, held_blocks, held_count};
ghost use Rattle.extents.specs.Pieces.{pieces_left};

use inode::{Cursor, InodeNumber, SlotBlock, Step, inode_block, slot_of, start_at, table_block};
use spec::{DiskBlock, Extent, FileBlock, Limits};
use transaction::WorkingCopy;

mod piece;
mod pieces;

pub use piece::Piece;
pub use pieces::Pieces;

// n data blocks of a record from a block of its file on, as far as there are.
#[derive(Clone, Copy)]
pub struct Stretch {
    pub i: InodeNumber,
    pub from: FileBlock,
    pub n: usize,
}

// The extent that holds block `place` of a file, and how many of its blocks lie before that one. A `while let`: the cursor moves on with what is left to pass.
pub fn extent_at(copy: &WorkingCopy, i: InodeNumber, place: FileBlock) -> Option<(Extent, usize)>
    ensures { Places (working copy.now) i.n place.0 result }
{
    if Limits::MAX_FILE_BLOCKS <= place.0 {
        return None;
    }
    let record_block = table_block(i);
    let mut at = start_at(inode_block(copy, i), i);
    let mut left = place.0;
    while let Some((step, then)) = at.step(copy, record_block) {
        match step {
            Step::Leaf(e) => {
                let count = e.count as usize;
                if left < count {
                    return Some((e, left));
                }
                left -= count;
                at = then;
            }
            Step::Node(_) => at = then,
        }
    }
    None
}

// What is left of a stretch: `room` blocks, from `skip` blocks behind a cursor on.
#[derive(Clone, Copy)]
pub struct Scan {
    pub at: Cursor,
    pub skip: usize,
    pub room: usize,
}

// All of a stretch, of the block of the table that holds its record.
pub fn scan_of(table: &[u8], stretch: Stretch) -> Scan
    ensures { (v : Disk) → exactly 512 table.now ≡ v (block_of_inode stretch.i.n) → Starts v stretch.i.n stretch.from.0 stretch.n result }
{
    let at = start_at(table, stretch.i);
    let skip = stretch.from.0;
    let room = stretch.n.min(Limits::MAX_FILE_BLOCKS.saturating_sub(skip));
    Scan { at, skip, room }
}

// What the first slot that is left of a leaf does to a stretch: three cases, each with its own step of the walk.
#[derive(Clone, Copy)]
pub enum AtSlot {
    Piece(Piece, Scan),
    Passed(Scan),
    Unused,
}

// The first slot of a stretch that is not at its end, read from the block of its cursor: a walk lends each block once.
pub fn take_slot(block: &SlotBlock, scan: Scan) -> AtSlot
    requires { 0 < scan.room }
    ensures { (v : Disk) (tb : ℕ) → exactly 512 block.now.bytes.now ≡ v scan.at.block → SlotSteps v tb scan result }
{
    let Some((e, then)) = scan.at.pass(block) else {
        return AtSlot::Unused;
    };
    let room = scan.room;
    let count = e.count as usize;
    if count <= scan.skip {
        return AtSlot::Passed(Scan {
            at: then,
            skip: scan.skip - count,
            room,
        });
    }
    let here = (count - scan.skip).min(room);
    AtSlot::Piece(
        Piece {
            extent: Extent {
                first: e.first + scan.skip as u32,
                count: here as u32,
            },
        },
        Scan {
            at: then,
            skip: 0,
            room: room - here,
        },
    )
}

// The stretch behind all slots of this block that end before it begins: a loop over the slots alone, since a short read behind many extents does little else. Of a
// block that ends early it may leave one that the bytes cut, which the next step takes.
pub fn pass_slots(block: &SlotBlock, scan: Scan) -> Scan
    ensures { (v : Disk) (tb : ℕ) → exactly 512 block.now.bytes.now ≡ v scan.at.block → Passes v tb scan result }
{
    let from = scan.at;
    let mut skip = scan.skip;
    let mut passed = 0;
    for bytes in block.whole_slots(from.at, from.left) {
        let count = slot_of(bytes).count as usize;
        if (count == 0) | (skip < count) {
            break;
        }
        skip -= count;
        passed += 1;
    }
    let at = Cursor {
        at: from.at + Limits::SLOT_SIZE * passed,
        left: from.left - passed,
        ..from
    };
    Scan { at, skip, ..scan }
}

// The next node of a stretch, which follows a leaf with no slot left, read from the block of its record.
pub fn take_node(table: &SlotBlock, scan: Scan) -> Option<(DiskBlock, Scan)>
    ensures { (v : Disk) (tb : ℕ) → exactly 512 table.now.bytes.now ≡ v tb
        → leaf v scan.at.block scan.at.at scan.at.left ≡ [] → NodeSteps v tb scan result }
{
    let (b, at) = scan.at.enter(table)?;
    Some((b, Scan { at, ..scan }))
}

// The maximal runs of a stretch, one by one: pieces that touch, as a damaged file may have them, are joined. The run that may go on is held, where there is one:
// with std's `Peekable`, which looks at the next piece instead, a walk would be neither Clone nor Copy.
#[derive(Clone, Copy)]
pub struct Runs<'a> {
    pub pieces: Pieces<'a>,
    pub run: Option<Extent>,
    pub ghost first: { ForSome run (λ e. e.first < 131072) },
    pub ghost some: { ForSome run (λ e. 0 < e.count) },
    pub ghost few: { held_count run + length (blocks_in (pieces_left pieces)) ≤ 2048 },
}

impl<'a> Runs<'a> {
    ghost use Rattle.extents.specs.Runs.{runs_left};

    // The runs of a stretch.
    pub fn of(copy: &WorkingCopy<'a>, stretch: Stretch) -> Runs<'a>
        ensures { (runs_left result ≡ runs_in (working copy.now) stretch.i.n stretch.from.0 stretch.n) × (length (runs_left result) ≤ 2048) }
    {
        Runs::behind(None, Pieces::of(copy, stretch))
    }

    // The runs of the pieces that are left at any place, where a run that is held may go on.
    pub fn behind(run: Option<Extent>, pieces: Pieces<'a>) -> Runs<'a>
        requires { ForSome run (λ e. (e.first < 131072) × (0 < e.count)) × (held_count run + length (blocks_in (pieces_left pieces)) ≤ 2048) }
        ensures { runs_left result ≡ runs (held_blocks run ++ blocks_in (pieces_left pieces.entry)) }
    {
        Runs { pieces, run }
    }
}

impl<'a> Iterator for Runs<'a> {
    ghost use Rattle.extents.specs.Runs.{runs_left};
    ghost use Rattle.std.specs.Iterator.{YieldsFirst, item_count};

    type Item = Extent;

    ghost next_gives = { YieldsFirst runs_left };

    ghost remaining = { item_count runs_left };

    // A `while let`: behind a `for` over `&mut self.pieces`, `next_gives` and the field `few` stay open, since `next` of a `&mut` does not say that it keeps the reference.
    #[inline(always)]
    fn next(&mut self) -> Option<Extent> {
        while let Some(piece) = self.pieces.next() {
            let e = piece.extent;
            match self.run {
                Some(run) if run.first + run.count == e.first => {
                    self.run = Some(Extent {
                        first: run.first,
                        count: run.count + e.count,
                    });
                }
                Some(run) => {
                    self.run = Some(e);
                    return Some(run);
                }
                None => self.run = Some(e),
            }
        }
        self.run.take()
    }
}

// The k-th maximal run of a stretch.
pub fn nth_extent(copy: &WorkingCopy, stretch: Stretch, k: usize) -> Option<Extent>
    ensures { result ≡ run_of (get_elem? (runs_in (working copy.now) stretch.i.n stretch.from.0 stretch.n) k) }
{
    Runs::of(copy, stretch).nth(k)
}

// How many maximal runs a stretch has.
pub fn count_runs(copy: &WorkingCopy, stretch: Stretch) -> usize
    ensures { result ≡ length (runs_in (working copy.now) stretch.i.n stretch.from.0 stretch.n) }
{
    Runs::of(copy, stretch).count()
}
