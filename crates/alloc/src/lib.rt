// The plan of a change: the blocks wanted, refusals 16 and 17, the new tree and bitmap.
#![tactic(auto)]

ghost use Rattle.std.specs.Prelude.{◌≡◌, true, ◌+◌, ◌*◌, ◌-◌, ◌%◌, ◌<◌, ◌≤◌, length, take, drop, set};
ghost use Rattle.spec.specs.Bytes.{exactly, up_from};
ghost use Rattle.spec.specs.Disk.{Disk};
ghost use Rattle.spec.specs.Bitmap.{bits_of, free_bits, mark};
ghost use Rattle.spec.specs.Inode.{block_of_inode};
ghost use Rattle.transaction.specs.Volumes.{working};
ghost use Rattle.runs.specs.Push.{Small};
ghost use Rattle.alloc.specs.Parts.{data_at, nodes_at, Picked, KeptOf, GaveBack, TookData, TookNodes};
ghost use Rattle.alloc.specs.Draft.{Drafted};

use bitmap::{Bitmap, free_in};
use extents::{Pieces, Stretch};
use inode::{InodeNumber, SlotBlock, inode_block, is_live, nodes_for, start_at};
use runs::{ExtentList, Nodes};
use spec::{DiskBlock, Extent, FileBlock, Limits, Refusal};
use transaction::WorkingCopy;

// The tree after a change: its extents and nodes, and how many nodes and data blocks the file held before. The bitmap stands in what was lent.
#[derive(Clone, Copy)]
pub struct Draft<'a> {
    pub extents: &'a [Extent],
    pub nodes: Nodes,
    pub before: usize,
    pub held: usize,
}

// The lowest free block taken, where no bit below word `from` is 0.
fn pick(t: &mut Bitmap, from: usize) -> DiskBlock
    requires { (free_bits (take (64 * from) (bits_of t.old.bytes)) ≡ 0) × (0 < free_bits (bits_of t.old.bytes)) }
    ensures { Picked t.old.bytes t.new.bytes result.0 }
{
    let b = t.lowest_free_from(from).unwrap();
    t.set(b);
    b
}

// The extents of the first `wanted` data blocks of record i put in a list; how many blocks they are.
fn keep(extents: &mut ExtentList, copy: &WorkingCopy, i: InodeNumber, wanted: usize) -> usize
    requires { Small extents.old 0 }
    ensures { KeptOf (data_at (working copy.now) i.n) wanted extents.new result }
{
    let front = Stretch {
        i,
        from: FileBlock(0),
        n: wanted,
    };
    let mut n: usize = 0;
    for e in Pieces::of(copy, front) {
        extents.push(DiskBlock(e.extent.first), e.extent.count);
        n += e.extent.count as usize;
    }
    n
}

// The data blocks of record i from block `from` on given back, where so many of those before are kept; how many.
fn give_back(
    t: &mut Bitmap,
    copy: &WorkingCopy,
    i: InodeNumber,
    from: FileBlock,
    kept: usize,
) -> usize
    requires { kept ≡ length (take from.0 (data_at (working copy.now) i.n)) }
    ensures { GaveBack (drop from.0 (data_at (working copy.now) i.n)) t.old.bytes t.new.bytes result }
{
    if kept < from.0 {
        return 0;
    }
    let back = Stretch {
        i,
        from,
        n: Limits::MAX_FILE_BLOCKS,
    };
    let mut count: usize = 0;
    for e in Pieces::of(copy, back) {
        t.clear_run(DiskBlock(e.extent.first), e.extent.count);
        count += e.extent.count as usize;
    }
    count
}

// n blocks picked in turn, behind the `kept` ones that the file keeps.
fn take_data(t: &mut Bitmap, extents: &mut ExtentList, kept: usize, n: usize)
    requires { Small extents.old kept × (kept ≤ 2048) × (n ≤ free_bits (bits_of t.old.bytes)) × (n ≤ 4096) }
    ensures { TookData t.old.bytes t.new.bytes extents.old kept n extents.new }
{
    let mut from: usize = 0;
    for _ in 0..n {
        let b = pick(t, from);
        extents.push(b, 1);
        from = (b.0 / 64) as usize;
    }
}

// The nodes of record i, of the block of the table that holds it. By number: whether a slot is in use depends on how many come behind it. That
// some are left is so here, but `is_live` is the walk's own test, and its laws are told of it.
fn held_nodes(table: &SlotBlock, i: InodeNumber) -> Nodes
    ensures { (v : Disk) → exactly 512 table.now.bytes.now ≡ v (block_of_inode i.n) → result ≡ nodes_at v i.n }
{
    let cur = start_at(table.bytes, i);
    let mut nodes = Nodes::empty();
    for k in 0..cur.tops {
        let e = table.slot(cur.top + Limits::SLOT_SIZE * k);
        if !is_live(cur.tops - k, e) {
            return nodes;
        }
        nodes.push(DiskBlock(e.first));
    }
    nodes
}

// The first `wanted` of the nodes held, and behind them those that they lack, picked in turn.
fn take_nodes(t: &mut Bitmap, held: &Nodes, wanted: usize) -> Nodes
    requires { (wanted ≤ 4) × (wanted - length held.now ≤ free_bits (bits_of t.old.bytes)) }
    ensures { TookNodes t.old.bytes t.new.bytes held.now wanted result }
{
    let mut nodes = held.prefix(wanted);
    for _ in held.len()..wanted {
        nodes.push(pick(t, 0));
    }
    nodes
}

// The nodes held behind the first `wanted` given back.
fn give_nodes(t: &mut Bitmap, held: &Nodes, wanted: usize)
    ensures { bits_of t.new.bytes ≡ mark 0 (drop wanted held.now) (bits_of t.old.bytes) }
{
    for b in held.as_slice().iter().skip(wanted) {
        t.clear_run(DiskBlock(*b), 1);
    }
}

// The tree of record i with so many data blocks, or 16 or 17.
pub fn draft_of<'a>(
    table: &mut Bitmap,
    extents: &'a mut ExtentList,
    copy: &WorkingCopy,
    i: InodeNumber,
    wanted: usize,
) -> Result<Draft<'a>, Refusal>
    requires { (wanted ≤ 8388608) × (table.old.bytes ≡ working copy.now 33) × Small extents.old 0 }
    ensures { Drafted (working copy.now) i.n wanted table.new.bytes result }
{
    let free = free_in(&table.bytes);
    let kept = keep(extents, copy, i, wanted);
    let fresh = wanted - kept;
    if free < fresh {
        return Err(Refusal::NoSpace);
    }
    take_data(table, extents, kept, fresh);
    let records = SlotBlock {
        bytes: inode_block(copy, i),
    };
    let held = held_nodes(&records, i);
    let many = nodes_for(extents.end.len);
    let lacking = many.saturating_sub(held.len());
    if free < fresh + lacking {
        return Err(Refusal::NoSpace);
    }
    let Some(extents) = extents.listed() else {
        return Err(Refusal::TooManyExtents);
    };
    let nodes = take_nodes(table, &held, many);
    let dropped = give_back(table, copy, i, FileBlock(wanted), kept);
    give_nodes(table, &held, many);
    Ok(Draft {
        extents,
        nodes,
        before: held.len(),
        held: kept + dropped,
    })
}
