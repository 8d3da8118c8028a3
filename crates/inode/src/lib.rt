// File records and the walk over a file's tree of extents, in the working copy.
#![tactic(auto)]

ghost use Rattle.std.specs.List.{AllPass};
ghost use Rattle.std.specs.Prelude.{◌≡◌, true, not, List, [], ℕ, ◌+◌, ◌*◌, ◌<◌, ◌≤◌, ◌==◌, length, take, get_or, position, IfSome};
ghost use Rattle.spec.specs.Bytes.{exactly, all_zero};
ghost use Rattle.spec.specs.Disk.{Disk, blocks_of};
ghost use Rattle.spec.specs.Inode.{inode_of, block_of_inode, find, find_empty, blocks_for, nodes_for};
ghost use Rattle.transaction.specs.Volumes.{working};
ghost use Rattle.block.specs.Keys.{key_of, Name};
ghost use Rattle.inode.specs.Records.{record_in, named, found_of, lowest_to, number_told, is_table};
ghost use Rattle.inode.specs.Walk.{slot_in, live, leaf, Passed, Enters, Steps, start_of};

use block::{area_of, key_of, on_whole, place_in_block};
use spec::{Area, DiskBlock, Extent, Limits};
use transaction::WorkingCopy;

mod inode;
mod number;
mod slot_block;

pub use inode::Inode;
pub use number::InodeNumber;
pub use slot_block::SlotBlock;

// The bytes of the device that hold the table: blocks 34 to 41.
const TABLE_START: usize = Limits::BLOCK_SIZE * (Limits::INODE_START as usize);

const TABLE_END: usize = TABLE_START + Limits::INODE_SIZE * Limits::INODE_COUNT;

const TABLE_BLOCKS: usize = Limits::INODE_COUNT / Limits::INODES_PER_BLOCK;

// The block of the table that holds record i.
pub fn table_block(i: InodeNumber) -> DiskBlock
    ensures { result.0 ≡ block_of_inode i.n }
{
    DiskBlock(Limits::INODE_START + (i.n / Limits::INODES_PER_BLOCK) as u32)
}

// The working copy of the table's block that holds record i; no longer than a block. Where nothing is staged, it lies at its place on the device:
// found there as any other block is, a record takes 8 ns in place of 7.
pub fn inode_block<'a>(copy: &WorkingCopy<'a>, i: InodeNumber) -> &'a [u8]
    ensures { (exactly 512 result.now ≡ working copy.now (block_of_inode i.n)) × (length result.now ≤ 512) }
{
    let device = copy.device;
    if copy.staged.list.is_empty() && TABLE_END <= device.len() {
        let at = TABLE_START + Limits::BLOCK_SIZE * (i.n / Limits::INODES_PER_BLOCK);
        let end = at + Limits::BLOCK_SIZE;
        return &device[at..end];
    }
    copy.block(table_block(i))
}

// The first of some records whose name has this key.
fn first_with(records: &[[u8; Limits::INODE_SIZE]], key: u64) -> Option<usize>
    ensures { (result ≡ position (λ inode. key_of (take 8 inode) == key) records.now) × IfSome result (λ k. k < length records.now) }
{
    records
        .iter()
        .position(|inode| key_of(inode.first_chunk::<8>().unwrap()) == key)
}

// The lowest of the 16 records of a block of the table that has this name, counted from the block's first. The block may end early.
fn find_in_block(table: &[u8], key: u64) -> Option<usize>
    ensures { ((name : List ℕ) → Name name → key ≡ key_of name → result ≡ lowest_to 16 (named table.now name) 0) × IfSome result (λ k. k < 16) }
{
    on_whole(table, |whole| {
        let (records, _) = whole.as_chunks();
        first_with(records, key)
    })
}

// The record with this name, block by block. By a loop: with `find_map` the closure needs two clauses of its own, for the block and for its records, and with
// both proved the clause of the result still stays open.
fn find_key(copy: &WorkingCopy, key: u64) -> Option<InodeNumber>
    ensures { (name : List ℕ) → Name name → key ≡ key_of name → number_told result ≡ found_of (find (working copy.now) name) }
{
    for block in 0..TABLE_BLOCKS {
        let first = Limits::INODES_PER_BLOCK * block;
        let table = inode_block(copy, InodeNumber { n: first });
        if let Some(k) = find_in_block(table, key) {
            return Some(InodeNumber { n: first + k });
        }
    }
    None
}

// The same in the table as it lies on the device. One search for both takes 42 ns in place of 21.
fn find_committed(device: &[u8], key: u64) -> Option<InodeNumber>
    requires { 21504 ≤ length device.now }
    ensures { (name : List ℕ) → Name name → key ≡ key_of name → number_told result ≡ found_of (find (blocks_of device.now) name) }
{
    let (records, _) = device[TABLE_START..TABLE_END].as_chunks();
    let i = first_with(records, key)?;
    Some(InodeNumber { n: i })
}

// Whether a block is one of the table.
fn is_table(b: DiskBlock) -> bool
    ensures { result ≡ is_table b.0 }
{
    matches!(area_of(b), Area::Inodes)
}

// Whether no block of the table is among these.
fn is_table_committed(staged: &[u32]) -> bool
    ensures { result ≡ true → AllPass (λ b. not (is_table b)) staged.now }
{
    staged.iter().all(|b| !is_table(DiskBlock(*b)))
}

// The record with this name.
pub fn find(copy: &WorkingCopy, name: &[u8]) -> Option<InodeNumber>
    ensures { number_told result ≡ found_of (find (working copy.now) name.now) }
{
    let key = key_of(name.as_array()?);
    if TABLE_END <= copy.device.len() && is_table_committed(copy.staged.list) {
        return find_committed(copy.device, key);
    }
    find_key(copy, key)
}

// The lowest empty record: the one whose name is all zero.
pub fn find_empty(copy: &WorkingCopy) -> Option<InodeNumber>
    ensures { number_told result ≡ found_of (find_empty (working copy.now)) }
{
    let none = [0u8; 8];
    find(copy, &none)
}

// A place in a file's tree: `left` leaf slots from byte `at` of `block`, then the nodes named by `tops` slots from byte `top` of the record's block.
// Places and counts, no slices of slots: a block may end early, which no slice of whole slots shows without a copy, and a cursor outlives the loan of the block that a step reads.
#[derive(Clone, Copy)]
pub struct Cursor {
    pub block: u32,
    pub at: usize,
    pub left: usize,
    pub top: usize,
    pub tops: usize,
}

// What a step of the walk finds: an extent, or a node, whose extents follow.
#[derive(Clone, Copy)]
pub enum Step {
    Leaf(Extent),
    Node(DiskBlock),
}

impl Cursor {
    // The next step of the walk over a tree whose record stands in this block, and the cursor behind it.
    pub fn step(&self, copy: &WorkingCopy, record_block: DiskBlock) -> Option<(Step, Cursor)>
        ensures { Steps (working copy.now) record_block.0 self.now result }
    {
        let leaf = SlotBlock {
            bytes: copy.block(DiskBlock(self.block)),
        };
        if let Some((e, then)) = self.pass(&leaf) {
            return Some((Step::Leaf(e), then));
        }
        let table = SlotBlock {
            bytes: copy.block(record_block),
        };
        let (b, then) = self.enter(&table)?;
        Some((Step::Node(b), then))
    }

    // The next extent of the leaf, which is the block of the cursor, and the cursor behind it.
    pub fn pass(&self, leaf: &SlotBlock) -> Option<(Extent, Cursor)>
        ensures { (v : Disk) (tb : ℕ) → exactly 512 leaf.now.bytes.now ≡ v self.now.block → Passed v tb self.now result }
    {
        let e = leaf.slot(self.at);
        if !is_live(self.left, e) {
            return None;
        }
        let then = Cursor {
            at: self.at + Limits::SLOT_SIZE,
            left: self.left - 1,
            ..*self
        };
        Some((e, then))
    }

    // Where no leaf slot is left: the next node, named by a slot of the record's block, and the cursor before its extents.
    pub fn enter(&self, table: &SlotBlock) -> Option<(DiskBlock, Cursor)>
        ensures { (v : Disk) (tb : ℕ) → exactly 512 table.now.bytes.now ≡ v tb
            → leaf v self.now.block self.now.at self.now.left ≡ [] → Enters v tb self.now result }
    {
        let t = table.slot(self.top);
        if !is_live(self.tops, t) {
            return None;
        }
        let then = Cursor {
            block: t.first,
            at: 0,
            left: Limits::SLOTS_PER_NODE,
            top: self.top + Limits::SLOT_SIZE,
            tops: self.tops - 1,
        };
        Some((DiskBlock(t.first), then))
    }
}

// A slot's four bytes.
pub fn slot_of(bytes: &[u8; Limits::SLOT_SIZE]) -> Extent
    ensures { (result ≡ slot_in 0 bytes.now) × (result.first < 65536) × (result.count < 65536) }
{
    let [a, b, c, d] = *bytes;
    Extent {
        first: u32::from(u16::from_le_bytes([a, b])),
        count: u32::from(u16::from_le_bytes([c, d])),
    }
}

// Whether slots are left and the first of them is used.
#[tactic(auto, unfolding(crate::specs::Walk::live))]
pub fn is_live(n: usize, e: Extent) -> bool
    ensures { result ≡ live n e }
{
    0 < n && e.count != 0
}

// The cursor before the first extent of record i, of the block of the table that holds it.
pub fn start_at(table: &[u8], i: InodeNumber) -> Cursor
    ensures { (v : Disk) → exactly 512 table.now ≡ v (block_of_inode i.n) → result ≡ start_of v i.n }
{
    let tb = table_block(i);
    let slots = place_in_block(i.n) + 16;
    let inode = Inode { table, i: i.n };
    if inode.depth() == 0 {
        Cursor {
            block: tb.0,
            at: slots,
            left: Limits::SLOTS_PER_INODE,
            top: 0,
            tops: 0,
        }
    } else {
        Cursor {
            block: tb.0,
            at: 0,
            left: 0,
            top: slots,
            tops: Limits::SLOTS_PER_INODE,
        }
    }
}

// "A file of size s has s/512 blocks, rounded up."
pub fn blocks_for(size: usize) -> usize
    requires { size < 4294967296 }
    ensures { (result ≡ blocks_for size) × (result ≤ 8388608) }
{
    size.div_ceil(Limits::BLOCK_SIZE)
}

// "Extent blocks are one for each 128 extents begun, when there are more than 4."
pub fn nodes_for(extents: usize) -> usize
    ensures { (result ≡ nodes_for extents) × (128 * result ≤ extents + 127) }
{
    if extents <= Limits::SLOTS_PER_INODE {
        return 0;
    }
    extents.div_ceil(Limits::SLOTS_PER_NODE)
}
