// The content of a block after a change: a file record's block, a node, a data block.
#![tactic(auto)]

ghost use Rattle.std.specs.Prelude.{◌≡◌, ◌&&◌, [], ◌∷◌, ◌++◌, ◌+◌, ◌*◌, ◌/◌, ◌<◌, ◌≤◌, take, drop, cond, eqb, leb, length, get_or};
ghost use Rattle.spec.specs.Bytes.{bytes2};
ghost use Rattle.spec.specs.Inode.{extent, counts, bytes_of_inode, bytes_of_slots, inode_with};
ghost use Rattle.spec.specs.Plan.{is_last_kept, holds_data, is_staged};
ghost use Rattle.runs.specs.Runs.{levels_in};
ghost use Rattle.content.specs.Content.{tree_of, with_record, node_content, counts_below, slots_above, last_kept, laid_over, kept_content, data_content};

use block::{copy, place_in_block};
use runs::{DataBlock, Nodes, block_count};
use spec::{ByteOffset, Extent, FileBlock, Limits};

mod prefix;

pub use prefix::RecordPrefix;

// The first bytes of file record i replaced in its block.
pub fn lay_record(block: &mut [u8; Limits::BLOCK_SIZE], i: usize, new: RecordPrefix)
    ensures { block.new ≡ with_record i new.entry.bytes.now block.old }
{
    let at = place_in_block(i);
    copy(new.bytes, &mut block[at..at + new.bytes.len()]);
}

// The extents of node j.
fn extents_of(extents: &[Extent], j: u8) -> &[Extent]
    ensures { result.now ≡ take 128 (drop (128 * j) extents.now) }
{
    extents
        .chunks(Limits::SLOTS_PER_NODE)
        .nth(usize::from(j))
        .unwrap_or(&[])
}

fn slot_bytes(e: Extent) -> [u8; Limits::SLOT_SIZE]
    ensures { result ≡ bytes2 e.first ++ bytes2 e.count }
{
    let [first_low, first_high, ..] = e.first.to_le_bytes();
    let [count_low, count_high, ..] = e.count.to_le_bytes();
    [first_low, first_high, count_low, count_high]
}

// Slots laid one after the other, from the first byte on. By index: of what `as_chunks_mut` or `chunks_exact_mut` lends, std tells nothing once it is given back.
fn lay_slots(out: &mut [u8], slots: &[Extent])
    requires { 4 * length slots.now ≤ length out.old }
    ensures { out.new ≡ bytes_of_slots slots.now ++ drop (4 * length slots.now) out.old }
{
    for (k, e) in slots.iter().enumerate() {
        let at = Limits::SLOT_SIZE * k;
        out[at..at + Limits::SLOT_SIZE].copy_from_slice(&slot_bytes(*e));
    }
}

// The content of node j.
pub fn node_content(extents: &[Extent], j: u8) -> [u8; Limits::BLOCK_SIZE]
    ensures { result ≡ node_content extents.now j }
{
    let mut out = [0u8; Limits::BLOCK_SIZE];
    lay_slots(&mut out, extents_of(extents, j));
    out
}

// The extent at place k, of no blocks past the last one: no Option, since a slot of no blocks is what an unused slot is on the disk.
fn extent_at(extents: &[Extent], k: usize) -> Extent
    ensures { result ≡ get_or extents.now k (extent 0 0) }
{
    extents.get(k).copied().unwrap_or_default()
}

// Slot k of the record: an extent, or a node with the data blocks below it. An unused slot is one of no blocks, as on the disk.
fn top_slot(extents: &[Extent], nodes: &Nodes, k: usize) -> Extent
    requires { counts extents.now < 4294967296 }
    ensures { result ≡ get_or (slots_above (tree_of extents.now nodes.now)) k (extent 0 0) }
{
    let nodes = nodes.as_slice();
    if nodes.is_empty() {
        return extent_at(extents, k);
    }
    match nodes.get(k) {
        Some(first) => Extent {
            first: *first,
            count: block_count(extents_of(extents, k as u8)),
        },
        None => Extent::default(),
    }
}

// The depth, as the record tells it: 0 without nodes, 1 with them.
fn depth_of(nodes: &Nodes) -> u8
    ensures { result ≡ cond (eqb (length nodes.now) 0) 0 1 }
{
    u8::from(nodes.len() != 0)
}

// The fields of a record, one after the other, in their order.
fn joined(
    name: [u8; Limits::NAME_SIZE],
    size: [u8; 4],
    depth: u8,
    slots: &[Extent; Limits::SLOTS_PER_INODE],
) -> [u8; Limits::INODE_SIZE]
    ensures { result ≡ name ++ (size ++ (depth ∷ 0 ∷ 0 ∷ 0 ∷ bytes_of_slots slots.now)) }
{
    let mut out = [0u8; Limits::INODE_SIZE];
    out[12] = depth;
    out[..8].copy_from_slice(&name);
    out[8..12].copy_from_slice(&size);
    lay_slots(&mut out[16..], slots);
    out
}

// "Bytes 0 to 7 name; 8 to 11 size in bytes; 12 depth, 0 or 1; 13 to 15 zero; 16 to 31 four slots."
pub fn record_bytes(
    name: [u8; Limits::NAME_SIZE],
    size: u32,
    extents: &[Extent],
    nodes: &Nodes,
) -> [u8; Limits::INODE_SIZE]
    requires { counts extents.now < 4294967296 }
    ensures { result ≡ bytes_of_inode (inode_with name size extents.now (levels_in (tree_of extents.now nodes.now))) }
{
    let slots = std::array::from_fn(|k| top_slot(extents, nodes, k));
    joined(name, size.to_le_bytes(), depth_of(nodes), &slots)
}

// How a change treats the data blocks of a file: how many it held, its size before and after, and the bytes laid over it at x.
#[derive(Clone, Copy)]
pub struct Rewrite<'a> {
    pub held: usize,
    pub old: usize,
    pub size: usize,
    pub x: ByteOffset,
    pub bytes: &'a [u8],
    pub ghost fits: { x.0 + length bytes.now ≤ 1048576 },
}

impl Rewrite<'_> {
    // The data laid over block p of the file.
    fn lay_over(&self, block: &mut [u8; Limits::BLOCK_SIZE], p: DataBlock)
        ensures { block.new ≡ laid_over self.now.x.0 self.now.bytes.now p.0 block.old }
    {
        let start = Limits::BLOCK_SIZE * p.0 as usize;
        let x = self.x.0;
        let from = Limits::BLOCK_SIZE.min(x.saturating_sub(start));
        let end = Limits::BLOCK_SIZE.min((x + self.bytes.len()).saturating_sub(start));
        if from < end {
            let part = &self.bytes[start + from - x..start + end - x];
            copy(part, &mut block[from..end]);
        }
    }

    // Whether the data covers the whole of block p of the file.
    fn is_covered(&self, p: DataBlock) -> bool
        ensures { result ≡ leb self.now.x.0 (512 * p.0) && leb (512 * p.0 + 512) (self.now.x.0 + length self.now.bytes.now) }
    {
        let start = Limits::BLOCK_SIZE * p.0 as usize;
        (self.x.0 <= start) & (start + Limits::BLOCK_SIZE <= self.x.0 + self.bytes.len())
    }

    // "on shortening to a size not divisible by 512, the last kept block"
    pub fn last_kept(&self) -> Option<FileBlock>
        ensures { result ≡ last_kept self.now.old self.now.size }
    {
        if (self.size < self.old) & (self.size % Limits::BLOCK_SIZE != 0) {
            return Some(FileBlock(self.size / Limits::BLOCK_SIZE));
        }
        None
    }

    fn is_last_kept(&self, p: DataBlock) -> bool
        ensures { result ≡ is_last_kept self.now.old self.now.size p.0 }
    {
        self.last_kept().is_some_and(|k| p.0 as usize == k.0)
    }

    // "each data block holding a byte of the data"
    fn holds_data(&self, p: DataBlock) -> bool
        ensures { result ≡ holds_data self.now.x.0 self.now.bytes.now p.0 }
    {
        let n = self.bytes.len();
        let start = Limits::BLOCK_SIZE * p.0 as usize;
        (0 < n) & (self.x.0 < start + Limits::BLOCK_SIZE) & (start < self.x.0 + n)
    }

    // "each data block holding a byte of the data; each new data .. block; .. the last kept block"
    pub fn is_staged(&self, p: DataBlock) -> bool
        ensures { result ≡ is_staged self.now.held self.now.old self.now.size self.now.x.0 self.now.bytes.now p.0 }
    {
        (self.held <= p.0 as usize) | self.holds_data(p) | self.is_last_kept(p)
    }

    // The first place of a file that holds data, at most as many as were held.
    pub fn first_data(&self) -> FileBlock
        ensures { (result.0 ≤ self.now.held) × (0 < length self.now.bytes.now → result.0 ≤ self.now.x.0 / 512) }
    {
        if self.bytes.is_empty() {
            return FileBlock(self.held);
        }
        FileBlock(self.held.min(self.x.0 / Limits::BLOCK_SIZE))
    }

    // Block p of the file before the data is laid over it: a new one is zeros, in the last kept one the bytes from the size on are.
    fn clear(&self, block: &mut [u8; Limits::BLOCK_SIZE], p: DataBlock)
        ensures { block.new ≡ kept_content self.now.held self.now.old self.now.size p.0 block.old }
    {
        if self.held <= p.0 as usize {
            block.fill(0);
        } else if self.is_last_kept(p) {
            block[self.size % Limits::BLOCK_SIZE..].fill(0);
        }
    }

    // Block p of the file as the change leaves it. Where the data covers it, what it held plays no part.
    pub fn lay(&self, block: &mut [u8; Limits::BLOCK_SIZE], p: DataBlock)
        ensures { block.new ≡ data_content self.now.held self.now.old self.now.size self.now.x.0 self.now.bytes.now p.0 block.old }
    {
        if !self.is_covered(p) {
            self.clear(block, p);
        }
        self.lay_over(block, p);
    }
}
