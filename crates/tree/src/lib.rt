// The tree of a file walked once: its extents and nodes tested, and their blocks marked.
#![tactic(auto)]

ghost use Rattle.std.specs.Prelude.{◌≡◌, [], ◌∷◌, ◌+◌, ◌*◌, ◌-◌, ◌≤◌, ◌<◌, min, length};
ghost use Rattle.spec.specs.Inode.{used};
ghost use Rattle.spec.specs.Sound.{slots_packed, extent_inside};
ghost use Rattle.marks.specs.Marks.{Kept};
ghost use Rattle.marks.specs.Device.{disk_of};
ghost use Rattle.tree.specs.Slots.{slots_left};
ghost use Rattle.tree.specs.Runs.{tail_at, with_extent, over_extents, flat, with_node, over_nodes, no_run, no_nodes};
ghost use Rattle.tree.specs.Reached.{blocks_from, tree_from};

mod slots;

use block::in_data;
use marks::{Device, Marks};
use slots::Slot;
pub use slots::Slots;
use spec::{DiskBlock, FileBlock, Limits};

// What a walk over the extents of a file has found so far: whether they all lie within 42 to N-1, and apart; where the last one ends;
// how many there are, and blocks in them; and the file's last block, where its size ends within it. `extents` tells whether one has ended.
// The flags stay beside the totals: totals, flags and marks of any slots are promised, whether or not the slots pass the tests, and an Option that ends the walk
// would tell nothing where one does not.
#[derive(Clone, Copy)]
pub struct ExtentTests {
    pub inside: bool,
    pub apart: bool,
    pub end: u32,
    pub extents: usize,
    pub blocks: usize,
    pub tail: Option<DiskBlock>,
}

// And over its nodes: whether they all lie within 42 to N-1 and are packed, count as the slots above tell, and are full but for the last;
// how many slots there are above, and blocks that they count. Flags beside totals, as above.
#[derive(Clone, Copy)]
pub struct NodeTests {
    pub run: ExtentTests,
    pub sound: bool,
    pub agree: bool,
    pub filled: bool,
    pub full: bool,
    pub tops: usize,
    pub counts: usize,
}

// What a record's four slots tell of nodes, and whether those behind the used ones are zero. Flags beside totals, as above.
#[derive(Clone, Copy)]
pub struct Tops {
    pub nodes: NodeTests,
    pub packed: bool,
}

// A walk over the tree of a file: where, and in which block of the file its size ends.
#[derive(Clone, Copy)]
pub struct Walk<'a> {
    pub device: Device<'a>,
    pub last: FileBlock,
}

impl<'a> Slots<'a> {
    // S4. "the others are zero": the first so many of these slots are the used ones.
    #[tactic(auto, using(crate::proofs::Reading::used_most))]
    pub fn are_packed(self, many: usize) -> bool
        requires { many ≡ length (used (slots_left self)) }
        ensures { result ≡ slots_packed (slots_left self.entry) }
    {
        Slots {
            block: self.block,
            at: self.at + Limits::SLOT_SIZE * many,
            left: self.left - many,
        }
        .all(|slot| slot.is_zero())
    }
}

// How many blocks of an extent to mark, so many before it: no file has more than 2,048.
fn to_mark(count: u32, before: usize) -> u32
    ensures { result ≡ min count (2048 - before) }
{
    count.min(Limits::MAX_FILE_BLOCKS.saturating_sub(before) as u32)
}

impl ExtentTests {
    // No extent yet.
    pub fn none() -> ExtentTests
        ensures { result ≡ no_run }
    {
        ExtentTests {
            inside: true,
            apart: true,
            end: 0,
            extents: 0,
            blocks: 0,
            tail: None,
        }
    }

    // Block k of the file, if it lies in this extent; else what was found before.
    #[tactic(auto, using(crate::proofs::Runs::tail_in, crate::proofs::Runs::tail_before, crate::proofs::Runs::tail_behind))]
    fn tail_at(self, k: FileBlock, slot: Slot) -> Option<DiskBlock>
        ensures { result ≡ tail_at k.0 self slot.extent }
    {
        let e = slot.extent;
        let from = self.blocks;
        if from <= k.0 && k.0 - from < e.count as usize {
            return Some(DiskBlock(e.first + (k.0 - from) as u32));
        }
        self.tail
    }
}

impl NodeTests {
    // Of a file whose extents stand in its record: no node.
    pub fn flat(run: ExtentTests) -> NodeTests
        ensures { result ≡ flat run }
    {
        NodeTests {
            run,
            sound: true,
            agree: true,
            filled: true,
            full: true,
            tops: 0,
            counts: run.blocks,
        }
    }
}

impl<'a> Walk<'a> {
    // "Extents stay within 42 to N-1."
    fn is_inside(&self, slot: Slot) -> bool
        ensures { result ≡ extent_inside self.now.device.blocks slot.extent }
    {
        let e = slot.extent;
        let last = e.first + e.count.saturating_sub(1);
        let n = self.device.blocks;
        in_data(n, DiskBlock(e.first)) & in_data(n, DiskBlock(last))
    }

    // One more extent.
    #[tactic(auto, unfolding(crate::specs::Runs::with_extent))]
    fn with_extent(&self, r: ExtentTests, slot: Slot) -> ExtentTests
        requires { (r.blocks < 4294967296) × (r.extents < 65536) }
        ensures { result ≡ with_extent self.now.device.blocks self.now.last.0 r slot.extent }
    {
        let e = slot.extent;
        let inside = self.is_inside(slot);
        ExtentTests {
            inside: r.inside & inside,
            apart: r.apart & !((0 < r.extents) & (e.first == r.end)),
            end: e.first + e.count,
            extents: r.extents + 1,
            blocks: r.blocks + e.count as usize,
            tail: r.tail_at(self.last, slot),
        }
    }

    // One more extent, its blocks marked.
    #[tactic(auto, using(crate::proofs::Walks::blocks_one))]
    fn test_extent(&self, marks: &mut Marks, r: ExtentTests, slot: Slot) -> ExtentTests
        requires { (r.blocks < 4294967296) × (r.extents < 65536) }
        ensures { (result ≡ with_extent self.now.device.blocks self.now.last.0 r slot.extent)
            × Kept self.now.device.blocks marks.new [] marks.old (blocks_from r.blocks (slot.extent ∷ [])) }
    {
        let e = slot.extent;
        let count = to_mark(e.count, r.blocks);
        marks.mark_run(&self.device, DiskBlock(e.first), count);
        self.with_extent(r, slot)
    }

    // The used ones of some slots as further extents, their blocks marked.
    pub fn extents_over(&self, marks: &mut Marks, slots: Slots, r: ExtentTests) -> ExtentTests
        requires { (r.extents ≤ 512) × (r.blocks ≤ 33554432) }
        ensures { (result ≡ over_extents self.now.device.blocks self.now.last.0 r (used (slots_left slots.entry)))
            × (result.extents ≤ r.extents + slots.entry.left) × (result.blocks ≤ r.blocks + 65536 * slots.entry.left)
            × Kept self.now.device.blocks marks.new [] marks.old (blocks_from r.blocks (used (slots_left slots.entry))) }
    {
        let mut q = r;
        for slot in slots.take_while(|slot| slot.extent.count != 0) {
            q = self.test_extent(marks, q, slot);
        }
        q
    }

    // One more node, which a slot names, it and the blocks below it marked.
    #[tactic(auto, using(crate::proofs::Walks::node_is, crate::proofs::Walks::node_marks))]
    fn test_node(&self, marks: &mut Marks, f: NodeTests, slot: Slot) -> NodeTests
        requires { (f.run.extents ≤ 384) × (f.run.blocks ≤ 25165824) × (f.tops ≤ 3) × (f.counts ≤ 196608) }
        ensures { (result ≡ with_node self.now.device.blocks self.now.last.0 (disk_of self.now.device) f slot.extent)
            × (result.run.extents ≤ f.run.extents + 128) × (result.run.blocks ≤ f.run.blocks + 8388608)
            × Kept self.now.device.blocks marks.new [] marks.old (tree_from (disk_of self.now.device) f.run.blocks (slot.extent ∷ [])) }
    {
        let e = slot.extent;
        let old = f.run;
        let b = DiskBlock(e.first);
        marks.mark(&self.device, b);
        let slots = Slots {
            block: self.device.block_at(b),
            at: 0,
            left: Limits::SLOTS_PER_NODE,
        };
        let r = self.extents_over(marks, slots, old);
        let many = r.extents - old.extents;
        let packed = slots.are_packed(many);
        let inside = in_data(self.device.blocks, b);
        let count = r.blocks - old.blocks;
        NodeTests {
            run: r,
            sound: f.sound & (inside & packed),
            agree: f.agree & (e.count as usize == count),
            filled: f.filled & f.full,
            full: many == Limits::SLOTS_PER_NODE,
            tops: f.tops + 1,
            counts: f.counts + e.count as usize,
        }
    }

    // The nodes that the used ones of a record's four slots name, they and the blocks below them marked; and whether the other slots are zero.
    pub fn nodes_over(&self, marks: &mut Marks, slots: Slots) -> Tops
        requires { slots.left ≡ 4 }
        ensures { (result.nodes ≡ over_nodes self.now.device.blocks self.now.last.0 (disk_of self.now.device) no_nodes (used (slots_left slots.entry)))
            × (result.packed ≡ slots_packed (slots_left slots.entry))
            × Kept self.now.device.blocks marks.new [] marks.old (tree_from (disk_of self.now.device) 0 (used (slots_left slots.entry))) }
    {
        let mut f = NodeTests::flat(ExtentTests::none());
        for slot in slots.take_while(|slot| slot.extent.count != 0) {
            f = self.test_node(marks, f, slot);
        }
        Tops {
            nodes: f,
            packed: slots.are_packed(f.tops),
        }
    }
}
