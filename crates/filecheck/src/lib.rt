// S3 to S6 and S8 of one file.
#![tactic(auto)]

ghost use Rattle.std.specs.Prelude.{◌≡◌, [], ◌-◌, ◌/◌, ◌≤◌};
ghost use Rattle.spec.specs.Bytes.{all_zero};
ghost use Rattle.spec.specs.Inode.{inode_at, inode_bytes};
ghost use Rattle.spec.specs.Sound.{slots_packed, limits_hold, file_sound};
ghost use Rattle.inode.specs.Records.{bytes_in};
ghost use Rattle.marks.specs.Marks.{Kept};
ghost use Rattle.marks.specs.Device.{disk_of};
ghost use Rattle.filecheck.specs.File.{last_clear, tail_clear, tree_sound, file_blocks, Walked, Marked};

mod table;

use block::place_in_block;
use inode::{Inode, blocks_for, nodes_for};
use marks::{Device, Marks};
use spec::{DiskBlock, FileBlock, Limits};
pub use table::Record;
use tree::{ExtentTests, NodeTests, Slots, Tops, Walk};
use zeros::is_zero_at;

// Whether the bytes of a block from one place to another are all zero.
#[tactic(auto, using(crate::proofs::Shape::clear_within))]
pub fn clear_in(block: &[u8], from: usize, end: usize) -> bool
    requires { (from ≤ end) × (end ≤ 512) }
    ensures { result ≡ all_zero (bytes_in block.now from (end - from)) }
{
    is_zero_at(block, from, end - from)
}

// "Bytes after the size in a file's last block are zero": b is that block, where the size ends within it.
#[tactic(auto, using(crate::proofs::Shape::clear_whole, crate::proofs::Shape::clear_part))]
fn last_clear(device: &Device, size: usize, b: DiskBlock) -> bool
    ensures { result ≡ last_clear (disk_of device.now) size b.0 }
{
    let over = size % Limits::BLOCK_SIZE;
    if over == 0 {
        return true;
    }
    clear_in(device.block_at(b), over, Limits::BLOCK_SIZE)
}

// The same where the size may end within no block, which then has nothing to test.
fn tail_clear(device: &Device, size: usize, tail: Option<DiskBlock>) -> bool
    ensures { result ≡ tail_clear (disk_of device.now) size tail }
{
    // Bound first: written inside the call, the closure tells nothing, and `returns` stays open.
    let clear = |b: DiskBlock| last_clear(device, size, b);
    tail.is_none_or(clear)
}

impl<'a> Record<'a> {
    fn inode(&self) -> Inode<'a>
        ensures { (result.table.now ≡ self.now.table.now) × (result.i ≡ self.now.i.n) }
    {
        Inode {
            table: self.table,
            i: self.i.n,
        }
    }

    fn size(&self) -> usize
        ensures { result ≡ (inode_at (disk_of self.now.device) self.now.i.n).size }
    {
        self.inode().size() as usize
    }

    fn depth(&self) -> u32
        ensures { result ≡ (inode_at (disk_of self.now.device) self.now.i.n).depth }
    {
        self.inode().depth()
    }

    // "Size and depth are within their limits, bytes 13 to 15 zero."
    #[tactic(auto, using(crate::proofs::Shape::limits_by))]
    fn limits_hold(&self) -> bool
        ensures { result ≡ limits_hold (inode_bytes (disk_of self.now.device) self.now.i.n) }
    {
        let at = place_in_block(self.i.n);
        let clear = clear_in(self.table, at + 13, at + 16);
        (self.size() <= Limits::MAX_FILE_SIZE) & (self.depth() <= 1) & clear
    }

    // What a walk over the file's tree finds, its blocks marked: of depth 0 the record's slots are the extents, of depth 1 they name the nodes.
    fn tree_of(&self, marks: &mut Marks) -> Tops
        requires { (inode_at (disk_of self.now.device) self.now.i.n).depth ≤ 1 }
        ensures { Walked self.now.device.blocks ((inode_at (disk_of self.now.device) self.now.i.n).size / 512) (disk_of self.now.device) (inode_at (disk_of self.now.device) self.now.i.n) result.nodes
            × (result.packed ≡ slots_packed (inode_at (disk_of self.now.device) self.now.i.n).slots)
            × Kept self.now.device.blocks marks.new [] marks.old (file_blocks (disk_of self.now.device) self.now.i.n) }
    {
        let slots = Slots {
            block: self.table,
            at: place_in_block(self.i.n) + 16,
            left: Limits::SLOTS_PER_INODE,
        };
        let walk = Walk {
            device: self.device,
            last: FileBlock(self.size() / Limits::BLOCK_SIZE),
        };
        if self.depth() == 0 {
            let r = walk.extents_over(marks, slots, ExtentTests::none());
            return Tops {
                nodes: NodeTests::flat(r),
                packed: slots.are_packed(r.extents),
            };
        }
        walk.nodes_over(marks, slots)
    }

    // S4 to S6 and S8 of the file.
    fn tree_sound(&self, marks: &mut Marks) -> bool
        requires { ((inode_at (disk_of self.now.device) self.now.i.n).size ≤ 1048576) × ((inode_at (disk_of self.now.device) self.now.i.n).depth ≤ 1) }
        ensures { Marked self.now.device.blocks result (tree_sound self.now.device.blocks (disk_of self.now.device) (inode_at (disk_of self.now.device) self.now.i.n))
            marks.new marks.old (file_blocks (disk_of self.now.device) self.now.i.n) }
    {
        let size = self.size();
        let t = self.tree_of(marks);
        let f = t.nodes;
        let r = f.run;
        let clear = tail_clear(&self.device, size, r.tail);
        let want = blocks_for(size);
        let nodes = nodes_for(r.extents);
        let deep = Limits::SLOTS_PER_INODE < r.extents;
        let shape = t.packed & f.sound & r.inside & f.agree & (f.counts == want);
        shape & r.apart & ((self.depth() == 1) == deep) & (f.tops == nodes) & f.filled & clear
    }

    // S3 to S6 and S8 of the file.
    pub fn file_sound(&self, marks: &mut Marks) -> bool
        ensures { Marked self.now.device.blocks result (file_sound self.now.device.blocks (disk_of self.now.device) (inode_bytes (disk_of self.now.device) self.now.i.n))
            marks.new marks.old (file_blocks (disk_of self.now.device) self.now.i.n) }
    {
        if !self.limits_hold() {
            return false;
        }
        self.tree_sound(marks)
    }
}
