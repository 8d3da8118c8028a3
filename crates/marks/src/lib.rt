// S1 and S7: the blocks that files reach are marked in two tables, one bit to a block, and compared with the bitmap.
#![tactic(auto)]

ghost use Rattle.std.specs.Prelude.{◌≡◌, [], ◌∷◌, ℕ, ◌+◌, ◌%◌, ◌≤◌, ◌<◌, ◌&&◌, max, eqb, replicate};
ghost use Rattle.spec.specs.Bytes.{all_zero, same, up_from};
ghost use Rattle.mkfs.specs.Table.{Cleared};
ghost use Rattle.inode.specs.Records.{lowest_to};
ghost use Rattle.marks.specs.Marks.{bit, Kept, wrong, block_found};

mod tested;

use bitmap::mask;
use block::{area_of, in_data, load};
use mkfs::empty_table;
use spec::{Area, DiskBlock, Limits};
pub use tested::Device;
use zeros::is_zero;

// Two tables, one bit to a block: `once` has those reached, and `twice` those reached more than once.
// Two tables and no table of pairs: `once` is compared with the bitmap as a whole. Bytes and no Bitmap: that bitmap is lent in place, of which a Bitmap would be
// a copy, and the bits of all three are read alike.
#[derive(Clone, Copy)]
pub struct Marks {
    pub once: [u8; Limits::BLOCK_SIZE],
    pub twice: [u8; Limits::BLOCK_SIZE],
}

// Whether the bit of block b is 1; a block past the table has none.
fn bit_is(t: &[u8; Limits::BLOCK_SIZE], b: DiskBlock) -> bool
    ensures { result ≡ eqb (bit t.now b.0) 1 }
{
    (load(t, (b.0 / 8) as usize) >> (b.0 % 8)) % 2 == 1
}

// Block b, or the first one of the data area where b lies before that.
fn data_from(b: DiskBlock) -> DiskBlock
    ensures { result.0 ≡ max 42 b.0 }
{
    match area_of(b) {
        Area::Header | Area::Log | Area::Bitmap | Area::Inodes => DiskBlock(Limits::DATA_START),
        Area::Data => b,
    }
}

impl Marks {
    // No block marked yet: ones outside 42 to N-1, where the bitmap has them.
    pub fn none(device: &Device) -> Marks
        ensures { Cleared result.once (max 42 device.now.blocks) × (result.twice ≡ replicate 512 0) }
    {
        let first = data_from(DiskBlock(device.blocks as u32));
        let unmarked = empty_table(first.0);
        let once = unmarked.bytes;
        Marks {
            once,
            twice: [0u8; Limits::BLOCK_SIZE],
        }
    }

    // `n` blocks from b on reached, whose bits lie in one byte: marked in `once`, and in `twice` where they were marked before. That the byte lies in the tables
    // is asked here: both callers know it from the device's blocks, and a number of a type of its own would be made there with the same fact.
    fn mark_byte(&mut self, b: DiskBlock, n: u32)
        requires { (42 ≤ b.0) × (0 < n) × (b.0 % 8 + n ≤ 8) × (b.0 < 4096) }
        ensures { (N : ℕ) → b.0 + n ≤ N → Kept N self.new [] self.old (up_from b.0 n) }
    {
        let i = (b.0 / 8) as usize;
        let m = mask(b, n);
        let o = self.once[i];
        self.twice[i] |= o & m;
        self.once[i] = o | m;
    }

    // Block b reached. A block outside 42 to N-1 does not count.
    pub fn mark(&mut self, device: &Device, b: DiskBlock)
        ensures { Kept device.now.blocks self.new [] self.old (b.0 ∷ []) }
    {
        if !in_data(device.blocks, b) {
            return;
        }
        self.mark_byte(b, 1);
    }

    // `count` blocks from `first` on reached: those within 42 to N-1, byte by byte of the tables.
    pub fn mark_run(&mut self, device: &Device, first: DiskBlock, count: u32)
        ensures { Kept device.now.blocks self.new [] self.old (up_from first.0 count) }
    {
        let from = data_from(first).0;
        let end = (first.0 as usize + count as usize).min(device.blocks) as u32;
        if end <= from {
            return;
        }
        for i in from / 8..end.div_ceil(8) {
            let b = from.max(8 * i);
            let next = end.min(8 * i + 8);
            self.mark_byte(DiskBlock(b), next - b);
        }
    }

    // Whether the bit of block b is wrong, by the marks.
    fn is_wrong(&self, bitmap: &[u8; Limits::BLOCK_SIZE], b: DiskBlock) -> bool
        ensures { result ≡ wrong self.now bitmap.now b.0 }
    {
        bit_is(&self.twice, b) | (bit_is(&self.once, b) != bit_is(bitmap, b))
    }

    // Whether all bits are right, told by whole tables.
    fn are_right(&self, bitmap: &[u8; Limits::BLOCK_SIZE]) -> bool
        ensures { result ≡ (same self.now.once bitmap.now && all_zero self.now.twice) }
    {
        (self.once == *bitmap) && is_zero(&self.twice)
    }

    // The lowest block whose bit is wrong.
    pub fn lowest_wrong(&self, bitmap: &[u8; Limits::BLOCK_SIZE]) -> Option<DiskBlock>
        ensures { result ≡ block_found (lowest_to 4096 (wrong self.now bitmap.now) 0) }
    {
        if self.are_right(bitmap) {
            return None;
        }
        (0..Limits::BITMAP_BITS)
            .find(|b| self.is_wrong(bitmap, DiskBlock(*b)))
            .map(DiskBlock)
    }
}
