// A block that is lent for its slots.
ghost use Rattle.std.specs.Prelude.{◌≡◌, ◌≤◌, length};

use crate::slot_of;
use block::byte;
use spec::{Extent, Limits};

// The bytes of a block, as lent: no more than a block has, and zeros follow where they end.
#[derive(Clone, Copy)]
pub struct SlotBlock<'a> {
    pub bytes: &'a [u8],
    pub ghost short: { length bytes.now ≤ 512 },
}

impl<'a> SlotBlock<'a> {
    ghost use Rattle.spec.specs.Bytes.{exactly};
    ghost use Rattle.inode.specs.Walk.{Slot, whole_slots};

    // The slots that lie whole in the bytes from one of them on, at most so many: who passes many goes over them, and tests no place of its own.
    pub fn whole_slots(&self, at: usize, most: usize) -> &'a [[u8; Limits::SLOT_SIZE]]
        ensures { result.now ≡ whole_slots most at self.now.bytes.now }
    {
        let block = self.bytes;
        let (slots, _) = block[at.min(block.len())..].as_chunks();
        &slots[..most.min(slots.len())]
    }

    // The slot at a byte of the block; past the block's end it is unused. By block's `bytes_at`, a walk over 512 slots takes 19 of 100 instructions more.
    pub fn slot(&self, at: usize) -> Extent
        ensures { Slot (exactly 512 self.now.bytes.now) at result }
    {
        let block = self.bytes;
        if block.len() <= at {
            return Extent::default();
        }
        match block[at..].first_chunk() {
            Some(bytes) => slot_of(bytes),
            None => slot_of(&[
                byte(block, at),
                byte(block, at + 1),
                byte(block, at + 2),
                byte(block, at + 3),
            ]),
        }
    }
}
