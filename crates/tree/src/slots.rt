// Slots as a walk reads them, one after another.
ghost use Rattle.std.specs.Prelude.{◌≡◌, ◌+◌, ◌*◌, ◌≤◌, ◌<◌};
ghost use Rattle.spec.specs.Bytes.{exactly};
ghost use Rattle.inode.specs.Walk.{slot_in};
ghost use Rattle.tree.specs.Reached.{is_unused};

use block::load4;
use spec::{Extent, Limits};

// A slot of a record or a node: its two numbers have two bytes each.
#[derive(Clone, Copy)]
pub struct Slot {
    pub extent: Extent,
    ghost first: { extent.first < 65536 },
    ghost count: { extent.count < 65536 },
}

impl Slot {
    // The slot at a byte of a block. That of crate inode takes any place, of a block that ends at 512 bytes; here the place lies before them, and the block may go on.
    // Both numbers are read at once.
    fn in_block(block: &[u8], at: usize) -> Slot
        requires { at + 4 ≤ 512 }
        ensures { result.extent ≡ slot_in at (exactly 512 block.now) }
    {
        let n = load4(block, at);
        Slot {
            extent: Extent {
                first: n % 65536,
                count: n / 65536,
            },
        }
    }

    // "The others are zero."
    pub fn is_zero(self) -> bool
        ensures { result ≡ is_unused self.extent }
    {
        (self.extent.first == 0) & (self.extent.count == 0)
    }
}

// The slots that are left from a byte of a block on, which may end early.
#[derive(Clone, Copy)]
pub struct Slots<'a> {
    pub block: &'a [u8],
    pub at: usize,
    pub left: usize,
    ghost within: { at + 4 * left ≤ 512 },
}

impl<'a> Iterator for Slots<'a> {
    ghost use Rattle.std.specs.Iterator.{YieldsFirstBy, item_count};
    ghost use Rattle.tree.specs.Slots.{slots_left};

    type Item = Slot;

    ghost next_gives = { YieldsFirstBy (λ slot. slot.extent) slots_left };

    ghost remaining = { item_count slots_left };

    #[tactic(auto, using(crate::proofs::Reading::slots_none, crate::proofs::Reading::slots_next))]
    fn next(&mut self) -> Option<Slot> {
        let left = self.left.checked_sub(1)?;
        let slot = Slot::in_block(self.block, self.at);
        self.at += Limits::SLOT_SIZE;
        self.left = left;
        Some(slot)
    }
}
