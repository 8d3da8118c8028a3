// A record of the table, in the block that holds it.
use crate::inode_block;
use crate::number::InodeNumber;
use block::{bytes_at, key_of, load, load4, place_in_block};
use spec::Limits;
use transaction::WorkingCopy;

// Record i, of a block of the table as lent: zeros follow where it ends.
#[derive(Clone, Copy)]
pub struct Inode<'a> {
    pub table: &'a [u8],
    pub i: usize,
}

impl<'a> Inode<'a> {
    ghost use Rattle.std.specs.Prelude.{◌≡◌, ◌<◌, ◌≤◌, length, take};
    ghost use Rattle.spec.specs.Bytes.{exactly, all_zero};
    ghost use Rattle.spec.specs.Inode.{inode_of, block_of_inode};
    ghost use Rattle.transaction.specs.Volumes.{working};
    ghost use Rattle.block.specs.Keys.{key_of, Name};
    ghost use Rattle.inode.specs.Records.{record_in};

    // Record i of the working copy; its block is no longer than a block.
    pub fn of(copy: &WorkingCopy<'a>, i: InodeNumber) -> Inode<'a>
        ensures { (result.i ≡ i.n) × (exactly 512 result.table.now ≡ working copy.now (block_of_inode i.n)) × (length result.table.now ≤ 512) }
    {
        Inode {
            table: inode_block(copy, i),
            i: i.n,
        }
    }

    // Its size.
    pub fn size(&self) -> u32
        ensures { result ≡ (inode_of (record_in self.now.table.now self.now.i)).size }
    {
        load4(self.table, place_in_block(self.i) + 8)
    }

    // The depth of its tree.
    pub fn depth(&self) -> u32
        ensures { (result ≡ (inode_of (record_in self.now.table.now self.now.i)).depth) × (result < 256) }
    {
        load(self.table, place_in_block(self.i) + 12)
    }

    // Its name.
    pub fn name(&self) -> [u8; Limits::NAME_SIZE]
        ensures { result ≡ take 8 (record_in self.now.table.now self.now.i) }
    {
        bytes_at(self.table, place_in_block(self.i))
    }

    // Its name as one number.
    pub fn key(&self) -> u64
        ensures { (result ≡ key_of (take 8 (record_in self.now.table.now self.now.i))) × Name (take 8 (record_in self.now.table.now self.now.i)) }
    {
        key_of(&self.name())
    }

    // "all zero: record empty"
    pub fn is_empty(&self) -> bool
        ensures { result ≡ all_zero (take 8 (record_in self.now.table.now self.now.i)) }
    {
        self.key() == 0
    }
}
