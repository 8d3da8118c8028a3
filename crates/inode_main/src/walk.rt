// The walk over a file's tree, slot by slot.
use inode::{Cursor, InodeNumber, Step, inode_block, start_at, table_block};
use spec::DiskBlock;
use transaction::WorkingCopy;

// The extents and nodes of a file, in the order of its blocks.
#[derive(Clone, Copy)]
pub struct Walk<'a> {
    copy: WorkingCopy<'a>,
    record_block: DiskBlock,
    at: Cursor,
}

impl<'a> Walk<'a> {
    // All of record i's file.
    pub fn of(copy: &WorkingCopy<'a>, i: InodeNumber) -> Walk<'a> {
        Walk {
            copy: *copy,
            record_block: table_block(i),
            at: start_at(inode_block(copy, i), i),
        }
    }
}

impl<'a> Iterator for Walk<'a> {
    ghost use Rattle.std.specs.Iterator.{at_most};
    ghost use Rattle.inode.specs.Walk.{weight};

    type Item = Step;

    ghost remaining = { λ w. at_most (weight w.at) };

    fn next(&mut self) -> Option<Step> {
        let (step, then) = self.at.step(&self.copy, self.record_block)?;
        self.at = then;
        Some(step)
    }
}
