// The walk over the pieces of a stretch.
ghost use Rattle.transaction.specs.Volumes.{working};
ghost use Rattle.extents.specs.Stretches.{InHand};

use crate::{AtSlot, Piece, Scan, Stretch, pass_slots, scan_of, take_node, take_slot};
use inode::{SlotBlock, inode_block, table_block};
use spec::DiskBlock;
use transaction::WorkingCopy;

// The pieces of a stretch, one by one: blocks that follow each other within one extent. The block of the record and the block in hand, that of the cursor, are lent: each is looked up once.
#[derive(Clone, Copy)]
pub struct Pieces<'a> {
    pub copy: WorkingCopy<'a>,
    pub record_block: DiskBlock,
    pub table: SlotBlock<'a>,
    pub block: SlotBlock<'a>,
    pub scan: Scan,
    pub ghost of_record: { InHand (working copy) record_block.0 table },
    pub ghost of_cursor: { InHand (working copy) scan.at.block block },
}

impl<'a> Pieces<'a> {
    ghost use Rattle.std.specs.Prelude.{◌≡◌};
    ghost use Rattle.spec.specs.Inode.{block_of_inode, blocks_in};
    ghost use Rattle.extents.specs.Stretches.{blocks_at, left_at};
    ghost use Rattle.extents.specs.Pieces.{pieces_left};

    // The pieces of a stretch.
    pub fn of(copy: &WorkingCopy<'a>, stretch: Stretch) -> Pieces<'a>
        ensures { blocks_in (pieces_left result) ≡ blocks_at (working copy.now) stretch.i.n stretch.from.0 stretch.n }
    {
        let table = SlotBlock {
            bytes: inode_block(copy, stretch.i),
        };
        Pieces::in_table(copy, &table, stretch)
    }

    // The same, of the block of the table that holds the record.
    pub fn in_table(copy: &WorkingCopy<'a>, table: &SlotBlock<'a>, stretch: Stretch) -> Pieces<'a>
        requires { InHand (working copy.now) (block_of_inode stretch.i.n) table.now }
        ensures { blocks_in (pieces_left result) ≡ blocks_at (working copy.now) stretch.i.n stretch.from.0 stretch.n }
    {
        Pieces {
            copy: *copy,
            record_block: table_block(stretch.i),
            table: *table,
            block: *table,
            scan: scan_of(table.bytes, stretch),
        }
    }

    // The pieces that are left at any place of a tree whose record stands in this block.
    pub fn at(copy: &WorkingCopy<'a>, record_block: DiskBlock, scan: Scan) -> Pieces<'a>
        ensures { pieces_left result ≡ left_at (working copy.now) record_block.0 scan }
    {
        Pieces {
            copy: *copy,
            record_block,
            table: SlotBlock {
                bytes: copy.block(record_block),
            },
            block: SlotBlock {
                bytes: copy.block(DiskBlock(scan.at.block)),
            },
            scan,
        }
    }
}

impl<'a> Iterator for Pieces<'a> {
    ghost use Rattle.std.specs.Iterator.{item_count};
    ghost use Rattle.extents.specs.Pieces.{pieces_left, YieldsPiece};

    type Item = Piece;

    ghost next_gives = { YieldsPiece };

    ghost remaining = { item_count pieces_left };

    // A loop, since this is the body of the iterator itself: each turn reads a slot, passes some or enters a node, and one that finds a piece ends it. Inlined,
    // a read of two pieces takes 37 ns in place of 43.
    #[inline(always)]
    fn next(&mut self) -> Option<Piece> {
        while 0 < self.scan.room {
            match take_slot(&self.block, self.scan) {
                AtSlot::Piece(e, then) => {
                    self.scan = then;
                    return Some(e);
                }
                AtSlot::Passed(then) => {
                    self.scan = pass_slots(&self.block, then);
                }
                AtSlot::Unused => {
                    let (b, then) = take_node(&self.table, self.scan)?;
                    self.block = SlotBlock {
                        bytes: self.copy.block(b),
                    };
                    self.scan = then;
                }
            }
        }
        None
    }
}
