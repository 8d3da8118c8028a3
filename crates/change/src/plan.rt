// What a change of a file is.
ghost use Rattle.runs.specs.Runs.{Bounded};
ghost use Rattle.runs.specs.Tree.{tree_with};

use alloc::Draft;
use content::Rewrite;
use inode::InodeNumber;
use spec::Limits;

// The number of its record, the new bitmap, the draft of the file's tree, the bytes of its record, and how its data blocks change.
#[derive(Clone, Copy)]
pub struct Plan<'a, 'b> {
    pub number: InodeNumber,
    pub table: &'a [u8; Limits::BLOCK_SIZE],
    pub draft: Draft<'a>,
    pub inode: [u8; Limits::INODE_SIZE],
    pub data: Rewrite<'b>,
    pub ghost bounded: { Bounded (tree_with table.now draft.extents.now draft.nodes draft.before data.held) },
}
