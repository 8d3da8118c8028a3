// Files read by stretches.
#![tactic(auto)]

ghost use Rattle.std.specs.Prelude.{◌≡◌, ◌+◌, ◌*◌, ◌<◌, ◌≤◌, min, length, take, drop};
ghost use Rattle.spec.specs.Bytes.{exactly};
ghost use Rattle.spec.specs.Inode.{inode_at, block_of_inode};
ghost use Rattle.spec.specs.Map.{content_of};
ghost use Rattle.transaction.specs.Volumes.{working};
ghost use Rattle.extents.specs.Stretches.{InHand};
ghost use Rattle.file.specs.Bytes.{run_bytes, block_bytes, Filled};

use block::copy as copy_bytes;
use extents::{Piece, Pieces, Stretch};
use inode::{Inode, InodeNumber, SlotBlock};
use spec::{ByteOffset, DiskBlock, FileBlock, Limits};
use transaction::WorkingCopy;

// Bytes of a block from a place on, zeros where the block's bytes end.
fn copy_part(block: &[u8], off: usize, to: &mut [u8])
    requires { off + length to.old ≤ 512 }
    ensures { to.new ≡ take (length to.old) (drop off (exactly 512 block.now)) }
{
    let rest = &block[block.len().min(off)..];
    let n = rest.len().min(to.len());
    let (there, past) = to.split_at_mut(n);
    copy_bytes(&rest[..n], there);
    past.fill(0);
}

// Bytes of blocks that follow each other, in the working copy: from byte `skip` of block `first` on, block by block. Where in the block and in `to` it is at goes along:
// told by `k` alone, 16 staged blocks take 290 ns in place of 253. The rest of `to`, cut off by `split_at_mut`, would be a variable set at each turn like `done`: no plainer.
fn copy_blocks(copy: &WorkingCopy, run: Piece, skip: usize, to: &mut [u8])
    requires { skip + length to.old ≤ 512 * run.extent.count }
    ensures { to.new ≡ take (length to.old) (drop skip (run_bytes (working copy.now) run.extent.first run.extent.count)) }
{
    let first = run.extent.first;
    let end = skip + to.len();
    let mut off = skip % Limits::BLOCK_SIZE;
    let mut done: usize = 0;
    for k in skip / Limits::BLOCK_SIZE..end.div_ceil(Limits::BLOCK_SIZE) {
        let until = to.len().min(done + Limits::BLOCK_SIZE - off);
        let block = copy.block(DiskBlock(first + k as u32));
        copy_part(block, off, &mut to[done..until]);
        done = until;
        off = 0;
    }
}

// The same; where nothing is staged and the device has them all, they are copied at once: block by block, a read of 2,000 blocks takes 1.3 times as long.
fn copy_run(copy: &WorkingCopy, run: Piece, skip: usize, to: &mut [u8])
    requires { skip + length to.old ≤ 512 * run.extent.count }
    ensures { to.new ≡ take (length to.old) (drop skip (run_bytes (working copy.now) run.extent.first run.extent.count)) }
{
    let from = Limits::BLOCK_SIZE * (run.extent.first as usize) + skip;
    let end = from + to.len();
    if copy.staged.list.is_empty() && end <= copy.device.len() {
        copy_bytes(&copy.device[from..end], to);
    } else {
        copy_blocks(copy, run, skip, to);
    }
}

// Bytes of record i's data blocks from byte x on, as far as they reach, where `table` is the record's block; how many. That is `done`, so it goes along and no rest of `to` beside it.
fn read_blocks<'a>(
    copy: &WorkingCopy<'a>,
    table: &SlotBlock<'a>,
    i: InodeNumber,
    x: ByteOffset,
    to: &mut [u8],
) -> usize
    requires { InHand (working copy.now) (block_of_inode i.n) table.now }
    ensures { Filled (take (length to.old) (drop x.0 (block_bytes (working copy.now) i.n))) to.old to.new result }
{
    let behind = Stretch {
        i,
        from: FileBlock(x.0 / Limits::BLOCK_SIZE),
        n: Limits::MAX_FILE_BLOCKS,
    };
    let mut skip = x.0 % Limits::BLOCK_SIZE;
    let mut done: usize = 0;
    for run in Pieces::in_table(copy, table, behind) {
        let here = Limits::BLOCK_SIZE * (run.extent.count as usize) - skip;
        let end = done + here.min(to.len() - done);
        copy_run(copy, run, skip, &mut to[done..end]);
        if end == to.len() {
            return end;
        }
        done = end;
        skip = 0;
    }
    done
}

// Bytes of record i's file from byte x on, into the buffer's front; how many. Of an empty buffer no slot is read: the walk would find the first piece first.
pub fn read_file(copy: &WorkingCopy, i: InodeNumber, x: ByteOffset, buffer: &mut [u8]) -> usize
    ensures { Filled (take (length buffer.old) (drop x.0 (content_of (working copy.now) (inode_at (working copy.now) i.n))))
        buffer.old buffer.new result }
{
    if buffer.is_empty() {
        return 0;
    }
    let from = x.0;
    let inode = Inode::of(copy, i);
    let size = inode.size() as usize;
    if size <= from {
        return 0;
    }
    let len = buffer.len().min(size - from);
    read_blocks(
        copy,
        &SlotBlock { bytes: inode.table },
        i,
        x,
        &mut buffer[0..len],
    )
}
