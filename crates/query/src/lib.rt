// The public calls that only read: session, device and work space stay as they were.
#![tactic(auto)]

ghost use Rattle.std.specs.Prelude.{◌≡◌, List, length};
ghost use Rattle.spec.specs.Answers.{counted_of, recorded_of, run_of};
ghost use Rattle.spec.specs.Transaction.{State, state_of};
ghost use Rattle.transaction.specs.Volumes.{Shows};
ghost use Rattle.spec.specs.Calls.{left, left_buffer, outcome, with_buffer, read, size_of, free_count, record_at, nth_extent};
ghost use Rattle.query.specs.Records.{record_told};

use bitmap::free_of;
use block::on_whole;
use checks::ready;
use extents::Stretch;
use file::read_file;
use inode::{Inode, InodeNumber};
use lookup::look_up;
use spec::{ByteOffset, DiskBlock, Extent, FileBlock, FileRecord, Limits, Refusal, Session};
use transaction::Volume;

// Each call stands twice: of a session by value, with the parameters of the specification, and, with `_in`, of a volume as such calls see it, which the
// C interface makes of a session's parts. The one by value is one line; a generic of them would take a closure in its place and promise less.

// Bytes of a file from byte x on, as many as the buffer takes and the file has; how many.
#[tactic(auto, unfolding(spec::specs::Calls::read))]
pub fn read_in(
    volume: &Volume,
    name: &[u8],
    x: ByteOffset,
    buffer: &mut [u8],
) -> Result<usize, Refusal>
    ensures { (s : State) → Shows volume.now s → with_buffer s (counted_of result) buffer.new ≡ read s name.now x.0 buffer.old }
{
    let i = look_up(volume, name)?;
    Ok(read_file(&volume.copy, i, x, buffer))
}

// The same of a session.
pub fn read(
    device: &[u8],
    work: &[u8],
    session: Session,
    name: &[u8],
    x: ByteOffset,
    buffer: &mut [u8],
) -> Result<usize, Refusal>
    ensures { left_buffer session device.now work.now (counted_of result) buffer.new
        ≡ read (state_of session device.now work.now) name.now x.0 buffer.old }
{
    read_in(&Volume::of(device, work, &session), name, x, buffer)
}

// The size of a file in bytes.
#[tactic(auto, unfolding(spec::specs::Calls::size_of))]
pub fn size_in(volume: &Volume, name: &[u8]) -> Result<usize, Refusal>
    ensures { (s : State) → Shows volume.now s → outcome s (counted_of result) ≡ size_of s name.now }
{
    let i = look_up(volume, name)?;
    Ok(Inode::of(&volume.copy, i).size() as usize)
}

// The same of a session.
pub fn size(device: &[u8], work: &[u8], session: Session, name: &[u8]) -> Result<usize, Refusal>
    ensures { left session device.now work.now (counted_of result)
        ≡ size_of (state_of session device.now work.now) name.now }
{
    size_in(&Volume::of(device, work, &session), name)
}

// How many blocks are free.
#[tactic(auto, unfolding(spec::specs::Calls::free_count))]
pub fn free_count_in(volume: &Volume) -> Result<usize, Refusal>
    ensures { (s : State) → Shows volume.now s → outcome s (counted_of result) ≡ free_count s }
{
    ready(volume)?;
    let table = volume.copy.block(DiskBlock(Limits::BITMAP_BLOCK));
    Ok(free_of(table))
}

// The same of a session.
pub fn free_count(device: &[u8], work: &[u8], session: Session) -> Result<usize, Refusal>
    ensures { left session device.now work.now (counted_of result)
        ≡ free_count (state_of session device.now work.now) }
{
    free_count_in(&Volume::of(device, work, &session))
}

// What is told of record i by its block of the table: a whole block, whose length is known.
fn record_of(table: &[u8; Limits::BLOCK_SIZE], i: usize) -> Option<FileRecord>
    ensures { result ≡ record_told table.now i }
{
    let inode = Inode { table, i };
    if inode.is_empty() {
        return None;
    }
    Some(FileRecord {
        name: inode.name(),
        size: inode.size(),
    })
}

// Name and size of record i, or that it is empty.
#[tactic(auto, unfolding(spec::specs::Calls::record_at))]
pub fn record_in(volume: &Volume, i: usize) -> Result<Option<FileRecord>, Refusal>
    ensures { (s : State) → Shows volume.now s → outcome s (recorded_of result) ≡ record_at s i }
{
    ready(volume)?;
    let Some(number) = InodeNumber::of(i) else {
        return Ok(None);
    };
    let inode = Inode::of(&volume.copy, number);
    Ok(on_whole(inode.table, |whole| record_of(whole, i)))
}

// The same of a session.
pub fn record_at(
    device: &[u8],
    work: &[u8],
    session: Session,
    i: usize,
) -> Result<Option<FileRecord>, Refusal>
    ensures { left session device.now work.now (recorded_of result)
        ≡ record_at (state_of session device.now work.now) i }
{
    record_in(&Volume::of(device, work, &session), i)
}

// The k-th extent of the run list of n blocks of a file from a block on, counted from 0.
#[tactic(auto, unfolding(spec::specs::Calls::nth_extent))]
pub fn nth_extent_in(
    volume: &Volume,
    name: &[u8],
    from: FileBlock,
    n: usize,
    k: usize,
) -> Result<Option<Extent>, Refusal>
    ensures { (s : State) → Shows volume.now s → outcome s (run_of result) ≡ nth_extent s name.now from.0 n k }
{
    let i = look_up(volume, name)?;
    Ok(extents::nth_extent(&volume.copy, Stretch { i, from, n }, k))
}

// The same of a session.
pub fn nth_extent(
    device: &[u8],
    work: &[u8],
    session: Session,
    name: &[u8],
    from: FileBlock,
    n: usize,
    k: usize,
) -> Result<Option<Extent>, Refusal>
    ensures { left session device.now work.now (run_of result)
        ≡ nth_extent (state_of session device.now work.now) name.now from.0 n k }
{
    nth_extent_in(&Volume::of(device, work, &session), name, from, n, k)
}
