// The public calls that change files: tests in the order of the numbers, the plan, then one call below.
#![tactic(auto)]

ghost use Rattle.std.specs.Prelude.{◌≡◌, ℕ, ◌+◌, ◌<◌, ◌≤◌, length, take};
ghost use Rattle.spec.specs.Answers.{done_of};
ghost use Rattle.spec.specs.Transaction.{state_of, view};
ghost use Rattle.spec.specs.Calls.{left, outcome, settle, staging, rewrite, create, remove, rename, write, set_size};
ghost use Rattle.transaction.specs.LentSessions.{state_lent, Kept, Held};
ghost use Rattle.transaction.specs.LentCalls.{Keeps, Called};
ghost use Rattle.update.specs.Records.{Differs, new_record, record_stores};

use alloc::draft_of;
use bitmap::Bitmap;
use change::{Plan, apply, stage_record};
use content::{RecordPrefix, Rewrite, record_bytes};
use inode::{Inode, InodeNumber, blocks_for, table_block};
use lookup::{look_up, look_up_new, look_up_pair, look_up_sized};
use runs::ExtentList;
use spec::{Answered, ByteOffset, DiskBlock, Limits, Refusal, Session};
use transaction::{Image, LentSession, Staging};

// Each public call stands in two forms: of a session lent in its parts, so that the C interface lends the caller's cells and copies none, and by value,
// which lends its session to the first.

// A session by value, lent to a call.
fn lending<F: FnOnce(&mut LentSession) -> Result<(), Refusal>>(
    device: &[u8],
    work: &mut [u8],
    mut session: Session,
    call: F,
) -> Answered<()>
    requires callable { F.IsAlwaysCallable call }
    requires keeps { Keeps F.FnOnce call }
    ensures { Called F.FnOnce call (state_of session device.now work.old) result.answer (state_of result.session device.now work.new) }
{
    let answer = call(&mut LentSession {
        device,
        work,
        blocks: session.blocks,
        phase: session.phase,
        cells: &mut session.staged,
        count: &mut session.count,
    });
    Answered { session, answer }
}

// The first bytes of record i changed to others than they were, and nothing else: 18.
fn change_record(images: &mut Staging, i: InodeNumber, new: RecordPrefix) -> Result<(), Refusal>
    requires { Differs (view (state_lent images.old.lent.now)) i.n new.bytes.now }
    ensures parts { Held images.old images.new }
    ensures state { outcome (state_lent images.new.lent.now) (done_of result)
        ≡ settle (outcome (state_lent images.old.lent.now)) (staging (state_lent images.old.lent.now)
        (record_stores (view (state_lent images.old.lent.now)) i.n new.entry.bytes.now)) }
{
    let block = table_block(i);
    let place = images.lent.spot(block);
    if Limits::LOG_LENGTH <= place {
        return Err(Refusal::TooManyStaged);
    }
    let image = &mut Image {
        images,
        block,
        place,
    };
    stage_record(image, i, new);
    Ok(())
}

// The record of a new file: its name, then zeros.
fn new_record(name: &[u8]) -> [u8; Limits::INODE_SIZE]
    requires { length name.now ≡ 8 }
    ensures { result ≡ new_record name.now }
{
    let mut q = [0u8; Limits::INODE_SIZE];
    q[..Limits::NAME_SIZE].copy_from_slice(name);
    q
}

// "Create takes the lowest empty record." Of a lent session.
pub fn create_in(lent: &mut LentSession, name: &[u8]) -> Result<(), Refusal>
    ensures parts { Kept lent.old lent.new }
    ensures state { outcome (state_lent lent.new) (done_of result) ≡ create (state_lent lent.old) name.now }
{
    let i = look_up_new(&lent.volume(), name)?;
    let record = new_record(name);
    change_record(&mut Staging { lent }, i, RecordPrefix { bytes: &record })
}

// The same of a session by value.
pub fn create(device: &[u8], work: &mut [u8], session: Session, name: &[u8]) -> Answered<()>
    ensures { left result.session device.now work.new (done_of result.answer)
        ≡ create (state_of session device.now work.old) name.now }
{
    lending(device, work, session, |lent| create_in(lent, name))
}

// "Rename keeps the record in its place."
pub fn rename_in(lent: &mut LentSession, name: &[u8], new: &[u8]) -> Result<(), Refusal>
    ensures parts { Kept lent.old lent.new }
    ensures state { outcome (state_lent lent.new) (done_of result) ≡ rename (state_lent lent.old) name.now new.now }
{
    let i = look_up_pair(&lent.volume(), name, new)?;
    change_record(&mut Staging { lent }, i, RecordPrefix { bytes: new })
}

// The same of a session by value.
pub fn rename(
    device: &[u8],
    work: &mut [u8],
    session: Session,
    name: &[u8],
    new: &[u8],
) -> Answered<()>
    ensures { left result.session device.now work.new (done_of result.answer)
        ≡ rename (state_of session device.now work.old) name.now new.now }
{
    lending(device, work, session, |lent| rename_in(lent, name, new))
}

// "Remove .. give back every data and extent block": the record is emptied. The Plan is written out here and in `resize`: a function for it would take its
// five parts and ask what its ghost field asks.
pub fn remove_in(lent: &mut LentSession, name: &[u8]) -> Result<(), Refusal>
    ensures parts { Kept lent.old lent.new }
    ensures state { outcome (state_lent lent.new) (done_of result) ≡ remove (state_lent lent.old) name.now }
{
    let volume = lent.volume();
    let i = look_up(&volume, name)?;
    let mut bitmap = Bitmap::of(volume.copy.block(DiskBlock(Limits::BITMAP_BLOCK)));
    let mut extents = ExtentList::empty();
    let draft = match draft_of(&mut bitmap, &mut extents, &volume.copy, i, 0) {
        Ok(draft) => draft,
        Err(why) => return Err(why),
    };
    let data = Rewrite {
        held: draft.held,
        old: 0,
        size: 0,
        x: ByteOffset(0),
        bytes: &name[0..0],
    };
    let plan = Plan {
        number: i,
        table: &bitmap.bytes,
        draft,
        inode: [0u8; Limits::INODE_SIZE],
        data,
    };
    apply(&mut Staging { lent }, &plan)
}

// The same of a session by value.
pub fn remove(device: &[u8], work: &mut [u8], session: Session, name: &[u8]) -> Answered<()>
    ensures { left result.session device.now work.new (done_of result.answer)
        ≡ remove (state_of session device.now work.old) name.now }
{
    lending(device, work, session, |lent| remove_in(lent, name))
}

// 16, 17 and 18: record i becomes a file of this size, with bytes laid over it at x.
fn resize(
    images: &mut Staging,
    i: InodeNumber,
    size: u32,
    x: ByteOffset,
    bytes: &[u8],
) -> Result<(), Refusal>
    requires { x.0 + length bytes.now ≤ 1048576 }
    ensures parts { Held images.old images.new }
    ensures state { outcome (state_lent images.new.lent.now) (done_of result)
        ≡ settle (outcome (state_lent images.old.lent.now)) (rewrite (state_lent images.old.lent.now) i.n size x.0 bytes.now) }
{
    let copy = images.lent.copy();
    let mut bitmap = Bitmap::of(copy.block(DiskBlock(Limits::BITMAP_BLOCK)));
    let mut extents = ExtentList::empty();
    let wanted = blocks_for(size as usize);
    let draft = match draft_of(&mut bitmap, &mut extents, &copy, i, wanted) {
        Ok(draft) => draft,
        Err(why) => return Err(why),
    };
    let before = Inode::of(&copy, i);
    let old = before.size() as usize;
    let inode = record_bytes(before.name(), size, draft.extents, &draft.nodes);
    let data = Rewrite {
        held: draft.held,
        old,
        size: size as usize,
        x,
        bytes,
    };
    let plan = Plan {
        number: i,
        table: &bitmap.bytes,
        draft,
        inode,
        data,
    };
    apply(images, &plan)
}

// "the size becomes the larger of the old size and x plus the data length, a gap is zeros"
pub fn write_in(
    lent: &mut LentSession,
    name: &[u8],
    x: ByteOffset,
    bytes: &[u8],
) -> Result<(), Refusal>
    ensures parts { Kept lent.old lent.new }
    ensures state { outcome (state_lent lent.new) (done_of result) ≡ write (state_lent lent.old) name.now x.0 bytes.now }
{
    let volume = lent.volume();
    let n = bytes.len();
    let i = look_up_sized(&volume, name, x, n)?;
    let old = Inode::of(&volume.copy, i).size();
    let size = old.max((x.0 + n) as u32);
    resize(&mut Staging { lent }, i, size, x, bytes)
}

// The same of a session by value.
pub fn write(
    device: &[u8],
    work: &mut [u8],
    session: Session,
    name: &[u8],
    x: ByteOffset,
    bytes: &[u8],
) -> Answered<()>
    ensures { left result.session device.now work.new (done_of result.answer)
        ≡ write (state_of session device.now work.old) name.now x.0 bytes.now }
{
    lending(device, work, session, |lent| write_in(lent, name, x, bytes))
}

// Cut, or lengthened by zeros.
pub fn set_size_in(lent: &mut LentSession, name: &[u8], size: usize) -> Result<(), Refusal>
    ensures parts { Kept lent.old lent.new }
    ensures state { outcome (state_lent lent.new) (done_of result) ≡ set_size (state_lent lent.old) name.now size }
{
    let x = ByteOffset(0);
    let i = look_up_sized(&lent.volume(), name, x, size)?;
    resize(&mut Staging { lent }, i, size as u32, x, &name[0..0])
}

// The same of a session by value.
pub fn set_size(
    device: &[u8],
    work: &mut [u8],
    session: Session,
    name: &[u8],
    size: usize,
) -> Answered<()>
    ensures { left result.session device.now work.new (done_of result.answer)
        ≡ set_size (state_of session device.now work.old) name.now size }
{
    lending(device, work, session, |lent| set_size_in(lent, name, size))
}
