// The calls of the store for C: answers as structs of numbers, and lent slices, each a pointer and a length. include/purse.h declares them.
// A session is lent: its four numbers and its 32 cells. Each promise: all that is returned and left is the call's outcome, in numbers, at the
// session that the numbers and the cells given stand for.
// A refusal leaves all that is lent as it was, numbers that the store did not make too. A call that is accepted leaves the session's own numbers:
// phase 0 where the number given was none, place 0 where the phase has none.
// Device, work space, numbers and cells are lent to each call by themselves, and each call is a function of its own, since C declares them so.
#![tactic(auto)]

ghost use Rattle.std.specs.Prelude.{◌≡◌, List, ℕ, ◌/◌, ◌<◌, ◌≤◌, length};
ghost use Rattle.spec.specs.Answers.{done_of, started_of, stored_of, counted_of as answer_of};
ghost use Rattle.spec.specs.Transaction.{State, state_of};
ghost use Rattle.spec.specs.Calls.{Outcome, outcome, format, open_store, advance, commit, abort, create, remove, rename, write, set_size, read, size_of, free_count, record_at, nth_extent, run_list};
ghost use Rattle.journal.specs.Entries.{behind, begun_phase};
ghost use Rattle.transaction.specs.Places.{session_of};
ghost use Rattle.transaction.specs.Volumes.{working, Shows};
ghost use Rattle.transaction.specs.LentCalls.{Keeps, Does};
ghost use Rattle.extents.specs.Stretches.{runs_in};
ghost use Rattle.capi.specs.Cells.{parts_in};
ghost use Rattle.capi.specs.Changes.{Still};
ghost use Rattle.mirror.specs.Mirror.{head_in, numbers_of, head_of, decode, encode, finished_of, committed_of, advanced_of, counted_of, run_of, unless_refused, lent, Ends, Reads, Names, Lists, extents_of, with_extents};

use extents::{Runs, Stretch, count_runs};
use journal::{advance_in, begun_phase, commit_in, last_phase, phase_at};
use lookup::look_up;
use mirror::{
    CAdvanced, CCommitted, CCounted, CFinished, CRecord, CRun, Head, advanced, committed, counted,
    finished, keep_session, recorded, run, session_in,
};
use query::{free_count_in, nth_extent_in, read_in, record_in, size_in};
use spec::{Answered, BlockStored, ByteOffset, Extent, FileBlock, Limits, Phase, Refusal};
use store::{abort, format, open_store};
use transaction::{LentSession, Staged, Volume, WorkingCopy};
use update::{create_in, remove_in, rename_in, set_size_in, write_in};

// The session that lent numbers stand for, but for its cells: how many of them are in use.
#[derive(Clone, Copy)]
struct Parts {
    blocks: usize,
    phase: Phase,
    count: usize,
}

impl Parts {
    fn of(numbers: &[u64; 4]) -> Parts
        ensures { result ≡ parts_in numbers.now }
    {
        let head = Head::from(*numbers);
        Parts {
            blocks: head.blocks as usize,
            phase: head.phase(),
            count: head.count as usize,
        }
    }

    // The volume and its session as a call reads them, where these cells are lent.
    fn volume<'a>(
        self,
        device: &'a [u8],
        work: &'a [u8],
        staged: &'a [u32; Limits::LOG_LENGTH],
    ) -> Volume<'a>
        ensures { Shows result (state_of (session_of self.blocks self.phase staged.now self.count) device.now work.now) }
    {
        Volume::of_parts(device, work, self.blocks, self.phase, staged, self.count)
    }

    // The numbers become those of a session on the same blocks.
    fn keep(self, numbers: &mut [u64; 4], phase: Phase, count: usize)
        ensures { numbers.new ≡ numbers_of (head_of self.blocks phase count) }
    {
        *numbers = Head::of(self.blocks as u64, phase, count as u64).into();
    }
}

// What a call of a session by value leaves: nothing new where it is refused.
fn settled(
    numbers: &mut [u64; 4],
    staged: &mut [u32; Limits::LOG_LENGTH],
    f: Answered<()>,
) -> CFinished
    ensures { (result ≡ finished_of (done_of f.answer))
        × (numbers.new ≡ unless_refused (done_of f.answer) numbers.old (numbers_of (encode f.session)))
        × (staged.new ≡ unless_refused (done_of f.answer) staged.old f.session.staged) }
{
    if let Ok(()) = f.answer {
        keep_session(numbers, staged, f.session);
    }
    finished(f.answer)
}

// Makes an empty store. The work space is not lent: whatever it holds stays.
#[unsafe(no_mangle)]
pub extern "C" fn purse_format_v(
    device: &mut [u8],
    numbers: &mut [u64; 4],
    staged: &mut [u32; Limits::LOG_LENGTH],
) -> CFinished
    ensures { (work : List ℕ) → Ends finished_of result (lent numbers.old staged.old device.old work)
        (lent numbers.new staged.new device.new work) format }
{
    let before = session_in(numbers, staged);
    let after = format(device, before);
    settled(numbers, staged, after)
}

// Opens a device: recovering where its header lists targets, else ready.
#[unsafe(no_mangle)]
pub extern "C" fn purse_open_v(
    device: &[u8],
    numbers: &mut [u64; 4],
    staged: &mut [u32; Limits::LOG_LENGTH],
) -> CFinished
    ensures { (work : List ℕ) → Ends finished_of result (lent numbers.old staged.old device.now work)
        (lent numbers.new staged.new device.now work) open_store }
{
    let before = session_in(numbers, staged);
    let after = open_store(device, before);
    settled(numbers, staged, after)
}

// The numbers and cells behind an answer of advance: the same where it is a refusal. No cell is in use behind the last store.
fn keep_behind(
    numbers: &mut [u64; 4],
    staged: &mut [u32; Limits::LOG_LENGTH],
    s: Parts,
    answer: Result<Option<BlockStored>, Refusal>,
)
    ensures { (numbers.new ≡ unless_refused (stored_of answer) numbers.old
        (numbers_of (encode (behind s.phase (session_of s.blocks s.phase staged.old s.count) answer))))
        × (staged.new ≡ (behind s.phase (session_of s.blocks s.phase staged.old s.count) answer).staged) }
{
    match answer {
        Ok(Some(stored)) => {
            if stored.last {
                *staged = [0; Limits::LOG_LENGTH];
                s.keep(numbers, last_phase(s.phase), 0);
            } else {
                s.keep(numbers, phase_at(s.phase, stored.number), s.count);
            }
        }
        Ok(None) => s.keep(numbers, s.phase, s.count),
        Err(_) => {}
    }
}

// Stores the next block of a commit or a recovery under way.
#[unsafe(no_mangle)]
pub extern "C" fn purse_advance_v(
    device: &mut [u8],
    work: &[u8],
    numbers: &mut [u64; 4],
    staged: &mut [u32; Limits::LOG_LENGTH],
) -> CAdvanced
    ensures { Ends advanced_of result (lent numbers.old staged.old device.old work.now)
        (lent numbers.new staged.new device.new work.now) advance }
{
    let s = Parts::of(numbers);
    let used = Staged::of(staged, s.count);
    let answer = advance_in(device, work, s.blocks, s.phase, used);
    keep_behind(numbers, staged, s, answer);
    advanced(answer)
}

// What an answer of commit leaves in the numbers: the same where it is a refusal.
fn begun(numbers: &mut [u64; 4], s: Parts, answer: Result<usize, Refusal>) -> CCommitted
    ensures { (result ≡ committed_of (started_of answer))
        × (numbers.new ≡ unless_refused (started_of answer) numbers.old (numbers_of (head_of s.blocks (begun_phase s.phase answer) s.count))) }
{
    if answer.is_ok() {
        s.keep(numbers, begun_phase(s.phase, answer), s.count);
    }
    committed(answer)
}

// Starts the stores of a commit and tells how many they are. No cell changes.
#[unsafe(no_mangle)]
pub extern "C" fn purse_commit_v(
    device: &[u8],
    work: &[u8],
    numbers: &mut [u64; 4],
    staged: &[u32; Limits::LOG_LENGTH],
) -> CCommitted
    ensures { Ends committed_of result (lent numbers.old staged.now device.now work.now)
        (lent numbers.new staged.now device.now work.now) commit }
{
    let s = Parts::of(numbers);
    let answer = commit_in(&s.volume(device, work, staged));
    begun(numbers, s, answer)
}

// Empties the transaction.
#[unsafe(no_mangle)]
pub extern "C" fn purse_abort_v(
    device: &[u8],
    work: &[u8],
    numbers: &mut [u64; 4],
    staged: &mut [u32; Limits::LOG_LENGTH],
) -> CFinished
    ensures { Ends finished_of result (lent numbers.old staged.old device.now work.now)
        (lent numbers.new staged.new device.now work.now) abort }
{
    let before = session_in(numbers, staged);
    let after = abort(device, work, before);
    settled(numbers, staged, after)
}

// What a call that changes a lent session leaves in its numbers: the same where it is refused, else the session's, with as many cells in use as it left.
fn changed(numbers: &mut [u64; 4], s: Parts, answer: Result<(), Refusal>) -> CFinished
    ensures { (result ≡ finished_of (done_of answer))
        × (numbers.new ≡ unless_refused (done_of answer) numbers.old (numbers_of (head_of s.blocks s.phase s.count))) }
{
    if answer.is_ok() {
        s.keep(numbers, s.phase, s.count);
    }
    finished(answer)
}

// A call that changes a session which is lent: run on the session of lent numbers and cells.
fn changing<F: FnOnce(&mut LentSession) -> Result<(), Refusal>>(
    device: &[u8],
    work: &mut [u8],
    numbers: &mut [u64; 4],
    staged: &mut [u32; Limits::LOG_LENGTH],
    call: F,
) -> CFinished
    requires callable { F.IsAlwaysCallable call }
    requires keeps { Keeps F.FnOnce call }
    ensures { (f : State → Outcome) → ((s : State) → Still (outcome s) (f s)) → Does F.FnOnce call f
        → Ends finished_of result (lent numbers.old staged.old device.now work.old) (lent numbers.new staged.new device.now work.new) f }
{
    let mut s = Parts::of(numbers);
    let mut lent = LentSession::new(device, work, s.blocks, s.phase, staged, &mut s.count);
    let answer = call(&mut lent);
    changed(numbers, s, answer)
}

// Makes an empty file.
#[unsafe(no_mangle)]
pub extern "C" fn purse_create_v(
    device: &[u8],
    work: &mut [u8],
    numbers: &mut [u64; 4],
    staged: &mut [u32; Limits::LOG_LENGTH],
    name: &[u8],
) -> CFinished
    ensures { Ends finished_of result (lent numbers.old staged.old device.now work.old)
        (lent numbers.new staged.new device.now work.new) (λ s. create s name.now) }
{
    changing(device, work, numbers, staged, |lent| create_in(lent, name))
}

// Removes a file.
#[unsafe(no_mangle)]
pub extern "C" fn purse_remove_v(
    device: &[u8],
    work: &mut [u8],
    numbers: &mut [u64; 4],
    staged: &mut [u32; Limits::LOG_LENGTH],
    name: &[u8],
) -> CFinished
    ensures { Ends finished_of result (lent numbers.old staged.old device.now work.old)
        (lent numbers.new staged.new device.now work.new) (λ s. remove s name.now) }
{
    changing(device, work, numbers, staged, |lent| remove_in(lent, name))
}

// Names a file anew.
#[unsafe(no_mangle)]
pub extern "C" fn purse_rename_v(
    device: &[u8],
    work: &mut [u8],
    numbers: &mut [u64; 4],
    staged: &mut [u32; Limits::LOG_LENGTH],
    name: &[u8],
    new: &[u8],
) -> CFinished
    ensures { Ends finished_of result (lent numbers.old staged.old device.now work.old)
        (lent numbers.new staged.new device.now work.new) (λ s. rename s name.now new.now) }
{
    changing(
        device,
        work,
        numbers,
        staged,
        |lent| rename_in(lent, name, new),
    )
}

// Bytes laid over a file from byte x on.
#[unsafe(no_mangle)]
pub extern "C" fn purse_write_v(
    device: &[u8],
    work: &mut [u8],
    numbers: &mut [u64; 4],
    staged: &mut [u32; Limits::LOG_LENGTH],
    name: &[u8],
    x: u64,
    bytes: &[u8],
) -> CFinished
    ensures { Ends finished_of result (lent numbers.old staged.old device.now work.old)
        (lent numbers.new staged.new device.now work.new) (λ s. write s name.now x bytes.now) }
{
    changing(
        device,
        work,
        numbers,
        staged,
        |lent| write_in(lent, name, ByteOffset(x as usize), bytes),
    )
}

// A file cut, or lengthened by zeros.
#[unsafe(no_mangle)]
pub extern "C" fn purse_set_size_v(
    device: &[u8],
    work: &mut [u8],
    numbers: &mut [u64; 4],
    staged: &mut [u32; Limits::LOG_LENGTH],
    name: &[u8],
    size: u64,
) -> CFinished
    ensures { Ends finished_of result (lent numbers.old staged.old device.now work.old)
        (lent numbers.new staged.new device.now work.new) (λ s. set_size s name.now size) }
{
    changing(
        device,
        work,
        numbers,
        staged,
        |lent| set_size_in(lent, name, size as usize),
    )
}

// Bytes of a file from byte x on, as many as the buffer takes and the file has; how many.
#[unsafe(no_mangle)]
pub extern "C" fn purse_read_v(
    device: &[u8],
    work: &[u8],
    numbers: &[u64; 4],
    name: &[u8],
    staged: &[u32; Limits::LOG_LENGTH],
    x: u64,
    buffer: &mut [u8],
) -> CCounted
    ensures { Reads result buffer.old buffer.new
        (read (state_of (decode (head_in numbers.now) staged.now) device.now work.now) name.now x buffer.old) }
{
    let s = Parts::of(numbers);
    let x = ByteOffset(x as usize);
    counted(read_in(&s.volume(device, work, staged), name, x, buffer))
}

// The size of a file in bytes.
#[unsafe(no_mangle)]
pub extern "C" fn purse_size_v(
    device: &[u8],
    work: &[u8],
    numbers: &[u64; 4],
    name: &[u8],
    staged: &[u32; Limits::LOG_LENGTH],
) -> CCounted
    ensures { result ≡ counted_of (size_of (state_of (decode (head_in numbers.now) staged.now) device.now work.now) name.now).answer }
{
    let s = Parts::of(numbers);
    counted(size_in(&s.volume(device, work, staged), name))
}

// How many blocks are free.
#[unsafe(no_mangle)]
pub extern "C" fn purse_free_count_v(
    device: &[u8],
    work: &[u8],
    numbers: &[u64; 4],
    staged: &[u32; Limits::LOG_LENGTH],
) -> CCounted
    ensures { result ≡ counted_of (free_count (state_of (decode (head_in numbers.now) staged.now) device.now work.now)).answer }
{
    let s = Parts::of(numbers);
    counted(free_count_in(&s.volume(device, work, staged)))
}

// Name and size of record i, or that it is empty: the name lent is then zero. A refusal leaves it.
#[unsafe(no_mangle)]
pub extern "C" fn purse_record_v(
    device: &[u8],
    work: &[u8],
    numbers: &[u64; 4],
    i: u64,
    staged: &[u32; Limits::LOG_LENGTH],
    name: &mut [u8; Limits::NAME_SIZE],
) -> CRecord
    ensures { Names result name.old name.new (record_at (state_of (decode (head_in numbers.now) staged.now) device.now work.now) i).answer }
{
    let s = Parts::of(numbers);
    let answer = record_in(&s.volume(device, work, staged), i as usize);
    recorded(answer, name)
}

// The k-th extent of the run list of n blocks of a file from a block on, counted from 0.
#[unsafe(no_mangle)]
pub extern "C" fn purse_nth_extent_v(
    device: &[u8],
    work: &[u8],
    numbers: &[u64; 4],
    name: &[u8],
    staged: &[u32; Limits::LOG_LENGTH],
    from: u64,
    n: u64,
    k: u64,
) -> CRun
    ensures { result ≡ run_of (nth_extent (state_of (decode (head_in numbers.now) staged.now) device.now work.now) name.now from n k).answer }
{
    let s = Parts::of(numbers);
    let from = FileBlock(from as usize);
    run(nth_extent_in(
        &s.volume(device, work, staged),
        name,
        from,
        n as usize,
        k as usize,
    ))
}

// The runs of a stretch into pairs of cells, where there are pairs for all. By index: of what `chunks_exact_mut` lends, std tells nothing once it is given back.
fn put_runs(copy: &WorkingCopy, stretch: Stretch, list: &mut [u32])
    requires { length (runs_in (working copy.now) stretch.i.n stretch.from.0 stretch.n) ≤ length list.old / 2 }
    ensures { list.new ≡ with_extents list.old (runs_in (working copy.now) stretch.i.n stretch.from.0 stretch.n) }
{
    for (k, run) in Runs::of(copy, stretch).enumerate() {
        list[2 * k] = run.first;
        list[2 * k + 1] = run.count;
    }
}

// 1, 2, 3, 12, 13 and 19, or the run list put into pairs of cells: the tree once for the count, and once for the runs.
fn list_runs(
    volume: &Volume,
    name: &[u8],
    from: FileBlock,
    n: usize,
    list: &mut [u32],
) -> Result<usize, Refusal>
    ensures { (s : State) → Shows volume.now s → Lists (counted_of (answer_of result)) list.old list.new
        (run_list s name.now from.0 n (extents_of list.old)) }
{
    let i = look_up(volume, name)?;
    let stretch = Stretch { i, from, n };
    let count = count_runs(&volume.copy, stretch);
    if list.len() / 2 < count {
        return Err(Refusal::ListShort);
    }
    put_runs(&volume.copy, stretch, list);
    Ok(count)
}

// The run list itself, into pairs of cells, first block and count; a last cell without a partner is no place of the list.
#[unsafe(no_mangle)]
pub extern "C" fn purse_run_list_v(
    device: &[u8],
    work: &[u8],
    numbers: &[u64; 4],
    name: &[u8],
    staged: &[u32; Limits::LOG_LENGTH],
    from: u64,
    n: u64,
    list: &mut [u32],
) -> CCounted
    ensures { Lists result list.old list.new
        (run_list (state_of (decode (head_in numbers.now) staged.now) device.now work.now) name.now from n (extents_of list.old)) }
{
    let s = Parts::of(numbers);
    let from = FileBlock(from as usize);
    counted(list_runs(
        &s.volume(device, work, staged),
        name,
        from,
        n as usize,
        list,
    ))
}
