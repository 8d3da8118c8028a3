// The public calls of the purse store. Each promise is one equation: what is answered and left is the call's outcome at what was given.
// Device, work space and session are not gathered in a struct here, since the specification has each call take them by themselves.
#![tactic(auto)]

ghost use Rattle.std.specs.Prelude.{◌≡◌, List, ℕ, ◌/◌, length, IfOk, IfErr};
ghost use Rattle.spec.specs.declared.Session.{Session};
ghost use Rattle.spec.specs.Session.{opened};
ghost use Rattle.spec.specs.Answers.{done, refusal_of, done_of, started_of, stored_of};
ghost use Rattle.spec.specs.Transaction.{state_of};
ghost use Rattle.spec.specs.Calls.{left, format, open_store, advance, commit, abort};

use block::block_in;
use checks::{done, is_allowed, ready, refused, require};
use fsck::undamaged;
use header::{header_fault, targets_in};
use journal::{advance_in, after, begun_phase, commit_in};
use mkfs::make_empty;
pub use query::{free_count, nth_extent, read, record_at, size};
pub use runlist::run_list;
use spec::{Answered, BlockStored, DiskBlock, Limits, Phase, Refusal, Session};
use transaction::{Staged, Volume};
pub use update::{create, remove, rename, set_size, write};

// Makes an empty store. The work space is not lent: whatever it holds stays.
pub fn format(device: &mut [u8], session: Session) -> Answered<()>
    ensures { (work : List ℕ) → left result.session device.new work (done_of result.answer)
        ≡ format (state_of session device.old work) }
{
    let size = device.len();
    if !is_allowed(size) {
        return refused(session, Refusal::DeviceSize);
    }
    make_empty(device);
    done(Session::closed_on(size / Limits::BLOCK_SIZE))
}

// The phase in which a device opens: recovering where its header lists targets, else ready if the volume is not damaged.
fn phase_of(device: &[u8]) -> Result<Phase, Refusal>
    ensures { IfOk result (λ phase. (s : Session) (work : List ℕ) → left (opened (length device.now / 512) phase) device.now work done ≡ open_store (state_of s device.now work))
        × IfErr result (λ why. (s : Session) (work : List ℕ) → left s device.now work (refusal_of why) ≡ open_store (state_of s device.now work)) }
{
    require(is_allowed(device.len()), Refusal::DeviceSize)?;
    let n = device.len() / Limits::BLOCK_SIZE;
    let head = block_in(device, DiskBlock(0));
    if let Some(i) = header_fault(n, head) {
        return Err(Refusal::BadHeader(i));
    }
    if targets_in(head).len() != 0 {
        return Ok(Phase::Recovering(0));
    }
    undamaged(device, n)?;
    Ok(Phase::Ready)
}

// Opens a device.
pub fn open_store(device: &[u8], session: Session) -> Answered<()>
    ensures { (work : List ℕ) → left result.session device.now work (done_of result.answer)
        ≡ open_store (state_of session device.now work) }
{
    match phase_of(device) {
        Err(why) => refused(session, why),
        Ok(phase) => done(Session::opened(device.len() / Limits::BLOCK_SIZE, phase)),
    }
}

// Stores the next block of a commit or a recovery under way.
pub fn advance(device: &mut [u8], work: &[u8], session: Session) -> Answered<Option<BlockStored>>
    ensures { left result.session device.new work.now (stored_of result.answer)
        ≡ advance (state_of session device.old work.now) }
{
    let blocks = session.blocks;
    let phase = session.phase;
    let staged = Staged::of(&session.staged, session.count);
    let answer = advance_in(device, work, blocks, phase, staged);
    let next = after(session.phase, session, answer);
    Answered {
        session: next,
        answer,
    }
}

// Starts the stores of a commit and tells how many they are.
pub fn commit(device: &[u8], work: &[u8], session: Session) -> Answered<usize>
    ensures { left result.session device.now work.now (started_of result.answer)
        ≡ commit (state_of session device.now work.now) }
{
    let answer = commit_in(&Volume::of(device, work, &session));
    let next = session.in_phase(begun_phase(session.phase, answer));
    Answered {
        session: next,
        answer,
    }
}

// Empties the transaction.
pub fn abort(device: &[u8], work: &[u8], session: Session) -> Answered<()>
    ensures { left result.session device.now work.now (done_of result.answer)
        ≡ abort (state_of session device.now work.now) }
{
    match ready(&Volume::of(device, work, &session)) {
        Err(why) => refused(session, why),
        Ok(()) => done(Session::opened(session.blocks, Phase::Ready)),
    }
}
