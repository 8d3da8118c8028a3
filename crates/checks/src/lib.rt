// The tests at the head of a call, in the order of the refusals' numbers.
#![tactic(auto)]

ghost use Rattle.std.specs.Prelude.{◌≡◌, ◌+◌, ◌*◌, eqb, leb, Ok, Err};
ghost use Rattle.spec.specs.declared.Session.{Session};
ghost use Rattle.spec.specs.Answers.{require};
ghost use Rattle.spec.specs.declared.Refusal.TheVariants.{NotReady};
ghost use Rattle.spec.specs.Disk.{is_allowed};
ghost use Rattle.spec.specs.Inode.{is_name};
ghost use Rattle.spec.specs.Transaction.{State, state_of};
ghost use Rattle.transaction.specs.Volumes.{Heads};
ghost use Rattle.spec.specs.Calls.{is_ready, lent_ok, ready_ok, name_ok};
ghost use Rattle.checks.specs.Checks.{result_of, names_ok, name_size_ok};

use block::key_of;
use spec::{Answered, ByteOffset, Limits, Phase, Refusal, Session};
use transaction::Volume;

// "512 times an allowed N"
#[tactic(auto, unfolding(spec::specs::Disk::is_allowed))]
pub fn is_allowed(size: usize) -> bool
    ensures { result ≡ is_allowed size }
{
    let blocks = size / Limits::BLOCK_SIZE;
    size % Limits::BLOCK_SIZE == 0
        && (Limits::FEWEST_BLOCKS..=Limits::MOST_BLOCKS).contains(&blocks)
}

// "the N of the session"
fn same_size(size: usize, blocks: usize) -> bool
    ensures { result ≡ eqb (512 * blocks) size }
{
    size % Limits::BLOCK_SIZE == 0 && blocks == size / Limits::BLOCK_SIZE
}

// A test, refused where it fails.
pub fn require(holds: bool, why: Refusal) -> Result<(), Refusal>
    ensures { result_of result ≡ require holds why }
{
    if holds { Ok(()) } else { Err(why) }
}

// 1 and 2, of every session on so many blocks. Parameters and no Volume: an advance is lent the device to change it, and a Volume only reads; this serves both.
#[tactic(auto, unfolding(spec::specs::Calls::lent_ok))]
pub fn lent(device: &[u8], work: &[u8], blocks: usize) -> Result<(), Refusal>
    ensures { (s : Session) → s.blocks ≡ blocks → result_of result ≡ lent_ok (state_of s device.now work.now) }
{
    let fits = is_allowed(device.len()) && same_size(device.len(), blocks);
    require(fits, Refusal::DeviceSize)?;
    require(work.len() == Limits::WORK_SIZE, Refusal::WorkSize)
}

// 12
fn ready_phase(phase: Phase) -> Result<(), Refusal>
    ensures { result_of result ≡ require (is_ready phase) NotReady }
{
    require(phase == Phase::Ready, Refusal::NotReady)
}

// 1 and 2, of a volume
fn lent_volume(volume: &Volume) -> Result<(), Refusal>
    ensures { (s : State) → Heads volume.now s → result_of result ≡ lent_ok s }
{
    lent(volume.copy.device, volume.copy.work, volume.blocks)
}

// 1, 2 and 12
#[tactic(auto, unfolding(spec::specs::Calls::ready_ok))]
pub fn ready(volume: &Volume) -> Result<(), Refusal>
    ensures { (s : State) → Heads volume.now s → result_of result ≡ ready_ok s }
{
    lent_volume(volume)?;
    ready_phase(volume.phase)
}

// 3
pub fn is_name(name: &[u8]) -> bool
    ensures { result ≡ is_name name.now }
{
    name.as_array().is_some_and(|name| key_of(name) != 0)
}

// 1, 2, 3 and 12
#[tactic(auto, unfolding(spec::specs::Calls::name_ok))]
pub fn named(volume: &Volume, name: &[u8]) -> Result<(), Refusal>
    ensures { (s : State) → Heads volume.now s → result_of result ≡ name_ok s name.now }
{
    lent_volume(volume)?;
    require(is_name(name), Refusal::BadName)?;
    ready_phase(volume.phase)
}

// 1, 2, 3 of two names, and 12
#[tactic(auto, unfolding(crate::specs::Checks::names_ok))]
pub fn both_named(volume: &Volume, name: &[u8], new: &[u8]) -> Result<(), Refusal>
    ensures { (s : State) → Heads volume.now s → result_of result ≡ names_ok s name.now new.now }
{
    lent_volume(volume)?;
    require(is_name(name) && is_name(new), Refusal::BadName)?;
    ready_phase(volume.phase)
}

// 4, "x plus data length" as whole numbers
fn size_fits(x: ByteOffset, n: usize) -> bool
    ensures { result ≡ leb (x.0 + n) 1048576 }
{
    x.0.checked_add(n)
        .is_some_and(|end| end <= Limits::MAX_FILE_SIZE)
}

// 1, 2, 3, 4 and 12
#[tactic(auto, unfolding(crate::specs::Checks::name_size_ok))]
pub fn sized(volume: &Volume, name: &[u8], x: ByteOffset, n: usize) -> Result<(), Refusal>
    ensures { (s : State) → Heads volume.now s → result_of result ≡ name_size_ok s name.now (x.0 + n) }
{
    lent_volume(volume)?;
    require(is_name(name), Refusal::BadName)?;
    require(size_fits(x, n), Refusal::TooLarge)?;
    ready_phase(volume.phase)
}

// A call refused: the session is the one it was given.
pub fn refused(session: Session, why: Refusal) -> Answered<()>
    ensures { (result.session ≡ session) × (result.answer ≡ Err why) }
{
    Answered {
        session,
        answer: Err(why),
    }
}

// A call done, with the session it leaves.
pub fn done(session: Session) -> Answered<()>
    ensures { (result.session ≡ session) × (result.answer ≡ Ok tt) }
{
    Answered {
        session,
        answer: Ok(()),
    }
}
