// A file looked up by its name, behind the tests at the head of a call.
#![tactic(auto)]

ghost use Rattle.std.specs.Prelude.{◌≡◌, ◌+◌, not};
ghost use Rattle.spec.specs.declared.Refusal.TheVariants.{Taken};
ghost use Rattle.spec.specs.Answers.{require};
ghost use Rattle.spec.specs.Transaction.{State};
ghost use Rattle.spec.specs.Calls.{known, is_taken, empty_inode, file_ok, sized_ok};
ghost use Rattle.checks.specs.Checks.{result_of};
ghost use Rattle.transaction.specs.Volumes.{Shows};
ghost use Rattle.lookup.specs.Looks.{looked_of, new_ok, rename_ok};

use checks::{both_named, named, require, sized};
use inode::{InodeNumber, find, find_empty};
use spec::{ByteOffset, Refusal};
use transaction::Volume;

// 13
fn known(volume: &Volume, name: &[u8]) -> Result<InodeNumber, Refusal>
    ensures { (s : State) → Shows volume.now s → looked_of result ≡ known s name.now }
{
    find(&volume.copy, name).ok_or(Refusal::Unknown)
}

// 14
fn not_taken(volume: &Volume, name: &[u8]) -> Result<(), Refusal>
    ensures { (s : State) → Shows volume.now s → result_of result ≡ require (not (is_taken s name.now)) Taken }
{
    require(find(&volume.copy, name).is_none(), Refusal::Taken)
}

// 15
fn empty(volume: &Volume) -> Result<InodeNumber, Refusal>
    ensures { (s : State) → Shows volume.now s → looked_of result ≡ empty_inode s }
{
    find_empty(&volume.copy).ok_or(Refusal::NoInode)
}

// 1, 2, 3, 12 and 13
#[tactic(auto, unfolding(spec::specs::Calls::file_ok))]
pub fn look_up(volume: &Volume, name: &[u8]) -> Result<InodeNumber, Refusal>
    ensures { (s : State) → Shows volume.now s → looked_of result ≡ file_ok s name.now }
{
    named(volume, name)?;
    known(volume, name)
}

// 1, 2, 3, 4, 12 and 13, for n bytes at x
pub fn look_up_sized(
    volume: &Volume,
    name: &[u8],
    x: ByteOffset,
    n: usize,
) -> Result<InodeNumber, Refusal>
    ensures { (s : State) → Shows volume.now s → looked_of result ≡ sized_ok s name.now (x.0 + n) }
{
    sized(volume, name, x, n)?;
    known(volume, name)
}

// 1, 2, 3, 12, 14 and 15: the record for a new file
#[tactic(auto, unfolding(crate::specs::Looks::new_ok))]
pub fn look_up_new(volume: &Volume, name: &[u8]) -> Result<InodeNumber, Refusal>
    ensures { (s : State) → Shows volume.now s → looked_of result ≡ new_ok s name.now }
{
    named(volume, name)?;
    not_taken(volume, name)?;
    empty(volume)
}

// 1, 2, 3 of both names, 12, 13 and 14: the record to rename
#[tactic(auto, unfolding(crate::specs::Looks::rename_ok, crate::specs::Looks::unless_taken))]
pub fn look_up_pair(volume: &Volume, name: &[u8], new: &[u8]) -> Result<InodeNumber, Refusal>
    ensures { (s : State) → Shows volume.now s → looked_of result ≡ rename_ok s name.now new.now }
{
    both_named(volume, name, new)?;
    let i = known(volume, name)?;
    not_taken(volume, new)?;
    Ok(i)
}
