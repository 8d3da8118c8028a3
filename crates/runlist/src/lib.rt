// The public call that puts the run list of a stretch into a lent list of extents.
#![tactic(auto)]

ghost use Rattle.std.specs.Prelude.{◌≡◌, length};
ghost use Rattle.spec.specs.Answers.{counted_of};
ghost use Rattle.spec.specs.Transaction.{state_of};
ghost use Rattle.spec.specs.Calls.{left_list, run_list};
ghost use Rattle.transaction.specs.Volumes.{working};
ghost use Rattle.extents.specs.Stretches.{runs_in};

use checks::require;
use extents::{Stretch, count_runs, nth_extent};
use lookup::look_up;
use spec::{Extent, FileBlock, Refusal, Session};
use transaction::{Volume, WorkingCopy};

// The runs of a stretch, into as many places. The specification names this form, one function over the n-th extent; C's run list, in crate capi, goes over the runs in one walk.
fn fill(copy: &WorkingCopy, stretch: Stretch, list: &mut [Extent])
    requires { length list.old ≡ length (runs_in (working copy.now) stretch.i.n stretch.from.0 stretch.n) }
    ensures { list.new ≡ runs_in (working copy.now) stretch.i.n stretch.from.0 stretch.n }
{
    for (k, place) in list.iter_mut().enumerate() {
        *place = nth_extent(copy, stretch, k).unwrap();
    }
}

// The runs of n blocks of a file from a block on, into the first places of a list; how many.
#[tactic(auto, unfolding(spec::specs::Calls::run_list))]
pub fn run_list(
    device: &[u8],
    work: &[u8],
    session: Session,
    name: &[u8],
    from: FileBlock,
    n: usize,
    list: &mut [Extent],
) -> Result<usize, Refusal>
    ensures { left_list session device.now work.now (counted_of result) list.new
        ≡ run_list (state_of session device.now work.now) name.now from.0 n list.old }
{
    let volume = Volume::of(device, work, &session);
    let i = look_up(&volume, name)?;
    let stretch = Stretch { i, from, n };
    let count = count_runs(&volume.copy, stretch);
    require(count <= list.len(), Refusal::ListShort)?;
    fill(&volume.copy, stretch, &mut list[0..count]);
    Ok(count)
}
