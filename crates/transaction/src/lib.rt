// The transaction: staged blocks, the working copy of a block, staging.
#![tactic(auto)]

ghost use Rattle.std.specs.Prelude.{◌≡◌, ◌==◌, List, ℕ, ◌≤◌, ◌<◌, min, length, take, position};
ghost use Rattle.std.specs.Fn.{FnOnceReturnsAtMut};
ghost use Rattle.spec.specs.Bytes.{exactly, place};
ghost use Rattle.spec.specs.Disk.{blocks_of, slice_of};
ghost use Rattle.spec.specs.declared.Phase.{Phase};
ghost use Rattle.spec.specs.Session.{staged_in, with_staged};
ghost use Rattle.spec.specs.Transaction.{state_of, view, put, stage, staged_of, with_staging};
ghost use Rattle.block.specs.Places.{found_at};
ghost use Rattle.block.specs.Stores.{stored_in};
ghost use Rattle.transaction.specs.Places.{spot, blocks_with, session_of};
ghost use Rattle.transaction.specs.Volumes.{working, Shows};
ghost use Rattle.transaction.specs.LentSessions.{session_lent, numbers_lent, state_lent, Kept};
ghost use Rattle.transaction.specs.Images.{session_of_image, state_of_image, work_of_image, Same, Makes, image_in};

use block::{block_in, store_block, store_copy};
use spec::{DiskBlock, Limits, Phase, Session};

mod image;
mod lent_session;
mod staged;
mod staging;
mod volume;
mod working_copy;

pub use image::Image;
pub use lent_session::LentSession;
pub use staged::Staged;
pub use staging::Staging;
pub use volume::Volume;
pub use working_copy::WorkingCopy;

// How many of the 32 cells are in use: a count past them is read as all.
pub fn staged_in(count: usize) -> usize
    ensures { (result ≡ min count 32) × (result ≤ 32) }
{
    count.min(Limits::LOG_LENGTH)
}

// How many blocks are staged.
pub fn staged_count(s: Session) -> usize
    ensures { (result ≡ length (staged_in s)) × (result ≤ 32) }
{
    staged_in(s.count)
}

// The first cell that holds this number. It stands alone: by `position` over the number that is a field, what `place_in` answers stays open.
fn first_place(cells: &[u32], want: u32) -> Option<usize>
    ensures { result ≡ position (λ x. x == want) cells.now }
{
    cells.iter().position(|x| *x == want)
}

// Where block b stands among these numbers: any numbers, of which `Staged::place_of` has at most 32.
pub fn place_in(staged: &[u32], b: DiskBlock) -> Option<usize>
    ensures { result ≡ found_at (place b.0 staged.now) }
{
    first_place(staged, b.0)
}

// The place among the images that block b has or gets, of any numbers too.
pub fn spot(staged: &[u32], b: DiskBlock) -> usize
    ensures { result ≡ spot staged.now b.0 }
{
    place_in(staged, b).unwrap_or(staged.len())
}

impl<'a> Staged<'a> {
    // Those of a session, in its cells in use.
    pub fn of(cells: &'a [u32; Limits::LOG_LENGTH], count: usize) -> Staged<'a>
        ensures { result.list.now ≡ take count cells.now }
    {
        let list = &cells[..staged_in(count)];
        Staged { list }
    }

    // Where block b stands among them.
    pub fn place_of(self, b: DiskBlock) -> Option<usize>
        ensures { result ≡ found_at (place b.0 self.entry.list.now) }
    {
        place_in(self.list, b)
    }

    // The place among the images that block b has or gets.
    pub fn spot(self, b: DiskBlock) -> usize
        ensures { result ≡ spot self.entry.list.now b.0 }
    {
        spot(self.list, b)
    }
}

impl<'a> WorkingCopy<'a> {
    // A device with nothing staged.
    pub fn of_device(device: &'a [u8]) -> WorkingCopy<'a>
        ensures { working result ≡ blocks_of device.now }
    {
        WorkingCopy {
            device,
            work: &[],
            staged: Staged { list: &[] },
        }
    }

    // Block b: its image where it is staged, else the device's block; it may end early, zeros follow.
    pub fn block(&self, b: DiskBlock) -> &'a [u8]
        ensures { (exactly 512 result.now ≡ working self.now b.0) × (length result.now ≤ 512) }
    {
        match self.staged.place_of(b) {
            Some(i) => block_in(self.work, DiskBlock(i as u32)),
            None => block_in(self.device, b),
        }
    }
}

impl<'a> Volume<'a> {
    // Of a session.
    pub fn of(device: &'a [u8], work: &'a [u8], session: &'a Session) -> Volume<'a>
        ensures { Shows result (state_of session.now device.now work.now) }
    {
        Volume::of_parts(
            device,
            work,
            session.blocks,
            session.phase,
            &session.staged,
            session.count,
        )
    }

    // Of a session's parts, as C lends them: where a session is made of them, `size` takes 18 ns in place of 14.
    pub fn of_parts(
        device: &'a [u8],
        work: &'a [u8],
        blocks: usize,
        phase: Phase,
        cells: &'a [u32; Limits::LOG_LENGTH],
        count: usize,
    ) -> Volume<'a>
        ensures { Shows result (state_of (session_of blocks phase cells.now count) device.now work.now) }
    {
        Volume {
            blocks,
            phase,
            copy: WorkingCopy {
                device,
                work,
                staged: Staged::of(cells, count),
            },
        }
    }
}

impl<'a> LentSession<'a> {
    // Of a session's parts, which stay where the caller holds them.
    pub fn new(
        device: &'a [u8],
        work: &'a mut [u8],
        blocks: usize,
        phase: Phase,
        cells: &'a mut [u32; Limits::LOG_LENGTH],
        count: &'a mut usize,
    ) -> LentSession<'a>
        ensures bytes { result.work.ghost_name ≡ work.entry.ghost_name }
        ensures numbers { (result.cells.ghost_name ≡ cells.entry.ghost_name) × (result.count.ghost_name ≡ count.entry.ghost_name) }
        ensures parts { (result.device.now ≡ device.now) × (result.work.now ≡ work.old) × (result.blocks ≡ blocks) × (result.phase ≡ phase)
            × (result.cells.now ≡ cells.old) × (result.count.now ≡ count.old) }
    {
        LentSession {
            device,
            work,
            blocks,
            phase,
            cells,
            count,
        }
    }

    // The numbers of the staged blocks.
    pub fn staged(&self) -> Staged<'_>
        ensures { result.list.now ≡ numbers_lent self.now }
    {
        Staged::of(self.cells, *self.count)
    }

    // Its working copy.
    pub fn copy(&self) -> WorkingCopy<'_>
        ensures { working result ≡ view (state_lent self.now) }
    {
        WorkingCopy {
            device: self.device,
            work: self.work,
            staged: self.staged(),
        }
    }

    // All of it that is read before the first change.
    pub fn volume(&self) -> Volume<'_>
        ensures { Shows result (state_lent self.now) }
    {
        Volume::of_parts(
            self.device,
            self.work,
            self.blocks,
            self.phase,
            self.cells,
            *self.count,
        )
    }

    // The place among the images that block b has or gets.
    pub fn spot(&self, b: DiskBlock) -> usize
        ensures { result ≡ spot (numbers_lent self.now) b.0 }
    {
        self.staged().spot(b)
    }

    // Block b among the staged ones, at its place.
    pub fn add(&mut self, b: DiskBlock, place: usize)
        requires { (place ≡ spot (numbers_lent self.old) b.0) × (place < 32) }
        ensures parts { Kept self.old self.new }
        ensures bytes { self.new.work.now ≡ self.old.work.now }
        ensures numbers { session_lent self.new ≡ with_staged (session_lent self.old) (blocks_with (numbers_lent self.old) b.0) }
    {
        let n = self.staged().list.len();
        if place < n {
            *self.count = n;
            return;
        }
        self.cells[n] = b.0;
        *self.count = n + 1;
    }

    // A count past the cells becomes that of all cells, as staging leaves it.
    pub fn settle(&mut self)
        ensures parts { Kept self.old self.new }
        ensures bytes { self.new.work.now ≡ self.old.work.now }
        ensures numbers { session_lent self.new ≡ with_staged (session_lent self.old) (numbers_lent self.old) }
    {
        *self.count = self.staged().list.len();
    }
}

// A block that is lent as a slice changed as an array. It stands alone: std's array of a part of a slice tells nothing of what is written back.
fn on_array<F: FnOnce(&mut [u8; Limits::BLOCK_SIZE])>(block: &mut [u8], change: F)
    requires long { length block.old ≡ 512 }
    requires callable { F.IsAlwaysCallable change }
    ensures { FnOnceReturnsAtMut F.FnOnce change block.old tt block.new }
{
    let Some(block) = block.as_mut_array() else {
        unreachable!()
    };
    change(block);
}

impl Image<'_, '_, '_> {
    // The image becomes the block's working copy: it is that already where the block is staged.
    pub fn load(&mut self)
        ensures parts { Same self.old self.new }
        ensures numbers { session_of_image self.new ≡ session_of_image self.old }
        ensures bytes { slice_of (work_of_image self.new)
            ≡ stored_in (slice_of (work_of_image self.old)) self.old.place (view (state_of_image self.old) self.old.block.0) }
    {
        let k = self.place;
        let images = &mut *self.images;
        let lent = &mut *images.lent;
        if k < lent.staged().list.len() {
            return;
        }
        let from = block_in(lent.device, self.block);
        let work = &mut *lent.work;
        store_copy(work, DiskBlock(k as u32), from);
    }

    // Its bytes changed in place, in the array that they are.
    pub fn edit<F: FnOnce(&mut [u8; Limits::BLOCK_SIZE])>(&mut self, change: F)
        requires { F.IsAlwaysCallable change }
        ensures parts { Same self.old self.new }
        ensures numbers { session_of_image self.new ≡ session_of_image self.old }
        ensures bytes { (g : List ℕ → List ℕ) → Makes F.FnOnce change g → slice_of (work_of_image self.new)
            ≡ stored_in (slice_of (work_of_image self.old)) self.old.place (g (image_in self.old.place (work_of_image self.old))) }
    {
        let at = Limits::BLOCK_SIZE * self.place;
        let images = &mut *self.images;
        let lent = &mut *images.lent;
        let work = &mut *lent.work;
        on_array(&mut work[at..at + Limits::BLOCK_SIZE], change);
    }

    // The block is among the staged ones.
    pub fn add(&mut self)
        ensures parts { Same self.old self.new }
        ensures bytes { work_of_image self.new ≡ work_of_image self.old }
        ensures numbers { session_of_image self.new
            ≡ with_staged (session_of_image self.old) (blocks_with (staged_in (session_of_image self.old)) self.old.block.0) }
    {
        let images = &mut *self.images;
        images.lent.add(self.block, self.place);
    }
}

// Block b staged with content x: appended, or its image overwritten; the rest of the work space is unchanged.
pub fn stage(
    work: &mut [u8; Limits::WORK_SIZE],
    s: Session,
    b: DiskBlock,
    x: &[u8; Limits::BLOCK_SIZE],
) -> Session
    requires { spot (staged_in s) b.0 < 32 }
    ensures { (device : List ℕ) → state_of result device work.new
        ≡ with_staging (state_of s device work.old) (stage (staged_of (state_of s device work.old)) (put b.0 x.now)) }
{
    let mut left = s;
    let place = Staged::of(&left.staged, left.count).spot(b);
    store_block(work, DiskBlock(place as u32), x);
    LentSession {
        device: &[],
        work,
        blocks: left.blocks,
        phase: left.phase,
        cells: &mut left.staged,
        count: &mut left.count,
    }
    .add(b, place);
    left
}
