// What the programs that run the calls of the store share: a device with its work space and session, and the calls on it.
#![tactic(auto)]

ghost use Rattle.std.specs.Prelude.{◌≡◌, suc};
ghost use Rattle.spec.specs.Layout.{max_file_blocks};
ghost use Rattle.spec.specs.Session.{never_opened};
ghost use Rattle.spec.specs.Answers.{count_of, done_of, started_of, stored_of, counted_of, recorded_of, run_of};
ghost use Rattle.spec.specs.Transaction.{state_of};
ghost use Rattle.spec.specs.Calls.{outcome, with_buffer, with_list, create, remove, rename, set_size, write, commit, advance, abort, open_store, free_count, size_of, read, record_at, nth_extent, run_list};
ghost use Rattle.mounted.specs.Names.{name_of};
ghost use Rattle.mounted.specs.States.{state_in, work_filled};
ghost use Rattle.mounted.specs.Rounds.{rounds, made_empty, created, grown, pair_grown, advanced, committed};

use spec::{
    Answered, BlockStored, ByteOffset, Extent, FileBlock, FileRecord, Limits, Refusal, Session,
};
use trial::Lent;

// The name of file k.
pub fn name(k: u8) -> [u8; Limits::NAME_SIZE]
    ensures { result ≡ name_of k }
{
    [k, 2, 3, 4, 5, 6, 7, 8]
}

// A store on what is lent to each call.
#[derive(Drop)]
pub struct Mounted<const N: usize> {
    pub lent: Lent<N>,
}

// A work space that holds nothing but a byte.
#[tactic(auto, unfolding(crate::specs::States::work_filled))]
fn filled(byte: u8) -> [u8; Limits::WORK_SIZE]
    ensures { result ≡ work_filled byte }
{
    [byte; Limits::WORK_SIZE]
}

impl<const N: usize> Mounted<N> {
    // An empty store, opened.
    #[tactic(auto, unfolding(crate::specs::Rounds::made_empty))]
    pub fn empty() -> Mounted<N>
        ensures { state_in result ≡ made_empty N }
    {
        let mut device = [0u8; N];
        store::format(&mut device, Session::never_opened());
        let opened = store::open_store(&device, Session::never_opened());
        Mounted {
            lent: Lent {
                device,
                work: filled(9),
                session: opened.session,
            },
        }
    }

    // The device as a cut leaves it, opened anew: the work space holds nothing of before.
    pub fn reopen(&mut self) -> Result<(), Refusal>
        ensures { (self.new.lent.device ≡ self.old.lent.device) × (self.new.lent.work ≡ work_filled 8)
            × (outcome (state_in self.new) (done_of result) ≡ open_store (state_of never_opened self.old.lent.device self.new.lent.work)) }
    {
        self.lent.work = filled(8);
        let r = store::open_store(&self.lent.device, Session::never_opened());
        self.keep(r)
    }

    // The session that a call leaves takes the place of the old one.
    fn keep<T>(&mut self, r: Answered<T>) -> Result<T, Refusal>
        ensures { (self.new.lent.session ≡ r.session) × (result ≡ r.answer) × (self.new.lent.device ≡ self.old.lent.device) × (self.new.lent.work ≡ self.old.lent.work) }
    {
        self.lent.session = r.session;
        r.answer
    }

    // ---- changes: the device stays as it is, until a commit stores

    // Each call is written out, here and below: by a closure over the lent parts its promise would stand as it does, and three parameters be named for the two lines.
    pub fn create(&mut self, k: u8) -> Result<(), Refusal>
        ensures { (self.new.lent.device ≡ self.old.lent.device) × (outcome (state_in self.new) (done_of result) ≡ create (state_in self.old) (name_of k)) }
    {
        let r = store::create(
            &self.lent.device,
            &mut self.lent.work,
            self.lent.session,
            &name(k),
        );
        self.keep(r)
    }

    pub fn remove(&mut self, k: u8) -> Result<(), Refusal>
        ensures { (self.new.lent.device ≡ self.old.lent.device) × (outcome (state_in self.new) (done_of result) ≡ remove (state_in self.old) (name_of k)) }
    {
        let r = store::remove(
            &self.lent.device,
            &mut self.lent.work,
            self.lent.session,
            &name(k),
        );
        self.keep(r)
    }

    pub fn rename(&mut self, k: u8, l: u8) -> Result<(), Refusal>
        ensures { (self.new.lent.device ≡ self.old.lent.device) × (outcome (state_in self.new) (done_of result) ≡ rename (state_in self.old) (name_of k) (name_of l)) }
    {
        let r = store::rename(
            &self.lent.device,
            &mut self.lent.work,
            self.lent.session,
            &name(k),
            &name(l),
        );
        self.keep(r)
    }

    pub fn set_size(&mut self, k: u8, n: usize) -> Result<(), Refusal>
        ensures { (self.new.lent.device ≡ self.old.lent.device) × (outcome (state_in self.new) (done_of result) ≡ set_size (state_in self.old) (name_of k) n) }
    {
        let r = store::set_size(
            &self.lent.device,
            &mut self.lent.work,
            self.lent.session,
            &name(k),
            n,
        );
        self.keep(r)
    }

    pub fn write(&mut self, k: u8, x: ByteOffset, bytes: &[u8]) -> Result<(), Refusal>
        ensures { (self.new.lent.device ≡ self.old.lent.device) × (outcome (state_in self.new) (done_of result) ≡ write (state_in self.old) (name_of k) x.0 bytes.now) }
    {
        let r = store::write(
            &self.lent.device,
            &mut self.lent.work,
            self.lent.session,
            &name(k),
            x,
            bytes,
        );
        self.keep(r)
    }

    pub fn abort(&mut self) -> Result<(), Refusal>
        ensures { (self.new.lent.device ≡ self.old.lent.device) × (self.new.lent.work ≡ self.old.lent.work) × (outcome (state_in self.new) (done_of result) ≡ abort (state_in self.old)) }
    {
        let r = store::abort(&self.lent.device, &self.lent.work, self.lent.session);
        self.keep(r)
    }

    // Files 0 to n - 1.
    pub fn create_all(&mut self, n: u8)
        ensures { (self.new.lent.device ≡ self.old.lent.device) × (state_in self.new ≡ rounds created n (state_in self.old)) }
    {
        for k in 0..n {
            let _ = self.create(k);
        }
    }

    // File k gets so many blocks, as far as a file may have them.
    pub fn grow(&mut self, k: u8, blocks: usize)
        ensures { (self.new.lent.device ≡ self.old.lent.device) × (state_in self.new ≡ grown k blocks (state_in self.old)) }
    {
        if blocks <= Limits::MAX_FILE_BLOCKS {
            let _ = self.set_size(k, Limits::BLOCK_SIZE * blocks);
        }
    }

    // Files 1 and 2 grown to so many blocks: one behind the other, since they take the lowest that are free.
    fn grow_pair(&mut self, blocks: usize)
        ensures { (self.new.lent.device ≡ self.old.lent.device) × (state_in self.new ≡ pair_grown blocks (state_in self.old)) }
    {
        self.grow(1, blocks);
        self.grow(2, blocks);
    }

    // Files 1 and 2 grown by one block in turn to n blocks, so that no block of one follows on another of the same.
    pub fn grow_in_turn(&mut self, n: usize)
        ensures { (self.new.lent.device ≡ self.old.lent.device) × (state_in self.new ≡ rounds (λ i. pair_grown (suc i)) n (state_in self.old)) }
    {
        for i in 0..n {
            self.grow_pair(i + 1);
        }
    }

    // ---- stores

    // How many stores the commit takes: they are still to come.
    pub fn commit(&mut self) -> Result<usize, Refusal>
        ensures { (self.new.lent.device ≡ self.old.lent.device) × (self.new.lent.work ≡ self.old.lent.work) × (outcome (state_in self.new) (started_of result) ≡ commit (state_in self.old)) }
    {
        let r = store::commit(&self.lent.device, &self.lent.work, self.lent.session);
        self.keep(r)
    }

    pub fn advance(&mut self) -> Result<Option<BlockStored>, Refusal>
        ensures { (self.new.lent.work ≡ self.old.lent.work) × (outcome (state_in self.new) (stored_of result) ≡ advance (state_in self.old)) }
    {
        let r = store::advance(&mut self.lent.device, &self.lent.work, self.lent.session);
        self.keep(r)
    }

    // At most n stores.
    pub fn advance_by(&mut self, n: usize)
        ensures { (self.new.lent.work ≡ self.old.lent.work) × (state_in self.new ≡ rounds advanced n (state_in self.old)) }
    {
        for _ in 0..n {
            let _ = self.advance();
        }
    }

    // A commit with all its stores: how many they were.
    pub fn commit_whole(&mut self) -> usize
        ensures { (self.new.lent.work ≡ self.old.lent.work) × (state_in self.new ≡ committed (state_in self.old)) × (result ≡ count_of (commit (state_in self.old)).answer) }
    {
        let n = self.commit().unwrap_or(0);
        self.advance_by(n);
        n
    }

    // Files 1 and 2 grown by one block in turn to n blocks, each time committed.
    pub fn commit_in_turn(&mut self, n: usize)
        ensures { state_in self.new ≡ rounds (λ i s. committed (pair_grown (suc i) s)) n (state_in self.old) }
    {
        for turn in 0..n {
            self.grow_pair(turn + 1);
            self.commit_whole();
        }
    }

    // ---- what the calls read

    pub fn free_count(&self) -> Result<usize, Refusal>
        ensures { outcome (state_in self.now) (counted_of result) ≡ free_count (state_in self.now) }
    {
        store::free_count(&self.lent.device, &self.lent.work, self.lent.session)
    }

    pub fn size(&self, k: u8) -> Result<usize, Refusal>
        ensures { outcome (state_in self.now) (counted_of result) ≡ size_of (state_in self.now) (name_of k) }
    {
        store::size(
            &self.lent.device,
            &self.lent.work,
            self.lent.session,
            &name(k),
        )
    }

    pub fn read(&self, k: u8, x: ByteOffset, buffer: &mut [u8]) -> Result<usize, Refusal>
        ensures { with_buffer (state_in self.now) (counted_of result) buffer.new ≡ read (state_in self.now) (name_of k) x.0 buffer.old }
    {
        store::read(
            &self.lent.device,
            &self.lent.work,
            self.lent.session,
            &name(k),
            x,
            buffer,
        )
    }

    pub fn record_at(&self, i: usize) -> Result<Option<FileRecord>, Refusal>
        ensures { outcome (state_in self.now) (recorded_of result) ≡ record_at (state_in self.now) i }
    {
        store::record_at(&self.lent.device, &self.lent.work, self.lent.session, i)
    }

    // Extent i of a whole file.
    pub fn nth_extent(&self, k: u8, i: usize) -> Result<Option<Extent>, Refusal>
        ensures { outcome (state_in self.now) (run_of result) ≡ nth_extent (state_in self.now) (name_of k) 0 max_file_blocks i }
    {
        store::nth_extent(
            &self.lent.device,
            &self.lent.work,
            self.lent.session,
            &name(k),
            FileBlock(0),
            Limits::MAX_FILE_BLOCKS,
            i,
        )
    }

    pub fn run_list(
        &self,
        k: u8,
        from: FileBlock,
        n: usize,
        list: &mut [Extent],
    ) -> Result<usize, Refusal>
        ensures { with_list (state_in self.now) (counted_of result) list.new ≡ run_list (state_in self.now) (name_of k) from.0 n list.old }
    {
        store::run_list(
            &self.lent.device,
            &self.lent.work,
            self.lent.session,
            &name(k),
            from,
            n,
            list,
        )
    }
}
