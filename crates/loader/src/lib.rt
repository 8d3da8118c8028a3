// Loads the lines of a text into a store, step by step. A load is a place in the text and nothing else. The store is known by the promises of its
// calls alone: what a line does to it is create, write and commit. Device, work space and session are parameters as they are of these calls.
#![tactic(auto)]

ghost use Rattle.std.specs.Prelude.{◌≡◌, [], length, Err};
ghost use Rattle.spec.specs.Disk.{slice_of, blocks_of};
ghost use Rattle.spec.specs.Session.{staged_in};
ghost use Rattle.spec.specs.Answers.{done_of, started_of};
ghost use Rattle.spec.specs.Transaction.{state_of};
ghost use Rattle.spec.specs.Calls.{left};
ghost use Rattle.promises.specs.Restored.{stored_in};
ghost use Rattle.cardfile.specs.Lines.{line_number, standing};
ghost use Rattle.loader.specs.declared.LoadFault.TheVariants.{Refused};
ghost use Rattle.loader.specs.Load.{begin, store_line, take_line, after_begin, idle_ok, load_step, left_load, loaded_of, number_in, named_in};

use block::copy;
use cardfile::{LineFault, amount_bytes, line_at, line_number, name_of};
use spec::{BlockStored, ByteOffset, Limits, Phase, Refusal, Session};
use store::{advance, commit, create, write};

// What a step has done: loaded_of in specs/Load.antt. Three cases, of which two have values of their own: no Option or Result says them plainer.
#[derive(Clone, Copy)]
pub enum Loaded {
    Started(usize),
    Advanced(Option<BlockStored>),
    NoneLeft,
}

// Why it is refused. A line is named by its number, counted from 1.
#[derive(Clone, Copy)]
pub enum LoadFault {
    Refused(Refusal),
    LineRefused(usize, Refusal),
    BadLine(usize, LineFault),
}

impl From<Refusal> for LoadFault {
    ghost from_gives = { λ why fault. fault ≡ Refused why };

    fn from(why: Refusal) -> LoadFault {
        Self::Refused(why)
    }
}

impl LoadFault {
    // The refusal's number.
    pub fn number(self) -> u32
        ensures { result ≡ number_in (loaded_of (Err self)) }
    {
        match self {
            LoadFault::Refused(why) | LoadFault::LineRefused(_, why) => why.number(),
            LoadFault::BadLine(_, fault) => fault.number(),
        }
    }

    // What it names: the line, or what a refusal before any line names.
    pub fn named(self) -> Option<usize>
        ensures { result ≡ named_in (loaded_of (Err self)) }
    {
        match self {
            LoadFault::Refused(why) => why.fault(),
            LoadFault::LineRefused(line, _) | LoadFault::BadLine(line, _) => Some(line),
        }
    }
}

// A step's answer, the session, and the load's place in the text.
#[derive(Clone, Copy)]
pub struct LoadStep {
    pub session: Session,
    pub answer: Result<Loaded, LoadFault>,
    pub next: usize,
}

// Whether a load may begin: on a ready session with nothing staged. Commit tells it, and nothing is done with the session that it answers.
pub fn begin(device: &[u8], work: &[u8], session: Session) -> Result<(), Refusal>
    ensures { left session device.now work.now (done_of result)
        ≡ begin (state_of session device.now work.now) }
{
    let c = commit(device, work, session);
    let stores = c.answer?;
    let staged = stores != 0;
    if staged {
        return Err(Refusal::NotReady);
    }
    Ok(())
}

// The first image of the work space.
fn first_image(work: &[u8; Limits::WORK_SIZE]) -> [u8; Limits::BLOCK_SIZE]
    ensures { result ≡ blocks_of work.now 0 }
{
    work.as_chunks().0[0]
}

// It becomes this one.
fn put_back(work: &mut [u8; Limits::WORK_SIZE], image: &[u8; Limits::BLOCK_SIZE])
    ensures { slice_of work.new ≡ stored_in (slice_of work.old) 0 image.now }
{
    copy(image, &mut work[..Limits::BLOCK_SIZE]);
}

// One line: create, write of the amount, commit. A refusal leaves all as it was, the work space too.
fn store_line(
    device: &[u8],
    work: &mut [u8; Limits::WORK_SIZE],
    session: &mut Session,
    name: &[u8],
    amount: &[u8],
) -> Result<usize, Refusal>
    requires { staged_in session.old ≡ [] }
    ensures { left session.new device.now work.new (started_of result)
        ≡ store_line (state_of session.old device.now work.old) name.now amount.now }
{
    let kept = first_image(work);
    let made = create(device, work, *session, name);
    made.answer?;
    let wrote = write(device, work, made.session, name, ByteOffset(0), amount);
    if let Err(why) = wrote.answer {
        put_back(work, &kept);
        return Err(why);
    }
    let c = commit(device, work, wrote.session);
    *session = c.session;
    c.answer
}

// A load between two calls: the session, the text, and the place up to which its lines are taken up.
#[derive(Drop)]
struct Load<'a> {
    session: Session,
    text: &'a [u8],
    at: usize,
}

impl<'a> Load<'a> {
    // What stands at its place, taken up; the place then lies behind it. The line's number is counted where the line is refused.
    fn take_line(
        &mut self,
        device: &[u8],
        work: &mut [u8; Limits::WORK_SIZE],
    ) -> Result<Loaded, LoadFault>
        requires { staged_in self.old.session ≡ [] }
        ensures { left_load self.new.session device.now work.new self.new.at (loaded_of result)
            ≡ take_line (state_of self.old.session device.now work.old) self.old.at (line_number self.old.text.now self.old.at) (standing self.old.text.now self.old.at) }
    {
        let (text, at) = (self.text, self.at);
        let found = line_at(text, at);
        let found = found.map_err(|fault| LoadFault::BadLine(line_number(text, at), fault))?;
        let Some(line) = found else {
            return Ok(Loaded::NoneLeft);
        };
        let name = name_of(line.card);
        let amount = amount_bytes(line.card.amount);
        let stored = store_line(device, work, &mut self.session, &name, &amount);
        let stores = stored.map_err(|why| LoadFault::LineRefused(line_number(text, at), why))?;
        self.at = line.next;
        Ok(Loaded::Started(stores))
    }

    // The next line, where a load may go on.
    fn next_line(&mut self, device: &[u8], work: &mut [u8]) -> Result<Loaded, LoadFault>
        ensures { left_load self.new.session device.now work.new self.new.at (loaded_of result)
            ≡ after_begin (state_of self.old.session device.now work.old) self.old.text.now self.old.at (idle_ok (state_of self.old.session device.now work.old)) }
    {
        begin(device, work, self.session)?;
        // Begin has told its size.
        let Some(work) = work.as_mut_array() else {
            unreachable!()
        };
        self.take_line(device, work)
    }

    // An advance while a commit is under way, else the next line.
    fn step(&mut self, device: &mut [u8], work: &mut [u8]) -> Result<Loaded, LoadFault>
        ensures { left_load self.new.session device.new work.new self.new.at (loaded_of result)
            ≡ load_step (state_of self.old.session device.old work.old) self.old.text.now self.old.at }
    {
        if let Phase::Committing(_) = self.session.phase {
            let a = advance(device, work, self.session);
            self.session = a.session;
            return Ok(Loaded::Advanced(a.answer?));
        }
        self.next_line(device, work)
    }
}

// One step of a load: an advance while a commit is under way, else the next line.
pub fn step(
    device: &mut [u8],
    work: &mut [u8],
    session: Session,
    text: &[u8],
    at: usize,
) -> LoadStep
    ensures { left_load result.session device.new work.new result.next (loaded_of result.answer)
        ≡ load_step (state_of session device.old work.old) text.now at }
{
    let mut load = Load { session, text, at };
    let answer = load.step(device, work);
    LoadStep {
        session: load.session,
        answer,
        next: load.at,
    }
}
