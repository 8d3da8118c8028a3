// Sessions and answers as structs of numbers, in which they cross to C. What the numbers mean is defined in specs/Mirror.antt.
#![tactic(auto)]

ghost use Rattle.std.specs.Prelude.{◌≡◌};
ghost use Rattle.spec.specs.Answers.{done_of, started_of, stored_of, counted_of as answer_of, recorded_of as file_of, run_of as extent_of};
ghost use Rattle.mirror.specs.Mirror.{phase_of, head_of, head_in, numbers_of, decode, encode, finished_of, committed_of, advanced_of, counted_of, run_of, Names};

use spec::{BlockStored, Extent, FileRecord, Limits, Phase, Refusal, Session};

// A session in numbers, but for the cells of its staged blocks: both are lent.
// phase: 0 closed, 1 ready, 2 committing, 3 recovering; place: the stores made so far of a commit or a recovery, else 0.
#[derive(Clone, Copy)]
pub struct Head {
    pub blocks: u64,
    pub phase: u64,
    pub place: u64,
    pub count: u64,
}

// format, open, abort, create, remove, rename, write, set-size: refusal 0 is accepted; fault is what 10, 22 and 23 of open name, else 0.
#[repr(C)]
#[derive(Clone, Copy, Default)]
pub struct CFinished {
    pub refusal: u32,
    pub fault: u64,
}

// commit
#[repr(C)]
#[derive(Clone, Copy, Default)]
pub struct CCommitted {
    pub refusal: u32,
    pub stores: u64,
}

// advance: all 0 but the session where nothing is under way.
#[repr(C)]
#[derive(Clone, Copy, Default)]
pub struct CAdvanced {
    pub refusal: u32,
    pub block: u64,
    pub last: u64,
    pub number: u64,
}

// read, size, free count, run list
#[repr(C)]
#[derive(Clone, Copy, Default)]
pub struct CCounted {
    pub refusal: u32,
    pub count: u64,
}

// record i: used is 1 where a file is answered, else size is zero, and the name lent becomes zero unless the call is refused.
#[repr(C)]
#[derive(Clone, Copy, Default)]
pub struct CRecord {
    pub refusal: u32,
    pub used: u32,
    pub size: u64,
}

// n-th extent: 0 and 0 where there is none.
#[repr(C)]
#[derive(Clone, Copy, Default)]
pub struct CRun {
    pub refusal: u32,
    pub first: u32,
    pub count: u32,
}

// The numbers of a session where they are lent.
impl From<[u64; 4]> for Head {
    ghost use Rattle.std.specs.Prelude.{◌≡◌};
    ghost use Rattle.mirror.specs.Mirror.{head_in};

    ghost from_gives = { λ numbers h. h ≡ head_in numbers };

    fn from(numbers: [u64; 4]) -> Head {
        let [blocks, phase, place, count] = numbers;
        Head {
            blocks,
            phase,
            place,
            count,
        }
    }
}

// The numbers as they are lent.
impl From<Head> for [u64; 4] {
    ghost use Rattle.std.specs.Prelude.{◌≡◌};
    ghost use Rattle.mirror.specs.Mirror.{numbers_of};

    ghost from_gives = { λ h numbers. numbers ≡ numbers_of h };

    fn from(h: Head) -> [u64; 4] {
        [h.blocks, h.phase, h.place, h.count]
    }
}

// The numbers of a session.
impl From<Session> for Head {
    ghost use Rattle.std.specs.Prelude.{◌≡◌};
    ghost use Rattle.mirror.specs.Mirror.{encode};

    ghost from_gives = { λ s h. h ≡ encode s };

    fn from(s: Session) -> Head {
        let phase = s.phase;
        Head::of(s.blocks as u64, phase, s.count as u64)
    }
}

impl Head {
    // The numbers of a session on so many blocks, in this phase, with so many cells in use.
    pub fn of(blocks: u64, phase: Phase, count: u64) -> Head
        ensures { result ≡ head_of blocks phase count }
    {
        let (phase, place) = match phase {
            Phase::Closed => (0, 0),
            Phase::Ready => (1, 0),
            Phase::Committing(d) => (2, d as u64),
            Phase::Recovering(d) => (3, d as u64),
        };
        Head {
            blocks,
            phase,
            place,
            count,
        }
    }

    // The phase of the session that they stand for.
    #[tactic(auto, using(crate::proofs::Laws::phase_rules))]
    pub fn phase(self) -> Phase
        ensures { result ≡ phase_of self.phase self.place }
    {
        let place = self.place as usize;
        match self.phase {
            1 => Phase::Ready,
            2 => Phase::Committing(place),
            3 => Phase::Recovering(place),
            _ => Phase::Closed,
        }
    }

    // The session that they stand for with these cells: any stand for one.
    pub fn session(self, staged: [u32; Limits::LOG_LENGTH]) -> Session
        ensures { result ≡ decode self staged }
    {
        Session::with_cells(
            self.blocks as usize,
            self.phase(),
            staged,
            self.count as usize,
        )
    }
}

// The session that lent numbers and cells stand for. A function, and so is the next: C lends the two apart, and no type holds both.
pub fn session_in(numbers: &[u64; 4], staged: &[u32; Limits::LOG_LENGTH]) -> Session
    ensures { result ≡ decode (head_in numbers.now) staged.now }
{
    Head::from(*numbers).session(*staged)
}

// Lent numbers and cells become those of a session.
pub fn keep_session(numbers: &mut [u64; 4], staged: &mut [u32; Limits::LOG_LENGTH], s: Session)
    ensures { (numbers.new ≡ numbers_of (encode s)) × (staged.new ≡ s.staged) }
{
    // By a variable, here and in `recorded`: an array that is a field, stored straight, is not covered by the borrow checker.
    let cells = s.staged;
    *staged = cells;
    *numbers = Head::from(s).into();
}

// Functions named for the answer and no From: `finished(answer)` reads plainer than `CFinished::from(answer)`, and by From only the type that is wanted would
// tell `committed` from `counted`.
pub fn finished(answer: Result<(), Refusal>) -> CFinished
    ensures { result ≡ finished_of (done_of answer) }
{
    match answer {
        Ok(()) => CFinished::default(),
        Err(why) => CFinished {
            refusal: why.number(),
            fault: why.fault().unwrap_or(0) as u64,
        },
    }
}

// It differs from `counted` by the struct alone, which C declares.
pub fn committed(answer: Result<usize, Refusal>) -> CCommitted
    ensures { result ≡ committed_of (started_of answer) }
{
    match answer {
        Ok(n) => CCommitted {
            refusal: 0,
            stores: n as u64,
        },
        Err(why) => CCommitted {
            refusal: why.number(),
            stores: 0,
        },
    }
}

// A block stored, all 0 where none was.
pub fn advanced(answer: Result<Option<BlockStored>, Refusal>) -> CAdvanced
    ensures { result ≡ advanced_of (stored_of answer) }
{
    match answer {
        Ok(None) => CAdvanced::default(),
        Ok(Some(stored)) => CAdvanced {
            refusal: 0,
            block: u64::from(stored.block.0),
            last: u64::from(stored.last),
            number: stored.number as u64,
        },
        Err(why) => CAdvanced {
            refusal: why.number(),
            ..CAdvanced::default()
        },
    }
}

// A count, 0 where it is refused.
pub fn counted(answer: Result<usize, Refusal>) -> CCounted
    ensures { result ≡ counted_of (answer_of answer) }
{
    match answer {
        Ok(n) => CCounted {
            refusal: 0,
            count: n as u64,
        },
        Err(why) => CCounted {
            refusal: why.number(),
            count: 0,
        },
    }
}

// A refusal leaves the name lent as it was.
pub fn recorded(
    answer: Result<Option<FileRecord>, Refusal>,
    name: &mut [u8; Limits::NAME_SIZE],
) -> CRecord
    ensures { Names result name.old name.new (file_of answer) }
{
    match answer {
        Ok(Some(file)) => {
            let own = file.name;
            *name = own;
            CRecord {
                refusal: 0,
                used: 1,
                size: u64::from(file.size),
            }
        }
        Ok(None) => {
            *name = [0; Limits::NAME_SIZE];
            CRecord::default()
        }
        Err(why) => CRecord {
            refusal: why.number(),
            ..CRecord::default()
        },
    }
}

// An extent, 0 and 0 where there is none.
pub fn run(answer: Result<Option<Extent>, Refusal>) -> CRun
    ensures { result ≡ run_of (extent_of answer) }
{
    match answer {
        Ok(Some(extent)) => CRun {
            refusal: 0,
            first: extent.first,
            count: extent.count,
        },
        Ok(None) => CRun::default(),
        Err(why) => CRun {
            refusal: why.number(),
            ..CRun::default()
        },
    }
}
