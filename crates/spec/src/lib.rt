// The public types of the purse store. What the calls mean is defined in specs/, in the order of document 01.
#![tactic(auto)]

ghost use Rattle.std.specs.Prelude.{◌≡◌, [], ◌∷◌, ◌++◌, ◌<◌, length};
ghost use Rattle.spec.specs.Answers.{refusal_of, refusal_number, fault_told};
ghost use Rattle.spec.specs.Session.{opened, closed_on, never_opened, with_cells, in_phase, with_staged, staged_in};

// "These limits belong to the store as a whole".
#[derive(Clone, Copy)]
pub struct Limits;

impl Limits {
    pub const BLOCK_SIZE: usize = 512;

    pub const FEWEST_BLOCKS: usize = 64;

    pub const MOST_BLOCKS: usize = 4096;

    // The log: 32 records of 16 bytes in block 0, and as many images.
    pub const LOG_LENGTH: usize = 32;

    pub const LOG_RECORD_SIZE: usize = 16;

    pub const WORK_SIZE: usize = 16384;

    // Where the areas begin: "33, 34 to 41, or 42 and up".
    pub const BITMAP_BLOCK: u32 = 33;

    pub const INODE_START: u32 = 34;

    pub const DATA_START: u32 = 42;

    // The bits of the bitmap, one to a block.
    pub const BITMAP_BITS: u32 = 4096;

    // "128 file records of 32 bytes, 16 to a block. Bytes 0 to 7 name"
    pub const INODE_COUNT: usize = 128;

    pub const INODE_SIZE: usize = 32;

    pub const INODES_PER_BLOCK: usize = 16;

    pub const NAME_SIZE: usize = 8;

    // "four slots"; "An extent block is 128 slots."
    pub const SLOT_SIZE: usize = 4;

    pub const SLOTS_PER_INODE: usize = 4;

    pub const SLOTS_PER_NODE: usize = 128;

    pub const MAX_FILE_SIZE: usize = 1048576;

    pub const MAX_FILE_BLOCKS: usize = 2048;

    pub const MAX_EXTENTS: usize = 512;
}

// "Byte places in a file, block places in a file and block numbers on the device are three separate counts"
#[derive(Clone, Copy)]
pub struct ByteOffset(pub usize);

#[derive(Clone, Copy)]
pub struct FileBlock(pub usize);

#[derive(Clone, Copy, Default, PartialEq, Eq)]
pub struct DiskBlock(pub u32);

// "A block number's area decides its use: 0, 1 to 32, 33, 34 to 41, or 42 and up."
#[derive(Clone, Copy)]
pub enum Area {
    Header,
    Log,
    Bitmap,
    Inodes,
    Data,
}

// "A slot is a block number and a count"; at depth 0 it is an extent: a first block and how many blocks from there.
#[derive(Clone, Copy, Default)]
pub struct Extent {
    pub first: u32,
    pub count: u32,
}

// "A session is closed, ready, committing with the place it has reached, or recovering with the place it has reached."
#[derive(Clone, Copy, PartialEq, Eq)]
pub enum Phase {
    Closed,
    Ready,
    Committing(usize),
    Recovering(usize),
}

// "It also holds N and the staged block numbers": the first `count` cells of `staged` are in use. Array and count stand side by side, since there is no
// heap, and the C interface lends them so.
#[derive(Clone, Copy)]
pub struct Session {
    pub blocks: usize,
    pub phase: Phase,
    pub staged: [u32; Limits::LOG_LENGTH],
    pub count: usize,
}

impl Session {
    // On a device of so many blocks, with nothing staged.
    pub fn opened(blocks: usize, phase: Phase) -> Session
        ensures { result ≡ opened blocks phase }
    {
        Session {
            blocks,
            phase,
            staged: [0; Limits::LOG_LENGTH],
            count: 0,
        }
    }

    // Closed, on a device of so many blocks.
    pub fn closed_on(blocks: usize) -> Session
        ensures { result ≡ closed_on blocks }
    {
        Session::opened(blocks, Phase::Closed)
    }

    // "A session never opened is closed with N 0"
    pub fn never_opened() -> Session
        ensures { result ≡ never_opened }
    {
        Session::closed_on(0)
    }

    // Of these parts: the first `count` of the cells are in use. Whoever has a session's parts apart makes it here, as C's numbers and cells.
    pub fn with_cells(
        blocks: usize,
        phase: Phase,
        cells: [u32; Limits::LOG_LENGTH],
        count: usize,
    ) -> Session
        ensures { result ≡ with_cells blocks phase cells count }
    {
        Session {
            blocks,
            phase,
            staged: cells,
            count,
        }
    }

    // The same in another phase.
    pub fn in_phase(self, phase: Phase) -> Session
        ensures { result ≡ in_phase self phase }
    {
        Session { phase, ..self }
    }
}

// The refusals, in the order of their numbers: refusal_of in specs/Answers.antt.
#[derive(Clone, Copy)]
pub enum Refusal {
    DeviceSize,
    WorkSize,
    BadName,
    TooLarge,
    BadHeader(usize),
    NotReady,
    Unknown,
    Taken,
    NoInode,
    NoSpace,
    TooManyExtents,
    TooManyStaged,
    ListShort,
    DamagedInode(usize),
    DamagedBlock(DiskBlock),
}

impl Refusal {
    // "Refusals from the input", "Refusals from the state": the number of each. The one place that tells them: a discriminant cannot, since some have a value,
    // and `usize::from(refusal)` would not say which number of it is meant.
    pub fn number(self) -> u32
        ensures { result ≡ refusal_number (refusal_of self) }
    {
        match self {
            Refusal::DeviceSize => 1,
            Refusal::WorkSize => 2,
            Refusal::BadName => 3,
            Refusal::TooLarge => 4,
            Refusal::BadHeader(_) => 10,
            Refusal::NotReady => 12,
            Refusal::Unknown => 13,
            Refusal::Taken => 14,
            Refusal::NoInode => 15,
            Refusal::NoSpace => 16,
            Refusal::TooManyExtents => 17,
            Refusal::TooManyStaged => 18,
            Refusal::ListShort => 19,
            Refusal::DamagedInode(_) => 22,
            Refusal::DamagedBlock(_) => 23,
        }
    }

    // The record of block 0 that refusal 10 names, the damaged record of 22, the damaged block of 23.
    pub fn fault(self) -> Option<usize>
        ensures { result ≡ fault_told self }
    {
        match self {
            Refusal::BadHeader(i) | Refusal::DamagedInode(i) => Some(i),
            Refusal::DamagedBlock(b) => Some(b.0 as usize),
            _ => None,
        }
    }
}

// What an advance that stores a block answers: the block, whether it was the last, and how many it has stored.
#[derive(Clone, Copy)]
pub struct BlockStored {
    pub block: DiskBlock,
    pub last: bool,
    pub number: usize,
}

// What record i answers of a file.
#[derive(Clone, Copy)]
pub struct FileRecord {
    pub name: [u8; Limits::NAME_SIZE],
    pub size: u32,
}

// What a call that may change the session answers, and the session that it leaves, refused or not.
#[derive(Clone, Copy)]
pub struct Answered<T> {
    pub session: Session,
    pub answer: Result<T, Refusal>,
}
