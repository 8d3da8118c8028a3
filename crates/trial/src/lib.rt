// What the programs that run functions on concrete values share.
#![tactic(auto)]

ghost use Rattle.std.specs.Prelude.{◌≡◌, ◌+◌, ◌≤◌, length, get_or, replicate};
ghost use Rattle.spec.specs.Bytes.{patch, bytes2};
ghost use Rattle.spec.specs.Transaction.{state_of};
ghost use Rattle.trial.specs.States.{state_lent, staged_with};

use spec::{BlockStored, DiskBlock, Extent, Limits, Refusal, Session};
use std::io;

// ---- text: std's Print tells nothing of what it writes, so these functions promise nothing. No Display of Refusal and Extent: it would stand at these types, in spec,
// which the product links and prints nothing of; a type of our own around each would be named at every call as the function is now.

// That a call is refused, and why.
pub fn refused(rt: &impl Print, why: Refusal) -> io::Result<()> {
    print!(rt; " refused {}", why.number())
}

// That a call is done.
pub fn done(rt: &impl Print, answer: Result<(), Refusal>) -> io::Result<()> {
    match answer {
        Ok(()) => print!(rt; " done"),
        Err(why) => refused(rt, why),
    }
}

// What a call counts.
pub fn counted(rt: &impl Print, answer: Result<usize, Refusal>) -> io::Result<()> {
    match answer {
        Ok(n) => print!(rt; " {n}"),
        Err(why) => refused(rt, why),
    }
}

// The block stored.
pub fn stored(rt: &impl Print, stored: Option<BlockStored>) -> io::Result<()> {
    match stored {
        Some(stored) => print!(rt; " {}", stored.block.0),
        None => print!(rt; " idle"),
    }
}

// An extent as its first block and how many it has.
pub fn extent(rt: &impl Print, e: Extent) -> io::Result<()> {
    print!(rt; " {}+{}", e.first, e.count)
}

// ---- what is lent to each call

// The bytes of 64 blocks, the smallest device.
pub const SMALLEST: usize = 32768;

// A device of N bytes, with the work space and session that are lent with it.
#[derive(Drop)]
pub struct Lent<const N: usize> {
    pub device: [u8; N],
    pub work: [u8; Limits::WORK_SIZE],
    pub session: Session,
}

impl<const N: usize> Lent<N> {
    // A device of sevens and a work space of nines.
    pub fn sevens(session: Session) -> Lent<N>
        ensures { state_lent result ≡ state_of session (replicate N 7) (replicate 16384 9) }
    {
        Lent {
            device: [7; N],
            work: [9; Limits::WORK_SIZE],
            session,
        }
    }

    // Block b staged with 512 times a byte, where there is room.
    #[tactic(auto, unfolding(crate::specs::States::staged_with))]
    pub fn stage(&mut self, b: u32, byte: u8)
        ensures { (self.new.device ≡ self.old.device) × (state_lent self.new ≡ staged_with b byte (state_lent self.old)) }
    {
        if transaction::staged_count(self.session) < Limits::LOG_LENGTH {
            let x = [byte; Limits::BLOCK_SIZE];
            self.session = transaction::stage(&mut self.work, self.session, DiskBlock(b), &x);
        }
    }
}

// ---- images

// Bytes written from a place on, as far as there is room.
pub fn put(device: &mut [u8], at: usize, bytes: &[u8])
    ensures { (length device.new ≡ length device.old) × (at + length bytes.now ≤ length device.old → device.new ≡ patch at bytes.now device.old) }
{
    let from = device.len().min(at);
    let n = bytes.len().min(device.len() - from);
    device[from..from + n].copy_from_slice(&bytes[..n]);
}

// A slot: a block number and a count.
pub fn put_slot(device: &mut [u8], at: usize, first: u16, count: u16)
    ensures { (length device.new ≡ length device.old) × (at + 4 ≤ length device.old → device.new ≡ patch (at + 2) (bytes2 count) (patch at (bytes2 first) device.old)) }
{
    put(device, at, &first.to_le_bytes());
    put(device, at.saturating_add(2), &count.to_le_bytes());
}

// Three files on an empty store of 64 blocks, but for their names. Record 0: 700 bytes in blocks 42 and 43. Record 1: no byte. Record 2: 2,560 bytes in
// blocks 46, 48, .. 54, which extent block 44 names. The promise tells the bits of blocks 40 to 55.
pub fn put_files(device: &mut [u8])
    ensures { (length device.new ≡ length device.old)
        × (16903 ≤ length device.old → (get_or device.new 16901 0 ≡ 95) × (get_or device.new 16902 0 ≡ 85)) }
{
    put(device, 17416, &700u16.to_le_bytes());
    put_slot(device, 17424, 42, 2);
    put(device, 17480, &2560u16.to_le_bytes());
    put(device, 17484, &[1]);
    put_slot(device, 17488, 44, 5);
    put_slot(device, 22528, 46, 1);
    put_slot(device, 22532, 48, 1);
    put_slot(device, 22536, 50, 1);
    put_slot(device, 22540, 52, 1);
    put_slot(device, 22544, 54, 1);
    put(device, 16901, &[95, 85]);
}
