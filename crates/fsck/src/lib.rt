// Tells what breaks S1 to S8 on any bytes: one pass over the records, in which each tree is walked once, tested and marked, then one over the bits.
#![tactic(auto)]

ghost use Rattle.std.specs.Prelude.{◌≡◌, [], true, ◌+◌, ◌%◌, ◌≤◌, ◌<◌, slice_set};
ghost use Rattle.std.proofs.Math.Option.{none};
ghost use Rattle.spec.specs.Disk.{blocks_of};
ghost use Rattle.spec.specs.Inode.{reached_from, reached};
ghost use Rattle.spec.specs.Sound.{inode_sound, inode_fault, block_fault};
ghost use Rattle.inode.specs.Records.{found_of, lowest_to};
ghost use Rattle.marks.specs.Marks.{Kept, reach_to};
ghost use Rattle.marks.specs.Device.{disk_of};
ghost use Rattle.filecheck.specs.File.{Marked};
ghost use Rattle.fsck.specs.Names.{Told, Seen, seen_to, Passed};
ghost use Rattle.fsck.specs.Damage.{damage_of, unsound};

use block::{copy_of, place_in_block};
use filecheck::{Record, clear_in};
use inode::{Inode, InodeNumber, table_block};
use marks::{Device, Marks};
use spec::{DiskBlock, Limits, Refusal};
use zeros::is_zero;

// Names are told apart by their remainders first.
const REMAINDERS: usize = 1021;

// The names of the records passed, as numbers, by record; and which remainders are those of numbers that are not zero: flags in an array, since a HashSet wants
// a heap. Its default holds no name.
#[derive(Drop, Default)]
struct NameTable {
    numbers: [u64; Limits::INODE_COUNT],
    seen: [bool; REMAINDERS],
}

impl NameTable {
    // "Names differ pairwise": whether a record before i has this name. The search is needed only where its remainder was seen. All are looked at, several at a time,
    // which of names that share a remainder takes less than std's `contains`.
    fn holds(&self, number: u64, i: InodeNumber) -> bool
        requires { Seen self.now i.n × (number ≡ 0 → ⊥) }
        ensures { result ≡ seen_to i.n number self.now.numbers }
    {
        let place = (number % REMAINDERS as u64) as usize;
        if !self.seen[place] {
            return false;
        }
        let before = &self.numbers[..i.n];
        before.iter().fold(false, |found, n| found | (*n == number))
    }

    // The name of record i.
    fn add(&mut self, i: InodeNumber, number: u64)
        ensures { self.new ≡ record { numbers = slice_set self.old.numbers i.n number; seen = slice_set self.old.seen (number % 1021) true } }
    {
        self.numbers[i.n] = number;
        self.seen[(number % REMAINDERS as u64) as usize] = true;
    }
}

// S2 to S6 and S8 of a file; `names` has the names before it, and then its own too.
fn inode_sound(file: &Record, marks: &mut Marks, names: &mut NameTable) -> bool
    requires { Told (disk_of file.now.device) names.old file.now.i.n }
    ensures { Marked file.now.device.blocks result (inode_sound file.now.device.blocks (disk_of file.now.device) file.now.i.n)
        marks.new marks.old (reached_from (disk_of file.now.device) file.now.i.n)
        × (result ≡ true → Told (disk_of file.now.device) names.new (file.now.i.n + 1)) }
{
    let i = file.i;
    let inode = Inode {
        table: file.table,
        i: i.n,
    };
    let number = inode.key();
    if number == 0 {
        let at = place_in_block(i.n);
        return clear_in(file.table, at + Limits::NAME_SIZE, at + Limits::INODE_SIZE);
    }
    if names.holds(number, i) {
        return false;
    }
    names.add(i, number);
    file.file_sound(marks)
}

// The lowest of the 16 records from `first` on, those of one block of the table, that is not sound. If all are, every block that they reach is marked. By
// a loop: with `find`, what `inode_sound` asks of the names before a record stays open in the closure, which changes them. The loop below carries the same names.
fn records_fault(
    device: &Device,
    marks: &mut Marks,
    names: &mut NameTable,
    first: InodeNumber,
) -> Option<usize>
    requires { (first.n % 16 ≡ 0) × Told (disk_of device.now) names.old first.n }
    ensures { (result ≡ lowest_to (first.n + 16) (unsound device.now.blocks (disk_of device.now)) first.n)
        × (result ≡ found_of none → Passed device.now.blocks (disk_of device.now) (first.n + 16) marks.new names.new
        marks.old (reach_to (disk_of device.now) (first.n + 16) first.n)) }
{
    let table = copy_of(device.block_at(table_block(first)));
    if is_zero(&table) {
        return None;
    }
    for i in first.n..first.n + Limits::INODES_PER_BLOCK {
        let number = InodeNumber { n: i };
        let record = Record {
            device: *device,
            table: &table,
            i: number,
        };
        if !inode_sound(&record, marks, names) {
            return Some(i);
        }
    }
    None
}

// The lowest record that is not sound: S2 to S6 and S8. If all are, every block that they reach is marked.
fn inode_fault(device: &Device, marks: &mut Marks) -> Option<usize>
    ensures { (result ≡ found_of (inode_fault device.now.blocks (disk_of device.now)))
        × (result ≡ found_of none → Kept device.now.blocks marks.new [] marks.old (reached (disk_of device.now))) }
{
    let mut names = NameTable::default();
    for k in 0..Limits::INODE_COUNT / Limits::INODES_PER_BLOCK {
        let first = InodeNumber {
            n: Limits::INODES_PER_BLOCK * k,
        };
        if let Some(i) = records_fault(device, marks, &mut names, first) {
            return Some(i);
        }
    }
    None
}

// 22 and 23: the lowest record that breaks S2 to S6 or S8; if none does, the lowest block that breaks S1 or S7.
pub fn undamaged(device: &[u8], blocks: usize) -> Result<(), Refusal>
    requires { blocks ≤ 4096 }
    ensures { result ≡ damage_of (inode_fault blocks (blocks_of device.now)) (block_fault blocks (blocks_of device.now)) }
{
    let tested = Device {
        bytes: device,
        blocks,
    };
    let mut marks = Marks::none(&tested);
    if let Some(i) = inode_fault(&tested, &mut marks) {
        return Err(Refusal::DamagedInode(i));
    }
    let bitmap = copy_of(tested.block_at(DiskBlock(Limits::BITMAP_BLOCK)));
    match marks.lowest_wrong(&bitmap) {
        Some(b) => Err(Refusal::DamagedBlock(b)),
        None => Ok(()),
    }
}
