// Opens devices of 64 blocks: an empty store, one with three files built by hand, that one with a byte changed, so that one of S1 to S8 is broken, and the
// damaged devices of request A2. Prints what open answers: with refusal 22 the record, with 23 the block.
#![tactic(auto)]

use spec::Session;
use std::io;
use store::open_store;
use trial::{SMALLEST, put, put_files, put_slot, refused};

// The first bytes of the bitmap, of records 2, 3, 5 and 9, and of blocks 43 and 54.
const BITS: usize = 16896;

const RECORD_2: usize = 17472;

const RECORD_3: usize = 17504;

const RECORD_5: usize = 17568;

const RECORD_9: usize = 17696;

const BLOCK_43: usize = 22016;

const BLOCK_54: usize = 27648;

// Name A: 01 02 03 04 05 06 07 08.
const A: [u8; 8] = [1, 2, 3, 4, 5, 6, 7, 8];

// A device of 64 blocks, and where it is told.
#[derive(Drop)]
struct Trial<'a, P: Print> {
    rt: &'a P,
    device: [u8; SMALLEST],
}

impl<'a, P: Print> Trial<'a, P> {
    // An empty store: bits 0 to 41 and from 64 up are 1.
    fn empty(&mut self) {
        self.device.fill(0);
        self.device[16896..17408].fill(255);
        put(&mut self.device, 16901, &[3]);
        put(&mut self.device, 16902, &[0]);
        put(&mut self.device, 16903, &[0]);
    }

    // Three files with the names 1, 2 and 3.
    fn files(&mut self) {
        put_files(&mut self.device);
        put(&mut self.device, 17408, &[1]);
        put(&mut self.device, 17440, &[2]);
        put(&mut self.device, 17472, &[3]);
    }

    // The last extent of record 2 taken away: four are left, which would fit the record.
    fn four_extents(&mut self) {
        self.empty();
        self.files();
        put(&mut self.device, 17480, &2048u16.to_le_bytes());
        put_slot(&mut self.device, 17488, 44, 4);
        put_slot(&mut self.device, 22544, 0, 0);
        put(&mut self.device, 16902, &[21]);
    }

    fn show(&self, name: &str) -> io::Result<()> {
        print!(self.rt; "{name}:")?;
        match open_store(&self.device, Session::never_opened()).answer {
            Ok(()) => print!(self.rt; " done")?,
            Err(why) => {
                refused(self.rt, why)?;
                if let Some(n) = why.fault() {
                    print!(self.rt; " at {n}")?;
                }
            }
        }
        println!(self.rt)
    }

    // The store with one byte changed.
    fn broken(&mut self, name: &str, at: usize, byte: u8) -> io::Result<()> {
        self.empty();
        self.files();
        put(&mut self.device, at, &[byte]);
        self.show(name)
    }

    // S1: bits outside 42 to N-1.
    fn broken_bits(&mut self) -> io::Result<()> {
        self.broken("S1 bit 3 is 0", 16896, 247)?;
        self.broken("S1 bit 65 is 0", 16904, 253)?;
        self.broken("S1 bit 4095 is 0", 17407, 127)
    }

    // S2 and S3: names and the heads of records.
    fn broken_records(&mut self) -> io::Result<()> {
        self.broken("S2 a name twice", 17472, 1)?;
        self.broken("S2 an empty record with a size", 21481, 1)?;
        self.broken("S3 size past the most", 17419, 1)?;
        self.broken("S3 depth 2", 17484, 2)?;
        self.broken("S3 byte 15 of a record", 17423, 1)
    }

    // S4 to S6: slots, counts and the shape of trees.
    fn broken_trees(&mut self) -> io::Result<()> {
        self.broken("S4 a slot behind the used ones", 17436, 9)?;
        self.broken("S4 a slot behind the used ones of a node", 23036, 9)?;
        self.broken("S4 an extent past the end", 22544, 64)?;
        self.broken("S4 a node in the log", 17488, 20)?;
        self.broken("S5 a count above", 17490, 4)?;
        self.broken("S5 size against count", 17417, 0)?;
        self.broken("S6 extents that touch", 22536, 49)?;
        self.four_extents();
        self.show("S6 depth 1 for four extents")
    }

    // S7 and S8: blocks that files reach, and the bytes in them.
    fn broken_blocks(&mut self) -> io::Result<()> {
        self.broken("S7 a block reached, its bit 0", 16902, 21)?;
        self.broken("S7 a block not reached, its bit 1", 16903, 128)?;
        self.broken("S7 a block reached twice", 22540, 43)?;
        self.broken("S8 a byte after the size", 22204, 1)
    }

    // A has 600 bytes in blocks 42 and 43, record 2; B 5 blocks from 44 on, every second one, which extent block 54 names, record 5; C no byte, record 9.
    fn scattered(&mut self) {
        self.empty();
        put(&mut self.device, RECORD_2, &A);
        put(&mut self.device, RECORD_2 + 8, &600u16.to_le_bytes());
        put_slot(&mut self.device, RECORD_2 + 16, 42, 2);
        put(&mut self.device, RECORD_5, &[66; 8]);
        put(&mut self.device, RECORD_5 + 8, &2560u16.to_le_bytes());
        put(&mut self.device, RECORD_5 + 12, &[1]);
        put_slot(&mut self.device, RECORD_5 + 16, 54, 5);
        put_slot(&mut self.device, BLOCK_54, 44, 1);
        put_slot(&mut self.device, BLOCK_54 + 4, 46, 1);
        put_slot(&mut self.device, BLOCK_54 + 8, 48, 1);
        put_slot(&mut self.device, BLOCK_54 + 12, 50, 1);
        put_slot(&mut self.device, BLOCK_54 + 16, 52, 1);
        put(&mut self.device, RECORD_9, &[67; 8]);
        put(&mut self.device, BITS + 5, &[95, 85]);
    }

    // These files with some bytes changed.
    fn damaged(&mut self, name: &str, at: usize, bytes: &[u8]) -> io::Result<()> {
        self.scattered();
        put(&mut self.device, at, bytes);
        self.show(name)
    }

    // The same, and one byte more.
    fn and(&mut self, name: &str, at: usize, byte: u8) -> io::Result<()> {
        put(&mut self.device, at, &[byte]);
        self.show(name)
    }

    // A2, 22.
    fn damaged_records(&mut self) -> io::Result<()> {
        self.damaged("record 5 named A", RECORD_5, &A)?;
        put(&mut self.device, RECORD_9, &A);
        self.show("records 5 and 9 named A")?;
        self.and("and byte 20 of record 3 is 1", RECORD_3 + 20, 1)?;
        self.damaged("record 2 slot 0 is (41, 2)", RECORD_2 + 16, &[41])?;
        self.damaged(
            "record 2 slots (42, 1) (43, 1)",
            RECORD_2 + 18,
            &[1, 0, 43, 0, 1],
        )?;
        self.damaged("byte 88 of block 43 is 1", BLOCK_43 + 88, &[1])?;
        self.and("and bit 0 cleared", BITS, 254)
    }

    // A2, 23.
    fn damaged_blocks(&mut self) -> io::Result<()> {
        self.damaged(
            "record 2 slots (43, 1) (43, 1)",
            RECORD_2 + 16,
            &[43, 0, 1, 0, 43, 0, 1],
        )?;
        self.and("and bit 42 cleared", BITS + 5, 91)?;
        self.and("and bit 5 cleared", BITS, 223)?;
        self.damaged("B's extent block names 54 for 44", BLOCK_54, &[54])?;
        self.and("and bit 44 cleared", BITS + 5, 79)?;
        self.damaged("bit 60 set", BITS + 7, &[16])?;
        self.damaged("bit 100 cleared", BITS + 12, &[239])?;
        self.damaged("bit 4095 cleared", BITS + 511, &[127])?;
        self.damaged("bit 41 cleared", BITS + 5, &[93])?;
        self.and("and block 0 lists block 33", 0, 33)
    }
}

fn main(rt: HostRuntime) -> io::Result<()> {
    let mut t = Trial {
        rt: &rt,
        device: [0; SMALLEST],
    };
    t.show("all zero")?;
    t.empty();
    t.show("empty")?;
    t.files();
    t.show("three files")?;
    t.broken_bits()?;
    t.broken_records()?;
    t.broken_trees()?;
    t.broken_blocks()?;
    t.scattered();
    t.show("A, B and C")?;
    t.damaged_records()?;
    t.damaged_blocks()
}
