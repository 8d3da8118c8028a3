// A store, each call on which is told as it is made.
use block::{load, load2, load4};
use mounted::Mounted;
use spec::ByteOffset;
use std::io;
use std::ops::Range;
use transaction::Staged;
use trial::{counted, done, extent, refused, stored};

// Bytes, each behind a blank.
fn bytes(rt: &impl Print, list: &[u8]) -> io::Result<()> {
    for x in list {
        print!(rt; " {x}")?;
    }
    Ok(())
}

// How many of some bytes are one byte.
fn count(list: &[u8], byte: u8) -> usize {
    list.iter().filter(|x| **x == byte).count()
}

#[derive(Drop)]
pub struct Teller<'a, P: Print, const N: usize> {
    rt: &'a P,
    store: Mounted<N>,
}

impl<'a, P: Print, const N: usize> Teller<'a, P, N> {
    pub fn new(rt: &'a P) -> Teller<'a, P, N> {
        Teller {
            rt,
            store: Mounted::empty(),
        }
    }

    // An empty store, opened.
    pub fn begin(&mut self, title: &str) -> io::Result<()> {
        self.store = Mounted::empty();
        print!(self.rt; "{title}: empty store")
    }

    pub fn say(&self, words: &str) -> io::Result<()> {
        print!(self.rt; "{words}")
    }

    // The end of a line.
    pub fn end(&self) -> io::Result<()> {
        println!(self.rt)
    }

    // ---- changes

    pub fn create(&mut self, k: u8) -> io::Result<()> {
        print!(self.rt; ", create {k}")?;
        done(self.rt, self.store.create(k))
    }

    // Files 0 to n - 1 made with no word.
    pub fn create_all(&mut self, n: u8) {
        self.store.create_all(n);
    }

    pub fn remove(&mut self, k: u8) -> io::Result<()> {
        print!(self.rt; ", remove {k}")?;
        done(self.rt, self.store.remove(k))
    }

    pub fn rename(&mut self, k: u8, l: u8) -> io::Result<()> {
        print!(self.rt; ", rename {k} to {l}")?;
        done(self.rt, self.store.rename(k, l))
    }

    pub fn set_size(&mut self, k: u8, n: usize) -> io::Result<()> {
        print!(self.rt; ", set {k} to {n}")?;
        done(self.rt, self.store.set_size(k, n))
    }

    pub fn write(&mut self, k: u8, x: usize, bytes: &[u8]) -> io::Result<()> {
        print!(self.rt; ", write {} to {k} at {x}", bytes.len())?;
        done(self.rt, self.store.write(k, ByteOffset(x), bytes))
    }

    // Files 1 and 2 grown by one block in turn, n times.
    pub fn in_turn(&mut self, n: usize) -> io::Result<()> {
        self.store.grow_in_turn(n);
        self.grown(n)
    }

    // The same, each time committed.
    pub fn commit_in_turn(&mut self, n: usize) -> io::Result<()> {
        self.store.commit_in_turn(n);
        self.grown(n)
    }

    fn grown(&self, n: usize) -> io::Result<()> {
        print!(self.rt; ", 1 and 2 grown in turn to blocks {n}")
    }

    // All changes since the last commit undone.
    pub fn abort(&mut self) -> io::Result<()> {
        print!(self.rt; ", abort")?;
        done(self.rt, self.store.abort())
    }

    // ---- stores

    // A commit with all its stores.
    pub fn commit(&mut self) -> io::Result<()> {
        let n = self.store.commit_whole();
        print!(self.rt; ", commit {n}")
    }

    // A commit's number of stores.
    pub fn start(&mut self) -> io::Result<()> {
        let n = self.store.commit().unwrap_or(0);
        print!(self.rt; ", commit {n}")
    }

    // n advances, each with the block stored.
    pub fn advance(&mut self, n: usize) -> io::Result<()> {
        print!(self.rt; ", stores to")?;
        for _ in 0..n {
            match self.store.advance() {
                Ok(block) => stored(self.rt, block)?,
                Err(why) => refused(self.rt, why)?,
            }
        }
        Ok(())
    }

    // The device as a cut leaves it, opened anew.
    pub fn reopen(&mut self) -> io::Result<()> {
        print!(self.rt; ", open")?;
        done(self.rt, self.store.reopen())
    }

    // ---- what the calls read

    pub fn size(&self, k: u8) -> io::Result<()> {
        print!(self.rt; ", size of {k}:")?;
        counted(self.rt, self.store.size(k))
    }

    pub fn free(&self) -> io::Result<()> {
        print!(self.rt; ", free")?;
        counted(self.rt, self.store.free_count())
    }

    // Up to 20 bytes from x on, in a buffer of 20 nines.
    pub fn read(&self, k: u8, x: usize) -> io::Result<()> {
        let mut buffer = [9; 20];
        print!(self.rt; ", read {k} at {x}:")?;
        counted(self.rt, self.store.read(k, ByteOffset(x), &mut buffer))?;
        print!(self.rt; " with buffer")?;
        bytes(self.rt, &buffer)
    }

    // A file read whole into 1,200 nines: how many bytes, and how many zeros are in the buffer.
    pub fn read_zeros(&self, k: u8) -> io::Result<()> {
        let mut buffer = [9; 1200];
        print!(self.rt; ", read")?;
        counted(self.rt, self.store.read(k, ByteOffset(0), &mut buffer))?;
        print!(self.rt; ", zeros in the buffer {}", count(&buffer, 0))
    }

    pub fn record(&self, i: usize) -> io::Result<()> {
        print!(self.rt; ", record {i}")?;
        match self.store.record_at(i) {
            Ok(Some(file)) => {
                let name = file.name;
                print!(self.rt; " of file {} with {}", name[0], file.size)
            }
            Ok(None) => print!(self.rt; " empty"),
            Err(why) => refused(self.rt, why),
        }
    }

    // Extent i of a whole file.
    pub fn extent(&self, k: u8, i: usize) -> io::Result<()> {
        match self.store.nth_extent(k, i) {
            Ok(Some(e)) => extent(self.rt, e),
            Ok(None) => print!(self.rt; " -"),
            Err(why) => refused(self.rt, why),
        }
    }

    // The first n extents.
    pub fn extents(&self, k: u8, n: usize) -> io::Result<()> {
        print!(self.rt; ", extents of {k}:")?;
        for i in 0..n {
            self.extent(k, i)?;
        }
        Ok(())
    }

    // ---- what stands in the session and on the device

    // The numbers of the staged blocks.
    fn numbers(&self) -> &[u32] {
        let s = &self.store.lent.session;
        Staged::of(&s.staged, s.count).list
    }

    pub fn staged(&self) -> io::Result<()> {
        let numbers = self.numbers();
        print!(self.rt; ", staged")?;
        if numbers.is_empty() {
            print!(self.rt; " none")?;
        }
        for b in numbers {
            print!(self.rt; " {b}")?;
        }
        Ok(())
    }

    pub fn many_staged(&self) -> io::Result<()> {
        print!(self.rt; ", blocks staged {}", self.numbers().len())
    }

    // The bytes at some places of the device, as long as it has them.
    fn part(&self, places: Range<usize>) -> &[u8] {
        self.store.lent.device.get(places).unwrap_or(&[])
    }

    pub fn bytes(&self, places: Range<usize>) -> io::Result<()> {
        bytes(self.rt, self.part(places))
    }

    // How many of some bytes are one byte.
    pub fn count(&self, places: Range<usize>, byte: u8) -> io::Result<()> {
        print!(self.rt; " {}", count(self.part(places), byte))
    }

    // Size, depth and slot 0 of record 0.
    pub fn record_bytes(&self) -> io::Result<()> {
        let device = &self.store.lent.device;
        print!(self.rt;
            ", record 0: size {}, depth {}, slot {} {}",
            load4(device, 17416),
            load(device, 17420),
            load2(device, 17424),
            load2(device, 17426)
        )
    }

    // The bit of a block.
    pub fn bit(&self, b: u32) -> io::Result<()> {
        let bits = load(&self.store.lent.device, 16896 + (b / 8) as usize);
        if bits & (1 << (b % 8)) == 0 {
            print!(self.rt; ", block {b} free")
        } else {
            print!(self.rt; ", block {b} in use")
        }
    }
}
