// The examples of document 01.
use crate::telling::Teller;
use std::io;
use trial::SMALLEST;

impl<P: Print, const N: usize> Teller<'_, P, N> {
    fn e1(&mut self) -> io::Result<()> {
        self.begin("E1")?;
        self.free()?;
        self.say(", block 33:")?;
        self.bytes(16896..16904)?;
        self.say(", then 255 in")?;
        self.count(16904..17408, 255)?;
        self.end()
    }

    // File 1 created on an empty store.
    pub fn one_file(&mut self, title: &str) -> io::Result<()> {
        self.begin(title)?;
        self.create(1)
    }

    fn e2(&mut self) -> io::Result<()> {
        self.one_file("E2")?;
        self.start()?;
        self.advance(4)?;
        self.end()
    }

    // A new file of 600 bytes, not committed.
    fn e3_written(&mut self, title: &str) -> io::Result<()> {
        self.one_file(title)?;
        self.write(1, 0, &[7; 600])
    }

    fn e3(&mut self) -> io::Result<()> {
        self.e3_written("E3")?;
        self.start()?;
        self.advance(10)?;
        self.record_bytes()?;
        self.say(", zeros in bytes 88 to 511 of block 43:")?;
        self.count(22104..22528, 0)?;
        self.end()
    }

    // A cut behind n stores, then so many stores of the recovery.
    fn e4(&mut self, n: usize, recovery: usize) -> io::Result<()> {
        self.e3_written("E4")?;
        self.start()?;
        self.advance(n)?;
        self.say(", cut")?;
        self.reopen()?;
        self.advance(recovery)?;
        self.reopen()?;
        self.size(1)?;
        self.end()
    }

    pub fn e3_committed(&mut self, title: &str) -> io::Result<()> {
        self.e3_written(title)?;
        self.commit()
    }

    fn e5(&mut self) -> io::Result<()> {
        self.e3_committed("E5")?;
        self.size(1)?;
        self.read(1, 590)?;
        self.read(1, 600)?;
        self.end()
    }

    fn e6(&mut self) -> io::Result<()> {
        self.one_file("E6")?;
        self.write(1, 1000, b"")?;
        self.size(1)?;
        self.read_zeros(1)?;
        self.commit()?;
        self.write(1, 0, b"")?;
        self.staged()?;
        self.commit()?;
        self.end()
    }

    // A size set, and what is free behind it.
    pub fn resize(&mut self, k: u8, n: usize) -> io::Result<()> {
        self.set_size(k, n)?;
        self.free()
    }

    fn e7(&mut self) -> io::Result<()> {
        self.one_file("E7")?;
        self.resize(1, 11265)?;
        self.resize(1, 11264)?;
        self.end()
    }

    // On 128 blocks.
    fn e8(&mut self) -> io::Result<()> {
        self.one_file("E8")?;
        for n in [15361, 15360] {
            self.set_size(1, n)?;
            self.many_staged()?;
        }
        self.end()
    }

    fn e9(&mut self) -> io::Result<()> {
        self.e3_committed("E9")?;
        self.set_size(1, 100)?;
        self.staged()?;
        self.commit()?;
        self.bit(42)?;
        self.bit(43)?;
        self.end()
    }

    // Files 1 and 2 created on an empty store.
    pub fn two_files(&mut self, title: &str) -> io::Result<()> {
        self.one_file(title)?;
        self.create(2)
    }

    // Both with n blocks, taken in turn.
    pub fn two_grown(&mut self, title: &str, n: usize) -> io::Result<()> {
        self.two_files(title)?;
        self.in_turn(n)
    }

    fn e11(&mut self) -> io::Result<()> {
        self.two_grown("E11", 4)?;
        self.set_size(1, 2560)?;
        self.extents(1, 6)?;
        self.commit()?;
        self.record_bytes()?;
        self.end()
    }

    fn e11_committed(&mut self) -> io::Result<()> {
        self.say("E11 committed")?;
        self.set_size(1, 2048)?;
        self.staged()?;
        self.extents(1, 5)?;
        self.commit()?;
        self.record_bytes()?;
        self.bit(50)?;
        self.bit(51)?;
        self.end()
    }

    // 64 blocks do not hold a file of 1,048,576 bytes, so past refusal 4 comes 16.
    fn e12(&mut self) -> io::Result<()> {
        self.one_file("E12")?;
        for x in [1048575, 1048576, usize::MAX] {
            self.write(1, x, &[7])?;
        }
        self.set_size(1, 1048576)?;
        self.set_size(1, 1048577)?;
        self.end()
    }

    fn e13(&mut self) -> io::Result<()> {
        self.one_file("E13")?;
        self.rename(1, 1)?;
        self.end()
    }

    fn e1_to_e7(&mut self) -> io::Result<()> {
        self.e1()?;
        self.e2()?;
        self.e3()?;
        self.e4(4, 0)?;
        self.e4(5, 5)?;
        self.e5()?;
        self.e6()?;
        self.e7()
    }

    fn e9_to_e13(&mut self) -> io::Result<()> {
        self.e9()?;
        self.e11()?;
        self.e11_committed()?;
        self.e12()?;
        self.e13()
    }
}

pub fn run<P: Print>(rt: &P) -> io::Result<()> {
    let mut t: Teller<'_, P, SMALLEST> = Teller::new(rt);
    t.e1_to_e7()?;
    let mut larger: Teller<'_, P, 65536> = Teller::new(rt);
    larger.e8()?;
    t.e9_to_e13()
}
