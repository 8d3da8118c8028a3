// More than the examples: full devices, blocks used again, and the limits on records and extents.
use crate::telling::Teller;
use std::io;
use trial::SMALLEST;

impl<P: Print, const N: usize> Teller<'_, P, N> {
    // A commit, and the store opened anew.
    fn settle(&mut self) -> io::Result<()> {
        self.commit()?;
        self.reopen()
    }

    // The last block taken, given back and taken by another file.
    fn full(&mut self) -> io::Result<()> {
        self.one_file("full")?;
        self.set_size(1, 11264)?;
        self.commit()?;
        self.create(2)?;
        self.write(2, 0, &[7])?;
        self.resize(1, 10752)?;
        self.write(2, 0, &[7])?;
        self.free()?;
        self.extents(2, 2)?;
        self.settle()?;
        self.end()
    }

    // One block free and a fifth extent due: the data block fits, its extent block does not.
    fn node(&mut self) -> io::Result<()> {
        self.two_grown("extent block", 4)?;
        self.create(3)?;
        self.resize(3, 6656)?;
        self.set_size(1, 2560)?;
        self.resize(3, 6144)?;
        self.resize(1, 2560)?;
        self.extents(1, 6)?;
        self.commit()?;
        self.record_bytes()?;
        self.reopen()?;
        self.end()
    }

    // A block freed and taken again in one transaction shows nothing of what it held.
    fn again(&mut self) -> io::Result<()> {
        self.e3_committed("used again")?;
        self.resize(1, 512)?;
        self.create(2)?;
        self.set_size(2, 10)?;
        self.extents(2, 2)?;
        self.read(2, 0)?;
        self.staged()?;
        self.settle()?;
        self.read(1, 502)?;
        self.read(2, 0)?;
        self.end()
    }

    // A file of 1,500 sevens cut to a size and lengthened again.
    fn shorten(&mut self, n: usize, place: usize) -> io::Result<()> {
        self.one_file("shortened")?;
        self.write(1, 0, &[7; 1500])?;
        self.commit()?;
        self.set_size(1, n)?;
        self.staged()?;
        self.commit()?;
        self.set_size(1, 1500)?;
        self.read(1, place)?;
        self.settle()?;
        self.end()
    }

    fn removed(&mut self) -> io::Result<()> {
        self.two_grown("removed", 6)?;
        self.commit()?;
        self.free()?;
        for k in [1, 2] {
            self.remove(k)?;
            self.free()?;
        }
        self.remove(2)?;
        self.staged()?;
        self.settle()?;
        self.free()?;
        self.end()
    }

    // The record stays in its place, and create takes the lowest empty one.
    fn renamed(&mut self) -> io::Result<()> {
        self.e3_committed("renamed")?;
        self.create(2)?;
        self.rename(1, 3)?;
        self.record(0)?;
        self.record(1)?;
        self.rename(3, 2)?;
        self.rename(1, 4)?;
        self.remove(3)?;
        self.create(5)?;
        self.record(0)?;
        self.record(1)?;
        self.record(128)?;
        self.end()
    }

    fn aborted(&mut self) -> io::Result<()> {
        self.e3_committed("aborted")?;
        self.set_size(1, 100)?;
        self.create(2)?;
        self.free()?;
        self.abort()?;
        self.staged()?;
        self.free()?;
        self.size(1)?;
        self.size(2)?;
        self.end()
    }

    fn records(&mut self) -> io::Result<()> {
        self.begin("records, 0 to 127 created")?;
        self.create_all(128);
        self.record(127)?;
        self.staged()?;
        self.create(128)?;
        self.create(127)?;
        self.end()
    }

    // 512 extents are the most. File 2 was grown last, so its next block follows on and makes no extent.
    fn many_extents(&mut self) -> io::Result<()> {
        self.two_files("extents")?;
        self.commit_in_turn(512)?;
        self.free()?;
        self.record_bytes()?;
        self.say(", extents 511 and 512 of 1:")?;
        self.extent(1, 511)?;
        self.extent(1, 512)?;
        self.set_size(1, 262656)?;
        self.set_size(2, 262656)?;
        self.staged()?;
        self.settle()?;
        self.end()
    }

    fn small(&mut self) -> io::Result<()> {
        self.full()?;
        self.node()?;
        self.again()?;
        self.shorten(1024, 1014)?;
        self.shorten(1025, 1015)?;
        self.removed()?;
        self.renamed()?;
        self.aborted()?;
        self.records()
    }
}

pub fn run<P: Print>(rt: &P) -> io::Result<()> {
    let mut t: Teller<'_, P, SMALLEST> = Teller::new(rt);
    t.small()?;
    // 1,100 blocks
    let mut large: Teller<'_, P, 563200> = Teller::new(rt);
    large.many_extents()
}
