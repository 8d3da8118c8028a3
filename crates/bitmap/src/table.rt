// The bitmap that a change works on.
ghost use Rattle.bitmap.specs.Words.{Table};

use crate::mask;
use block::copy_of;
use spec::{DiskBlock, Limits};

// Its bytes, and the fact that they are 512 numbers below 256, which the laws of a table ask for: kept by the type, it holds after each change, and no contract
// repeats it.
#[derive(Clone, Copy)]
pub struct Bitmap {
    pub bytes: [u8; Limits::BLOCK_SIZE],
    pub ghost whole: { Table bytes },
}

impl Bitmap {
    ghost use Rattle.std.specs.Prelude.{◌≡◌, ◌+◌, ◌*◌, ◌%◌, ◌<◌, ◌≤◌, cond, take, set};
    ghost use Rattle.spec.specs.Bytes.{place, exactly, up_from};
    ghost use Rattle.spec.specs.Bitmap.{bits_of, free_bits, mark};
    ghost use Rattle.bitmap.specs.Words.{found_of};

    // A copy of the bytes of a block, zeros past their end.
    pub fn of(block: &[u8]) -> Bitmap
        ensures { result.bytes ≡ exactly 512 block.now }
    {
        Bitmap {
            bytes: copy_of(block),
        }
    }

    // The lowest bit that is 0, where no bit below word `from` is: "trailing zeros of the complemented word".
    // By number: std's `skip` steps over each word before `from`, and with `position` of the first word that is not full, the word is read twice.
    pub fn lowest_free_from(&self, from: usize) -> Option<DiskBlock>
        requires { free_bits (take (64 * from) (bits_of self.now.bytes)) ≡ 0 }
        ensures { result ≡ found_of (place 0 (bits_of self.now.bytes)) }
    {
        let (words, _) = self.bytes.as_chunks();
        for at in from..words.len() {
            let word = &words[at];
            let x = !u64::from_le_bytes(*word);
            if x != 0 {
                let b = 64 * (at as u32) + x.trailing_zeros();
                return Some(DiskBlock(b));
            }
        }
        None
    }

    // The bit of block b becomes 1 where ON says so, else 0. That b lies in the table is asked here, in the two functions below and in marks' mark_byte: each
    // call knows it from a search or from the block's area, and a number of a type of its own would be made there with the same fact.
    fn put<const ON: bool>(&mut self, b: DiskBlock)
        requires { b.0 < 4096 }
        ensures { bits_of self.new.bytes ≡ set (bits_of self.old.bytes) b.0 (cond ON 1 0) }
    {
        let i = (b.0 / 8) as usize;
        if ON {
            self.bytes[i] |= 1 << (b.0 % 8);
        } else {
            self.bytes[i] &= !(1 << (b.0 % 8));
        }
    }

    // The bit of block b becomes 1.
    pub fn set(&mut self, b: DiskBlock)
        requires { b.0 < 4096 }
        ensures { bits_of self.new.bytes ≡ set (bits_of self.old.bytes) b.0 1 }
    {
        self.put::<true>(b);
    }

    // The bit of block b becomes 0.
    pub fn clear(&mut self, b: DiskBlock)
        requires { b.0 < 4096 }
        ensures { bits_of self.new.bytes ≡ set (bits_of self.old.bytes) b.0 0 }
    {
        self.put::<false>(b);
    }

    // The bits of n blocks from b on, which lie in one byte, become 0.
    fn clear_in_byte(&mut self, b: DiskBlock, n: u32)
        requires { (b.0 % 8 + n ≤ 8) × (b.0 + n ≤ 4096) }
        ensures { bits_of self.new.bytes ≡ mark 0 (up_from b.0 n) (bits_of self.old.bytes) }
    {
        if n == 0 {
            return;
        }
        self.bytes[(b.0 / 8) as usize] &= !mask(b, n);
    }

    // The bits of n bytes from byte i on become 0.
    fn clear_bytes(&mut self, i: usize, n: usize)
        requires { i + n ≤ 512 }
        ensures { bits_of self.new.bytes ≡ mark 0 (up_from (8 * i) (8 * n)) (bits_of self.old.bytes) }
    {
        self.bytes[i..i + n].fill(0);
    }

    // The bits of `count` blocks from `first` on become 0; a block past the table's end has none.
    pub fn clear_run(&mut self, first: DiskBlock, count: u32)
        ensures { bits_of self.new.bytes ≡ mark 0 (up_from first.0 count) (bits_of self.old.bytes) }
    {
        let from = first.0.min(Limits::BITMAP_BITS);
        let end = from + count.min(Limits::BITMAP_BITS - from);
        let whole = from.next_multiple_of(8);
        if end < whole {
            self.clear_in_byte(DiskBlock(from), end - from);
            return;
        }
        let tail = end % 8;
        let many = (end - tail - whole) / 8;
        self.clear_in_byte(DiskBlock(from), whole - from);
        self.clear_bytes((whole / 8) as usize, many as usize);
        self.clear_in_byte(DiskBlock(end - tail), tail);
    }
}
