// The bitmap (document 01: bit table): 512 bytes, one bit to a block, read by whole words.
#![tactic(auto)]

ghost use Rattle.std.specs.Prelude.{◌≡◌, ◌+◌, ◌%◌, ◌<◌, ◌≤◌, sum_by};
ghost use Rattle.spec.specs.Bytes.{exactly};
ghost use Rattle.spec.specs.Bitmap.{bits_of, free_bits};
ghost use Rattle.bitmap.specs.Words.{free_of_word, mask_of};

use block::on_whole;
use spec::{DiskBlock, Limits};

mod table;

pub use table::Bitmap;

// How many bits of a word are 0: the ones of the complemented word.
#[tactic(auto, unfolding(crate::specs::Words::free_of_word))]
fn free_in_word(word: &[u8; 8]) -> usize
    ensures { result ≡ free_of_word word.now }
{
    (!u64::from_le_bytes(*word)).count_ones() as usize
}

// How many bits of some words are 0.
fn free_in_words(words: &[[u8; 8]]) -> usize
    requires { sum_by free_of_word words.now ≤ 4096 }
    ensures { result ≡ sum_by free_of_word words.now }
{
    words.iter().map(free_in_word).sum()
}

// How many bits of a table are 0: "Count of ones gives free blocks". Of a block where it lies: in a Bitmap, which is a copy, it takes 66 ns in place of 43.
pub fn free_in(t: &[u8; Limits::BLOCK_SIZE]) -> usize
    ensures { (result ≡ free_bits (bits_of t.now)) × (result ≤ 4096) }
{
    let (words, _) = t.as_chunks();
    free_in_words(words)
}

// The free blocks of a table that may end early.
pub fn free_of(table: &[u8]) -> usize
    ensures { result ≡ free_bits (bits_of (exactly 512 table.now)) }
{
    on_whole(table, free_in)
}

// The byte with ones at the bits of n blocks from b on. That they lie in one byte is asked here: both callers work byte by byte.
pub fn mask(b: DiskBlock, n: u32) -> u8
    requires { (0 < n) × (b.0 % 8 + n ≤ 8) }
    ensures { result ≡ mask_of n (b.0 % 8) }
{
    (255u8 >> (8 - n)) << (b.0 % 8)
}
