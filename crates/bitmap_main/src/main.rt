// Runs the bitmap's functions on a few tables, and prints of each how many bits are 0 and which is the lowest.
#![tactic(auto)]

ghost use Rattle.std.specs.Prelude.{◌≡◌, ◌<◌};
ghost use Rattle.spec.specs.Bitmap.{bits_of, free_bits};

use bitmap::{Bitmap, free_in};
use spec::{DiskBlock, Limits};
use std::io;

fn show(rt: &impl Print, name: &str, t: &Bitmap) -> io::Result<()> {
    print!(rt; "{name} {}", free_in(&t.bytes))?;
    match t.lowest_free_from(0) {
        Some(b) => println!(rt; " {}", b.0),
        None => println!(rt; " none"),
    }
}

// Takes the lowest free bit until there is none, searching each time from the word of the last, and answers how many it took.
fn take_all(table: Bitmap) -> u32
    ensures { result ≡ free_bits (bits_of table.bytes) }
{
    let mut t = table;
    let mut from = 0;
    for taken in 0..Limits::BITMAP_BITS {
        let Some(b) = t.lowest_free_from(from) else {
            return taken;
        };
        t.set(b);
        from = (b.0 / 64) as usize;
    }
    Limits::BITMAP_BITS
}

// Two neighbouring bits of a full table cleared, then the lower one set again.
fn border(rt: &impl Print, name: &str, b: u32) -> io::Result<()>
    requires { b < 4095 }
{
    let mut t = Bitmap::of(&[255; Limits::BLOCK_SIZE]);
    t.clear(DiskBlock(b));
    t.clear(DiskBlock(b + 1));
    show(rt, name, &t)?;
    t.set(DiskBlock(b));
    show(rt, name, &t)
}

fn main(rt: HostRuntime) -> io::Result<()> {
    let empty = Bitmap::of(&[0; Limits::BLOCK_SIZE]);
    show(&rt, "empty", &empty)?;
    let mut t = Bitmap::of(&[255; Limits::BLOCK_SIZE]);
    show(&rt, "full", &t)?;
    t.clear(DiskBlock(4095));
    show(&rt, "last", &t)?;
    t.set(DiskBlock(4095));
    let mut bytes = t.bytes;
    bytes[5] = 3;
    bytes[6] = 0;
    bytes[7] = 0;
    let t = Bitmap::of(&bytes);
    show(&rt, "formatted 64", &t)?;
    println!(rt; "taken {} {}", take_all(t), take_all(empty))?;
    border(&rt, "byte", 7)?;
    border(&rt, "word", 63)
}
