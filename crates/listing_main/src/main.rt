// Prints what purselist prints for images built by hand: E3 of document 01, files with extent blocks, a log to recover, and images that are refused.
#![tactic(auto)]

use listing::{LISTING_SIZE, list_image};
use spec::{Limits, Session};
use std::io;
use trial::{SMALLEST, put, put_files, put_slot};

// The blocks named below: the last of the log, the bitmap, the first of the data.
const LAST_LOG: u16 = Limits::LOG_LENGTH as u16;

const BITMAP: u16 = Limits::BITMAP_BLOCK as u16;

const DATA: u16 = Limits::DATA_START as u16;

// Name A: 01 02 03 04 05 06 07 08.
fn name_a(device: &mut [u8; SMALLEST], at: usize) {
    put(device, at, &[1, 2, 3, 4, 5, 6, 7, 8]);
}

fn empty() -> [u8; SMALLEST] {
    let mut device = [0u8; SMALLEST];
    store::format(&mut device, Session::never_opened());
    device
}

// E3 committed: A has 600 bytes in blocks 42 and 43.
fn e3() -> [u8; SMALLEST] {
    let mut device = empty();
    name_a(&mut device, 17408);
    put(&mut device, 17416, &600u16.to_le_bytes());
    put_slot(&mut device, 17424, DATA, 2);
    put(&mut device, 16901, &[15]);
    device
}

// Three files with the names AB .., .. CD and 03 .., and in record 17 one of the name FF .. with 513 bytes in blocks 60 and 62.
fn files() -> [u8; SMALLEST] {
    let mut device = empty();
    put_files(&mut device);
    put(&mut device, 17408, &[171]);
    put(&mut device, 17447, &[205]);
    put(&mut device, 17472, &[3]);
    put(&mut device, 17952, &[255]);
    put(&mut device, 17960, &513u16.to_le_bytes());
    put_slot(&mut device, 17968, 60, 1);
    put_slot(&mut device, 17972, 62, 1);
    put(&mut device, 16903, &[80]);
    device
}

// The listing as far as some lent bytes take it.
fn show_in(rt: &impl Print, title: &str, image: &[u8], out: &mut [u8]) -> io::Result<()> {
    println!(rt; "{title}:")?;
    let n = list_image(image, out);
    rt.write_all(&out[..n])
}

fn show(rt: &impl Print, title: &str, image: &[u8]) -> io::Result<()> {
    let mut out = [0u8; LISTING_SIZE];
    show_in(rt, title, image, &mut out)
}

fn show_cut(rt: &impl Print, title: &str, image: &[u8]) -> io::Result<()> {
    let mut out = [0u8; 20];
    show_in(rt, title, image, &mut out)?;
    println!(rt)
}

// The files with one byte changed.
fn broken(rt: &impl Print, title: &str, at: usize, byte: u8) -> io::Result<()> {
    let mut device = files();
    put(&mut device, at, &[byte]);
    show(rt, title, &device)
}

// The header lists two targets.
fn logged(rt: &impl Print, title: &str, first: u16, second: u16) -> io::Result<()> {
    let mut device = files();
    put(&mut device, 0, &first.to_le_bytes());
    put(&mut device, 16, &second.to_le_bytes());
    show(rt, title, &device)
}

// Images that are no device of an allowed length, or too long a one.
fn lengths(rt: &impl Print) -> io::Result<()> {
    let odd = [0u8; 32767];
    let short = [0u8; 32256];
    let long = [0u8; 66048];
    show(rt, "no byte", b"")?;
    show(rt, "32,767 bytes", &odd)?;
    show(rt, "63 blocks", &short)?;
    show(rt, "129 blocks", &long)
}

// Each of S1 to S8 broken once.
fn damaged(rt: &impl Print) -> io::Result<()> {
    broken(rt, "S1 a bit of the log is 0", 16896, 247)?;
    broken(rt, "S2 a name twice", 17472, 171)?;
    broken(rt, "S3 depth 2", 17484, 2)?;
    broken(rt, "S4 an extent past the end", 22544, 64)?;
    broken(rt, "S5 size against count", 17417, 0)?;
    broken(rt, "S6 extents that touch", 22536, 49)?;
    broken(rt, "S7 a block not reached, its bit 1", 16903, 208)?;
    broken(rt, "S8 a byte after the size", 22204, 1)
}

fn main(rt: HostRuntime) -> io::Result<()> {
    let none = empty();
    show(&rt, "empty", &none)?;
    let one = e3();
    show(&rt, "E3 committed", &one)?;
    let some = files();
    show(&rt, "four files", &some)?;
    show_cut(&rt, "four files in 20 bytes", &some)?;
    logged(&rt, "a log of two blocks", BITMAP, DATA)?;
    logged(&rt, "a log of a block twice", BITMAP, BITMAP)?;
    logged(&rt, "a log of a log block", LAST_LOG, BITMAP)?;
    lengths(&rt)?;
    damaged(&rt)
}
