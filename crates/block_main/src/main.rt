// Each function of crate block on concrete values: what it writes is held to the file stdout.
#![tactic(auto)]

use block::{block_in, clear_block, copy_of, load, load2, load4, store_block, store2};
use spec::DiskBlock;
use std::io;

// The area of block b, and whether it is a data block and a target on a device of 64 blocks. An area has no number but its place among the variants, which only `as` tells.
fn show_area(rt: &impl Print, b: u32) -> io::Result<()> {
    let area = block::area_of(DiskBlock(b)) as u32;
    let data = u32::from(block::in_data(64, DiskBlock(b)));
    let target = u32::from(block::is_target(64, DiskBlock(b)));
    println!(rt; " {area} {data} {target}")
}

fn areas(rt: &impl Print) -> io::Result<()> {
    for b in [0, 1, 32, 33, 34, 41, 42, 63, 64, u32::MAX] {
        show_area(rt, b)?;
    }
    Ok(())
}

// Numbers inside a slice, over its end and past it.
fn numbers(rt: &impl Print) -> io::Result<()> {
    let mut few = [1u8, 2, 3, 4, 5];
    print!(rt; " {} {}", load(&few, 4), load(&few, 5))?;
    println!(rt; " {} {} {}", load2(&few, 0), load2(&few, 4), load2(&few, 5))?;
    println!(rt;
        " {} {} {} {}",
        load4(&few, 0),
        load4(&few, 2),
        load4(&few, 4),
        load4(&few, 511)
    )?;
    store2(&mut few, 3, 65535);
    print!(rt; " {}", load4(&few, 1))?;
    store2(&mut few, 0, 258);
    print!(rt; " {}", load2(&few, 0))?;
    few[1..].copy_from_slice(&4278255873u32.to_le_bytes());
    println!(rt; " {} {}", load4(&few, 1), load(&few, 0))
}

// A slice of two blocks and 76 bytes.
fn blocks(rt: &impl Print) -> io::Result<()> {
    let mut image = [7u8; 1100];
    image[511] = 9;
    image[1024] = 20;
    image[1025] = 21;
    image[1099] = 95;
    show_lengths(rt, &image)?;
    let x = copy_of(block_in(&image, DiskBlock(2)));
    println!(rt; " {} {} {}", load2(&x, 74), load2(&x, 75), load2(&x, 76))?;
    store_block(&mut image, DiskBlock(1), &x);
    show_ends(rt, &image)?;
    let y = copy_of(block_in(&image, DiskBlock(1)));
    println!(rt; " {}", u32::from(x == y))?;
    clear_block(&mut image, DiskBlock(1));
    show_ends(rt, &image)?;
    let z = copy_of(block_in(&image, DiskBlock(1)));
    let past = copy_of(block_in(&image, DiskBlock(u32::MAX)));
    println!(rt; " {} {}", u32::from(x == z), u32::from(past == z))
}

// How many bytes of some blocks there are.
fn show_lengths(rt: &impl Print, bytes: &[u8]) -> io::Result<()> {
    for b in [0, 1, 2, 3, u32::MAX] {
        print!(rt; " {}", block_in(bytes, DiskBlock(b)).len())?;
    }
    println!(rt)
}

// The bytes at both ends of block 1 and beside it.
fn show_ends(rt: &impl Print, bytes: &[u8]) -> io::Result<()> {
    for at in [511, 512, 513, 587, 1023, 1024] {
        print!(rt; " {}", load(bytes, at))?;
    }
    println!(rt)
}

fn main(rt: HostRuntime) -> io::Result<()> {
    areas(&rt)?;
    numbers(&rt)?;
    blocks(&rt)
}
