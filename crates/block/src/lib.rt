// One block of a lent byte slice: its area, the numbers in it, reading and storing it.
#![tactic(auto)]

ghost use Rattle.std.specs.Prelude.{◌≡◌, ◌+◌, ◌*◌, ◌%◌, ◌<◌, ◌≤◌, min, length, take, drop, get_or};
ghost use Rattle.std.specs.Fn.{FnOnceReturnsAt};
ghost use Rattle.spec.specs.Bytes.{zeros, exactly, patch, number2, number4, bytes2};
ghost use Rattle.spec.specs.Disk.{area_of, in_data, is_target, slice_of};
ghost use Rattle.block.specs.Stores.{stored_in};
ghost use Rattle.block.specs.Keys.{key_of, Name};

use spec::{Area, DiskBlock, Limits};

// "A block number's area decides its use".
pub fn area_of(b: DiskBlock) -> Area
    ensures { result ≡ area_of b.0 }
{
    let n = b.0;
    match n {
        0 => Area::Header,
        1..=32 => Area::Log,
        33 => Area::Bitmap,
        34..=41 => Area::Inodes,
        _ => Area::Data,
    }
}

// Within 42 to N-1, by the area. It differs from is_target by the areas alone: one function of both would take a list of them.
#[tactic(auto, unfolding(spec::specs::Disk::in_data))]
pub fn in_data(blocks: usize, b: DiskBlock) -> bool
    ensures { result ≡ in_data blocks b.0 }
{
    let inside = (b.0 as usize) < blocks;
    match area_of(b) {
        Area::Header | Area::Log | Area::Bitmap | Area::Inodes => false,
        Area::Data => inside,
    }
}

// Within 33 to N-1, by the area.
#[tactic(auto, unfolding(spec::specs::Disk::is_target))]
pub fn is_target(blocks: usize, b: DiskBlock) -> bool
    ensures { result ≡ is_target blocks b.0 }
{
    let inside = (b.0 as usize) < blocks;
    match area_of(b) {
        Area::Header | Area::Log => false,
        Area::Bitmap | Area::Inodes | Area::Data => inside,
    }
}

// The byte at a place, 0 past the end.
pub fn byte(bytes: &[u8], at: usize) -> u8
    ensures { result ≡ get_or bytes.now at 0 }
{
    bytes.get(at).copied().unwrap_or(0)
}

// The same as a number.
pub fn load(bytes: &[u8], at: usize) -> u32
    ensures { (result ≡ get_or bytes.now at 0) × (result < 256) }
{
    u32::from(byte(bytes, at))
}

// W bytes from a place on, zeros past the end.
pub fn bytes_at<const W: usize>(bytes: &[u8], at: usize) -> [u8; W]
    ensures { result ≡ exactly W (drop at bytes.now) }
{
    let rest = &bytes[bytes.len().min(at)..];
    if let Some(whole) = rest.first_chunk() {
        return *whole;
    }
    let mut out = [0u8; W];
    out[..rest.len()].copy_from_slice(rest);
    out
}

// Little-endian numbers, of zeros past the end.
pub fn load2(bytes: &[u8], at: usize) -> u32
    ensures { (result ≡ number2 at bytes.now) × (result < 65536) }
{
    u32::from(u16::from_le_bytes(bytes_at(bytes, at)))
}

pub fn load4(bytes: &[u8], at: usize) -> u32
    ensures { result ≡ number4 at bytes.now }
{
    u32::from_le_bytes(bytes_at(bytes, at))
}

// The two lowest bytes of a number stored.
pub fn store2(bytes: &mut [u8], at: usize, n: u32)
    requires { at + 2 ≤ length bytes.old }
    ensures { bytes.new ≡ patch at (bytes2 n) bytes.old }
{
    let low = (n % 65536) as u16;
    bytes[at..at + 2].copy_from_slice(&low.to_le_bytes());
}

// Where record i of the table begins in its block: "32 bytes, 16 to a block".
pub fn place_in_block(i: usize) -> usize
    ensures { (result ≡ 32 * (i % 16)) × (result + 32 ≤ 512) }
{
    Limits::INODE_SIZE * (i % Limits::INODES_PER_BLOCK)
}

// Block b of some bytes, as far as they reach.
pub fn block_in(bytes: &[u8], b: DiskBlock) -> &[u8]
    ensures { result.now ≡ take 512 (drop (512 * b.0) bytes.now) }
{
    let n = b.0 as usize;
    let from = Limits::BLOCK_SIZE * n;
    let end = from + Limits::BLOCK_SIZE;
    &bytes[bytes.len().min(from)..bytes.len().min(end)]
}

// The first 512 of some bytes, zeros past their end.
pub fn copy_of(bytes: &[u8]) -> [u8; Limits::BLOCK_SIZE]
    ensures { result ≡ exactly 512 bytes.now }
{
    bytes_at(bytes, 0)
}

// What is told of a copy of the bytes: a function of its own, since one that has both cases clears room for the copy at each call. With it a record took more than
// twice as long.
fn on_copy<T, F: FnOnce(&[u8; Limits::BLOCK_SIZE]) -> T>(bytes: &[u8], told: F) -> T
    requires { F.IsAlwaysCallable told }
    ensures { FnOnceReturnsAt F.FnOnce told (exactly 512 bytes.now) result }
{
    told(&copy_of(bytes))
}

// What is told of the first 512 of some bytes, in place where they are all there, zeros past their end.
pub fn on_whole<T, F: FnOnce(&[u8; Limits::BLOCK_SIZE]) -> T>(bytes: &[u8], told: F) -> T
    requires { F.IsAlwaysCallable told }
    ensures { FnOnceReturnsAt F.FnOnce told (exactly 512 bytes.now) result }
{
    match bytes.first_chunk() {
        Some(whole) => told(whole),
        None => on_copy(bytes, told),
    }
}

// All bytes of one slice copied to another of the same length. One by one: std's `copy_from_slice` between lent slices is compiled to `memmove`, which a library for C
// would then need from outside.
pub fn copy(from: &[u8], to: &mut [u8])
    requires { length from.now ≡ length to.old }
    ensures { to.new ≡ from.now }
{
    for k in 0..to.len() {
        to[k] = from[k];
    }
}

// Block b stored. That it lies within the bytes is asked here, in the two functions below and in two of journal: a type that says so would lend the bytes anew
// for each block.
pub fn store_block(bytes: &mut [u8], b: DiskBlock, x: &[u8; Limits::BLOCK_SIZE])
    requires { 512 * b.0 + 512 ≤ length bytes.old }
    ensures { slice_of bytes.new ≡ stored_in (slice_of bytes.old) b.0 x.now }
{
    let n = b.0 as usize;
    let at = Limits::BLOCK_SIZE * n;
    let end = at + Limits::BLOCK_SIZE;
    copy(x, &mut bytes[at..end]);
}

// Block b stored from the first 512 of some bytes, zeros past their end. By `on_whole` and a closure that stores, what it leaves in `bytes` stays open.
pub fn store_copy(bytes: &mut [u8], b: DiskBlock, from: &[u8])
    requires { 512 * b.0 + 512 ≤ length bytes.old }
    ensures { slice_of bytes.new ≡ stored_in (slice_of bytes.old) b.0 (exactly 512 from.now) }
{
    match from.first_chunk() {
        Some(x) => store_block(bytes, b, x),
        None => store_block(bytes, b, &copy_of(from)),
    }
}

// Block b cleared.
pub fn clear_block(bytes: &mut [u8], b: DiskBlock)
    requires { 512 * b.0 + 512 ≤ length bytes.old }
    ensures { slice_of bytes.new ≡ stored_in (slice_of bytes.old) b.0 (zeros 512) }
{
    store_block(bytes, b, &[0; Limits::BLOCK_SIZE]);
}

// Eight bytes as one number, so that two names are compared at once.
pub fn key_of(name: &[u8; Limits::NAME_SIZE]) -> u64
    ensures { (result ≡ key_of name.now) × Name name.now }
{
    u64::from_le_bytes(*name)
}
