// An empty store: all zero but the bitmap.
#![tactic(auto)]

ghost use Rattle.std.specs.Prelude.{◌≡◌, true, ◌/◌, ◌≤◌, length};
ghost use Rattle.spec.specs.Disk.{is_allowed, slice_of};
ghost use Rattle.spec.specs.Bitmap.{bytes_of};
ghost use Rattle.spec.specs.Calls.{empty_bits, empty_disk};
ghost use Rattle.mkfs.specs.Table.{Cleared};

use bitmap::Bitmap;
use block::store_block;
use spec::{DiskBlock, Limits};

// The bitmap of an empty store of n blocks: zeros from 42 to n-1, ones elsewhere.
pub fn empty_table(n: u32) -> Bitmap
    requires { (42 ≤ n) × (n ≤ 4096) }
    ensures { (result.bytes ≡ bytes_of (empty_bits n)) × Cleared result.bytes n }
{
    let mut t = Bitmap {
        bytes: [255u8; Limits::BLOCK_SIZE],
    };
    t.clear_run(DiskBlock(Limits::DATA_START), n - Limits::DATA_START);
    t
}

// "Format makes an empty store, all zero but the bit table".
pub fn make_empty(device: &mut [u8])
    requires { is_allowed (length device.old) ≡ true }
    ensures { slice_of device.new ≡ record { size = length device.old; block = empty_disk (length device.old / 512) } }
{
    let n = device.len() / Limits::BLOCK_SIZE;
    device.fill(0);
    let table = empty_table(n as u32);
    store_block(device, DiskBlock(Limits::BITMAP_BLOCK), &table.bytes);
}
