// A record of the table, in its block.
ghost use Rattle.std.specs.Prelude.{◌≡◌};
ghost use Rattle.spec.specs.Bytes.{exactly};
ghost use Rattle.spec.specs.Disk.{blocks_of};
ghost use Rattle.spec.specs.Inode.{block_of_inode};

use inode::InodeNumber;
use marks::Device;

// Record i of a device, and the block of the table that holds it.
#[derive(Clone, Copy)]
pub struct Record<'a> {
    pub device: Device<'a>,
    pub table: &'a [u8],
    pub i: InodeNumber,
    ghost stands: { exactly 512 table.now ≡ blocks_of device.bytes.now (block_of_inode i.n) },
}
