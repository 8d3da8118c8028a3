// A device and its blocks.
ghost use Rattle.std.specs.Prelude.{◌≡◌, ◌≤◌};
ghost use Rattle.spec.specs.Bytes.{exactly};
ghost use Rattle.spec.specs.Disk.{blocks_of};

use block::block_in;
use spec::DiskBlock;

// A device that is tested, and how many blocks it has.
#[derive(Clone, Copy)]
pub struct Device<'a> {
    pub bytes: &'a [u8],
    pub blocks: usize,
    ghost most: { blocks ≤ 4096 },
}

impl<'a> Device<'a> {
    // Block b of the device.
    pub fn block_at(&self, b: DiskBlock) -> &'a [u8]
        ensures { exactly 512 result.now ≡ blocks_of self.now.bytes.now b.0 }
    {
        block_in(self.bytes, b)
    }
}
