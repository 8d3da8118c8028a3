// What a read sees of a volume.
use crate::staged::Staged;

// The device, the work space and the numbers of the staged blocks.
// These are lent rather than the session that holds them, so that no call copies it.
#[derive(Clone, Copy)]
pub struct WorkingCopy<'a> {
    pub device: &'a [u8],
    pub work: &'a [u8],
    pub staged: Staged<'a>,
}
