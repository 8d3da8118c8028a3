// A session that is lent in its parts to a call that changes it.
ghost use Rattle.std.specs.Prelude.{◌≡◌, length};

use spec::{Limits, Phase};

// The device, the work space and the session. Its cells and their count stay where the caller holds them, for C lends them so: where C's function makes a session
// of them, `size` takes 18 ns in place of 14.
#[derive(Drop)]
pub struct LentSession<'a> {
    pub device: &'a [u8],
    pub work: &'a mut [u8],
    pub blocks: usize,
    pub phase: Phase,
    pub cells: &'a mut [u32; Limits::LOG_LENGTH],
    pub count: &'a mut usize,
    pub ghost full: { length cells.now ≡ 32 },
}
