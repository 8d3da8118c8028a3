// A lent session to which blocks are staged.
ghost use Rattle.std.specs.Prelude.{◌≡◌, length};

use crate::lent_session::LentSession;

// Its call has tested the size of the work space, so that each of the 32 images has its place in it.
#[derive(Drop)]
pub struct Staging<'s, 'a> {
    pub lent: &'s mut LentSession<'a>,
    pub ghost whole: { length lent.now.work.now ≡ 16384 },
}
