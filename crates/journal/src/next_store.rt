// The store that comes next.
ghost use Rattle.std.specs.Prelude.{◌<◌};

use crate::Entry;

// That at this place, counted from 0, of so many.
#[derive(Clone, Copy)]
pub struct NextStore {
    pub entry: Entry,
    pub place: usize,
    pub end: usize,
    pub ghost inside: { place < end },
}
