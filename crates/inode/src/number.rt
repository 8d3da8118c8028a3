// The number of a record of the table.
ghost use Rattle.std.specs.Prelude.{◌<◌};

use spec::Limits;

// One of the 128 records.
#[derive(Clone, Copy)]
pub struct InodeNumber {
    pub n: usize,
    pub ghost low: { n < 128 },
}

impl InodeNumber {
    ghost use Rattle.std.specs.Prelude.{◌≡◌, ◌≤◌, MatchOption};

    // Record i, where the table has so many. By TryFrom, which must name an error, a type with nothing to tell would stand beside the one case of None.
    pub fn of(i: usize) -> Option<InodeNumber>
        ensures { MatchOption result (128 ≤ i) (λ number. number.n ≡ i) }
    {
        if Limits::INODE_COUNT <= i {
            return None;
        }
        Some(InodeNumber { n: i })
    }
}
