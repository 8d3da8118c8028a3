// The image of a block that is staged.
ghost use Rattle.std.specs.Prelude.{◌≡◌, ◌<◌};
ghost use Rattle.transaction.specs.Places.{spot};
ghost use Rattle.transaction.specs.LentSessions.{numbers_lent};

use crate::staging::Staging;
use spec::DiskBlock;

// At the place that the block has or gets among the images of a staging; its call has tested that there is one.
#[derive(Drop)]
pub struct Image<'m, 's, 'a> {
    pub images: &'m mut Staging<'s, 'a>,
    pub block: DiskBlock,
    pub place: usize,
    pub ghost own: { place ≡ spot (numbers_lent images.now.lent.now) block.0 },
    pub ghost inside: { place < 32 },
}
