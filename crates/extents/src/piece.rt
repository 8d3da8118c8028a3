// A piece of a file's stretch.
ghost use Rattle.std.specs.Prelude.{◌<◌, ◌≤◌, ◌+◌};

use spec::Extent;

// Blocks that follow each other within one extent. The extent's two numbers have two bytes each: it ends at twice 65,535 at most, and its pieces with it.
#[derive(Clone, Copy)]
pub struct Piece {
    pub extent: Extent,
    pub ghost first: { extent.first < 131072 },
    pub ghost end: { extent.first + extent.count ≤ 131070 },
    pub ghost count: { extent.count < 65536 },
}
