// A volume and its session as a call reads them: one that only reads, commits or aborts, and one that changes files before its first change.
use crate::working_copy::WorkingCopy;
use spec::Phase;

// Its number of blocks, its phase, and its blocks as the session sees them.
#[derive(Clone, Copy)]
pub struct Volume<'a> {
    pub blocks: usize,
    pub phase: Phase,
    pub copy: WorkingCopy<'a>,
}
