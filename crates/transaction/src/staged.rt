// The numbers of staged blocks.
ghost use Rattle.std.specs.Prelude.{◌≤◌, length};

// No more than a log can list, in the order in which they were staged.
#[derive(Clone, Copy)]
pub struct Staged<'a> {
    pub list: &'a [u32],
    pub ghost few: { length list.now ≤ 32 },
}
