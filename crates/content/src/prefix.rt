// The first bytes of a file record.
ghost use Rattle.std.specs.Prelude.{◌≤◌, length};

// At most as many as a record has.
#[derive(Clone, Copy)]
pub struct RecordPrefix<'a> {
    pub bytes: &'a [u8],
    pub ghost short: { length bytes.now ≤ 32 },
}
