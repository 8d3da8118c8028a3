// The examples of document 01 as one proved table: specs/Table.antt, theorem `every-row`.
#![tactic(auto)]

ghost use Rattle.std.specs.Prelude.{◌≡◌, length};
ghost use Rattle.examples.specs.Table.{table};

// How many rows the table has.
pub fn rows() -> usize
    ensures { result ≡ length table }
{
    20
}
