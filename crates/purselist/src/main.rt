// Lists the purses of a device image: reads the image from standard input and writes the text of listing::list_image.
#![tactic(auto)]

ghost use Rattle.std.specs.Prelude.{◌≤◌, IfOk, length};

use listing::{LISTING_SIZE, LONGEST_IMAGE, list_image};
use std::io;
use std::io::Read;

// Reads until the buffer is full or the input ends, and answers how many bytes that are.
fn read_full(rt: &impl Input, buffer: &mut [u8]) -> io::Result<usize>
    ensures { IfOk result (λ n. n ≤ length buffer.new) }
{
    let mut input = rt.reader();
    let mut n: usize = 0;
    // It goes on by what each read gives; std's read_exact takes the input's end for an error, and its read_to_end needs a heap.
    while n < buffer.len() {
        let more = input.read(&mut buffer[n..])?;
        if more == 0 {
            break;
        }
        n += more;
    }
    Ok(n)
}

fn main(rt: HostRuntime) -> io::Result<()> {
    // One byte more than the longest image, so that a longer one is refused.
    let mut image = [0u8; LONGEST_IMAGE + 1];
    let mut out = [0u8; LISTING_SIZE];
    let n = read_full(&rt, &mut image)?;
    let m = list_image(&image[..n], &mut out);
    rt.write_all(&out[..m])
}
