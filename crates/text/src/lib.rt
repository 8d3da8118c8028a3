// Text written to the front of lent bytes. Where the bytes end the rest of a text is dropped, so that every call takes any text.
#![tactic(auto)]

ghost use Rattle.std.specs.Prelude.{◌∷◌, [], ◌/◌, ◌%◌, ◌<◌, ◌≡◌};
ghost use Rattle.spec.specs.Listing.{hex_digit, hexadecimal};
ghost use Rattle.text.specs.Written.{Put, number};

use itoa::Buffer;

// Lent bytes, and the place up to which they are written. The place stands beside them, since callers answer it and every contract speaks of it with the whole
// bytes: of a slice that shrinks, as std's Write for &mut [u8] has it, neither is left.
#[derive(Drop)]
pub struct Writer<'a> {
    pub out: &'a mut [u8],
    pub at: usize,
}

fn hex_digit(n: u8) -> u8
    requires { n < 16 }
    ensures { result ≡ hex_digit n }
{
    if n < 10 { b'0' + n } else { b'A' - 10 + n }
}

impl<'a> Writer<'a> {
    // At the front of some bytes.
    pub fn new(out: &'a mut [u8]) -> Writer<'a>
        ensures same { result.out.ghost_name ≡ out.entry.ghost_name }
        ensures bytes { result.out.now ≡ out.old }
        ensures place { result.at ≡ 0 }
    {
        Writer { out, at: 0 }
    }

    // One byte.
    pub fn put(&mut self, x: u8)
        ensures { Put self.old self.new (x ∷ []) }
    {
        if self.at < self.out.len() {
            self.out[self.at] = x;
            self.at += 1;
        }
    }

    // Some bytes in their order. A copy of slices would need the part that fits taken of both, and memcpy, which the library of conversions does without.
    pub fn put_bytes(&mut self, bytes: &[u8])
        ensures { Put self.old self.new bytes.now }
    {
        for x in bytes {
            self.put(*x);
        }
    }

    // A number in decimal. Core's `write!` tells its digits only where it answers Ok, and no contract tells that it does on a writer that never fails.
    pub fn put_number(&mut self, n: usize)
        ensures { Put self.old self.new (number n) }
    {
        let mut digits = Buffer::new();
        self.put_bytes(digits.format(n).as_bytes());
    }

    // A byte in capitals: crate hex writes small letters into lent bytes, and capitals into memory of its own.
    fn put_hex_byte(&mut self, x: u8)
        ensures { Put self.old self.new (hex_digit (x / 16) ∷ hex_digit (x % 16) ∷ []) }
    {
        self.put(hex_digit(x / 16));
        self.put(hex_digit(x % 16));
    }

    // Bytes in hexadecimal, two digits for each. It is put_bytes with another body of the loop: one function of both would take a closure, and be longer.
    pub fn put_hex(&mut self, bytes: &[u8])
        ensures { Put self.old self.new (hexadecimal bytes.now) }
    {
        for x in bytes {
            self.put_hex_byte(*x);
        }
    }
}
