// The printer's file: what stands at a place of it, line by line. What a line says is defined in specs/Cards.antt, what stands at a place in specs/Lines.antt.
#![tactic(auto)]

ghost use Rattle.std.specs.Prelude.{◌≡◌, ◌+◌, ◌-◌, ◌*◌, ◌%◌, ◌<◌, ◌≤◌, ◌^◌, ◌==◌, min, position, length};
ghost use Rattle.cardfile.specs.Cards.{before, digit_value, hex_value, hex_byte, read_hex, read_decimal, within, serial_of, amount_of, entry_of, amount_bytes};
ghost use Rattle.cardfile.specs.Lines.{line_of, line_number, below, letter_of, spelling_of, digits_of, width_of, line_fault_number, number_told, bytes_told, serial_told, form_told, line_in, line_at, name_told};

use spec::Limits;

// The two spellings of a serial: H lines and D lines.
#[derive(Clone, Copy, PartialEq, Eq)]
pub enum Spelling {
    Hexadecimal,
    Decimal,
}

impl Spelling {
    // The letter of its lines.
    pub fn letter(self) -> u8
        ensures { result ≡ letter_of self }
    {
        match self {
            Spelling::Hexadecimal => b'H',
            Spelling::Decimal => b'D',
        }
    }

    // The spelling of the lines with a letter. No TryFrom<u8>: it is no plainer, since its error would tell nothing, and form_of would drop it by ok().
    fn of_letter(letter: u8) -> Option<Spelling>
        ensures { result ≡ spelling_of letter }
    {
        match letter {
            b'H' => Some(Spelling::Hexadecimal),
            b'D' => Some(Spelling::Decimal),
            _ => None,
        }
    }

    // How many digits spell a serial of so many bytes.
    pub fn digits(self, bytes: usize) -> usize
        requires { bytes ≤ 7 }
        ensures { (result ≡ digits_of self bytes) × (result ≤ 17) }
    {
        match self {
            Spelling::Hexadecimal => 2 * bytes,
            Spelling::Decimal if bytes == Serial::SHORT => Serial::SHORT_DECIMAL,
            Spelling::Decimal => Serial::LONG_DECIMAL,
        }
    }

    // How many bytes a serial has that so many digits spell.
    #[tactic(auto, using(crate::proofs::Forms::width_rules))]
    fn bytes(self, digits: usize) -> Option<usize>
        ensures { result ≡ width_of self digits }
    {
        if digits == self.digits(Serial::SHORT) {
            return Some(Serial::SHORT);
        }
        (digits == self.digits(Serial::LONG)).then_some(Serial::LONG)
    }
}

// How many bytes a serial has, and the number that they make, the first the lowest. No type keeps the number of bytes to the two widths, and the number to what they
// hold: name_of takes a card with any, and would then ask more of callers.
#[derive(Clone, Copy)]
pub struct Serial {
    pub bytes: usize,
    pub number: u64,
}

impl Serial {
    // "8 or 14 hexadecimal digits", two for each byte, "10 digits for four bytes and 17 for seven"
    pub const SHORT: usize = 4;

    pub const LONG: usize = 7;

    pub const SHORT_DECIMAL: usize = 10;

    pub const LONG_DECIMAL: usize = 17;
}

// What a line says. The amount's digits are its last bytes.
#[derive(Clone, Copy)]
pub struct Card {
    pub serial: Serial,
    pub spelling: Spelling,
    pub amount: u64,
    pub digits: usize,
}

impl Card {
    // "one to eight digits"
    pub const AMOUNT_DIGITS: usize = 8;
}

// The card of a line, and the place behind the line's feed.
#[derive(Clone, Copy)]
pub struct Line {
    pub card: Card,
    pub next: usize,
}

impl Line {
    // "at most 64 bytes before the feed"
    pub const LENGTH: usize = 64;

    // One more: so far a feed is looked for.
    pub const SEEN: usize = Line::LENGTH + 1;
}

// Why a line has no card: "longer than 64 bytes", "not of this form or without its feed". Each is its refusal's number: these alone tell 20 and 21.
#[derive(Clone, Copy)]
pub enum LineFault {
    TooLong = 20,
    BadForm = 21,
}

impl LineFault {
    // The refusal's number, of loads and of conversions.
    pub fn number(self) -> u32
        ensures { result ≡ line_fault_number self }
    {
        self as u32
    }
}

// The place of the first x: in a function of its own, since within `until` what std's position answers stays open in `returns`.
// Transaction searches its cells so: the one crate below both is spec, which has no code but its types', so each keeps its one line.
fn place_of(s: &[u8], x: u8) -> Option<usize>
    ensures { result ≡ position (λ c. c == x) s.now }
{
    s.iter().position(|c| *c == x)
}

// How many bytes stand before the first x.
fn until(s: &[u8], x: u8) -> usize
    ensures { result ≡ length (before x s.now) }
{
    place_of(s, x).unwrap_or(s.len())
}

// The bytes of the line that a text begins with, at most one more than a line may have. Of an array it takes fewer steps than of a slice that is as long.
fn line_length(rest: &[u8]) -> usize
    ensures { result ≡ min 65 (length (line_of rest.now)) }
{
    match rest.first_chunk::<{ Line::SEEN }>() {
        Some(seen) => until(seen, b'\n'),
        None => until(rest, b'\n'),
    }
}

// A digit's value.
#[tactic(auto, using(crate::proofs::Laws::digit_rules))]
fn digit_value(c: u8) -> Option<u64>
    ensures { result ≡ below 10 (digit_value c) }
{
    char::from(c).to_digit(10).map(u64::from)
}

// A hexadecimal digit's value: of capitals alone, where std's to_digit takes small letters too.
#[tactic(auto, using(crate::proofs::Laws::hex_digit_rules))]
fn hex_value(c: u8) -> Option<u64>
    ensures { result ≡ below 16 (hex_value c) }
{
    match c {
        b'A'..=b'F' => Some(10 + u64::from(c - b'A')),
        _ => digit_value(c),
    }
}

// Two hexadecimal digits as a byte.
#[tactic(auto, using(crate::proofs::Laws::pair_rules))]
fn hex_byte(a: u8, b: u8) -> Option<u64>
    ensures { result ≡ below 256 (hex_byte a b) }
{
    Some(16 * hex_value(a)? + hex_value(b)?)
}

// The number that decimal digits spell.
#[tactic(auto, using(crate::proofs::Laws::decimal_rules))]
fn decimal_number(t: &[u8]) -> Option<u64>
    requires { length t.now ≤ 17 }
    ensures { result ≡ number_told (read_decimal 0 t.now) }
{
    let mut n = 0;
    for c in t {
        n = 10 * n + digit_value(*c)?;
    }
    Some(n)
}

// The number of the bytes that hexadecimal digits spell, from the last byte on. By u64's from_le_bytes it is no plainer: eight bytes beside it, and a loop that fills
// four or seven of them.
#[tactic(auto, using(crate::proofs::Laws::hex_rules))]
fn hex_number(t: &[u8]) -> Option<u64>
    requires { (length t.now % 2 ≡ 0) × (length t.now ≤ 14) }
    ensures { result ≡ bytes_told (read_hex t.now) }
{
    let mut n = 0;
    for [a, b] in t.as_chunks::<2>().0.iter().rev() {
        n = 256 * n + hex_byte(*a, *b)?;
    }
    Some(n)
}

// The serial that hexadecimal digits spell.
#[tactic(auto, using(crate::proofs::Laws::hex_rules))]
fn hex_serial(t: &[u8], bytes: usize) -> Option<Serial>
    requires { (length t.now ≡ 2 * bytes) × (bytes ≤ 7) }
    ensures { result ≡ serial_told (read_hex t.now) }
{
    let number = hex_number(t)?;
    Some(Serial { bytes, number })
}

// The serial that decimal digits spell, if its bytes hold the number.
#[tactic(auto, using(crate::proofs::Laws::within_rules))]
fn decimal_serial(t: &[u8], bytes: usize) -> Option<Serial>
    requires { (length t.now ≤ 17) × (bytes ≤ 7) }
    ensures { result ≡ serial_told (within bytes (read_decimal 0 t.now)) }
{
    let number = decimal_number(t)?;
    (number < 1 << (8 * bytes)).then_some(Serial { bytes, number })
}

// The serial of a line in this spelling.
fn serial_of(t: &[u8], spelling: Spelling) -> Option<Serial>
    ensures { result ≡ serial_told (serial_of (letter_of spelling) t.now) }
{
    let bytes = spelling.bytes(t.len())?;
    match spelling {
        Spelling::Hexadecimal => hex_serial(t, bytes),
        Spelling::Decimal => decimal_serial(t, bytes),
    }
}

// Cents: one to eight digits without idle leading zeros.
#[tactic(auto, using(crate::proofs::Forms::cents_rules))]
fn amount_of(t: &[u8]) -> Option<u64>
    ensures { result ≡ number_told (amount_of t.now) }
{
    match t {
        [] | [b'0', _, ..] => None,
        _ if Card::AMOUNT_DIGITS < t.len() => None,
        _ => decimal_number(t),
    }
}

// The card of a line without its feed.
#[tactic(auto, using(crate::proofs::Forms::form_rules))]
fn form_of(line: &[u8]) -> Option<Card>
    requires { length line.now ≤ 64 }
    ensures { result ≡ form_told (entry_of line.now) }
{
    let (serial, rest) = line.split_at(until(line, b';'));
    let [_, letter, b';', cents @ ..] = rest else {
        return None;
    };
    let spelling = Spelling::of_letter(*letter)?;
    let serial = serial_of(serial, spelling)?;
    let amount = amount_of(cents)?;
    Some(Card {
        serial,
        spelling,
        amount,
        digits: cents.len(),
    })
}

// What a text begins with that stands at a place.
#[tactic(auto, using(crate::proofs::Forms::line_rules))]
fn line_in(rest: &[u8], at: usize) -> Result<Option<Line>, LineFault>
    requires { at + length rest.now < 18446744073709551616 }
    ensures { result ≡ line_in rest.now at }
{
    let n = line_length(rest);
    if Line::LENGTH < n {
        return Err(LineFault::TooLong);
    }
    if n == rest.len() {
        return Err(LineFault::BadForm);
    }
    let card = form_of(&rest[..n]).ok_or(LineFault::BadForm)?;
    Ok(Some(Line {
        card,
        next: at + n + 1,
    }))
}

// What stands at a place of a text; none behind its end. Inlined, and so is `next` below: else each hands the card on by a copy of its own.
#[inline(always)]
#[tactic(auto, using(crate::proofs::Forms::place_rules))]
pub fn line_at(text: &[u8], at: usize) -> Result<Option<Line>, LineFault>
    ensures { result ≡ line_at text.now at }
{
    if text.len() <= at {
        return Ok(None);
    }
    line_in(&text[at..], at)
}

// The lines of a text, one by one, each with its card or its fault. A fault is the last.
#[derive(Clone, Copy)]
pub struct Lines<'a> {
    text: &'a [u8],
    at: usize,
}

impl<'a> Lines<'a> {
    // From the first line on.
    pub fn of(text: &'a [u8]) -> Lines<'a>
        ensures { (result.text.now ≡ text.now) × (result.at ≡ 0) }
    {
        Lines { text, at: 0 }
    }
}

impl<'a> Iterator for Lines<'a> {
    ghost use Rattle.cardfile.specs.Steps.{LineStep};
    ghost use Rattle.std.specs.Iterator.{at_most};

    type Item = Result<Line, LineFault>;

    ghost next_gives = { LineStep };

    ghost remaining = { λ s. at_most (length s.text.now - s.at) };

    #[inline(always)]
    fn next(&mut self) -> Option<Result<Line, LineFault>> {
        let found = line_at(self.text, self.at).transpose()?;
        self.at = found.map_or(self.text.len(), |line| line.next);
        Some(found)
    }
}

// The number of the line at a place, counted from 1.
pub fn line_number(text: &[u8], at: usize) -> usize
    ensures { result ≡ line_number text.now at }
{
    let end = at.min(text.len());
    1 + text[..end].iter().filter(|c| **c == b'\n').count()
}

// The name of a card (that of a record is read by crate inode): the number of its serial's bytes, these bytes, zeros. The number is taken modulo 256, since `as` takes
// only what fits.
#[tactic(auto, using(crate::proofs::Forms::bytes_rules))]
pub fn name_of(card: Card) -> [u8; Limits::NAME_SIZE]
    ensures { result ≡ name_told card.serial.bytes card.serial.number }
{
    let bytes = card.serial.bytes % 256;
    let b = card.serial.number.to_le_bytes();
    [bytes as u8, b[0], b[1], b[2], b[3], b[4], b[5], b[6]]
}

// What its file holds.
#[tactic(auto, using(crate::proofs::Forms::bytes_rules))]
pub fn amount_bytes(amount: u64) -> [u8; 8]
    ensures { result ≡ amount_bytes amount }
{
    amount.to_le_bytes()
}
