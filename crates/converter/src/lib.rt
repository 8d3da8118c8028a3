// The printer's file in the other supplier's spelling, all lines or none. The first pass tests every line and counts the output, the second writes it, so
// that a refusal touches nothing.
#![tactic(auto)]

ghost use Rattle.std.specs.Prelude.{◌≡◌, List, ℕ, ◌<◌, ◌≤◌, ◌^◌, length, IfSome, Err};
ghost use Rattle.spec.specs.Answers.{refusal_number, value_told};
ghost use Rattle.cardfile.specs.Cards.{bytes_of, padded, spell};
ghost use Rattle.cardfile.specs.Lines.{letter_of};
ghost use Rattle.text.specs.Written.{Written, Put};
ghost use Rattle.converter.specs.Convert.{line_with, Conversion, output, onto, convert_file, left_buffer, convert, converted_of};
ghost use Rattle.converter.specs.Passes.{answer_behind, answer_for, card_told, output_of};

use cardfile::{Card, Line, LineFault, Lines, Serial, Spelling, name_of};
use text::Writer;

// Two semicolons, the letter and the feed of a line.
pub const SIGNS: usize = 4;

// Why there is no output: converted_of in specs/Convert.antt. A line is named by its number, counted from 1.
#[derive(Clone, Copy)]
pub enum ConvertFault {
    BadLine(usize, LineFault),
    SameSpelling(usize),
    TooSmall,
}

impl ConvertFault {
    // The refusal's number: this alone tells 24 and 25.
    pub fn number(self) -> u32
        ensures { result ≡ refusal_number (converted_of (Err self)) }
    {
        match self {
            ConvertFault::BadLine(_, fault) => fault.number(),
            ConvertFault::SameSpelling(_) => 24,
            ConvertFault::TooSmall => 25,
        }
    }

    // The line that it names.
    pub fn line(self) -> Option<usize>
        ensures { result ≡ value_told (converted_of (Err self)) }
    {
        match self {
            ConvertFault::BadLine(line, _) | ConvertFault::SameSpelling(line) => Some(line),
            ConvertFault::TooSmall => None,
        }
    }
}

// ---- the first pass: every line is tested, and the output counted

// More of an output, for a buffer of so many bytes: how many bytes it then has, none where they do not fit.
fn count_more(room: Option<usize>, size: usize, most: usize) -> Option<usize>
    ensures more { (t : List ℕ) (c : Conversion) → length t ≡ size → answer_behind most room (onto t c) ≡ answer_behind most result c }
    ensures fits { IfSome result (λ n. n ≤ most) }
{
    let total = room?.checked_add(size)?;
    (total <= most).then_some(total)
}

// The card of the line with this number, or its fault.
fn card_of(found: Result<Line, LineFault>, line: usize) -> Result<Card, ConvertFault>
    ensures { result ≡ card_told line found }
{
    let found = found.map_err(|fault| ConvertFault::BadLine(line, fault))?;
    Ok(found.card)
}

// The answer for a text and a buffer of so many bytes.
fn test_lines(text: &[u8], wanted: Spelling, most: usize) -> Result<usize, ConvertFault>
    ensures { converted_of result ≡ answer_for most (convert_file (letter_of wanted) text.now) }
{
    let mut room = Some(0);
    for (k, found) in Lines::of(text).enumerate() {
        let line = k + 1;
        let card = card_of(found, line)?;
        if card.spelling == wanted {
            return Err(ConvertFault::SameSpelling(line));
        }
        let size = wanted.digits(card.serial.bytes) + card.digits + SIGNS;
        room = count_more(room, size, most);
    }
    room.ok_or(ConvertFault::TooSmall)
}

// ---- the second pass: every line is written

// The last digits of a number, so many of them, the highest first. They are found from the last on, by tens alone, and written together: core's `write!` pads too, and
// of it holds what stands at text's put_number.
fn put_padded(w: &mut Writer, count: usize, n: u64)
    requires { count ≤ 17 }
    ensures { Put w.old w.new (padded count n) }
{
    let mut digits = [b'0'; Serial::LONG_DECIMAL];
    let mut rest = n;
    for k in (0..count).rev() {
        digits[k] = b'0' + (rest % 10) as u8;
        rest /= 10;
    }
    w.put_bytes(&digits[..count]);
}

// A card's serial in the wanted spelling. Its bytes stand in the card's name, behind their number. No ghost field of Serial tells the two facts: cardfile's name_of takes
// a card with any number of bytes, and would then ask more of callers.
fn put_serial(w: &mut Writer, card: Card, wanted: Spelling)
    requires { (card.serial.bytes ≤ 7) × (card.serial.number < 256 ^ card.serial.bytes) }
    ensures { Put w.old w.new (spell (letter_of wanted) (bytes_of card.serial.bytes card.serial.number)) }
{
    let Serial { bytes, number } = card.serial;
    match wanted {
        Spelling::Hexadecimal => {
            let name = name_of(card);
            w.put_hex(&name[1..bytes + 1]);
        }
        Spelling::Decimal => put_padded(w, wanted.digits(bytes), number),
    }
}

// A line: the serial respelled, the wanted letter, the amount's bytes copied.
fn put_card(w: &mut Writer, card: Card, wanted: Spelling, amount: &[u8])
    requires { (card.serial.bytes ≤ 7) × (card.serial.number < 256 ^ card.serial.bytes) }
    ensures { Put w.old w.new (line_with (letter_of wanted) (bytes_of card.serial.bytes card.serial.number) amount.now) }
{
    put_serial(w, card, wanted);
    w.put(b';');
    w.put(wanted.letter());
    w.put(b';');
    w.put_bytes(amount);
    w.put(b'\n');
}

// All lines of a file that is not refused.
fn put_cards(out: &mut [u8], text: &[u8], wanted: Spelling) -> usize
    requires { convert_file (letter_of wanted) text.now ≡ output (output_of (convert_file (letter_of wanted) text.now)) }
    ensures { Written out.old 0 (output_of (convert_file (letter_of wanted) text.now)) out.new result }
{
    let mut w = Writer::new(out);
    // A file that is not refused has no fault.
    for found in Lines::of(text).map_while(Result::ok) {
        let end = found.next - 1;
        let from = end - found.card.digits;
        put_card(&mut w, found.card, wanted, &text[from..end]);
    }
    w.at
}

// The file in the wanted spelling, written to the front of a buffer, all of it or none: the output's length.
pub fn convert(wanted: Spelling, text: &[u8], out: &mut [u8]) -> Result<usize, ConvertFault>
    ensures { left_buffer out.new (converted_of result) ≡ convert wanted text.now out.old }
{
    let length = test_lines(text, wanted, out.len())?;
    put_cards(out, text, wanted);
    Ok(length)
}
