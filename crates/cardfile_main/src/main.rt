// The worked examples of the printer's file: what it writes is held to the file stdout.
#![tactic(auto)]

use cardfile::{Card, amount_bytes, line_at, line_number, name_of};
use std::io;

// First what has a card, then what has none, last lines around 64 bytes, a text without a feed, and none.
const TEXTS: [&[u8]; 46] = [
    b"04A1B2C3;H;1250\n",
    b"3283263748;D;1250\n",
    b"04A1B2C3D4E5F6;H;0\n",
    b"69495546249912580;D;0\n",
    b"00000000;H;99999999\n",
    b"0000000000;D;1\n",
    b"4294967295;D;7\n",
    b"72057594037927935;D;10000000\n",
    b"\n",
    b";H;\n",
    b"04A1B2C3;H\n",
    b"04A1B2C3;H;\n",
    b"04A1B2C3;H;1;\n",
    b";04A1B2C3;H;1\n",
    b"04a1b2c3;H;1\n",
    b"04A1B2C;H;1\n",
    b"04A1B2C3D;H;1\n",
    b"04A1B2C3;h;1\n",
    b"04A1B2C3;X;1\n",
    b"04A1B2C3;;1\n",
    b"04A1B2C3;H;01\n",
    b"04A1B2C3;H;00\n",
    b"04A1B2C3;H;123456789\n",
    b"04A1B2C3;H;-1\n",
    b"04A1B2C3;H;1 \n",
    b" 04A1B2C3;H;1\n",
    b"04A1B2C3;H;1\r\n",
    b"04A1B2C3,H,1\n",
    b"4294967296;D;1\n",
    b"9999999999;D;1\n",
    b"328326374;D;1\n",
    b"03283263748;D;1\n",
    b"72057594037927936;D;1\n",
    b"3283263748;H;1\n",
    b"04A1B2C3;D;1\n",
    b"04A1B2C3;H;1.5\n",
    b"G4A1B2C3;H;1\n",
    b"04A1B2C3D4E5F6A7B8C9;H;1\n",
    b"04A1B2C3;H;+1\n",
    b"04A1B2C3;H;\xB2\n",
    b"0123456789012345678901234567890123456789012345678901234567890123\n",
    b"01234567890123456789012345678901234567890123456789012345678901234\n",
    b"01234567890123456789012345678901234567890123456789012345678901234",
    b"04A1B2C3;H;1",
    b"",
    b"\n",
];

fn show_bytes(rt: &impl Print, bytes: &[u8]) -> io::Result<()> {
    print!(rt; " ")?;
    for x in bytes {
        print!(rt; "{x:02X}")?;
    }
    Ok(())
}

fn show_card(rt: &impl Print, card: Card) -> io::Result<()> {
    let name = name_of(card);
    show_bytes(rt, &name)?;
    let content = amount_bytes(card.amount);
    show_bytes(rt, &content)
}

// A byte that can be seen as it is, others by their hexadecimal digits.
fn show_sign(rt: &impl Print, c: u8) -> io::Result<()> {
    match c {
        b' '..=b'~' => print!(rt; "{}", char::from(c)),
        _ => print!(rt; "\\{c:02X}"),
    }
}

fn show_text(rt: &impl Print, text: &[u8]) -> io::Result<()> {
    for c in text {
        show_sign(rt, *c)?;
    }
    Ok(())
}

// The first line of a text: its name and content, or the refusal.
fn show(rt: &impl Print, text: &[u8]) -> io::Result<()> {
    print!(rt; "\"")?;
    show_text(rt, text)?;
    print!(rt; "\"")?;
    match line_at(text, 0) {
        Ok(Some(line)) => show_card(rt, line.card)?,
        Ok(None) => print!(rt; " none")?,
        Err(why) => print!(rt; " {}", why.number())?,
    }
    println!(rt)
}

fn main(rt: HostRuntime) -> io::Result<()> {
    for text in TEXTS {
        show(&rt, text)?;
    }
    print!(rt; "lines:")?;
    for at in [0, 1, 2, 4, 6, 100] {
        print!(rt; " {}", line_number(b"a\nb\nc\n", at))?;
    }
    println!(rt)
}
