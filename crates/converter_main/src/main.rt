// The worked examples of the converter: the answer, then every byte of the buffer, which was dots before. What it writes is held to the file stdout.
#![tactic(auto)]

use cardfile::Spelling;
use converter::{ConvertFault, convert};
use std::io;

fn show_answer(rt: &impl Print, answer: Result<usize, ConvertFault>) -> io::Result<()> {
    match answer {
        Ok(n) => println!(rt; "length {n}"),
        Err(why) => println!(rt; "refused {} {}", why.number(), why.line().unwrap_or(0)),
    }
}

fn show(rt: &impl Print, wanted: Spelling, text: &[u8], out: &mut [u8]) -> io::Result<()> {
    let answer = convert(wanted, text, out);
    show_answer(rt, answer)?;
    rt.write_all(out)?;
    println!(rt; "|")
}

// Into a buffer of so many bytes.
fn into(rt: &impl Print, wanted: Spelling, text: &[u8], size: usize) -> io::Result<()> {
    let mut dots = [b'.'; 99];
    if let Some(out) = dots.get_mut(..size) {
        show(rt, wanted, text, out)?;
    }
    Ok(())
}

fn to_h(rt: &impl Print, text: &[u8], size: usize) -> io::Result<()> {
    into(rt, Spelling::Hexadecimal, text, size)
}

fn to_d(rt: &impl Print, text: &[u8], size: usize) -> io::Result<()> {
    into(rt, Spelling::Decimal, text, size)
}

// Both ways, and buffers around the output's length.
fn lengths(rt: &impl Print) -> io::Result<()> {
    to_d(rt, b"04A1B2C3;H;1250\n04A1B2C3D4E5F6;H;0\n", 99)?;
    to_h(rt, b"3283263748;D;1250\n69495546249912580;D;0\n", 99)?;
    to_d(rt, b"04A1B2C3;H;1250\n04A1B2C3D4E5F6;H;0\n", 41)?;
    to_d(rt, b"04A1B2C3;H;1250\n04A1B2C3D4E5F6;H;0\n", 40)?;
    to_d(rt, b"04A1B2C3;H;1250\n04A1B2C3D4E5F6;H;0\n", 39)?;
    to_d(rt, b"", 0)
}

// The lowest line decides, and a later line's refusal comes before 25.
fn refusals(rt: &impl Print) -> io::Result<()> {
    to_h(rt, b"04A1B2C3;H;1250\n04A1B2C3D4E5F6;H;0\n", 99)?;
    to_h(
        rt,
        b"3283263748;D;1\n04A1B2C3;H;1250\n04A1B2C3D4E5F6;H;0\nx\n",
        99,
    )?;
    to_d(rt, b"04A1B2C3;H;1250\n04A1B2C3D4E5F6;H;0", 99)?;
    to_d(rt, b"04A1B2C3;H;1250\n04A1B2C3D4E5F6;H;0\nzz\n", 0)?;
    to_d(rt, b"04A1B2C3D4E5F6A7B8C9;H;1\n", 99)?;
    to_h(rt, b"04A1B2C3D4E5F6A7B8C9;H;1\n", 99)?;
    to_d(rt, b"\n", 99)
}

// Small and large numbers, and lines around 64 bytes.
fn limits(rt: &impl Print) -> io::Result<()> {
    to_d(rt, b"00000000;H;0\n01000000;H;7\nFFFFFFFF;H;99999999\n", 99)?;
    to_h(rt, b"00000000000000000;D;0\n72057594037927935;D;1\n", 99)?;
    to_h(rt, b"4294967295;D;1\n4294967296;D;1\n", 99)?;
    to_d(
        rt,
        b"04A1B2C3;H;1\n0000000000000000000000000000000000000000000000000000000000000000\n",
        99,
    )?;
    to_d(
        rt,
        b"04A1B2C3;H;1\n00000000000000000000000000000000000000000000000000000000000000000\n",
        99,
    )
}

fn main(rt: HostRuntime) -> io::Result<()> {
    lengths(&rt)?;
    refusals(&rt)?;
    limits(&rt)
}
