// The conversion of the printer's file for C: a function for each wanted spelling, in a static library of their own, since they use nothing of the store.
// What the numbers of an answer mean is defined in specs/Conversions.antt.
#![tactic(auto)]

ghost use Rattle.std.specs.Prelude.{◌≡◌};
ghost use Rattle.cardfile.specs.declared.Spelling.TheVariants.{Hexadecimal, Decimal};
ghost use Rattle.converter.specs.Convert.{convert, converted_of};
ghost use Rattle.convertapi.specs.Conversions.{refused_numbers, converted_numbers, Converts};

use cardfile::Spelling;
use converter::{ConvertFault, convert};

// refusal: 0 where the file is converted. line: the line refused, counted from 1; 0 with 25. length: of the output, 0 where there is none.
#[repr(C)]
#[derive(Clone, Copy)]
pub struct CConverted {
    pub refusal: u32,
    pub line: u64,
    pub length: u64,
}

fn refused(number: u32, line: usize) -> CConverted
    ensures { result ≡ refused_numbers number line }
{
    CConverted {
        refusal: number,
        line: line as u64,
        length: 0,
    }
}

// An answer in numbers.
fn numbers_of(answer: Result<usize, ConvertFault>) -> CConverted
    ensures { result ≡ converted_numbers (converted_of answer) }
{
    match answer {
        Ok(n) => CConverted {
            refusal: 0,
            line: 0,
            length: n as u64,
        },
        Err(fault) => refused(fault.number(), fault.line().unwrap_or(0)),
    }
}

// To H lines.
#[unsafe(no_mangle)]
pub extern "C" fn purse_convert_h_v(text: &[u8], out: &mut [u8]) -> CConverted
    ensures { Converts result out.new (convert Hexadecimal text.now out.old) }
{
    numbers_of(convert(Spelling::Hexadecimal, text, out))
}

// To D lines.
#[unsafe(no_mangle)]
pub extern "C" fn purse_convert_d_v(text: &[u8], out: &mut [u8]) -> CConverted
    ensures { Converts result out.new (convert Decimal text.now out.old) }
{
    numbers_of(convert(Spelling::Decimal, text, out))
}
