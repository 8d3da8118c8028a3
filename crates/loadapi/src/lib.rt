// The calls of a load for C, on a session in its numbers, as those of crate capi are. They have a static library of their own, so that the code of the
// other calls stays as it is. What the numbers of an answer mean is defined in specs/Loads.antt.
#![tactic(auto)]

ghost use Rattle.std.specs.Prelude.{◌≡◌};
ghost use Rattle.spec.specs.Transaction.{state_of};
ghost use Rattle.mirror.specs.Mirror.{head_in, numbers_of, decode, encode, finished_of, lent};
ghost use Rattle.loader.specs.Load.{begin, loaded_of, leaves_all};
ghost use Rattle.loadapi.specs.Loads.{refused_numbers, load_numbers, unless_left, Loads};

use loader::{LoadFault, Loaded, begin, step};
use mirror::{CFinished, advanced, finished, keep_session, session_in};
use spec::{Limits, Session};

// A step, in the numbers that C takes. kind: 0 refused, 1 a line was taken up, 2 an advance was made, 3 no line is left. line: the line refused, else 0; stores: of
// a line; block, last, number: of an advance, all 0 where nothing is under way; next: the load's place behind the step.
#[repr(C)]
#[derive(Clone, Copy, Default)]
pub struct CLoaded {
    pub refusal: u32,
    pub kind: u32,
    pub line: u64,
    pub stores: u64,
    pub block: u64,
    pub last: u64,
    pub number: u64,
    pub next: u64,
}

// The numbers of a step behind which the load's place is this, the others 0.
fn numbers_at(next: usize) -> CLoaded
    ensures { result ≡ refused_numbers 0 0 next }
{
    CLoaded {
        next: next as u64,
        ..CLoaded::default()
    }
}

// A step's answer and the place behind it in numbers. That of crate convertapi tells another answer: the two share nothing but the name.
#[tactic(auto, unfolding(crate::specs::Loads::load_numbers))]
fn numbers_of(answer: Result<Loaded, LoadFault>, next: usize) -> CLoaded
    ensures { result ≡ load_numbers (loaded_of answer) next }
{
    let at = numbers_at(next);
    match answer {
        Ok(Loaded::Started(n)) => CLoaded {
            kind: 1,
            stores: n as u64,
            ..at
        },
        Ok(Loaded::Advanced(stored)) => {
            let a = advanced(Ok(stored));
            CLoaded {
                kind: 2,
                block: a.block,
                last: a.last,
                number: a.number,
                ..at
            }
        }
        Ok(Loaded::NoneLeft) => CLoaded { kind: 3, ..at },
        Err(fault) => CLoaded {
            refusal: fault.number(),
            line: fault.named().unwrap_or(0) as u64,
            ..at
        },
    }
}

// Whether a step leaves all as it was.
fn leaves_all(answer: Result<Loaded, LoadFault>) -> bool
    ensures { result ≡ leaves_all (loaded_of answer) }
{
    matches!(answer, Ok(Loaded::NoneLeft) | Err(_))
}

// What a step leaves in the numbers and cells: nothing new where it leaves all as it was.
fn keep_step(
    numbers: &mut [u64; 4],
    staged: &mut [u32; Limits::LOG_LENGTH],
    answer: Result<Loaded, LoadFault>,
    s: Session,
)
    ensures { (numbers.new ≡ unless_left (loaded_of answer) numbers.old (numbers_of (encode s)))
        × (staged.new ≡ unless_left (loaded_of answer) staged.old s.staged) }
{
    if leaves_all(answer) {
        return;
    }
    keep_session(numbers, staged, s);
}

// Whether a load may begin.
#[unsafe(no_mangle)]
pub extern "C" fn purse_load_begin_v(
    device: &[u8],
    work: &[u8],
    numbers: &[u64; 4],
    staged: &[u32; Limits::LOG_LENGTH],
) -> CFinished
    ensures { result ≡ finished_of (begin (state_of (decode (head_in numbers.now) staged.now) device.now work.now)).answer }
{
    let before = session_in(numbers, staged);
    let answer = begin(device, work, before);
    finished(answer)
}

// One step of a load.
#[unsafe(no_mangle)]
pub extern "C" fn purse_load_step_v(
    device: &mut [u8],
    work: &mut [u8],
    numbers: &mut [u64; 4],
    staged: &mut [u32; Limits::LOG_LENGTH],
    text: &[u8],
    at: u64,
) -> CLoaded
    ensures { Loads result (lent numbers.old staged.old device.old work.old)
        (lent numbers.new staged.new device.new work.new) text.now at }
{
    let before = session_in(numbers, staged);
    let r = step(device, work, before, text, at as usize);
    let answer = r.answer;
    let after = r.session;
    keep_step(numbers, staged, answer, after);
    numbers_of(answer, r.next)
}
