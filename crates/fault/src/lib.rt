// A text read byte by byte, up to the first place where it stops being a list.
#![tactic(auto)]

ghost use Rattle.std.specs.Prelude.{◌≡◌, ◌≤◌};
ghost use Rattle.input.specs.Input.{max_text};
ghost use Rattle.fault.specs.Fault as spec;
ghost use Rattle.fault.specs.Inner.Within.{Within};

use input::{MAX_LISTED, MAX_NUMBER, MAX_TEXT};

// n, the degree, L and the vectors.
const MAX_NUMBERS: usize = 3 + MAX_LISTED;

const FIRST_COLUMN: usize = 1;

// What was read: how many bytes, the place of the next one, how many numbers have begun, the last byte, and the value of the number that it stands in.
#[derive(Clone, Copy)]
struct State {
    at: usize,
    line: usize,
    column: usize,
    count: usize,
    last: u8,
    value: u64,
}

// What is at fault with a byte or with the end.
#[derive(Clone, Copy, Debug, PartialEq, Eq)]
pub enum Cause {
    // A number has to begin, and the byte is no digit.
    NoDigit,
    // A number has to begin, and the text ends.
    EndBefore,
    // In a number: the byte is no digit, no space and no newline.
    OtherByte,
    // The number is above the largest one.
    LargeNumber,
    // The text ends before three numbers.
    FewNumbers,
    // A number begins after the last vector.
    ManyVectors,
    // The text goes on after the longest text.
    LongText,
}

// What is at fault, and where; the byte is 0 at the end.
#[derive(Clone, Copy, Debug, PartialEq, Eq)]
pub struct Fault {
    pub cause: Cause,
    pub line: usize,
    pub column: usize,
    pub byte: u8,
}

// Where a text that is a list ends: the place past its last byte.
#[derive(Clone, Copy, Debug, PartialEq, Eq)]
pub struct Place {
    pub line: usize,
    pub column: usize,
}

fn counted(s: State) -> usize
    requires { s.count ≤ max_text }
    ensures { result ≡ spec.counted s }
{
    if input::separator(s.last) {
        s.count + 1
    } else {
        s.count
    }
}

#[tactic(auto, unfolding(crate::specs::Fault::cause_at))]
fn cause_at(s: State, b: u8) -> Option<Cause>
    requires { s.count ≤ s.at }
    ensures { spec.number_or_none result ≡ spec.cause_at s b }
{
    if MAX_TEXT <= s.at {
        return Some(Cause::LongText);
    }
    let begins = input::separator(s.last);
    if input::separator(b) {
        return if begins { Some(Cause::NoDigit) } else { None };
    }
    if !input::digit(b) {
        return Some(if begins {
            Cause::NoDigit
        } else {
            Cause::OtherByte
        });
    }
    if MAX_NUMBERS < counted(s) {
        return Some(Cause::ManyVectors);
    }
    let d = u64::from(b - b'0');
    if (MAX_NUMBER - d) / 10 < s.value {
        return Some(Cause::LargeNumber);
    }
    None
}

#[tactic(auto, unfolding(crate::specs::Fault::cause_end))]
fn cause_end(s: State) -> Option<Cause>
    ensures { spec.number_or_none result ≡ spec.cause_end s }
{
    if s.last == b' ' {
        Some(Cause::EndBefore)
    } else if s.count < 3 {
        Some(Cause::FewNumbers)
    } else {
        None
    }
}

// The state after a byte that is not at fault.
#[tactic(auto, unfolding(crate::specs::Fault::past))]
fn past(s: State, b: u8) -> State
    requires { Within s × (spec.cause_at s b ≡ 0) }
    ensures { result ≡ spec.past s b }
{
    let ends = b == b'\n';
    State {
        at: s.at + 1,
        line: if ends { s.line + 1 } else { s.line },
        column: if ends { FIRST_COLUMN } else { s.column + 1 },
        count: counted(s),
        last: b,
        value: if input::separator(b) {
            0
        } else {
            10 * s.value + u64::from(b - b'0')
        },
    }
}

// The first fault of a text, or where a text that is a list ends.
pub fn find(text: &[u8]) -> Result<Place, Fault>
    ensures { spec.told result ≡ spec.fault_of text.now }
{
    let mut s = State {
        at: 0,
        line: 1,
        column: FIRST_COLUMN,
        count: 0,
        last: b' ',
        value: 0,
    };
    for b in text {
        if let Some(cause) = cause_at(s, *b) {
            return Err(Fault {
                cause,
                line: s.line,
                column: s.column,
                byte: *b,
            });
        }
        s = past(s, *b);
    }
    let State { line, column, .. } = s;
    match cause_end(s) {
        Some(cause) => Err(Fault {
            cause,
            line,
            column,
            byte: 0,
        }),
        None => Ok(Place { line, column }),
    }
}
