// A sentence with numbers in it: in its form a letter from A on stands for each number.
ghost use Rattle.std.specs.Prelude.{◌≡◌, ◌+◌, ◌≤◌, length};
ghost use Rattle.print.specs.Print.{printed, max_fields};
ghost use Rattle.print.specs.Sentence.{piece_of, sentence as Sentence·sentence, sentence_of};
ghost use Rattle.print.specs.Inner.Written.{Written, max_place};

use crate::page::MAX_FIELDS;
use crate::{decimal, line};

const FIRST_LETTER: u8 = b'A';

// A byte of a form: itself, or the number whose letter it is.
fn piece(b: u8, numbers: &[u64], out: &mut [u8], at: usize) -> usize
    requires { at + 21 ≤ max_place }
    ensures { Written out.old at (piece_of numbers.now b) out.new result }
{
    if b < FIRST_LETTER {
        return line::byte(b, out, at);
    }
    let i = (b - FIRST_LETTER) as usize;
    if i < numbers.len() {
        return decimal::put(numbers[i], out, at);
    }
    line::byte(b, out, at)
}

fn pieces(form: &[u8], numbers: &[u64], out: &mut [u8]) -> usize
    requires { length form.now ≤ max_fields }
    ensures { Written out.old 0 (Sentence·sentence numbers.now form.now) out.new result }
{
    let mut end = 0;
    for b in form {
        end = piece(*b, numbers, out, end);
    }
    end
}

// Prints a sentence, and answers how many bytes that takes; 0, and nothing is written, where its form has more than 8,192 bytes or it does not fit.
pub fn sentence(form: &[u8], numbers: &[u64], out: &mut [u8]) -> usize
    ensures { printed result out.new ≡ sentence_of form.now numbers.now out.old }
{
    if MAX_FIELDS < form.len() {
        return 0;
    }
    let size = pieces(form, numbers, &mut out[..0]);
    if out.len() < size {
        return 0;
    }
    pieces(form, numbers, out)
}
