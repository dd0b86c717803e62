// Why a text is not taken: where it stops being a list, or what its build refuses.
#![tactic(auto)]

ghost use Rattle.std.specs.Prelude.{◌≡◌, Err};
ghost use Rattle.lists.specs.First.{place_number};
ghost use Rattle.refusal.specs.Refusal.{number_of};
ghost use Rattle.build.specs.Built.{told};
ghost use Rattle.print.specs.Print.{printed, fitted};
ghost use Rattle.print.specs.Sentence.{sentence};
ghost use Rattle.fault.specs.Fault as found;
ghost use Rattle.why.specs.Why.{form_in, built_forms, other_form, fault_text, vector_at, first_equal, built_text, why_of};

use answer::AUX_WORDS;
use fault::{Cause, Fault};
use input::{Input, MAX_LISTED};
use unit::{Record, Refusal, Refused};
use vectors::{MAX_CELLS, MAX_ROWS};

// The vector with a number, from 1; 0 where there is none.
fn vector_at(vectors: &[u64], place: usize) -> u64
    ensures { result ≡ vector_at vectors.now place }
{
    if place == 0 {
        return 0;
    }
    vectors.get(place - 1).copied().unwrap_or(0)
}

// The place of the first vector that equals v.
fn first_equal(v: u64, vectors: &[u64]) -> Option<usize>
    ensures { place_number result ≡ first_equal v vectors.now }
{
    vectors.iter().position(|x| *x == v)
}

// Prints what is at fault with a text, and where.
fn say_fault(fault: Fault, out: &mut [u8]) -> usize
    ensures { printed result out.new ≡ fitted (fault_text (found.told (Err fault))) out.old }
{
    let numbers = [
        fault.line as u64,
        fault.column as u64,
        u64::from(fault.byte),
    ];
    match fault.cause {
        Cause::NoDigit => print::sentence(
            b"line A column B: byte C, where a digit is expected\n",
            &numbers,
            out,
        ),
        Cause::EndBefore => print::sentence(
            b"line A column B: the end, where a digit is expected\n",
            &numbers,
            out,
        ),
        Cause::OtherByte => print::sentence(
            b"line A column B: byte C, where a digit, a space or a newline is expected\n",
            &numbers,
            out,
        ),
        Cause::LargeNumber => print::sentence(
            b"line A column B: byte C, where a number of at most 18446744073709551615 is expected\n",
            &numbers,
            out,
        ),
        Cause::FewNumbers => print::sentence(
            b"line A column B: the end, where one of the first three numbers is expected\n",
            &numbers,
            out,
        ),
        Cause::ManyVectors => print::sentence(
            b"line A column B: byte C, where the end, after 1024 vectors, is expected\n",
            &numbers,
            out,
        ),
        Cause::LongText => print::sentence(
            b"line A column B: byte C, where the end, after 65536 bytes, is expected\n",
            &numbers,
            out,
        ),
    }
}

// Prints the sentence of a refusal with its numbers.
fn say_refusal(refusal: Refusal, numbers: &[u64], out: &mut [u8]) -> usize
    ensures { printed result out.new ≡ fitted (sentence numbers.now (form_in built_forms other_form (number_of refusal))) out.old }
{
    match refusal {
        Refusal::Inputs => print::sentence(b"refused A B: n is C\n", numbers, out),
        Refusal::Degree => print::sentence(b"refused A B: the degree is D\n", numbers, out),
        Refusal::Vectors => print::sentence(b"refused A B: the list has F vectors\n", numbers, out),
        Refusal::Cells => print::sentence(b"refused A B: L is E\n", numbers, out),
        Refusal::Beyond => print::sentence(b"refused A B: vector B is G\n", numbers, out),
        Refusal::Repeated => print::sentence(
            b"refused A B: vector B is G, and so is vector H\n",
            numbers,
            out,
        ),
        Refusal::NotApart => print::sentence(
            b"refused A B: 24 variables do not tell the vectors apart\n",
            numbers,
            out,
        ),
        Refusal::NoPlace(_) => print::sentence(b"refused A B: row B has no place\n", numbers, out),
        _ => print::sentence(b"refused A B\n", numbers, out),
    }
}

// Prints why the build of a list is refused.
fn say_refused(refused: Refused, list: Input, vectors: &[u64], out: &mut [u8]) -> usize
    ensures { printed result out.new ≡ fitted (built_text (told (Err refused)) list.n list.degree list.cells vectors.now) out.old }
{
    let vector = vector_at(vectors, refused.place);
    let first = match first_equal(vector, vectors) {
        Some(i) => i as u64 + 1,
        None => 0,
    };
    let numbers = [
        u64::from(refused.refusal.number()),
        refused.place as u64,
        list.n as u64,
        list.degree as u64,
        list.cells as u64,
        vectors.len() as u64,
        vector,
        first,
    ];
    say_refusal(refused.refusal, &numbers, out)
}

// Prints what the build of a list answered.
fn say_built(built: Result<Record, Refused>, list: Input, vectors: &[u64], out: &mut [u8]) -> usize
    ensures { printed result out.new ≡ fitted (built_text (told built) list.n list.degree list.cells vectors.now) out.old }
{
    match built {
        Ok(_) => print::text(b"good\n", out),
        Err(refused) => say_refused(refused, list, vectors, out),
    }
}

// Says in one line why a text is not taken, or that it is good: answers how many bytes that takes; 0, and nothing is written, where they do not fit.
pub fn why(text: &[u8], out: &mut [u8]) -> usize
    ensures { printed result out.new ≡ fitted (why_of text.now) out.old }
{
    let mut vectors = [0u64; MAX_LISTED];
    let Some(list) = input::read(text, &mut vectors) else {
        let Err(fault) = fault::find(text) else {
            unreachable!();
        };
        return say_fault(fault, out);
    };
    let mut h = [0u16; MAX_ROWS];
    let mut g = [0u16; MAX_CELLS];
    let mut aux = [0u64; AUX_WORDS];
    let Some(built) = answer::make(text, &mut h, &mut g, &mut aux) else {
        unreachable!();
    };
    say_built(built, list, &vectors[..list.count], out)
}
