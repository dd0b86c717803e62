// What the program writes for what it reads.
#![tactic(auto)]

ghost use Rattle.std.specs.Prelude.{◌≡◌};
ghost use Rattle.record.specs.Tables.{lent};
ghost use Rattle.build.specs.Built.{told};
ghost use Rattle.print.specs.Print.{printed, fitted};
ghost use Rattle.answer.specs.Make.{making, make_of};
ghost use Rattle.answer.specs.Answer.{answer_of};
ghost use Rattle.answer.specs.Inner.Outcome.{print_built};

use input::MAX_LISTED;
use unit::{Record, Refused};
use vectors::{MAX_CELLS, MAX_ROWS};

// Bytes that every answer fits into (`page_size`).
pub const PAGE: usize = 131072;

// The words of AUX that any list of a text needs (`roomy`).
pub const AUX_WORDS: usize = MAX_LISTED + 1;

// The tries that the program allows (`program_allowance`).
pub const ALLOWANCE: u64 = 0xffff_ffff;

// Reads a list and builds its unit in the lent tables; none where the text is no list.
pub fn make(
    text: &[u8],
    h: &mut [u16],
    g: &mut [u16],
    aux: &mut [u64],
) -> Option<Result<Record, Refused>>
    ensures { making result h.new g.new aux.new ≡ make_of text.now (lent h.old g.old aux.old) }
{
    let mut vectors = [0u64; MAX_LISTED];
    let list = input::read(text, &mut vectors)?;
    Some(unit::build_chosen(
        list.n,
        list.degree,
        list.cells,
        ALLOWANCE,
        &vectors[..list.count],
        h,
        g,
        aux,
    ))
}

// Prints what a build left.
fn print_built(
    built: Result<Record, Refused>,
    h: &[u16],
    g: &[u16],
    aux: &[u64],
    out: &mut [u8],
) -> usize
    ensures { printed result out.new ≡ print_built (told built) (lent h.now g.now aux.now) out.old }
{
    match built {
        Ok(unit) => print::print(unit, h, g, aux, out),
        Err(refused) => print::refused(refused, out),
    }
}

// Reads a list, builds its unit and prints it: answers how many bytes that takes; 0, and nothing is written, where they do not fit.
pub fn answer(text: &[u8], out: &mut [u8]) -> usize
    ensures { printed result out.new ≡ fitted (answer_of text.now) out.old }
{
    let mut h = [0u16; MAX_ROWS];
    let mut g = [0u16; MAX_CELLS];
    let mut aux = [0u64; AUX_WORDS];
    let Some(built) = make(text, &mut h, &mut g, &mut aux) else {
        return print::text(b"input\n", out);
    };
    print_built(built, &h, &g, &aux, out)
}
