// The least number of cells with which a list is accepted.
#![tactic(auto)]

ghost use Rattle.std.specs.Prelude.{◌≡◌};
ghost use Rattle.build.specs.Cells as spec;
ghost use Rattle.build.specs.Built.{told};
ghost use Rattle.print.specs.Print.{printed, fitted};
ghost use Rattle.cells.specs.Cells.{fewest, cells_of};

use answer::AUX_WORDS;
use input::MAX_LISTED;
use unit::{Record, Refused};
use vectors::{MAX_CELLS, MAX_ROWS};

// How many cells there are up to the last that is taken.
fn used(g: &[u16]) -> usize
    ensures { result ≡ spec.used g.now }
{
    match g.iter().rposition(|word| *word != 0) {
        Some(last) => last + 1,
        None => 0,
    }
}

// Prints how many cells the unit of an accepted list takes, or the refusal.
fn print_fewest(built: Result<Record, Refused>, g: &[u16], out: &mut [u8]) -> usize
    ensures { printed result out.new ≡ fitted (fewest (told built) g.now) out.old }
{
    match built {
        Ok(_) => print::sentence(b"cells A\n", &[used(g) as u64], out),
        Err(refused) => print::refused(refused, out),
    }
}

// Reads a list, whatever its L, builds its unit with as many cells as there can be, and prints how many of them it takes: answers how many
// bytes are written; 0, and nothing is written, where they do not fit.
pub fn cells(text: &[u8], out: &mut [u8]) -> usize
    ensures { printed result out.new ≡ fitted (cells_of text.now) out.old }
{
    let mut vectors = [0u64; MAX_LISTED];
    let Some(list) = input::read(text, &mut vectors) else {
        return print::text(b"input\n", out);
    };
    let mut h = [0u16; MAX_ROWS];
    let mut g = [0u16; MAX_CELLS];
    let mut aux = [0u64; AUX_WORDS];
    let built = unit::build_chosen(
        list.n,
        list.degree,
        MAX_CELLS,
        answer::ALLOWANCE,
        &vectors[..list.count],
        &mut h,
        &mut g,
        &mut aux,
    );
    print_fewest(built, &g, out)
}
