// The list that a unit holds, by recovery of every number.
#![tactic(auto)]

ghost use Rattle.std.specs.Prelude.{◌≡◌};
ghost use Rattle.record.specs.Tables.{lent};
ghost use Rattle.print.specs.Print.{printed, fitted};
ghost use Rattle.listing.specs.Listing.{list_text};

use unit::{Record, Refusal};
use vectors::MAX_WORDS;

// Prints n and the vectors that a unit holds, a line each, or refusal 14 where it is not well formed or a number is refused: answers how many
// bytes that takes; 0, and nothing is written, where they do not fit.
pub fn list(unit: Record, h: &[u16], g: &[u16], aux: &[u64], out: &mut [u8]) -> usize
    ensures { printed result out.new ≡ fitted (list_text unit (lent h.now g.now aux.now)) out.old }
{
    let mut words = [0u64; MAX_WORDS];
    if !recover::recover_all(unit, h, g, aux, &mut words) {
        return print::refused(Refusal::NoUnit.at(0), out);
    }
    words[0] = unit.n as u64;
    let last = unit.k + 1;
    print::lines(&words[..last], out)
}
