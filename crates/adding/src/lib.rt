// A vector added to a unit, for C and Rust, over slices and the record of crate `flat`.
#![tactic(auto)]

ghost use Rattle.std.specs.Prelude.{◌≡◌, ◌<◌};
ghost use Rattle.record.specs.Tables.{lent};
ghost use Rattle.build.specs.Built.{told};
ghost use Rattle.bridge.specs.Calls.{left, answer};
ghost use Rattle.adding.specs.Calls.{words_left, add_call};

use flat::WORDS;
use record::Record;
use refusal::Refused;

// The record of an amended unit goes to words; a refusal leaves them. The answer is the refusal and 256 times the place.
fn leave(added: Result<Record, Refused>, words: &mut [u64; WORDS]) -> u64
    requires { (told added).place < 65536 }
    ensures value { result ≡ answer (told added).refusal (told added).place }
    ensures words_after { words.new ≡ words_left added words.old }
{
    match added {
        Ok(unit) => {
            *words = flat::words(unit);
            0
        }
        Err(refused) => {
            let refusal = refused.refusal;
            u64::from(refusal.number()) + 256 * (refused.place as u64)
        }
    }
}

// The vector x added to the unit. The answer is the refusal and 256 times the place; a refusal leaves every word as it was.
pub fn igu_add(
    words: &mut [u64; WORDS],
    h: &mut [u16],
    g: &mut [u16],
    aux: &mut [u64],
    x: u64,
) -> u64
    ensures { left result words.new (lent h.new g.new aux.new)
        ≡ add_call words.old (lent h.old g.old aux.old) x }
{
    let added = add::add(flat::seen(words), h, g, aux, x);
    leave(added, words)
}
