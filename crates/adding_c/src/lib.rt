// The function of crate `adding` for C, with its clause.
#![tactic(auto)]

ghost use Rattle.std.specs.Prelude.{◌≡◌};
ghost use Rattle.record.specs.Tables.{lent};
ghost use Rattle.bridge.specs.Calls.{left};
ghost use Rattle.adding.specs.Calls.{add_call};

use flat::WORDS;

#[unsafe(no_mangle)]
pub extern "C" fn igu_add(
    words: &mut [u64; WORDS],
    h: &mut [u16],
    g: &mut [u16],
    aux: &mut [u64],
    x: u64,
) -> u64
    ensures { left result words.new (lent h.new g.new aux.new)
        ≡ add_call words.old (lent h.old g.old aux.old) x }
{
    adding::igu_add(words, h, g, aux, x)
}
