// Vectors added to a unit one after another, and the file of the amended unit.
#![tactic(auto)]

ghost use Rattle.std.specs.Prelude.{◌≡◌};
ghost use Rattle.record.specs.Tables.{lent};
ghost use Rattle.build.specs.Build.{after};
ghost use Rattle.build.specs.Built.{told};
ghost use Rattle.print.specs.Print.{printed, fitted};
ghost use Rattle.amend.specs.Amend.{add_all, amend_text, amend_tables};

use unit::{Record, Refused};

// Adds the vectors in their order, until one is refused.
fn add_all(
    unit: Record,
    h: &mut [u16],
    g: &mut [u16],
    aux: &mut [u64],
    vectors: &[u64],
) -> Result<Record, Refused>
    ensures { after (told result) h.new g.new aux.new ≡ add_all unit (lent h.old g.old aux.old) vectors.now }
{
    let mut unit = unit;
    for x in vectors {
        unit = add::add(unit, h, g, aux, *x)?;
    }
    Ok(unit)
}

// Adds the keys of a text to a unit, and writes the file of the unit then, or the refusal, or `input` where the text is no keys: answers how
// many bytes that takes; 0, and nothing is written, where they do not fit. The tables are left with the keys that were added.
pub fn amend(
    text: &[u8],
    unit: Record,
    h: &mut [u16],
    g: &mut [u16],
    aux: &mut [u64],
    out: &mut [u8],
) -> usize
    ensures out_after { printed result out.new ≡ fitted (amend_text text.now unit (lent h.old g.old aux.old)) out.old }
    ensures aux_after { lent h.new g.new aux.new ≡ amend_tables text.now unit (lent h.old g.old aux.old) }
{
    let Some(given) = find::keys_in(text) else {
        return print::text(b"input\n", out);
    };
    let words = given.words;
    let added = add_all(unit, h, g, aux, &words[..given.count]);
    pack::write_built(added, h, g, aux, out)
}
