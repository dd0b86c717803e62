// A list packed: the file of its unit.
#![tactic(auto)]

ghost use Rattle.std.specs.Prelude.{◌≡◌};
ghost use Rattle.record.specs.Tables.{lent};
ghost use Rattle.build.specs.Built.{told};
ghost use Rattle.print.specs.Print.{printed, fitted};
ghost use Rattle.pack.specs.Pack.{pack_built, pack_of};

use unit::{Record, Refused};

// Writes the file of a unit, or, beside a number other than 0, that refusal, whatever it is: answers how many bytes that takes; 0, and nothing is
// written, where they do not fit or the unit is not sound.
pub fn write_numbered(
    refusal: u8,
    place: usize,
    unit: Record,
    h: &[u16],
    g: &[u16],
    aux: &[u64],
    out: &mut [u8],
) -> usize
    ensures { printed result out.new ≡ pack_built (record { refusal = refusal; place = place; needed = 0; unit = unit }) (lent h.now g.now aux.now) out.old }
{
    if refusal == 0 {
        return file::write(unit, h, g, aux, out).unwrap_or(0);
    }
    print::refused_number(refusal, place, out)
}

// The same of what a build left.
pub fn write_built(
    built: Result<Record, Refused>,
    h: &[u16],
    g: &[u16],
    aux: &[u64],
    out: &mut [u8],
) -> usize
    ensures { printed result out.new ≡ pack_built (told built) (lent h.now g.now aux.now) out.old }
{
    match built {
        Ok(unit) => write_numbered(0, 0, unit, h, g, aux, out),
        Err(refused) => write_numbered(
            refused.refusal.number(),
            refused.place,
            record::blank(),
            h,
            g,
            aux,
            out,
        ),
    }
}

// Reads a list, builds its unit and writes its file: answers how many bytes that takes; 0, and nothing is written, where they do not fit.
pub fn pack(text: &[u8], out: &mut [u8]) -> usize
    ensures { printed result out.new ≡ fitted (pack_of text.now) out.old }
{
    let mut h = [0u16; 4096];
    let mut g = [0u16; 8192];
    let mut aux = [0u64; 1025];
    let Some(built) = answer::make(text, &mut h, &mut g, &mut aux) else {
        return print::text(b"input\n", out);
    };
    write_built(built, &h, &g, &aux, out)
}
