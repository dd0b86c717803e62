// The file of a unit read: every block tested, and then the record and the tables.
#![tactic(auto)]

ghost use Rattle.std.specs.Prelude.{◌≡◌};
ghost use Rattle.record.specs.Tables.{lent};
ghost use Rattle.file.specs.Read.{read_of};
ghost use Rattle.load.specs.Load.{told, after};

use blocks::Blocks;
use record::Record;
use refusal::Refusal;

mod blocks;
mod head;
mod tables;

// Reads the file of a unit into the tables; words past those of the unit keep their value. Refused with nothing written: as `FileLength`
// where the length is 0 or no whole number of blocks, as `BlockCheck` for a block's check, as `NoFile` for any other byte that no unit's
// file has there, and as `ShortForFile` where a table is too short.
// H, G and AUX are no struct: each caller has them as three slices (the C interface), and it would be taken apart in fill.
pub fn read(file: &[u8], h: &mut [u16], g: &mut [u16], aux: &mut [u64]) -> Result<Record, Refusal>
    ensures { after (told result) (lent h.new g.new aux.new)
        ≡ read_of file.now (lent h.old g.old aux.old) }
{
    let Some(blocks) = Blocks::of(file) else {
        return Err(Refusal::FileLength);
    };
    if !blocks.right_checks() {
        return Err(Refusal::BlockCheck);
    }
    let unit = head::said(blocks);
    if !blocks.is_file(unit) {
        return Err(Refusal::NoFile);
    }
    if !record::long_enough(unit, h, g, aux) {
        return Err(Refusal::ShortForFile);
    }
    tables::fill(unit, file, h, g, aux);
    Ok(unit)
}
