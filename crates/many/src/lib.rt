// Many keys looked up in one call.
#![tactic(auto)]

ghost use Rattle.std.specs.Prelude.{◌≡◌};
ghost use Rattle.record.specs.Tables.{lent};
ghost use Rattle.lookup.specs.Lookup.{lookup_of};
ghost use Rattle.many.specs.Lookups.{told, left, lookup_many};

use open::Open;
use record::Record;
use refusal::{Refusal, Refused};
use tables::{BITS, WORDS};

mod find;
mod images;
mod open;
mod tables;

// The index of each key, 0 beside a refusal; the refusal of the first key that is refused, with the key's number from 1. The record and the tables are tested once. The image of a key, its column with its word above
// it, is the XOR of the images of its bytes, which are in tables that are made once.
pub fn lookup_many(
    unit: Record,
    h: &[u16],
    g: &[u16],
    aux: &[u64],
    keys: &[u64],
    indices: &mut [u16],
) -> Result<(), Refused>
    ensures { left (told result) indices.new
        ≡ lookup_many (lookup_of unit (lent h.now g.now aux.now)) keys.now indices.old }
{
    if indices.len() < keys.len() {
        return Err(Refusal::ShortTarget.at(0));
    }
    if !record::well_formed(unit, h, g, aux) {
        return find::none(keys, indices);
    }
    let frame = find::framed(unit);
    let images = images::images(unit);
    let mut tables = [0u64; WORDS];
    tables::fill(&images, unit.n.div_ceil(BITS), &mut tables);
    let open = Open {
        frame,
        images: &tables,
        h,
        g,
        aux,
    };
    open.all(keys, indices)
}
