// The profile of a key: which slab has it, at which number, and its bytes there.
ghost use Rattle.std.specs.Prelude.{◌≡◌, ◌*◌, ◌≤◌, length};
ghost use Rattle.record.specs.Tables.{lent};
ghost use Rattle.profiles.specs.Place as spec;
ghost use Rattle.profiles.specs.Place.{slab_of, room_of, told, place_of};
ghost use Rattle.profiles.specs.View.{PartOf, Within, Views};

use crate::{Held, Key, Room, Slab, Whose, keys};
use unit::{Record, Refusal};

impl Slab {
    // What its length is judged by.
    fn room(self) -> Room
        ensures { result ≡ room_of self }
    {
        Room {
            keys: self.unit.k,
            size: self.size,
            length: self.length,
        }
    }
}

// Whether a slab's profiles have no bytes, or it has fewer of them than its unit has keys. Where the product fits it is compared, which takes less
// time than a quotient.
fn too_short(room: Room) -> bool
    ensures { result ≡ spec.too_short room }
{
    let size = room.size;
    let keys = room.keys;
    if size == 0 {
        return true;
    }
    if keys < 0x1_0000 && size < 0x1_0000_0000_0000 {
        return room.length < keys * size;
    }
    room.length / size < keys
}

// The refusals 30 and 31, or the word that the units are asked for.
#[tactic(auto, unfolding(crate::specs::Place::asked_of))]
pub fn ask(brand: Room, house: Room, key: Key) -> Result<u64, Refusal>
    ensures { spec.asked result ≡ spec.asked_of brand house key }
{
    if !keys::in_widths(key) {
        return Err(Refusal::Width);
    }
    if too_short(brand) || too_short(house) {
        return Err(Refusal::ShortSlab);
    }
    Ok(keys::pack(key))
}

// Where the profile of a key is: in the brand's slab if the brand's unit knows it, else in the house's.
pub fn find(
    brand: Slab,
    brand_h: &[u16],
    brand_g: &[u16],
    brand_aux: &[u64],
    house: Slab,
    house_h: &[u16],
    house_g: &[u16],
    house_aux: &[u64],
    key: Key,
) -> Result<Held, Refusal>
    ensures { told result ≡ place_of brand (lent brand_h.now brand_g.now brand_aux.now)
        house (lent house_h.now house_g.now house_aux.now) key }
{
    let x = ask(brand.room(), house.room(), key)?;
    let first = unit::lookup(brand.unit, brand_h, brand_g, brand_aux, x)?;
    if first != 0 {
        return Ok(Held {
            whose: Whose::Brand,
            number: first,
        });
    }
    let second = unit::lookup(house.unit, house_h, house_g, house_aux, x)?;
    Ok(Held {
        whose: Whose::House,
        number: second,
    })
}

// The profile with that number of a slab; no byte, at the slab's start, for the number 0.
fn part<'a>(number: usize, size: usize, slab: &'a [u8]) -> &'a [u8]
    requires { number * size ≤ length slab.now }
    ensures { PartOf number size slab.entry result }
{
    if number == 0 {
        return &slab[0..0];
    }
    let at = (number - 1) * size;
    &slab[at..at + size]
}

fn view<'a>(
    held: Held,
    brand: &'a [u8],
    brand_size: usize,
    house: &'a [u8],
    house_size: usize,
) -> &'a [u8]
    requires { Within (spec.held held.whose held.number) (length brand.now) brand_size (length house.now) house_size }
    ensures { Views (spec.held held.whose held.number) brand.entry brand_size house.entry house_size result }
{
    match held.whose {
        Whose::House => part(held.number, house_size, house),
        Whose::Brand => part(held.number, brand_size, brand),
    }
}

// The bytes of a key's profile, in the slab that `find` names and at its place; no byte, at the start of the house's slab, for an unknown key and
// beside a refusal.
pub fn profile<'a>(
    brand: Record,
    brand_h: &[u16],
    brand_g: &[u16],
    brand_aux: &[u64],
    brand_slab: &'a [u8],
    brand_size: usize,
    house: Record,
    house_h: &[u16],
    house_g: &[u16],
    house_aux: &[u64],
    house_slab: &'a [u8],
    house_size: usize,
    key: Key,
) -> &'a [u8]
    ensures { Views (place_of (slab_of brand brand_size brand_slab.now) (lent brand_h.now brand_g.now brand_aux.now)
        (slab_of house house_size house_slab.now) (lent house_h.now house_g.now house_aux.now) key)
        brand_slab.entry brand_size house_slab.entry house_size result }
{
    let brand_side = Slab {
        unit: brand,
        size: brand_size,
        length: brand_slab.len(),
    };
    let house_side = Slab {
        unit: house,
        size: house_size,
        length: house_slab.len(),
    };
    let found = find(
        brand_side, brand_h, brand_g, brand_aux, house_side, house_h, house_g, house_aux, key,
    );
    match found {
        Ok(held) => view(held, brand_slab, brand_size, house_slab, house_size),
        Err(_) => part(0, house_size, house_slab),
    }
}
