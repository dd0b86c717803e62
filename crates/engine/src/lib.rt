// The profiles of keys for C and Rust: two functions over slices and the records of crate `flat`.
#![tactic(auto)]

ghost use Rattle.std.specs.Prelude.{◌≡◌, map, ◌<◌};
ghost use Rattle.record.specs.Tables.{lent};
ghost use Rattle.build.specs.Built.{told};
ghost use Rattle.flat.specs.Flat.{flat_of};
ghost use Rattle.bridge.specs.Calls.{left};
ghost use Rattle.profiles.specs.Key.{key_of};
ghost use Rattle.engine.specs.Calls as spec;
ghost use Rattle.engine.specs.Calls.{keys_call, profile_call};

use flat::WORDS;
use profiles::{Key, Room};
use record::Record;
use refusal::Refused;

// A refusal is below the first, and the second in an answer says the brand's slab.
const REFUSALS: u64 = 256;

const BRAND: u64 = 0x1_0000_0000;

// The record of a build goes to words, a blank one beside a refusal. The answer is the refusal, 256 times the place and 2^32 times the cells needed.
// A twin of the one in `bridge`, which is private: public it would ask its callers for small numbers, and no public function asks anything.
fn leave(built: Result<Record, Refused>, words: &mut [u64; WORDS]) -> u64
    requires { ((told built).place < 65536) × ((told built).needed < 65536) }
    ensures value { result ≡ spec.answer (told built).refusal (told built).place (told built).needed }
    ensures words_after { words.new ≡ flat_of (told built).unit }
{
    match built {
        Ok(unit) => {
            *words = flat::words(unit);
            0
        }
        Err(refused) => {
            *words = flat::words(record::blank());
            let refusal = refused.refusal;
            let number = u64::from(refusal.number());
            number + 256 * (refused.place as u64) + 0x1_0000_0000 * (refusal.needed() as u64)
        }
    }
}

// The chosen build of a list of keys, with an allowance of tries. The answer is the refusal, 256 times the place and 2^32 times the cells needed.
pub fn igu_profiles_build(
    degree: usize,
    cells: usize,
    allowance: u64,
    keys: &[[u32; 5]],
    h: &mut [u16],
    g: &mut [u16],
    aux: &mut [u64],
    words: &mut [u64; WORDS],
) -> u64
    ensures { left result words.new (lent h.new g.new aux.new)
        ≡ keys_call degree cells allowance (map key_of keys.now) (lent h.old g.old aux.old) }
{
    let built = profiles::build(degree, cells, allowance, keys, h, g, aux);
    leave(built, words)
}

// Where a key's profile is: the refusal, 256 times its number, and 2^32 for the brand's slab. As `profiles::find`, by the lookup for C: what it answers is
// the house's answer as it stands, and the brand's but for the slab. Its 0 is a key that the brand's unit does not know.
pub fn igu_profile(
    brand: &[u64; WORDS],
    brand_h: &[u16],
    brand_g: &[u16],
    brand_aux: &[u64],
    brand_slab: &[u8],
    brand_size: usize,
    house: &[u64; WORDS],
    house_h: &[u16],
    house_g: &[u16],
    house_aux: &[u64],
    house_slab: &[u8],
    house_size: usize,
    key: &[u32; 5],
) -> u64
    ensures { result ≡ profile_call brand.now (lent brand_h.now brand_g.now brand_aux.now) brand_slab.now brand_size
        house.now (lent house_h.now house_g.now house_aux.now) house_slab.now house_size (key_of key.now) }
{
    let brand_room = Room {
        keys: brand[3] as usize,
        size: brand_size,
        length: brand_slab.len(),
    };
    let house_room = Room {
        keys: house[3] as usize,
        size: house_size,
        length: house_slab.len(),
    };
    let x = match profiles::ask(brand_room, house_room, Key::from(*key)) {
        Ok(x) => x,
        Err(refusal) => return u64::from(refusal.number()),
    };
    let first = bridge::igu_lookup(brand, brand_h, brand_g, brand_aux, x);
    if first == 0 {
        return bridge::igu_lookup(house, house_h, house_g, house_aux, x);
    }
    if first % REFUSALS != 0 {
        return first;
    }
    first + BRAND
}
