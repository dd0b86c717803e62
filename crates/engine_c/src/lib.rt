// The functions of crate `engine` for C, each with its clauses.
#![tactic(auto)]

ghost use Rattle.std.specs.Prelude.{◌≡◌, map, ◌<◌};
ghost use Rattle.record.specs.Tables.{lent};
ghost use Rattle.bridge.specs.Calls.{left};
ghost use Rattle.profiles.specs.Key.{key_of};
ghost use Rattle.engine.specs.Calls.{keys_call, profile_call};

use flat::WORDS;

#[unsafe(no_mangle)]
pub extern "C" fn igu_profiles_build(
    degree: usize,
    cells: usize,
    allowance: u64,
    keys: &[[u32; 5]],
    h: &mut [u16],
    g: &mut [u16],
    aux: &mut [u64],
    words: &mut [u64; WORDS],
) -> u64
    ensures { left result words.new (lent h.new g.new aux.new)
        ≡ keys_call degree cells allowance (map key_of keys.now) (lent h.old g.old aux.old) }
{
    engine::igu_profiles_build(degree, cells, allowance, keys, h, g, aux, words)
}

#[unsafe(no_mangle)]
pub extern "C" fn igu_profile(
    brand: &[u64; WORDS],
    brand_h: &[u16],
    brand_g: &[u16],
    brand_aux: &[u64],
    brand_slab: &[u8],
    brand_size: usize,
    house: &[u64; WORDS],
    house_h: &[u16],
    house_g: &[u16],
    house_aux: &[u64],
    house_slab: &[u8],
    house_size: usize,
    key: &[u32; 5],
) -> u64
    ensures { result ≡ profile_call brand.now (lent brand_h.now brand_g.now brand_aux.now) brand_slab.now brand_size
        house.now (lent house_h.now house_g.now house_aux.now) house_slab.now house_size (key_of key.now) }
{
    engine::igu_profile(
        brand, brand_h, brand_g, brand_aux, brand_slab, brand_size, house, house_h, house_g,
        house_aux, house_slab, house_size, key,
    )
}
