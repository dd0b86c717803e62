// Keys: their widths, their packing, and the build of a list of them.
ghost use Rattle.std.specs.Prelude.{◌≡◌, true, map, ◌≤◌, length, take};
ghost use Rattle.std.specs.List.{list_all};
ghost use Rattle.lists.specs.Members.{every};
ghost use Rattle.record.specs.Tables.{lent};
ghost use Rattle.build.specs.Built.{told};
ghost use Rattle.build.specs.Build.{after};
ghost use Rattle.profiles.specs.Key as spec;
ghost use Rattle.profiles.specs.Key.{in_widths, packed, word_of, key_of};
ghost use Rattle.profiles.specs.Keys.{build_keys};

use crate::Key;
use unit::{Record, Refusal, Refused};
use vectors::MAX_WORDS;

// The bits of a packed key.
const KEY_BITS: usize = 56;

// The key that five words say, in the order of the fields.
impl From<[u32; 5]> for Key {
    ghost from_gives = { λ words key. key ≡ key_of words };

    fn from(words: [u32; 5]) -> Key {
        let [press, ink, substrate, screen, day] = words;
        Key {
            press,
            ink,
            substrate,
            screen,
            day,
        }
    }
}

// Whether no field is over its width.
#[tactic(auto, unfolding(crate::specs::Key::in_widths))]
pub(crate) fn in_widths(key: Key) -> bool
    ensures { result ≡ in_widths key }
{
    key.press < 256 && key.ink < 4096 && key.substrate < 4096 && key.screen < 256 && key.day < 65536
}

// The fields side by side, press in the lowest bits.
pub(crate) fn pack(key: Key) -> u64
    requires { in_widths key ≡ true }
    ensures { result ≡ packed key }
{
    let above_substrate = key.screen as u64 + 256 * (key.day as u64);
    let above_press = key.ink as u64 + 4096 * (key.substrate as u64 + 4096 * above_substrate);
    key.press as u64 + 256 * above_press
}

// The word of a key; none where a field is over its width.
#[tactic(auto, unfolding(crate::specs::Key::word_of))]
pub fn word_of(key: Key) -> Option<u64>
    ensures { spec.told result ≡ word_of key }
{
    if in_widths(key) {
        Some(pack(key))
    } else {
        None
    }
}

// Whether no key has a field over its width.
fn all_in_widths(keys: &[[u32; 5]]) -> bool
    ensures { result ≡ list_all (λ words. in_widths (key_of words)) keys.now }
{
    keys.iter().all(|words| in_widths(Key::from(*words)))
}

// The keys, packed, in front of the words.
fn pack_all(keys: &[[u32; 5]], words: &mut [u64])
    requires widths { every in_widths (map key_of keys.now) ≡ true }
    requires size { length keys.now ≤ length words.old }
    ensures { take (length keys.now) words.new ≡ map packed (map key_of keys.now) }
{
    for (i, key) in keys.iter().enumerate() {
        words[i] = pack(Key::from(*key));
    }
}

// The chosen build of a list of keys, with an allowance of tries.
pub fn build(
    degree: usize,
    cells: usize,
    allowance: u64,
    keys: &[[u32; 5]],
    h: &mut [u16],
    g: &mut [u16],
    aux: &mut [u64],
) -> Result<Record, Refused>
    ensures { after (told result) h.new g.new aux.new
        ≡ build_keys degree cells allowance (map key_of keys.now) (lent h.old g.old aux.old) }
{
    if !all_in_widths(keys) {
        return Err(Refusal::Width.at(0));
    }
    // one key more than a unit can have is enough for the build to refuse the list
    let m = keys.len().min(MAX_WORDS);
    let mut words = [0u64; MAX_WORDS];
    pack_all(&keys[..m], &mut words);
    unit::build_chosen(KEY_BITS, degree, cells, allowance, &words[..m], h, g, aux)
}
