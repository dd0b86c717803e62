// Keys found in a unit, printed: behind each key its number, 0 where it is not registered.
#![tactic(auto)]

ghost use Rattle.std.specs.Prelude.{◌≡◌, ◌≤◌, length};
ghost use Rattle.record.specs.Tables.{lent};
ghost use Rattle.lookup.specs.Lookup.{lookup_of};
ghost use Rattle.many.specs.Lookups.{told, first_refused};
ghost use Rattle.print.specs.Print.{printed, fitted};
ghost use Rattle.find.specs.Keys.{max_keys};
ghost use Rattle.find.specs.Given.{given_of, told as given_told};
ghost use Rattle.find.specs.Find.{indices_of, find_text};

use refusal::Refused;
use unit::Record;

mod keys;

pub use keys::line_length;

// The keys of the longest call.
pub const MAX_KEYS: usize = 1024;

// Each number in a word of 64 bits.
fn widen(narrow: &[u16], words: &mut [u64])
    requires { length narrow.now ≡ length words.old }
    ensures { words.new ≡ narrow.now }
{
    for (i, x) in narrow.iter().enumerate() {
        words[i] = u64::from(*x);
    }
}

// The keys of a text: how many there are, and a word for each, 0 past them.
#[derive(Clone, Copy)]
pub struct Given {
    pub count: usize,
    pub words: [u64; MAX_KEYS],
}

// The keys of a text that is good.
pub fn keys_in(text: &[u8]) -> Option<Given>
    ensures { given_told result ≡ given_of text.now }
{
    let mut words = [0u64; MAX_KEYS];
    let count = keys::read(text, &mut words)?;
    words[count..].fill(0);
    Some(Given { count, words })
}

// Writes the index of each key, and says the first refusal.
fn look(
    unit: Record,
    h: &[u16],
    g: &[u16],
    aux: &[u64],
    keys: &[u64],
    indices: &mut [u64],
) -> Result<(), Refused>
    requires { (length keys.now ≡ length indices.old) × (length keys.now ≤ max_keys) }
    ensures value { told result ≡ first_refused (lookup_of unit (lent h.now g.now aux.now)) 1 keys.now }
    ensures indices_after { indices.new ≡ indices_of unit (lent h.now g.now aux.now) keys.now }
{
    let mut found = [0u16; MAX_KEYS];
    let count = keys.len();
    let ended = many::lookup_many(unit, h, g, aux, keys, &mut found[..count]);
    widen(&found[..count], indices);
    ended
}

// Prints each key of a text with its number behind it, or the first refusal, or `input` where the text is no keys: answers how many bytes
// that takes; 0, and nothing is written, where they do not fit.
pub fn find(text: &[u8], unit: Record, h: &[u16], g: &[u16], aux: &[u64], out: &mut [u8]) -> usize
    ensures { printed result out.new ≡ fitted (find_text text.now unit (lent h.now g.now aux.now)) out.old }
{
    let mut words = [0u64; MAX_KEYS];
    let mut indices = [0u64; MAX_KEYS];
    let Some(count) = keys::read(text, &mut words) else {
        return print::text(b"input\n", out);
    };
    if let Err(refused) = look(unit, h, g, aux, &words[..count], &mut indices[..count]) {
        return print::refused(refused, out);
    }
    print::beside(text, &indices[..count], out)
}
