// What the program writes for the words of its call and what it reads.
#![tactic(auto)]

ghost use Rattle.std.specs.Prelude.{◌≡◌, true, false};
ghost use Rattle.record.specs.Tables.{lent};
ghost use Rattle.print.specs.Print.{printed, fitted};
ghost use Rattle.input.specs.Opens.{opens};
ghost use Rattle.words.specs.Words.{says as Words·says, add_word, asks_file, of_file, words_of};
ghost use Rattle.words.specs.Inner.{unit_printed};

use answer::AUX_WORDS;
use unit::Record;
use vectors::{MAX_CELLS, MAX_ROWS};

// Bytes that everything written fits into (`page_size`).
pub const PAGE: usize = answer::PAGE;

// Whether the bytes are the word.
fn says(word: &[u8], bytes: &[u8]) -> bool
    ensures { result ≡ Words·says word.now bytes.now }
{
    bytes == word
}

// Whether the words are for the file of a unit.
#[tactic(auto, unfolding(crate::specs::Words::asks_file))]
fn asks_file(given: &[u8]) -> bool
    ensures { result ≡ asks_file given.now }
{
    says(b"show\n", given)
        || says(b"list\n", given)
        || input::opens(b"find\n", given)
        || input::opens(b"add\n", given)
}

// Prints a unit, its list, or the keys that come after `find`.
fn print_unit(
    given: &[u8],
    unit: Record,
    h: &[u16],
    g: &[u16],
    aux: &[u64],
    out: &mut [u8],
) -> usize
    requires { (asks_file given.now ≡ true) × (opens add_word given.now ≡ false) }
    ensures { printed result out.new ≡ unit_printed given.now unit (lent h.now g.now aux.now) out.old }
{
    if says(b"show\n", given) {
        return print::print(unit, h, g, aux, out);
    }
    if says(b"list\n", given) {
        return listing::list(unit, h, g, aux, out);
    }
    find::find(&given[5..], unit, h, g, aux, out)
}

// Reads the file of a unit, and writes it with the keys that come after `add`, or prints what the words ask for, or the refusal.
fn from_file(given: &[u8], file: &[u8], out: &mut [u8]) -> usize
    requires { asks_file given.now ≡ true }
    ensures { printed result out.new ≡ fitted (of_file given.now file.now) out.old }
{
    let mut h = [0u16; MAX_ROWS];
    let mut g = [0u16; MAX_CELLS];
    let mut aux = [0u64; AUX_WORDS];
    let unit = match load::read(file, &mut h, &mut g, &mut aux) {
        Ok(unit) => unit,
        Err(refusal) => return print::refused(refusal.at(0), out),
    };
    if input::opens(b"add\n", given) {
        return amend::amend(&given[4..], unit, &mut h, &mut g, &mut aux, out);
    }
    print_unit(given, unit, &h, &g, &aux, out)
}

// Does what the words say, each of them a line: answers how many bytes are written; 0, and nothing is written, where they do not fit.
pub fn words(given: &[u8], text: &[u8], out: &mut [u8]) -> usize
    ensures { printed result out.new ≡ fitted (words_of given.now text.now) out.old }
{
    if given.is_empty() {
        return answer::answer(text, out);
    }
    if says(b"pack\n", given) {
        return pack::pack(text, out);
    }
    if says(b"why\n", given) {
        return why::why(text, out);
    }
    if says(b"cells\n", given) {
        return cells::cells(text, out);
    }
    if input::opens(b"keys\n", given) {
        return keys::keys(&given[5..], text, out);
    }
    if !asks_file(given) {
        return print::text(b"input\n", out);
    }
    from_file(given, text, out)
}
