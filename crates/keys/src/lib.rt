// A list of profile keys packed: lines of five numbers in, the file of their unit out.
#![tactic(auto)]

ghost use Rattle.std.specs.Prelude.{◌≡◌, ◌∷◌, ◌+◌, ◌≤◌, length};
ghost use Rattle.print.specs.Line.{newline};
ghost use Rattle.input.specs.Input.{max_text, max_listed};
ghost use Rattle.print.specs.Print.{printed, fitted};
ghost use Rattle.keys.specs.Keys.{told, cells_for, cells_by, lines_text, keys_text, asked_of, keys_of};
ghost use Rattle.keys.specs.Inner.{ReadAs};

use answer::AUX_WORDS;
use dated::NoWord;
use input::{MAX_LISTED, MAX_TEXT};
use refusal::Refusal;
use vectors::{MAX_CELLS, MAX_ROWS};

// The bits of a packed key.
const KEY_BITS: usize = 56;

// Why lines are not packed.
#[derive(Clone, Copy, Debug, PartialEq, Eq)]
enum NoKeys {
    // A line is no key, or the lines are too many.
    NoList,
    // All lines are keys, and a field is over its width.
    Wide,
}

// Writes the words of the keys of a text into as many words as a list may have vectors, and says how many there are.
fn read(text: &[u8], words: &mut [u64]) -> Result<usize, NoKeys>
    requires { (length words.old ≡ max_listed) × (length text.now ≤ max_text) }
    ensures { ReadAs text.now result words.new }
{
    let mut wide = false;
    let mut count = 0;
    let mut at = 0;
    // A while: the step is the length of the line.
    while at < text.len() {
        let size = find::line_length(&text[at..]);
        let end = at + size;
        let word = match dated::read(&text[at..end]) {
            Ok(word) => word,
            Err(NoWord::Wide) => {
                wide = true;
                0
            }
            Err(NoWord::NoKey) => return Err(NoKeys::NoList),
        };
        if words.len() <= count {
            return Err(NoKeys::NoList);
        }
        words[count] = word;
        count += 1;
        at = end + 1;
    }
    if wide {
        return Err(NoKeys::Wide);
    }
    Ok(count)
}

// The least power of two that is at least twice as many as the keys.
fn cells_for(k: usize) -> usize
    requires { k ≤ max_listed }
    ensures { result ≡ cells_for k }
{
    let mut cells = 1;
    // A while: the cells are doubled, and nothing is counted.
    while cells < 2 * k {
        cells *= 2;
    }
    cells
}

// The cells that are asked for, or those for so many keys where none are.
fn cells_by(cells: usize, k: usize) -> usize
    requires { k ≤ max_listed }
    ensures { result ≡ cells_by cells k }
{
    if cells == 0 {
        return cells_for(k);
    }
    cells
}

// Builds the unit of the keys that lines have, and writes its file.
fn pack_lines(degree: usize, cells: usize, lines: &[u8], out: &mut [u8]) -> usize
    requires { length lines.now ≤ max_text }
    ensures { printed result out.new ≡ fitted (lines_text degree cells lines.now) out.old }
{
    let mut words = [0u64; MAX_LISTED];
    let count = match read(lines, &mut words) {
        Ok(count) => count,
        Err(NoKeys::NoList) => return print::text(b"input\n", out),
        Err(NoKeys::Wide) => return print::refused(Refusal::Width.at(0), out),
    };
    let mut h = [0u16; MAX_ROWS];
    let mut g = [0u16; MAX_CELLS];
    let mut aux = [0u64; AUX_WORDS];
    let built = unit::build_chosen(
        KEY_BITS,
        degree,
        cells_by(cells, count),
        answer::ALLOWANCE,
        &words[..count],
        &mut h,
        &mut g,
        &mut aux,
    );
    pack::write_built(built, &h, &g, &aux, out)
}

// Reads a text of profile keys, builds their unit, with cells by their number where 0 are asked for, and writes its file.
fn pack_text(degree: usize, cells: usize, text: &[u8], out: &mut [u8]) -> usize
    ensures { printed result out.new ≡ fitted (keys_text degree cells text.now) out.old }
{
    if MAX_TEXT < text.len() {
        return print::text(b"input\n", out);
    }
    let header = b"press,ink,substrate,screen,day\n";
    if input::opens(header, text) {
        return pack_lines(degree, cells, &text[header.len()..], out);
    }
    pack_lines(degree, cells, text, out)
}

// ---- the words of the call

// Degree and cells as the words ask for them.
#[derive(Clone, Copy)]
struct Asked {
    degree: usize,
    cells: usize,
}

const MAX_ASKED: usize = 62;

// Writes the words behind a number 0.
fn behind_zero(words: &[u8], out: &mut [u8])
    requires { length out.old ≡ length words.now + 2 }
    ensures { out.new ≡ 48 ∷ newline ∷ words.now }
{
    out[0] = 48;
    out[1] = 10;
    print::text(words, &mut out[2..]);
}

fn ask(words: &[u8]) -> Option<Asked>
    ensures { told result ≡ asked_of words.now }
{
    let size = words.len();
    if size == 0 {
        return Some(Asked {
            degree: 2,
            cells: 0,
        });
    }
    if MAX_ASKED < size {
        return None;
    }
    let mut text = [0u8; MAX_ASKED + 2];
    behind_zero(words, &mut text[..size + 2]);
    let mut none = [0u64; 0];
    let numbers = input::read(&text[..size + 2], &mut none)?;
    Some(Asked {
        degree: numbers.degree,
        cells: numbers.cells,
    })
}

// Does what the words after `keys` ask for, each of them a line: answers how many bytes are written; 0, and nothing is written, where they do not
// fit.
pub fn keys(words: &[u8], text: &[u8], out: &mut [u8]) -> usize
    ensures { printed result out.new ≡ fitted (keys_of words.now text.now) out.old }
{
    let Some(asked) = ask(words) else {
        return print::text(b"input\n", out);
    };
    pack_text(asked.degree, asked.cells, text, out)
}
