// A profile key as it is written: five decimal numbers parted by commas.
#![tactic(auto)]

ghost use Rattle.std.specs.Prelude.{◌≡◌, length};
ghost use Rattle.dated.specs.Dated as spec;
ghost use Rattle.dated.specs.Dated.{exchanged, spaced, dated_of, told};

use profiles::Key;

// The bytes of the longest line.
const MAX_LINE: usize = 128;

// Why a line has no word.
#[derive(Clone, Copy, Debug, PartialEq, Eq)]
pub enum NoWord {
    // It is no profile key: not five numbers parted by commas, or too long.
    NoKey,
    // A field of the key is over its width.
    Wide,
}

// A comma for a space, and a space for a comma.
fn exchange(b: u8) -> u8
    ensures { result ≡ exchanged b }
{
    match b {
        b',' => b' ',
        b' ' => b',',
        _ => b,
    }
}

// Writes a line so that its numbers are parted as those of a list.
fn space(line: &[u8], out: &mut [u8])
    requires { length line.now ≡ length out.old }
    ensures { out.new ≡ spaced line.now }
{
    for (i, b) in line.iter().enumerate() {
        out[i] = exchange(*b);
    }
}

// A number above every width counts as 65,536.
fn capped(x: usize) -> u32
    ensures { result ≡ spec.capped x }
{
    x.min(65536) as u32
}

// Reads a line of any bytes: the word of its key.
pub fn read(line: &[u8]) -> Result<u64, NoWord>
    ensures { told result ≡ dated_of line.now }
{
    let size = line.len();
    if MAX_LINE < size {
        return Err(NoWord::NoKey);
    }
    let mut text = [0u8; MAX_LINE];
    space(line, &mut text[..size]);
    let mut last = [0u64; 2];
    let Some(numbers) = input::read(&text[..size], &mut last) else {
        return Err(NoWord::NoKey);
    };
    if numbers.count != 2 {
        return Err(NoWord::NoKey);
    }
    let key = Key {
        press: capped(numbers.n),
        ink: capped(numbers.degree),
        substrate: capped(numbers.cells),
        screen: capped(last[0] as usize),
        day: capped(last[1] as usize),
    };
    profiles::word_of(key).ok_or(NoWord::Wide)
}
