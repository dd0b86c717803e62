// Keys written as words, a line each: decimal, hexadecimal after 0x, or a profile key.
ghost use Rattle.std.specs.Prelude.{◌≡◌, ◌≤◌, length};
ghost use Rattle.find.specs.Keys.{max_keys, numeral_of, number_of, key_of, line_length};
ghost use Rattle.find.specs.Inner.{told, ReadAs};

use dated::NoWord;
use print::MAX_BYTES;

// The number whose digits these bytes are, if they are digits of the base, one at least.
fn numeral(base: u32, bytes: &[u8]) -> Option<u64>
    requires { (10 ≤ base) × (base ≤ 16) }
    ensures { told result ≡ numeral_of base bytes.now }
{
    if bytes.is_empty() {
        return None;
    }
    let mut value: u64 = 0;
    for b in bytes {
        let d = char::from(*b).to_digit(base)?;
        value = value
            .checked_mul(u64::from(base))?
            .checked_add(u64::from(d))?;
    }
    Some(value)
}

// A key that is one number.
#[tactic(auto, unfolding(crate::specs::Keys::number_of))]
fn number(word: &[u8]) -> Option<u64>
    ensures { told result ≡ number_of word.now }
{
    match word {
        [b'0', b'x', digits @ ..] => numeral(16, digits),
        _ => numeral(10, word),
    }
}

// A key of either form; none where a field of a profile key is over its width.
#[tactic(auto, unfolding(crate::specs::Keys::key_of))]
fn written(word: &[u8]) -> Option<u64>
    ensures { told result ≡ key_of word.now }
{
    match dated::read(word) {
        Ok(key) => Some(key),
        Err(NoWord::NoKey) => number(word),
        Err(NoWord::Wide) => None,
    }
}

// How many bytes the first line has, without its newline.
pub fn line_length(text: &[u8]) -> usize
    ensures { result ≡ line_length text.now }
{
    text.iter().position(|b| *b == b'\n').unwrap_or(text.len())
}

// Writes the keys of a text into as many words as a call may have keys, and says how many there are, if the text is good.
pub(crate) fn read(text: &[u8], keys: &mut [u64]) -> Option<usize>
    requires { length keys.old ≡ max_keys }
    ensures { ReadAs text.now result keys.new }
{
    if MAX_BYTES < text.len() {
        return None;
    }
    let [lines @ .., b'\n'] = text else {
        return None;
    };
    let mut count = 0;
    for line in lines.split(|b| *b == b'\n') {
        let key = written(line)?;
        if keys.len() <= count {
            return None;
        }
        keys[count] = key;
        count += 1;
    }
    Some(count)
}
