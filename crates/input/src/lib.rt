// The program's input: a text of decimal numbers, read into a record and a lent slice.
#![tactic(auto)]

ghost use Rattle.std.specs.Prelude.{◌≡◌, true, map, ◌+◌, ◌≤◌, length, drop};
ghost use Rattle.input.specs.Fields.{fields};
ghost use Rattle.input.specs.Opens.{opens as Opens·opens};
ghost use Rattle.lists.specs.Members.{every};
ghost use Rattle.input.specs.Decimal.{good_field, value_of};
ghost use Rattle.input.specs.Input.{max_text, body_length, input_from, input_of, vectors_of, told};
ghost use Rattle.input.specs.Inner.{count_of};

mod decimal;

pub use decimal::{MAX_NUMBER, digit, separator};

// The bytes of the longest text.
pub const MAX_TEXT: usize = 65536;

// The vectors of the longest list that is read.
pub const MAX_LISTED: usize = 1024;

// What a text says: n, the degree and L, and how many vectors follow.
#[derive(Clone, Copy, Debug, PartialEq, Eq)]
pub struct Input {
    pub n: usize,
    pub degree: usize,
    pub cells: usize,
    pub count: usize,
}

// How many numbers the text is made of, if each of its fields is one. It goes byte by byte and not from field to field, so that it ends at the
// first byte that no number has there, however long the field is.
fn count(text: &[u8]) -> Option<usize>
    requires { length text.now ≤ max_text }
    ensures { result ≡ count_of (fields text.now) }
{
    let mut found = 0;
    let mut number = None;
    for b in text {
        if separator(*b) {
            number?;
            number = None;
            found += 1;
        } else {
            number = Some(decimal::grown(number, *b)?);
        }
    }
    number?;
    Some(found + 1)
}

// The first three numbers, and the others written, which are as many as the slice holds.
fn numbers(text: &[u8], vectors: &mut [u64]) -> Option<Input>
    requires good { every good_field (fields text.now) ≡ true }
    requires size { length (fields text.now) ≡ 3 + length vectors.old }
    ensures { (told result ≡ input_from (map value_of (fields text.now))) × (vectors.new ≡ drop 3 (map value_of (fields text.now))) }
{
    let mut fields = text.split(|b| separator(*b));
    let n = decimal::value_of(fields.next()?)?;
    let degree = decimal::value_of(fields.next()?)?;
    let cells = decimal::value_of(fields.next()?)?;
    for (i, field) in fields.enumerate() {
        vectors[i] = decimal::value_of(field)?;
    }
    Some(Input {
        n: n as usize,
        degree: degree as usize,
        cells: cells as usize,
        count: vectors.len(),
    })
}

// The text's length without one final newline.
fn body_length(text: &[u8]) -> usize
    ensures { result ≡ body_length text.now }
{
    match text {
        [front @ .., b'\n'] => front.len(),
        _ => text.len(),
    }
}

// Reads a text of any bytes: n, degree and L into the record, the vectors into the lent slice.
// A text with more vectors than the slice holds is not good either. One that is not good leaves the slice as it was.
pub fn read(text: &[u8], vectors: &mut [u64]) -> Option<Input>
    ensures value { told result ≡ input_of text.now (length vectors.old) }
    ensures vectors_after { vectors.new ≡ vectors_of text.now vectors.old }
{
    if MAX_TEXT < text.len() {
        return None;
    }
    let body = &text[..body_length(text)];
    let listed = count(body)?.checked_sub(3)?;
    if MAX_LISTED < listed || vectors.len() < listed {
        return None;
    }
    numbers(body, &mut vectors[..listed])
}

// Whether the bytes begin with the word.
pub fn opens(word: &[u8], bytes: &[u8]) -> bool
    ensures { result ≡ Opens·opens word.now bytes.now }
{
    bytes.starts_with(word)
}
