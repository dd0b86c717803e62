// The program: its words and standard input read whole, and what they ask for written to standard output.
#![tactic(auto)]

ghost use Rattle.std.specs.Prelude.{◌≤◌, ◌<◌, ◌-◌, ◌≡◌, IfOk, OnOk, IfSome, List, [], true, false, length, take, drop};
ghost use Rattle.std.specs.Io.KnownBytes.{Appends, Consumes, IsAtEnd};
ghost use Rattle.console.specs.Prefix.{IsPrefixLen};
ghost use Rattle.words.specs.Words.{page_size, words_of};

use std::env::FillError;
use std::io::{self, Input, Read, Write};
use std::rt::Env;

// One byte more than a text or a file may have, so that a longer one shows.
fn room() -> [u8; 65537]
    ensures { 65537 ≡ length result }
{
    [0; 65537]
}

// So many bytes hold every answer.
const PAGE: usize = words::PAGE;

fn page() -> [u8; PAGE]
    ensures { page_size ≡ length result }
{
    [0; PAGE]
}

// ---- the answer

// Puts all that the words and the text ask for in front of a page, and answers how many bytes it takes.
fn fill(given: &[u8], text: &[u8], out: &mut [u8]) -> usize
    requires { page_size ≤ length out.old }
    ensures prefix_len { IsPrefixLen result out.new }
    ensures out_after { take result out.new ≡ words_of given.now text.now }
{
    words::words(given, text, out)
}

fn write<W: Write>(to: &mut W, given: &[u8], text: &[u8], out: &mut [u8]) -> io::Result<()>
    requires { page_size ≤ length out.old }
    ensures { OnOk result (Appends (W.contents to.old) (W.contents to.new) (words_of given.now text.now)) }
{
    let k = fill(given, text, out);
    to.write_all(&out[..k])
}

// Writes what the words, a line each, and a text ask for. The error is that of a write that failed.
pub fn answer<W: Write>(to: &mut W, given: &[u8], text: &[u8]) -> io::Result<()>
    ensures { OnOk result (Appends (W.contents to.old) (W.contents to.new) (words_of given.now text.now)) }
{
    let mut out = page();
    write(to, given, text, &mut out)
}

// ---- what is read

// One read behind the first `from` bytes: how many there are then.
fn read_more<R: Read>(input: &mut R, buf: &mut [u8], from: usize) -> io::Result<usize>
    requires { from ≤ length buf.old }
    ensures same_length { length buf.new ≡ length buf.old }
    ensures bounds { IfOk result (λ n. (from ≤ n) × (n ≤ length buf.new)) }
    ensures front { take from buf.new ≡ take from buf.old }
    ensures bytes { IfOk result (λ n. Consumes (R.remaining input.old) (R.remaining input.new) (take (n - from) (drop from buf.new))) }
    ensures end { IfOk result (λ n. n ≡ from → from < length buf.new → IsAtEnd (R.remaining input.new)) }
{
    let more = input.read(&mut buf[from..])?;
    Ok(from + more)
}

// Reads until `buf` is full, or the input ends, which a read of no bytes shows.
fn read_all<R: Read>(input: &mut R, buf: &mut [u8]) -> io::Result<usize>
    ensures same_length { length buf.new ≡ length buf.old }
    ensures prefix_len { IfOk result (λ n. IsPrefixLen n buf.new) }
    ensures bytes { IfOk result (λ n. Consumes (R.remaining input.old) (R.remaining input.new) (take n buf.new)) }
    ensures end { IfOk result (λ n. n < length buf.new → IsAtEnd (R.remaining input.new)) }
{
    let mut done = 0;
    // A while: each read adds as many bytes as the input gave.
    while done < buf.len() {
        let next = read_more(input, buf, done)?;
        if next == done {
            return Ok(next);
        }
        done = next;
    }
    Ok(done)
}

// Word i of the call as a line behind the first `from` bytes: how many there are then, none where the call has no such word.
fn read_word(
    rt: &impl Env,
    i: usize,
    buf: &mut [u8],
    from: usize,
) -> Result<Option<usize>, FillError>
    requires { from ≤ length buf.old }
    ensures same_length { length buf.new ≡ length buf.old }
    ensures bound { IfOk result (λ end. IfSome end (λ n. n ≤ length buf.new)) }
{
    let more = match rt.arg(i, &mut buf[from..]) {
        Ok(more) => more,
        Err(FillError::NotPresent) => return Ok(None),
        Err(FillError::TooLong) => return Err(FillError::TooLong),
    };
    let end = from + more;
    if buf.len() <= end {
        return Err(FillError::TooLong);
    }
    buf[end] = b'\n';
    Ok(Some(end + 1))
}

// The words of the call after the program's name, a line each.
fn read_words(rt: &impl Env, buf: &mut [u8]) -> Result<usize, FillError>
    ensures same_length { length buf.new ≡ length buf.old }
    ensures prefix_len { IfOk result (λ n. IsPrefixLen n buf.new) }
{
    let mut done = 0;
    for i in 1..usize::MAX {
        let Some(end) = read_word(rt, i, buf, done)? else {
            break;
        };
        done = end;
    }
    Ok(done)
}

// Writes what the words, if they were read whole, and an input ask for, and answers whether all was read. What was not read whole is no list,
// as the empty text is none.
// `whole` stands beside the words, and no Option holds them: the clause `asked` speaks of words that were cut, as must-fail/cut_words.edit answers them.
pub fn serve<R: Read, W: Write>(
    given: &[u8],
    whole: bool,
    input: &mut R,
    to: &mut W,
) -> io::Result<bool>
    ensures asked { IfOk result (λ all. all ≡ true → whole ≡ true) }
    ensures all { IfOk result (λ all. all ≡ true →
        IfSome (R.remaining input.old) (λ text. Appends (W.contents to.old) (W.contents to.new) (words_of given.now (take 65537 text)))) }
    ensures not_all { IfOk result (λ all. all ≡ false → Appends (W.contents to.old) (W.contents to.new) (words_of [] [])) }
{
    let mut buf = room();
    match read_all(input, &mut buf) {
        Ok(count) if whole => {
            answer(to, given, &buf[..count])?;
            Ok(true)
        }
        _ => {
            answer(to, b"", b"")?;
            Ok(false)
        }
    }
}

// Writes what the call's words and standard input ask for.
pub fn run(rt: &(impl Env + Input + Print)) -> io::Result<()> {
    let mut given = room();
    let (count, whole) = match read_words(rt, &mut given) {
        Ok(count) => (count, true),
        Err(_) => (0, false),
    };
    serve(
        &given[..count],
        whole,
        &mut rt.reader(),
        &mut io::writer(rt),
    )?;
    Ok(())
}
