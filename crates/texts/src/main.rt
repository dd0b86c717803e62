// Runs the program on texts: each cause of `input`, then a refusal, a unit with no variables, and zeros in front; with other words; and
// with `why`, on each cause and each refusal that a list can get. The output is compared.
#![tactic(auto)]

use std::io::{self, Write};

// Without a word.
fn list(output: &mut impl Write, text: &[u8]) -> io::Result<()> {
    console::answer(output, b"", text)
}

fn no_lists(output: &mut impl Write) -> io::Result<()> {
    list(output, b"")?;
    list(output, b"6 2")?;
    list(output, b"6 2 7 16,18")?;
    list(output, b"6 2 7  16")?;
    list(output, b" 6 2 7 16")?;
    list(output, b"6 2 7 16 ")?;
    list(output, b"6 2 7 16\n\n")?;
    list(output, b"64 1 1 18446744073709551616")
}

// More than 64 KiB: a vector with zeros in front, and one zero more.
fn long_text(output: &mut impl Write, given: &[u8]) -> io::Result<()> {
    let mut text = [b'0'; 65537];
    text[..6].copy_from_slice(b"6 2 7 ");
    console::answer(output, given, &text)?;
    console::answer(output, given, &text[..65536])
}

// Every second byte a space: 1,024 vectors are read, and refused by check 3; 1,025 are not read.
fn many_vectors(output: &mut impl Write, given: &[u8]) -> io::Result<()> {
    let mut text = [b' '; 2055];
    for i in 0..1028 {
        text[2 * i] = b'1';
    }
    console::answer(output, given, &text)?;
    console::answer(output, given, &text[..2053])
}

// With words: a list that is refused, a text that is no list, and words that are none.
fn words(output: &mut impl Write) -> io::Result<()> {
    console::answer(output, b"pack\n", b"6 2 6 16 18 20 28 32 55 58\n")?;
    console::answer(output, b"pack\n", b"6 2")?;
    console::answer(output, b"pack\nall\n", b"6 1 1 16")?;
    console::answer(output, b"\n", b"6 1 1 16")
}

// What stands where it must not, and the end where it must not be.
fn why_no_list(output: &mut impl Write) -> io::Result<()> {
    why(output, b"")?;
    why(output, b"6 2")?;
    why(output, b"6 2\n7 16,18")?;
    why(output, b"6 2 7\r\n16\r\n")?;
    why(output, b"\xef\xbb\xbf6 2 7 16")?;
    why(output, b"6\t2\t7")?;
    why(output, b"6 2 7\n0x10")?;
    why(output, b"6 2 7 -16")?;
    why(output, b"6 2 7 16\n\n")?;
    why(output, b"6 2 7 16 ")?;
    why(output, b"64 1 1 18446744073709551616")
}

// Each refusal that a list can get, and a list that gets none.
fn why_refused(output: &mut impl Write) -> io::Result<()> {
    why(output, b"65 2 7 16")?;
    why(output, b"6 3 7 16")?;
    why(output, b"6 2 7")?;
    why(output, b"6 2 8193 16")?;
    why(output, b"6 2 7 16 64")?;
    why(output, b"6 2 7 5 9 5 9")?;
    why(output, b"6 2 6 16 18 20 28 32 55 58\n")?;
    why(
        output,
        b"25 1 8192 0 1 2 4 8 16 32 64 128 256 512 1024 2048 4096 8192 16384 32768 65536 131072 262144 524288 1048576 2097152 4194304 8388608 16777216",
    )?;
    why(output, b"6 2 7 16 18 20 28 32 55 58\n")
}

fn why(output: &mut impl Write, text: &[u8]) -> io::Result<()> {
    console::answer(output, b"why\n", text)
}

fn main(rt: HostRuntime) -> io::Result<()> {
    let mut output = io::writer(&rt);
    no_lists(&mut output)?;
    long_text(&mut output, b"")?;
    many_vectors(&mut output, b"")?;
    list(&mut output, b"6 2 6 16 18 20 28 32 55 58\n")?;
    list(&mut output, b"6 1 1 16")?;
    list(
        &mut output,
        b"0006 02 007 16 18\n20 28 32 55 00000000000000000000000058\n",
    )?;
    words(&mut output)?;
    why_no_list(&mut output)?;
    long_text(&mut output, b"why\n")?;
    many_vectors(&mut output, b"why\n")?;
    why_refused(&mut output)
}
