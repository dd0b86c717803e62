// The program on the file of a unit: the list S is packed, and the file is then shown, listed, searched, damaged and cut; and a list of
// profile keys. The output is compared.
#![tactic(auto)]

use std::io::{self, Write};

const LIST: [u8; 26] = *b"6 2 7 16 18 20 28 32 55 58";

// The words on the bytes of a file from one on and up to another.
fn ask(
    output: &mut impl Write,
    given: &[u8],
    file: &[u8],
    from: usize,
    to: usize,
) -> io::Result<()> {
    if from <= to && to <= file.len() {
        console::answer(output, given, &file[from..to])?;
    }
    Ok(())
}

// A byte with some of its bits turned over.
fn change(file: &mut [u8], at: usize, bits: u8) {
    if at < file.len() {
        file[at] ^= bits;
    }
}

// The words on the file of the list S, from one byte on and up to another, with one byte changed.
fn on_part(
    output: &mut impl Write,
    given: &[u8],
    from: usize,
    to: usize,
    at: usize,
    bits: u8,
) -> io::Result<()> {
    let mut file = [0u8; 2048];
    words::words(b"pack\n", &LIST, &mut file);
    change(&mut file, at, bits);
    ask(output, given, &file, from, to)
}

fn on_file(output: &mut impl Write, given: &[u8]) -> io::Result<()> {
    on_part(output, given, 0, 2048, 0, 0)
}

// The words on the file of the unit of two profile keys, which differ in the day.
fn on_keys(output: &mut impl Write, given: &[u8]) -> io::Result<()> {
    let mut file = [0u8; 2048];
    words::words(
        b"keys\n",
        b"press,ink,substrate,screen,day\n3,1200,77,150,9814\n3,1200,77,150,9815\n",
        &mut file,
    );
    ask(output, given, &file, 0, 2048)
}

fn whole(output: &mut impl Write) -> io::Result<()> {
    on_file(output, b"show\n")?;
    on_file(output, b"list\n")?;
    // registered, not registered, in either base
    on_file(output, b"find\n20\n6\n0x3A\n0x3f\n")?;
    // too wide, no key, no digit, a sign
    on_file(output, b"find\n20\n64\n")?;
    on_file(output, b"find\n")?;
    on_file(output, b"find\nred\n")?;
    on_file(output, b"find\n-1\n")?;
    // more words than one
    on_file(output, b"show\nall\n")?;
    on_file(output, b"list\nall\n")
}

// An empty file, one cut within a block, a byte changed, a whole block that is no head, and one cut after a block.
fn damaged(output: &mut impl Write) -> io::Result<()> {
    on_part(output, b"show\n", 0, 0, 0, 0)?;
    on_part(output, b"list\n", 0, 700, 0, 0)?;
    on_part(output, b"find\n20\n", 0, 2048, 600, 1)?;
    on_part(output, b"show\n", 512, 1024, 0, 0)?;
    on_part(output, b"list\n", 0, 1536, 0, 0)
}

// Profile keys: found by all five fields, not by four, not on another day; a field over its width.
fn profile_keys(output: &mut impl Write) -> io::Result<()> {
    on_keys(output, b"list\n")?;
    on_keys(
        output,
        b"find\n3,1200,77,150,9815\n3,1200,77,150,9814\n3,1200,77,150,9816\n",
    )?;
    on_keys(output, b"find\n3,1200,77,150\n")?;
    on_keys(output, b"find\n3,1200,77,256,9815\n")
}

// Texts of profile keys: a field over its width, a key twice, lines that are no keys; then degree and L as words, one of them missing.
fn profile_texts(output: &mut impl Write) -> io::Result<()> {
    console::answer(
        output,
        b"keys\n",
        b"3,1200,77,150,9815\n3,4096,77,150,9815\n",
    )?;
    console::answer(
        output,
        b"keys\n",
        b"3,1200,77,150,9815\n3,1200,77,150,9815\n",
    )?;
    console::answer(output, b"keys\n", b"press,ink,substrate,screen,day\n")?;
    console::answer(output, b"keys\n", b"3,1200,77,150\n")?;
    console::answer(output, b"keys\n", b"3, 1200,77,150,9815\n")?;
    console::answer(output, b"keys\n1\n8193\n", b"3,1200,77,150,9815\n")?;
    console::answer(output, b"keys\n2\n", b"3,1200,77,150,9815\n")
}

// A list where a file is expected, and a file where a list is.
fn exchanged(output: &mut impl Write) -> io::Result<()> {
    console::answer(output, b"show\n", &LIST)?;
    on_file(output, b"pack\n")?;
    on_file(output, b"")
}

fn main(rt: HostRuntime) -> io::Result<()> {
    let mut output = io::writer(&rt);
    whole(&mut output)?;
    damaged(&mut output)?;
    profile_keys(&mut output)?;
    profile_texts(&mut output)?;
    exchanged(&mut output)
}
