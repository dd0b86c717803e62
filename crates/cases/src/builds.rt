// Cases of the builds. Every table is filled with nines and digested whole, so that a word written beyond its range shows.
use crate::say;
use std::io;
use vectors::{Kind, MAX_VARIABLES, Part, Variable};

// More tries than any list makes.
const PLENTY: u64 = 1_000_000;

// 0, 1, 2, ..
fn count(words: &mut [u64]) {
    for (i, word) in words.iter_mut().enumerate() {
        *word = i as u64;
    }
}

// 1, 2, 4, ..
fn powers(words: &mut [u64]) {
    for (i, word) in words.iter_mut().enumerate() {
        *word = 1u64 << (i % 64);
    }
}

// The build by rule with the tables lent as long as stated.
fn in_part(
    rt: &impl Print,
    n: usize,
    degree: usize,
    cells: usize,
    allowance: u64,
    vectors: &[u64],
    rows: usize,
    room: usize,
    words: usize,
    h: &mut [u16],
    g: &mut [u16],
    aux: &mut [u64],
) -> io::Result<()> {
    let rows = rows.min(h.len());
    let room = room.min(g.len());
    let words = words.min(aux.len());
    let b = unit::build_chosen(
        n,
        degree,
        cells,
        allowance,
        vectors,
        &mut h[..rows],
        &mut g[..room],
        &mut aux[..words],
    );
    say::built(rt, b, h, g, aux)
}

fn chosen(
    rt: &impl Print,
    n: usize,
    degree: usize,
    cells: usize,
    allowance: u64,
    vectors: &[u64],
    rows: usize,
    room: usize,
    words: usize,
) -> io::Result<()> {
    let mut h = [9u16; 4096];
    let mut g = [9u16; 8193];
    let mut aux = [9u64; 1025];
    in_part(
        rt, n, degree, cells, allowance, vectors, rows, room, words, &mut h, &mut g, &mut aux,
    )
}

// The build by rule with tables long enough for any list.
fn by_rule(
    rt: &impl Print,
    n: usize,
    degree: usize,
    cells: usize,
    vectors: &[u64],
) -> io::Result<()> {
    chosen(rt, n, degree, cells, PLENTY, vectors, 4096, 8193, 1025)
}

// The build with three variables given, of six inputs, all marked as columns.
fn given(
    rt: &impl Print,
    a: Kind,
    b: Kind,
    c: Kind,
    p: usize,
    n1: usize,
    cells: usize,
    allowance: u64,
    vectors: &[u64],
) -> io::Result<()> {
    let mut h = [9u16; 16];
    let mut g = [9u16; 16];
    let mut aux = [9u64; 16];
    let part = Part::Column;
    let mut v = [Variable {
        kind: Kind::One(0),
        part,
    }; MAX_VARIABLES];
    v[0] = Variable { kind: a, part };
    v[1] = Variable { kind: b, part };
    v[2] = Variable { kind: c, part };
    let built = unit::build_given(
        6, v, p, n1, cells, allowance, vectors, &mut h, &mut g, &mut aux,
    );
    say::built(rt, built, &h, &g, &aux)
}

// The unit's three variables of SCOPE 15.3, given.
fn three_within(
    rt: &impl Print,
    p: usize,
    n1: usize,
    cells: usize,
    allowance: u64,
    vectors: &[u64],
) -> io::Result<()> {
    given(
        rt,
        Kind::One(2),
        Kind::One(3),
        Kind::Two(4, 5),
        p,
        n1,
        cells,
        allowance,
        vectors,
    )
}

fn the_three(
    rt: &impl Print,
    p: usize,
    n1: usize,
    cells: usize,
    vectors: &[u64],
) -> io::Result<()> {
    three_within(rt, p, n1, cells, PLENTY, vectors)
}

// The 25 vectors with a single 1, and the zero vector with them: refusal 11. Then 1,023 vectors.
pub(crate) fn samples(rt: &impl Print) -> io::Result<()> {
    let mut single = [0u64; 25];
    powers(&mut single);
    by_rule(rt, 25, 1, 8192, &single)?;
    let mut with_zero = [0u64; 26];
    powers(&mut with_zero);
    with_zero[25] = 0;
    by_rule(rt, 25, 1, 8192, &with_zero)?;
    let mut all = [0u64; 1023];
    count(&mut all);
    by_rule(rt, 10, 1, 8192, &all)
}

// Refusals 1 to 7.
pub(crate) fn list_refusals(rt: &impl Print) -> io::Result<()> {
    let s: [u64; 7] = [16, 18, 20, 28, 32, 55, 58];
    let none: [u64; 0] = [];
    let many = [0u64; 1024];
    let equal: [u64; 3] = [4, 5, 5];
    by_rule(rt, 0, 1, 7, &s)?;
    by_rule(rt, 65, 1, 7, &s)?;
    by_rule(rt, 6, 0, 7, &s)?;
    by_rule(rt, 6, 3, 7, &s)?;
    the_three(rt, 25, 12, 7, &s)?;
    the_three(rt, 3, 4, 7, &s)?;
    the_three(rt, 13, 13, 7, &s)?;
    the_three(rt, 14, 1, 7, &s)?;
    by_rule(rt, 6, 1, 7, &none)?;
    by_rule(rt, 6, 1, 7, &many)?;
    by_rule(rt, 6, 2, 0, &s)?;
    by_rule(rt, 6, 2, 8193, &s)?;
    chosen(rt, 6, 2, 7, PLENTY, &s, 4096, 6, 1025)?;
    chosen(rt, 6, 2, 7, PLENTY, &s, 4096, 8193, 7)?;
    by_rule(rt, 5, 2, 7, &s)?;
    by_rule(rt, 6, 2, 7, &equal)
}

// Refusals 8 to 10 of given variables.
pub(crate) fn variable_refusals(rt: &impl Print) -> io::Result<()> {
    let s: [u64; 7] = [16, 18, 20, 28, 32, 55, 58];
    given(
        rt,
        Kind::One(2),
        Kind::One(0),
        Kind::Two(4, 5),
        3,
        2,
        7,
        PLENTY,
        &s,
    )?;
    given(
        rt,
        Kind::One(2),
        Kind::One(7),
        Kind::Two(4, 5),
        3,
        2,
        7,
        PLENTY,
        &s,
    )?;
    given(
        rt,
        Kind::One(2),
        Kind::One(3),
        Kind::Two(5, 4),
        3,
        2,
        7,
        PLENTY,
        &s,
    )?;
    given(
        rt,
        Kind::One(2),
        Kind::One(3),
        Kind::Two(0, 4),
        3,
        2,
        7,
        PLENTY,
        &s,
    )?;
    given(
        rt,
        Kind::One(4),
        Kind::One(5),
        Kind::Two(4, 5),
        3,
        2,
        7,
        PLENTY,
        &s,
    )?;
    given(
        rt,
        Kind::One(2),
        Kind::One(3),
        Kind::One(1),
        3,
        2,
        7,
        PLENTY,
        &s,
    )
}

// Refusals 12 and 13, and the units accepted, in tables as long as needed and longer; then a unit with no variables.
pub(crate) fn table_refusals(rt: &impl Print) -> io::Result<()> {
    let s: [u64; 7] = [16, 18, 20, 28, 32, 55, 58];
    chosen(rt, 6, 2, 7, PLENTY, &s, 3, 8193, 1025)?;
    by_rule(rt, 6, 2, 6, &s)?;
    the_three(rt, 3, 2, 6, &s)?;
    chosen(rt, 6, 2, 7, PLENTY, &s, 4, 7, 8)?;
    by_rule(rt, 6, 2, 8192, &s)?;
    the_three(rt, 3, 2, 7, &s)?;
    let one: [u64; 1] = [16];
    by_rule(rt, 6, 1, 1, &one)
}

// Refusal 41 of both builds: just as many tries allowed as are made, one too few, and none; the same where a row has no place, and in the row
// before that.
pub(crate) fn allowances(rt: &impl Print) -> io::Result<()> {
    let s: [u64; 7] = [16, 18, 20, 28, 32, 55, 58];
    chosen(rt, 6, 2, 7, 15, &s, 4096, 8193, 1025)?;
    chosen(rt, 6, 2, 7, 14, &s, 4096, 8193, 1025)?;
    chosen(rt, 6, 2, 7, 0, &s, 4096, 8193, 1025)?;
    chosen(rt, 6, 2, 6, 14, &s, 4096, 8193, 1025)?;
    chosen(rt, 6, 2, 6, 13, &s, 4096, 8193, 1025)?;
    chosen(rt, 6, 2, 6, 8, &s, 4096, 8193, 1025)?;
    three_within(rt, 3, 2, 7, 15, &s)?;
    three_within(rt, 3, 2, 7, 14, &s)?;
    three_within(rt, 3, 2, 6, 14, &s)?;
    three_within(rt, 3, 2, 6, 13, &s)
}
