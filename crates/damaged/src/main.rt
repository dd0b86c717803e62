// Lookup and recovery, run and compared: every key of the sample unit, then units that no build leaves, with each cause of refusals 6, 14 and 15;
// and such a unit printed.
#![tactic(auto)]

use std::io;
use unit::{Mark, Record, Refusal};
use vectors::{Kind, Part, Variable};

// The refusal, its place and the index.
fn say_found(rt: &impl Print, found: Result<usize, Refusal>) -> io::Result<()> {
    match found {
        Ok(index) => println!(rt; "lookup 0 0 {index}"),
        Err(refusal) => {
            let refused = refusal.number();
            println!(rt; "lookup {refused} 0 0")
        }
    }
}

// The refusal, its place and the vector.
fn say_recovered(rt: &impl Print, recovered: Result<u64, Refusal>) -> io::Result<()> {
    match recovered {
        Ok(vector) => println!(rt; "recover 0 0 {vector}"),
        Err(refusal) => {
            let refused = refusal.number();
            println!(rt; "recover {refused} 0 0")
        }
    }
}

fn all_keys(rt: &impl Print, u: Record, h: &[u16], g: &[u16], aux: &[u64]) -> io::Result<()> {
    for x in 0..64 {
        say_found(rt, unit::lookup(u, h, g, aux, x))?;
    }
    Ok(())
}

fn all_numbers(rt: &impl Print, u: Record, h: &[u16], g: &[u16], aux: &[u64]) -> io::Result<()> {
    for i in 0..9 {
        say_recovered(rt, unit::recover(u, h, g, aux, i))?;
    }
    Ok(())
}

// Lookup of vector 3 and recovery of 3.
fn both(rt: &impl Print, u: Record, h: &[u16], g: &[u16], aux: &[u64]) -> io::Result<()> {
    say_found(rt, unit::lookup(u, h, g, aux, 20))?;
    say_recovered(rt, unit::recover(u, h, g, aux, 3))
}

// Records whose numbers are out of bounds.
fn wrong_numbers(rt: &impl Print, u: Record, h: &[u16], g: &[u16], aux: &[u64]) -> io::Result<()> {
    both(rt, Record { n: 0, ..u }, h, g, aux)?;
    both(rt, Record { n: 65, ..u }, h, g, aux)?;
    both(rt, Record { k: 0, ..u }, h, g, aux)?;
    both(rt, Record { k: 1024, ..u }, h, g, aux)?;
    both(rt, Record { cells: 0, ..u }, h, g, aux)?;
    both(rt, Record { cells: 8193, ..u }, h, g, aux)?;
    both(rt, Record { p: 7, ..u }, h, g, aux)?;
    both(
        rt,
        Record {
            n: 64,
            p: 25,
            n1: 12,
            ..u
        },
        h,
        g,
        aux,
    )?;
    both(rt, Record { n1: 4, ..u }, h, g, aux)?;
    both(
        rt,
        Record {
            n: 64,
            p: 13,
            n1: 13,
            ..u
        },
        h,
        g,
        aux,
    )?;
    both(
        rt,
        Record {
            n: 64,
            p: 13,
            n1: 0,
            ..u
        },
        h,
        g,
        aux,
    )
}

// Records whose variables or kept inputs are not right: a faulty variable, one kept input too few, one beyond n.
fn wrong_inputs(rt: &impl Print, u: Record, h: &[u16], g: &[u16], aux: &[u64]) -> io::Result<()> {
    let mut v = u.variables;
    v[1] = Variable {
        kind: Kind::Two(3, 2),
        part: Part::Row,
    };
    both(rt, Record { variables: v, ..u }, h, g, aux)?;
    both(rt, Record { kept: 9, ..u }, h, g, aux)?;
    both(rt, Record { kept: 73, ..u }, h, g, aux)
}

// Records that are well formed and not sound: another input kept, and a variable that is an XOR of earlier ones.
fn unsound(rt: &impl Print, u: Record, h: &[u16], g: &[u16], aux: &[u64]) -> io::Result<()> {
    both(rt, Record { kept: 13, ..u }, h, g, aux)?;
    let mut v = u.variables;
    v[2] = Variable {
        kind: Kind::Two(2, 3),
        part: Part::Column,
    };
    both(rt, Record { variables: v, ..u }, h, g, aux)
}

// Part marks turned round, and the unit marked amended: neither lookup nor recovery reads them.
fn other_marks(rt: &impl Print, u: Record, h: &[u16], g: &[u16], aux: &[u64]) -> io::Result<()> {
    let mut v = u.variables;
    v[0] = Variable {
        kind: Kind::One(2),
        part: Part::Column,
    };
    both(rt, Record { variables: v, ..u }, h, g, aux)?;
    let mark = Mark::Amended;
    both(rt, Record { mark, ..u }, h, g, aux)
}

// Tables shorter than the record says.
fn short_tables(rt: &impl Print, u: Record, h: &[u16], g: &[u16], aux: &[u64]) -> io::Result<()> {
    let rows: [u16; 3] = [0, 2, 4];
    let cells: [u16; 6] = [5, 1, 7, 2, 4, 3];
    let words: [u64; 7] = [0, 0, 1, 2, 10, 16, 23];
    both(rt, u, &rows, g, aux)?;
    both(rt, u, h, &cells, aux)?;
    both(rt, u, h, g, &words)
}

// Tables that no build leaves: vector 3 has row 2, H 4 and cell 5.
fn tables(rt: &impl Print, u: Record, h: &[u16], g: &[u16], aux: &[u64]) -> io::Result<()> {
    // an index above k in the cell, an empty cell, and the index in an earlier cell too
    let above: [u16; 7] = [5, 1, 7, 2, 4, 8, 6];
    both(rt, u, h, &above, aux)?;
    let empty: [u16; 7] = [5, 1, 7, 2, 4, 0, 6];
    both(rt, u, h, &empty, aux)?;
    let twice: [u16; 7] = [5, 1, 7, 2, 3, 3, 6];
    both(rt, u, h, &twice, aux)?;
    // the cell below H[row], so that a lookup goes beyond L; then the column beyond its range
    let far: [u16; 4] = [0, 2, 6, 5];
    both(rt, u, &far, g, aux)?;
    let near: [u16; 4] = [0, 2, 0, 5];
    both(rt, u, &near, g, aux)?;
    // a word with a bit beyond its range, and another vector's
    let beyond: [u64; 8] = [0, 0, 1, 34, 10, 16, 23, 25];
    both(rt, u, h, g, &beyond)?;
    let other: [u64; 8] = [0, 0, 1, 6, 10, 16, 23, 25];
    both(rt, u, h, g, &other)
}

// A record with an excess below 0, printed with its minus on a page as long as the text.
fn printed(rt: &impl Print, u: Record, h: &[u16], g: &[u16], aux: &[u64]) -> io::Result<()> {
    let mut page = [0u8; 93];
    print::print(Record { excess: -1, ..u }, h, g, aux, &mut page);
    rt.write_all(&page)
}

fn cases(rt: &impl Print, u: Record, h: &[u16], g: &[u16], aux: &[u64]) -> io::Result<()> {
    all_keys(rt, u, h, g, aux)?;
    all_numbers(rt, u, h, g, aux)?;
    say_found(rt, unit::lookup(u, h, g, aux, 64))?;
    wrong_numbers(rt, u, h, g, aux)?;
    wrong_inputs(rt, u, h, g, aux)?;
    unsound(rt, u, h, g, aux)?;
    other_marks(rt, u, h, g, aux)?;
    short_tables(rt, u, h, g, aux)?;
    tables(rt, u, h, g, aux)?;
    printed(rt, u, h, g, aux)
}

fn main(rt: HostRuntime) -> io::Result<()> {
    let s: [u64; 7] = [16, 18, 20, 28, 32, 55, 58];
    let mut h = [9u16; 4];
    let mut g = [9u16; 7];
    let mut aux = [9u64; 8];
    let built = unit::build_chosen(6, 2, 7, 15, &s, &mut h, &mut g, &mut aux);
    cases(&rt, built.unwrap_or(record::blank()), &h, &g, &aux)
}
