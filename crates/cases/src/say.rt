// What the builds print.
use std::io;
use unit::{Record, Refused};
use vectors::MAX_VARIABLES;

fn number(rt: &impl Print, x: u64) -> io::Result<()> {
    print!(rt; " {x}")
}

fn signed(rt: &impl Print, x: i64) -> io::Result<()> {
    print!(rt; " {x}")
}

fn mix(digest: u64, word: u64) -> u64 {
    (digest << 5) ^ (digest >> 2) ^ word
}

fn digest<T: Copy + Into<u64>>(words: &[T]) -> u64 {
    words
        .iter()
        .fold(0, |digest, word| mix(digest, (*word).into()))
}

// The refusal, its place and the cells needed, 0 for none; p, n1, excess, tries and the kept inputs of the record, a digest of the masks in its 24 slots, and a digest
// of each table.
pub(crate) fn built(
    rt: &impl Print,
    built: Result<Record, Refused>,
    h: &[u16],
    g: &[u16],
    aux: &[u64],
) -> io::Result<()> {
    print!(rt; "build")?;
    let u = match built {
        Ok(unit) => {
            print!(rt; " 0 0 0")?;
            unit
        }
        Err(Refused { refusal, place }) => {
            let refused = refusal.number();
            let needed = refusal.needed();
            print!(rt; " {refused} {place} {needed}")?;
            record::blank()
        }
    };
    let variables = u.variables;
    let masks = vectors::masks(variables, MAX_VARIABLES);
    number(rt, u.p as u64)?;
    number(rt, u.n1 as u64)?;
    signed(rt, u.excess)?;
    number(rt, u.tries)?;
    number(rt, u.kept)?;
    number(rt, digest(&masks))?;
    number(rt, digest(h))?;
    number(rt, digest(g))?;
    number(rt, digest(aux))?;
    println!(rt;)
}
