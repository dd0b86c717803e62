// A row lifted and put again, in G with a word for each cell.
ghost use Rattle.std.specs.Prelude.{◌≡◌, true, ◌++◌, map, suc, ◌+◌, ◌≤◌, ◌<◌, length, take};
ghost use Rattle.vectors.specs.Bounds.{max_cells, max_rows, max_words};
ghost use Rattle.rows.specs.Fit as fits;
ghost use Rattle.rows.specs.Single.{column_word};
ghost use Rattle.rows.specs.Told.{fit_told};
ghost use Rattle.add.specs.Inner.Rows.{mates_of, group_of, StandsIn, HeldIn, bare_of, refitted_of};

use crate::Mates;
use rows::NoFit;
use vectors::{MAX_ROWS, MAX_WORDS};

// Both loops go by n: it is the number of the vector, and has its word and its first cell.

// Empties the first cell of each vector of the row, and writes their columns as words behind the first one. How many words that makes.
fn lift(row: Mates, g: &mut [u16], words: &mut [u64]) -> usize
    requires room { length row.aux.now ≤ length words.old }
    requires stands { StandsIn row (length g.old) }
    ensures count { result ≡ suc (length (mates_of row.entry)) }
    ensures words { take result words.new ≡ take 1 words.old ++ map column_word (mates_of row.entry) }
    ensures cells { g.new ≡ bare_of row.entry g.old }
{
    let Mates { seat, aux, firsts } = row;
    let mut m = 1;
    for n in 1..aux.len() {
        if vectors::low(aux[n], seat.n1) == seat.row {
            let cell = firsts[n] as usize - 1;
            g[cell] = 0;
            words[m] = (MAX_ROWS * (cell - seat.displacement)) as u64;
            m += 1;
        }
    }
    m
}

// Writes the number of each vector of the row into its cell at d.
fn put(row: Mates, d: usize, g: &mut [u16])
    requires stands { StandsIn row (length g.old) }
    requires inside { fits.inside (length g.old) d (mates_of row) ≡ true }
    ensures { g.new ≡ fits.put g.old d (mates_of row.entry) }
{
    let Mates { seat, aux, firsts } = row;
    for n in 1..aux.len() {
        if vectors::low(aux[n], seat.n1) == seat.row {
            let column = firsts[n] as usize - 1 - seat.displacement;
            g[column + d] = n as u16;
        }
    }
}

// Lifts the row and puts it, with the new vector, to its first fit; where it has none, back.
pub(crate) fn refit(row: Mates, g: &mut [u16]) -> Result<usize, NoFit>
    requires few { length g.old ≤ max_cells }
    requires stands { StandsIn row (length g.old) }
    requires held { HeldIn row g.old }
    ensures fit { fit_told result ≡ fits.first_fit (bare_of row.entry g.old) (group_of row.entry) }
    ensures cells { g.new ≡ refitted_of row.entry g.old (fit_told result) }
{
    let seat = row.seat;
    // A buffer with a count, since there is no heap.
    let mut words = [0u64; MAX_WORDS];
    let m = lift(row, g, &mut words);
    words[m] = (MAX_ROWS * seat.column) as u64;
    let fit = rows::first_fit(&mut words[..m + 1], g);
    match fit {
        Ok(d) => {
            put(row, d, g);
            g[seat.column + d] = row.aux.len() as u16;
            Ok(d)
        }
        Err(none) => {
            put(row, seat.displacement, g);
            Err(none)
        }
    }
}
