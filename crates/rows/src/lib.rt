// Row shift: the definitions, the laws of demand 3, and the placing in the memory of the tables.
#![tactic(auto)]

ghost use Rattle.std.specs.Prelude.{◌≡◌, drop};
ghost use Rattle.rows.specs.Answer as spec;
ghost use Rattle.rows.specs.Answer.{left, placed};
ghost use Rattle.rows.specs.Single.{single_fit};
ghost use Rattle.rows.specs.Told.{told, fit_told};

use crate::links::{Chain, PLACES, ROWS};
use vectors::{MAX_CELLS, MAX_ROWS, MAX_WORDS};

mod links;
mod room;
mod sweep;

// The owner's bit is this or 0.
const OWNER: u16 = 1 << 15;

// A row that fits nowhere: how many displacements were tried, and the least number of cells with which there is one.
#[derive(Clone, Copy, PartialEq, Eq, Debug)]
pub struct NoFit {
    pub tried: usize,
    pub cells: usize,
}

// Why not all rows are placed: a row has no displacement, where so many were tried and so many cells at the least are needed for one after
// the same earlier rows, with the tries of these; or the tries exceed the allowance, with the row in hand; or what was lent cannot be placed.
#[derive(Clone, Copy, PartialEq, Eq, Debug)]
pub enum Stop {
    NoFit {
        row: usize,
        tried: usize,
        needed: usize,
        tries: u64,
    },
    Over(usize),
    Unfit,
}

// Whether one of the words is not a row below rows and a column below MAX_ROWS.
fn astray(words: &[u64], rows: usize) -> bool
    ensures { result ≡ spec.astray rows words.now }
{
    words
        .iter()
        .any(|word| PLACES <= *word || rows <= (*word % ROWS) as usize)
}

// Whether what is lent cannot be placed.
fn unfit(aux: &[u64], rows: usize, cells: usize, owner: u16) -> bool
    ensures { result ≡ spec.unfit aux.now rows cells owner }
{
    aux.is_empty()
        || MAX_WORDS < aux.len()
        || MAX_ROWS < rows
        || MAX_CELLS < cells
        || 0 < owner % OWNER
        || astray(&aux[1..], rows)
}

// Places the rows, heavy ones before light ones and of equals the lower first, each at the smallest displacement at which its cells are
// free: a cell is free while its word is 0. AUX has a word for each vector after the first, row + MAX_ROWS * column; H has one for each
// row, and G one for each cell. Vector i is written into its cell as owner + i: two owners can share a G. Where a row has no place, or more
// displacements would be tried than the allowance says, H is 0 and G as it was lent. What cannot be placed is answered so, and nothing is
// written. AUX is left as it was lent. The answer is the sum of the displacements and one each.
pub fn place(
    aux: &mut [u64],
    h: &mut [u16],
    g: &mut [u16],
    owner: u16,
    allowance: u64,
) -> Result<u64, Stop>
    ensures g_after { left (told result) h.new g.new ≡ placed aux.old h.old g.old owner allowance }
    ensures aux_unchanged { aux.new ≡ aux.old }
{
    if unfit(aux, h.len(), g.len(), owner) {
        return Err(Stop::Unfit);
    }
    links::link(aux, h);
    let mut taken = [0; room::TAKEN_WORDS];
    room::take_cells(g, &mut taken);
    let placed = sweep::place_rows(aux, h, g, &mut taken, owner, allowance);
    links::unlink(aux);
    placed
}

// The first fit of one row over the cells as they are lent, with nothing written: each word after the first is a vector of the row, and
// says MAX_ROWS * column. Words that say more fit nowhere. They are left as they were lent.
pub fn first_fit(words: &mut [u64], g: &[u16]) -> Result<usize, NoFit>
    ensures value { fit_told result ≡ single_fit words.old g.now }
    ensures words_unchanged { words.new ≡ words.old }
{
    if unfit(words, 1, g.len(), 0) {
        return Err(NoFit { tried: 0, cells: 0 });
    }
    let mut marks = [0; 1];
    links::link(words, &mut marks);
    let fit = match links::head(marks[0]) {
        Some(first) => {
            let mut taken = [0; room::TAKEN_WORDS];
            room::take_cells(g, &mut taken);
            let chain = Chain {
                words,
                first,
                owner: 0,
            };
            chain.first_fit(g, &taken)
        }
        None => Ok(0),
    };
    links::unlink(words);
    fit
}
