// The vector of an index: its cell is looked for in G, and its row, column and kept inputs fix it. Whether every index has one, and all of them: in one
// pass over G and one over AUX.
#![tactic(auto)]

ghost use Rattle.std.specs.Prelude.{◌≡◌, ◌==◌, position, true, List, ℕ, ◌^◌, ◌≤◌, length, get_or};
ghost use Rattle.vectors.specs.Bounds.{max_cells, max_words};
ghost use Rattle.record.specs.Tables.{lent, index_in};
ghost use Rattle.record.specs.Formed.{well_formed};
ghost use Rattle.record.specs.Inner.Formed.{InBounds, RightInputs};
ghost use Rattle.recover.specs.Recover.{told, from_cell, vector_at, first_cell, in_chart, recover_of};
ghost use Rattle.recover.specs.Every as every;
ghost use Rattle.recover.specs.Every.{firsts_from, firsts_in, list_into};
ghost use Rattle.recover.specs.Inner.Fixed.{vector_in};

use record::Record;
use refusal::Refusal;
use vectors::MAX_WORDS;

// The first cell that holds i.
fn first_cell(g: &[u16], i: usize) -> Option<usize>
    ensures { result ≡ position (λ w. index_in w == i) g.now }
{
    g.iter().position(|w| record::index(*w) == i)
}

// The vector that the word and the column fix.
// That the record is in bounds stays a clause of its users, here and in lookup: a type for it would hold the record once more, or lend it all the way.
fn fixed(unit: Record, word: u64, column: usize) -> Result<u64, Refusal>
    requires { InBounds unit × RightInputs unit }
    ensures { told result ≡ vector_in unit word column }
{
    span::vector(
        unit.n,
        unit.variables,
        unit.p,
        unit.n1,
        unit.kept,
        word,
        column,
    )
    .ok_or(Refusal::NoUnit)
}

// The vector that a word and a cell fix.
fn from_cell(unit: Record, h: &[u16], word: u64, cell: usize) -> Result<u64, Refusal>
    requires formed { InBounds unit × RightInputs unit × (2 ^ unit.n1 ≤ length h.now) }
    ensures { (g aux : List ℕ) → well_formed unit (lent h.now g aux) ≡ true → told result ≡ vector_at unit (lent h.now g aux) word cell }
{
    let row = vectors::low(word, unit.n1 as u64);
    let d = h[row as usize] as usize;
    if cell < d {
        return Err(Refusal::NoUnit);
    }
    fixed(unit, word, cell - d)
}

// The vector of the index i of a unit that is well formed.
fn numbered(unit: Record, h: &[u16], g: &[u16], aux: &[u64], i: usize) -> Result<u64, Refusal>
    requires formed { well_formed unit (lent h.now g.now aux.now) ≡ true }
    requires inside { i ≤ unit.k }
    ensures { told result ≡ from_cell unit (lent h.now g.now aux.now) (get_or aux.now i 0)
        (first_cell unit (lent h.now g.now aux.now) i) }
{
    let Some(cell) = first_cell(&g[..unit.cells], i) else {
        return Err(Refusal::NoUnit);
    };
    from_cell(unit, h, aux[i], cell)
}

// The registered vector with the index i.
pub fn recover(unit: Record, h: &[u16], g: &[u16], aux: &[u64], i: usize) -> Result<u64, Refusal>
    ensures { told result ≡ recover_of unit (lent h.now g.now aux.now) i }
{
    if !record::well_formed(unit, h, g, aux) {
        return Err(Refusal::NoUnit);
    }
    if vectors::outside(1, unit.k, i) {
        return Err(Refusal::NoVector);
    }
    numbered(unit, h, g, aux, i)
}

// The number from 1 of the first cell that holds each index, 0 for none. The cells are passed from the last to the first, so that the first is kept.
// Words and no Options: the caller of the public `listed` lends them, and `firsts_in` says what stands in them.
fn first_cells(g: &[u16], firsts: &mut [u16; MAX_WORDS])
    requires { length g.now ≤ max_cells }
    ensures { firsts.new ≡ firsts_from g.now 0 max_words }
{
    *firsts = [0; MAX_WORDS];
    for c in (0..g.len()).rev() {
        let i = record::index(g[c]);
        if i < MAX_WORDS {
            firsts[i] = (c + 1) as u16;
        }
    }
}

// Whether the cell is in one of the columns of the row that the word has, and the word has no bit too many.
fn in_chart(unit: Record, h: &[u16], word: u64, cell: usize) -> bool
    requires bounds { InBounds unit }
    requires rows { 2 ^ unit.n1 ≤ length h.now }
    ensures { result ≡ in_chart unit h.now word cell }
{
    let row = vectors::low(word, unit.n1 as u64);
    let d = h[row as usize] as usize;
    d <= cell
        && !vectors::beyond(unit.p - unit.n1, (cell - d) as u64)
        && !vectors::beyond(unit.n1 + unit.n - unit.p, word)
}

// Whether the unit is well formed and recovery gives a vector for every number from 1 to k; where the unit is sound, firsts has the first cell of each
// index, counted from 1.
pub fn listed(
    unit: Record,
    h: &[u16],
    g: &[u16],
    aux: &[u64],
    firsts: &mut [u16; MAX_WORDS],
) -> bool
    ensures value { result ≡ every.listed unit (lent h.now g.now aux.now) }
    ensures firsts_after { firsts.new ≡ firsts_in unit (lent h.now g.now aux.now) firsts.old }
{
    if !record::sound(unit, h, g, aux) {
        return false;
    }
    first_cells(&g[..unit.cells], firsts);
    for i in 1..=unit.k {
        let number = firsts[i] as usize;
        if number == 0 || !in_chart(unit, h, aux[i], number - 1) {
            return false;
        }
    }
    true
}

// Whether the unit is listed; where it is, word i is the vector of the number i.
pub fn recover_all(
    unit: Record,
    h: &[u16],
    g: &[u16],
    aux: &[u64],
    words: &mut [u64; MAX_WORDS],
) -> bool
    ensures value { result ≡ every.listed unit (lent h.now g.now aux.now) }
    ensures words_after { words.new ≡ list_into unit (lent h.now g.now aux.now) words.old }
{
    let mut firsts = [0u16; MAX_WORDS];
    if !listed(unit, h, g, aux, &mut firsts) {
        return false;
    }
    for number in 1..=unit.k {
        words[number] = from_cell(unit, h, aux[number], firsts[number] as usize - 1).unwrap_or(0);
    }
    true
}
