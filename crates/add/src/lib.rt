// One vector added to a unit. Of the numbers registered only that whose first cell is the new vector's can be its own, or agree with it on
// every variable; so no list is made.
#![tactic(auto)]

ghost use Rattle.std.specs.Prelude.{◌≡◌, List, ℕ, suc, ◌^◌, ◌≤◌, ◌<◌, length, set, MatchOption};
ghost use Rattle.vectors.specs.Bounds.{max_variables, max_vectors, max_words, max_rows};
ghost use Rattle.record.specs.Tables.{lent};
ghost use Rattle.record.specs.Inner.Formed.{InBounds, RightInputs};
ghost use Rattle.build.specs.Refusals.{ladder};
ghost use Rattle.build.specs.Built.{told, checked, refused_as};
ghost use Rattle.build.specs.Build.{after};
ghost use Rattle.add.specs.Add as spec;
ghost use Rattle.add.specs.Add.{add_of};
ghost use Rattle.add.specs.Inner.Seats.{seat_of, FirstsAre, NumberFound};
ghost use Rattle.add.specs.Inner.Checks.{alike_at, checks};
ghost use Rattle.add.specs.Inner.Moves.{Ready, free_in, moved_by, placed_by};

use record::{Mark, Record};
use refusal::{Refusal, Refused};
use vectors::{MAX_VECTORS, MAX_WORDS};

mod row;

// Where a vector belongs: its row, of n1 bits, what H says of that row, its column, and its comparison word.
#[derive(Clone, Copy)]
pub(crate) struct Seat {
    pub n1: u64,
    pub row: u64,
    pub displacement: usize,
    pub column: usize,
    pub word: u64,
}

// The vectors of the row of a seat: those whose words in AUX have it. AUX has a word for each vector and one more, firsts the first cell of
// each, counted from 1.
#[derive(Clone, Copy)]
pub(crate) struct Mates<'a> {
    pub seat: Seat,
    pub aux: &'a [u64],
    pub firsts: &'a [u16],
    ghost words: { (0 < length aux.now) × (length aux.now < max_words) },
    ghost cells: { length aux.now ≤ length firsts.now },
    ghost column: { seat.column < max_rows },
}

// Where x belongs.
fn find_seat(unit: Record, h: &[u16], x: u64) -> Seat
    requires formed { InBounds unit × RightInputs unit × (2 ^ unit.n1 ≤ length h.now) }
    ensures seat { result ≡ seat_of unit h.now x }
    ensures low { result.displacement < 2 ^ 16 }
{
    let masks = vectors::masks(unit.variables, unit.p);
    let values = vectors::number(&masks[..unit.p], x);
    let n1 = unit.n1 as u64;
    let row = vectors::low(values, n1);
    let displacement = h[row as usize] as usize;
    let column = (values >> n1) as usize;
    let word = row + (vectors::pack(unit.kept, x) << n1);
    Seat {
        n1,
        row,
        displacement,
        column,
        word,
    }
}

// The number whose first cell this is.
fn number_at(unit: Record, g: &[u16], firsts: &[u16], cell: usize) -> Option<usize>
    requires sizes { (unit.cells ≤ length g.now) × (unit.k < length firsts.now) }
    ensures { (h aux : List ℕ) → FirstsAre unit (lent h g.now aux) firsts.now → NumberFound unit (lent h g.now aux) cell result }
{
    if unit.cells <= cell {
        return None;
    }
    let i = record::index(g[cell]);
    if vectors::outside(1, unit.k, i) {
        return None;
    }
    if firsts[i] as usize != cell + 1 {
        return None;
    }
    Some(i)
}

// Whether a number is there, and AUX has the row at it.
fn alike(aux: &[u64], seat: Seat, number: Option<usize>) -> bool
    requires { MatchOption number Unit (λ i. i < length aux.now) }
    ensures { result ≡ alike_at seat aux.now number }
{
    number.is_some_and(|i| vectors::low(aux[i], seat.n1) == seat.row)
}

// Refusals 40, 3, 5 and 10, by the number whose first cell is that of the new vector.
#[tactic(auto, using(crate::proofs::Refusing::at_number), unfolding(build::specs::Refusals::ladder))]
fn check(unit: Record, aux: &[u64], seat: Seat, number: Option<usize>) -> Result<(), Refused>
    requires few { unit.k ≤ max_vectors }
    requires number_in { MatchOption number Unit (λ i. (0 < i) × (i < length aux.now)) }
    ensures { checked result ≡ refused_as (ladder (checks unit aux.now seat number)) }
{
    if let Some(i) = number {
        if aux[i] == seat.word {
            return Err(Refusal::Registered.at(i));
        }
    }
    if MAX_VECTORS <= unit.k {
        return Err(Refusal::Vectors.at(0));
    }
    if aux.len() < unit.k + 2 {
        return Err(Refusal::ShortTables.at(0));
    }
    if alike(aux, seat, number) {
        return Err(Refusal::Alike.at(unit.k + 1));
    }
    Ok(())
}

// The record with one vector more.
fn amended(unit: Record) -> Record
    requires { (unit.k ≤ max_vectors) × (unit.p ≤ max_variables) }
    ensures { result ≡ spec.amended unit }
{
    let excess = record::excess(unit.p as u32, (unit.k + 1) as u32);
    Record {
        k: unit.k + 1,
        excess,
        mark: Mark::Amended,
        ..unit
    }
}

// The record of an accepted addition, and the comparison word in AUX.
fn accept(unit: Record, word: u64, aux: &mut [u64]) -> Record
    requires { (unit.k ≤ max_vectors) × (unit.p ≤ max_variables) × (suc unit.k < length aux.old) }
    ensures value { result ≡ spec.amended unit }
    ensures aux_after { aux.new ≡ set aux.old (suc unit.k) word }
{
    aux[unit.k + 1] = word;
    amended(unit)
}

// Whether the cell is below L and free.
fn free(g: &[u16], cells: usize, cell: usize) -> bool
    requires { cells ≤ length g.now }
    ensures { result ≡ free_in g.now cells cell }
{
    cell < cells && g[cell] == 0
}

// Moves the row, with the new vector in it, to its first fit.
// H, G and AUX are no struct: the callers of add have them as three slices (the C interface), and it would be taken apart here.
fn move_row(
    unit: Record,
    h: &mut [u16],
    g: &mut [u16],
    aux: &mut [u64],
    firsts: &[u16],
    seat: Seat,
) -> Result<Record, Refused>
    requires { Ready unit (lent h.old g.old aux.old) firsts.now seat }
    ensures { after (told result) h.new g.new aux.new
        ≡ moved_by unit (lent h.old g.old aux.old) firsts.now seat }
{
    let words = &aux[..unit.k + 1];
    let row = Mates {
        seat,
        aux: words,
        firsts,
    };
    let fit = row::refit(row, &mut g[..unit.cells]);
    match fit {
        Ok(d) => {
            h[seat.row as usize] = d as u16;
            Ok(accept(unit, seat.word, aux))
        }
        Err(_) => Err(Refusal::NoPlace(0).at(seat.row as usize)),
    }
}

// Places the new vector: in its cell, if there is room, else with its row moved.
fn place_in(
    unit: Record,
    h: &mut [u16],
    g: &mut [u16],
    aux: &mut [u64],
    firsts: &[u16],
    seat: Seat,
) -> Result<Record, Refused>
    requires { Ready unit (lent h.old g.old aux.old) firsts.now seat }
    ensures { after (told result) h.new g.new aux.new
        ≡ placed_by unit (lent h.old g.old aux.old) firsts.now seat }
{
    let cell = seat.displacement + seat.column;
    if free(g, unit.cells, cell) {
        g[cell] = (unit.k + 1) as u16;
        return Ok(accept(unit, seat.word, aux));
    }
    move_row(unit, h, g, aux, firsts, seat)
}

// Registers x as the vector k + 1.
pub fn add(
    unit: Record,
    h: &mut [u16],
    g: &mut [u16],
    aux: &mut [u64],
    x: u64,
) -> Result<Record, Refused>
    ensures { after (told result) h.new g.new aux.new
        ≡ add_of unit (lent h.old g.old aux.old) x }
{
    let mut firsts = [0u16; MAX_WORDS];
    if !recover::listed(unit, h, g, aux, &mut firsts) {
        return Err(Refusal::NoUnit.at(0));
    }
    if vectors::beyond(unit.n, x) {
        return Err(Refusal::Beyond.at(unit.k + 1));
    }
    let seat = find_seat(unit, h, x);
    let number = number_at(unit, g, &firsts, seat.displacement + seat.column);
    check(unit, aux, seat, number)?;
    place_in(unit, h, g, aux, &firsts, seat)
}
