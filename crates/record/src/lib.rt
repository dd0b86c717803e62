// The record of a unit, whether record and tables are well formed, and what a build or a reader works out for a record.
#![tactic(auto)]

ghost use Rattle.std.specs.Prelude.{◌≡◌, ◌-◌, ◌^◌, ◌≤◌, take};
ghost use Rattle.vectors.specs.Bounds.{max_inputs};
ghost use Rattle.vectors.specs.Variable.{kinds_of};
ghost use Rattle.record.specs.Tables.{lent, index_in};
ghost use Rattle.record.specs.Record.{mark_number, mark_of, blank_record, variables_of, log2_up, excess_of};
ghost use Rattle.record.specs.Formed.{is_in_bounds, right_kept, long_enough, framed_by, well_formed, right_record, sound as Formed·sound};
ghost use Rattle.record.specs.Inner.Formed.{InBounds};
ghost use Rattle.record.specs.Inner.Parts.{part_at};

use vectors::{MAX_CELLS, MAX_INPUTS, MAX_VARIABLES, MAX_VECTORS, Part, Variable};

// Whether a build left the unit, or vectors were added to it since.
#[derive(Clone, Copy, PartialEq, Eq, Debug)]
pub enum Mark {
    Built,
    Amended,
}

// What a build leaves beside the tables; cells is L. The part marks in it are set from n1, and nothing reads them.
// The slots and their number p stand side by side: no heap, and `record_of` says what stands in the slots past p.
#[derive(Clone, Copy, PartialEq, Eq, Debug)]
pub struct Record {
    pub n: usize,
    pub p: usize,
    pub n1: usize,
    pub k: usize,
    pub cells: usize,
    pub kept: u64,
    pub tries: u64,
    pub excess: i64,
    pub variables: [Variable; MAX_VARIABLES],
    pub mark: Mark,
}

// A mark as a number, in a file and in the record for C.
impl From<Mark> for u8 {
    ghost from_gives = { λ mark number. number ≡ mark_number mark };

    fn from(mark: Mark) -> u8 {
        match mark {
            Mark::Built => 0,
            Mark::Amended => 1,
        }
    }
}

// The mark that a number says: any but 0 is amended.
impl From<u64> for Mark {
    ghost from_gives = { λ number mark. mark ≡ mark_of number };

    fn from(number: u64) -> Mark {
        if number == 0 {
            Mark::Built
        } else {
            Mark::Amended
        }
    }
}

// The record beside a refusal.
pub fn blank() -> Record
    ensures { result ≡ blank_record }
{
    let variables = vectors::blank_variables();
    Record {
        n: 0,
        p: 0,
        n1: 0,
        k: 0,
        cells: 0,
        kept: 0,
        tries: 0,
        excess: 0,
        variables,
        mark: Mark::Built,
    }
}

// The index that a word of G holds, 0 for none. Every reader of G goes through it.
pub fn index(word: u16) -> usize
    ensures { result ≡ index_in word }
{
    usize::from(word)
}

// Whether the record's numbers are in bounds.
fn in_bounds(unit: Record) -> bool
    ensures { result ≡ is_in_bounds unit }
{
    !vectors::outside(1, MAX_INPUTS, unit.n)
        && !vectors::outside(1, MAX_VECTORS, unit.k)
        && !vectors::outside(1, MAX_CELLS, unit.cells)
        && unit.p <= unit.n
        && !vectors::too_many(unit.p, unit.n1)
}

// Whether there are n - p kept inputs, all within n.
fn right_kept(unit: Record) -> bool
    requires { InBounds unit }
    ensures { result ≡ right_kept unit }
{
    unit.kept.count_ones() as usize == unit.n - unit.p && !vectors::beyond(unit.n, unit.kept)
}

// Whether the tables have the rows, the cells and the vectors. No slice has 2^64 words.
// The three tables are three parameters, here and in every crate above: C lends three, and README's calls name them.
pub fn long_enough(unit: Record, h: &[u16], g: &[u16], aux: &[u64]) -> bool
    ensures { result ≡ long_enough unit (lent h.now g.now aux.now) }
{
    unit.n1 < MAX_INPUTS
        && 1usize << unit.n1 <= h.len()
        && unit.cells <= g.len()
        && unit.k < aux.len()
}

// Whether a unit is well formed but for its variables. Lookup tests those while it takes their values.
pub fn framed(unit: Record, h: &[u16], g: &[u16], aux: &[u64]) -> bool
    ensures { result ≡ framed_by unit (lent h.now g.now aux.now) }
{
    in_bounds(unit) && right_kept(unit) && long_enough(unit, h, g, aux)
}

pub fn well_formed(unit: Record, h: &[u16], g: &[u16], aux: &[u64]) -> bool
    ensures { result ≡ well_formed unit (lent h.now g.now aux.now) }
{
    framed(unit, h, g, aux) && vectors::first_faulty(unit.n as u8, unit.variables, unit.p).is_none()
}

// Whether a record's numbers are in bounds, and no variable is faulty or an XOR of earlier ones.
pub fn right(unit: Record) -> bool
    ensures { result ≡ right_record unit }
{
    in_bounds(unit)
        && vectors::first_faulty(unit.n as u8, unit.variables, unit.p).is_none()
        && span::first_dependent(unit.n, unit.variables, unit.p).is_none()
}

// Whether a unit is well formed, its variables are independent, and its kept inputs those of the rule. Those of the rule are n - p, within n.
pub fn sound(unit: Record, h: &[u16], g: &[u16], aux: &[u64]) -> bool
    ensures { result ≡ Formed·sound unit (lent h.now g.now aux.now) }
{
    right(unit)
        && unit.kept == span::kept_inputs(unit.n, unit.variables, unit.p)
        && long_enough(unit, h, g, aux)
}

// The part mark of place i.
fn part_at(i: usize, n1: usize) -> Part
    ensures { result ≡ part_at i n1 }
{
    if i < n1 { Part::Row } else { Part::Column }
}

// The first p variables with their parts from n1, and blank ones after them.
pub fn marked(
    variables: [Variable; MAX_VARIABLES],
    p: usize,
    n1: usize,
) -> [Variable; MAX_VARIABLES]
    ensures { result ≡ variables_of n1 (kinds_of (take p variables)) }
{
    let mut m = vectors::blank_variables();
    for i in 0..p.min(MAX_VARIABLES) {
        let part = part_at(i, n1);
        m[i] = Variable {
            part,
            ..variables[i]
        };
    }
    m
}

// The smallest q with 2^q at least m.
fn log2_up(m: u64) -> u32
    requires { m ≤ 2 ^ (max_inputs - 1) }
    ensures { result ≡ log2_up m }
{
    m.next_power_of_two().ilog2()
}

// How many variables more than the floor for k vectors; below 0 where they are fewer.
pub fn excess(p: u32, k: u32) -> i64
    ensures { result ≡ excess_of p k }
{
    i64::from(p) - i64::from(log2_up(u64::from(k)))
}
