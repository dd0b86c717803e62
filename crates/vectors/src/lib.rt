// The bounds, the variables of an index generation unit, and what variables make of a word: masks, values, numbers, the comparison word.
#![tactic(auto)]

ghost use Rattle.std.specs.Prelude.{◌≡◌, ◌%◌, ◌^◌, take, replicate, nat_le};
ghost use Rattle.lists.specs.First.{place_number};
ghost use Rattle.vectors.specs.Bits.{place_of};
ghost use Rattle.vectors.specs.Bounds as bounds;
ghost use Rattle.vectors.specs.Bounds.{max_inputs, max_variables};
ghost use Rattle.vectors.specs.Masks.{masks_in, value_by, number_by, word_by};
ghost use Rattle.vectors.specs.Variable as spec;
ghost use Rattle.vectors.specs.Variable.{mask_of, first_faulty, kinds_of, blank_variable};
ghost use Rattle.vectors.specs.Word.{pack_in};

// The bounds of specs/Bounds.antt: inputs of a vector, vectors of a list, cells of G, variables, variables of one part; and what follows from
// them, the rows or columns of one part and the words of AUX.
pub const MAX_INPUTS: usize = 64;

pub const MAX_VECTORS: usize = 1023;

pub const MAX_CELLS: usize = 8192;

pub const MAX_VARIABLES: usize = 24;

pub const MAX_SIDE: usize = 12;

pub const MAX_ROWS: usize = 1 << MAX_SIDE;

pub const MAX_WORDS: usize = MAX_VECTORS + 1;

// One input, or the XOR of two; inputs are counted from 1.
#[derive(Clone, Copy, PartialEq, Eq, Debug)]
pub enum Kind {
    One(u8),
    Two(u8, u8),
}

// Whether a variable counts towards the row number or the column number.
#[derive(Clone, Copy, PartialEq, Eq, Debug)]
pub enum Part {
    Row,
    Column,
}

#[derive(Clone, Copy, PartialEq, Eq, Debug)]
pub struct Variable {
    pub kind: Kind,
    pub part: Part,
}

// Whether x is not low to high.
pub fn outside(low: usize, high: usize, x: usize) -> bool
    ensures { result ≡ bounds.outside low high x }
{
    !(low..=high).contains(&x)
}

// Whether p variables, n1 of them for rows, are more than the bounds allow.
pub fn too_many(p: usize, n1: usize) -> bool
    ensures { result ≡ bounds.too_many p n1 }
{
    MAX_VARIABLES < p || p < n1 || MAX_SIDE < n1 || MAX_SIDE < p - n1
}

// What stands in every unused place.
pub fn blank_variables() -> [Variable; MAX_VARIABLES]
    ensures { result ≡ replicate max_variables blank_variable }
{
    [Variable {
        kind: Kind::One(0),
        part: Part::Row,
    }; MAX_VARIABLES]
}

// Whether a position is not 1 to n, or two are not rising. Less 1 a position 0 wraps past every n, so that one test finds
// it with those above n.
pub fn faulty(n: u8, kind: Kind) -> bool
    ensures { result ≡ spec.faulty n kind }
{
    match kind {
        Kind::One(i) => n <= i.wrapping_sub(1),
        Kind::Two(i, j) => {
            let low = i.wrapping_sub(1);
            let high = j.wrapping_sub(1);
            n <= high || high <= low
        }
    }
}

// The place from 0 of the first of p variables that is faulty.
pub fn first_faulty(n: u8, variables: [Variable; MAX_VARIABLES], p: usize) -> Option<usize>
    ensures { place_number result ≡ first_faulty n (kinds_of (take p variables)) }
{
    variables.iter().take(p).position(|v| faulty(n, v.kind))
}

// The word with input i alone; no bit where a word has no such input.
fn place(i: u8) -> u64
    ensures { result ≡ place_of i % 2 ^ max_inputs }
{
    if (1..=MAX_INPUTS).contains(&(i as usize)) {
        1 << (i - 1)
    } else {
        0
    }
}

// The inputs of a variable.
pub fn mask(kind: Kind) -> u64
    ensures { result ≡ mask_of kind % 2 ^ max_inputs }
{
    match kind {
        Kind::One(i) => place(i),
        Kind::Two(i, j) => place(i) ^ place(j),
    }
}

// 1 where x has an odd number of the mask's inputs.
pub fn value(mask: u64, x: u64) -> u64
    ensures { result ≡ value_by mask x }
{
    ((x & mask).count_ones() % 2) as u64
}

// Whether x has a bit at or above n.
pub fn beyond(n: usize, x: u64) -> bool
    ensures { result ≡ nat_le (2 ^ n) x }
{
    n < MAX_INPUTS && 1 << n <= x
}

// The masks of the first p variables, and 0 after them.
pub fn masks(variables: [Variable; MAX_VARIABLES], p: usize) -> [u64; MAX_VARIABLES]
    ensures { result ≡ masks_in p variables }
{
    let mut masks = [0; MAX_VARIABLES];
    for (i, v) in variables[..p.min(MAX_VARIABLES)].iter().enumerate() {
        masks[i] = mask(v.kind);
    }
    masks
}

// The values under the masks as a number, the first as lowest bit; its low 64 bits where there are more masks.
pub fn number(masks: &[u64], x: u64) -> u64
    ensures { result ≡ number_by masks.now x % 2 ^ max_inputs }
{
    let mut r = 0;
    for mask in masks.iter().rev() {
        r = (r << 1) + value(*mask, x);
    }
    r
}

// The n low bits of y.
pub fn low(y: u64, n: u64) -> u64
    ensures { result ≡ y % 2 ^ n }
{
    if n < MAX_INPUTS as u64 {
        y % (1u64 << n)
    } else {
        y
    }
}

// The bits of x at the set positions of the mask, the lowest first, a run of positions at a time.
// The lowest run is cleared where it stands: a shorter chain from mask to mask than shifting it out.
pub fn pack(mask: u64, x: u64) -> u64
    ensures { result ≡ pack_in max_inputs mask x }
{
    let mut w = 0;
    let mut k = 0;
    let mut m = mask;
    // A while: the step is the length of a run, and what shrinks is the mask itself.
    while m != 0 {
        // How far the run moves down.
        let gap = m.trailing_zeros() as u64 - k;
        // The run carried over; past the top it is 0.
        let above = (m | (m - 1)).wrapping_add(1);
        let rest = m & above;
        w += (x & (m - rest)) >> gap;
        k = above.trailing_zeros() as u64 - gap;
        m = rest;
    }
    w
}

// The row number of x, and above it the kept inputs; the low 64 bits of both.
pub fn word(rows: &[u64], kept: u64, x: u64) -> u64
    ensures { result ≡ word_by rows.now kept x % 2 ^ max_inputs }
{
    let row = number(rows, x);
    if MAX_INPUTS <= rows.len() {
        return row;
    }
    row.wrapping_add(pack(kept, x) << rows.len())
}
