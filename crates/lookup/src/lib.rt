// The index of a key. One pass goes over the variables: it tests each and takes its value, and the values make one number, with the row in
// its low n1 bits and the column above. The row is compared first, and the kept inputs are packed only where it agrees.
#![tactic(auto)]

ghost use Rattle.std.specs.Prelude.{◌≡◌, ◌≢◌, MatchOption, false, ◌%◌, ◌^◌, ◌≤◌, ◌<◌, length, take};
ghost use Rattle.vectors.specs.Bits.{place_of};
ghost use Rattle.vectors.specs.Bounds.{max_inputs, max_variables};
ghost use Rattle.vectors.specs.Variable.{faulty, first_faulty, mask_of, kinds_of, number_of, row_of};
ghost use Rattle.record.specs.Tables.{lent};
ghost use Rattle.record.specs.Record.{kinds_in};
ghost use Rattle.record.specs.Inner.Formed.{InBounds, RightInputs, WellFormed};
ghost use Rattle.lookup.specs.Lookup as spec;
ghost use Rattle.lookup.specs.Lookup.{told, lookup_of};

use record::Record;
use refusal::Refusal;
use vectors::{Kind, MAX_VARIABLES, Variable};

// The word with input i alone.
fn place_within(i: u8) -> u64
    requires { (0 < i) × (i ≤ max_inputs) }
    ensures { result ≡ place_of i % 2 ^ max_inputs }
{
    1u64 << (i - 1)
}

// The inputs of a variable that is not faulty: its positions are tested already.
fn mask_within(kind: Kind) -> u64
    requires { faulty max_inputs kind ≡ false }
    ensures { result ≡ mask_of kind % 2 ^ max_inputs }
{
    match kind {
        Kind::One(i) => place_within(i),
        Kind::Two(i, j) => place_within(i) ^ place_within(j),
    }
}

// The values of the variables on x as a number, the first as lowest bit; None where one of the variables is faulty.
fn take_values(n: u8, variables: [Variable; MAX_VARIABLES], p: usize, x: u64) -> Option<u64>
    requires { (n ≤ max_inputs) × (p ≤ max_variables) }
    ensures { let ks = kinds_of (take p variables) in
        MatchOption result (first_faulty n ks ≢ 0) (λ v. (first_faulty n ks ≡ 0) × (v ≡ number_of ks x)) }
{
    let mut number: u64 = 0;
    for i in (0..p).rev() {
        let kind = variables[i].kind;
        if vectors::faulty(n, kind) {
            return None;
        }
        number = number * 2 + vectors::value(mask_within(kind), x);
    }
    Some(number)
}

// The answer where the cell holds i: i if AUX[i] has the row of x and its kept inputs.
fn compared(unit: Record, aux: &[u64], x: u64, row: u64, i: usize) -> Result<usize, Refusal>
    requires known { InBounds unit × RightInputs unit }
    requires words { unit.k < length aux.now }
    requires row { (row ≡ row_of unit.n1 (kinds_in unit) x) × (row < 2 ^ unit.n1) }
    ensures { told result ≡ spec.compared unit aux.now x i }
{
    if i == 0 {
        return Ok(0);
    }
    if unit.k < i {
        return Err(Refusal::NoUnit);
    }
    let held = aux[i];
    let held_row = vectors::low(held, unit.n1 as u64);
    if held_row != row {
        return Ok(0);
    }
    let held_rest = held >> unit.n1;
    let rest = vectors::pack(unit.kept, x);
    if held_rest != rest {
        return Ok(0);
    }
    Ok(i)
}

// The answer of a unit that is well formed, whose variables have those values on x.
fn answer(
    unit: Record,
    h: &[u16],
    g: &[u16],
    aux: &[u64],
    x: u64,
    values: u64,
) -> Result<usize, Refusal>
    requires formed { WellFormed unit (lent h.now g.now aux.now) }
    requires values { values ≡ number_of (kinds_in unit) x }
    ensures { told result ≡ spec.answer unit (lent h.now g.now aux.now) x }
{
    let row = vectors::low(values, unit.n1 as u64);
    let column = values >> unit.n1;
    let cell = h[row as usize] as usize + column as usize;
    if unit.cells <= cell {
        return Ok(0);
    }
    compared(unit, aux, x, row, record::index(g[cell]))
}

// The index of the registered vector x, or 0: no Option in the Ok, since the 0 of a key that is not registered is what `lookup_of` and `index_of` say.
pub fn lookup(unit: Record, h: &[u16], g: &[u16], aux: &[u64], x: u64) -> Result<usize, Refusal>
    ensures { told result ≡ lookup_of unit (lent h.now g.now aux.now) x }
{
    if !record::framed(unit, h, g, aux) {
        return Err(Refusal::NoUnit);
    }
    let Some(values) = take_values(unit.n as u8, unit.variables, unit.p, x) else {
        return Err(Refusal::NoUnit);
    };
    if vectors::beyond(unit.n, x) {
        return Err(Refusal::Beyond);
    }
    answer(unit, h, g, aux, x, values)
}
