// Checks 1 to 10, in their order.
ghost use Rattle.std.specs.Prelude.{◌≡◌, map, ◌||◌, suc, ◌≤◌, ltb, length, take};
ghost use Rattle.vectors.specs.Bounds.{max_inputs, max_vectors, max_variables};
ghost use Rattle.vectors.specs.Masks.{number_by};
ghost use Rattle.vectors.specs.Variable.{number_of, kinds_of};
ghost use Rattle.lists.specs.First.{place_number, repeated};
ghost use Rattle.build.specs.Built.{checked, refused_as};
ghost use Rattle.build.specs.Refusals.{first_beyond, ladder, list_checks, given_checks, refuse_if};

use refusal::{Refusal, Refused};
use vectors::{MAX_CELLS, MAX_INPUTS, MAX_VARIABLES, MAX_VECTORS, MAX_WORDS, Variable};

// Whether G or AUX is too short for the cells and the vectors.
fn too_short(k: usize, cells: usize, g: usize, aux: usize) -> bool
    ensures { result ≡ (ltb g cells || ltb aux (suc k)) }
{
    g < cells || aux <= k
}

// The place from 0 of the first vector that has a bit beyond n.
fn first_beyond(n: usize, vectors: &[u64]) -> Option<usize>
    ensures { place_number result ≡ first_beyond n vectors.now }
{
    vectors.iter().position(|x| vectors::beyond(n, *x))
}

// Checks 1 to 7; two is whether check 2 refuses, and g and aux are the lengths of G and AUX.
#[tactic(auto, using(crate::proofs::Refusing::Checks::beyond_low, crate::proofs::Refusing::Checks::repeats_few, crate::proofs::Refusing::Checks::repeats_low), unfolding(crate::specs::Refusals::ladder))]
pub(crate) fn check_list(
    n: usize,
    two: bool,
    cells: usize,
    vectors: &[u64],
    g: usize,
    aux: usize,
) -> Result<(), Refused>
    ensures { checked result ≡ refused_as (ladder (list_checks n (refuse_if 2 two) cells vectors.now g aux)) }
{
    let k = vectors.len();
    if vectors::outside(1, MAX_INPUTS, n) {
        return Err(Refusal::Inputs.at(0));
    }
    if two {
        return Err(Refusal::Degree.at(0));
    }
    if vectors::outside(1, MAX_VECTORS, k) {
        return Err(Refusal::Vectors.at(0));
    }
    if vectors::outside(1, MAX_CELLS, cells) {
        return Err(Refusal::Cells.at(0));
    }
    if too_short(k, cells, g, aux) {
        return Err(Refusal::ShortTables.at(0));
    }
    if let Some(i) = first_beyond(n, vectors) {
        return Err(Refusal::Beyond.at(i + 1));
    }
    if let Some(i) = repeats::first_repeat(vectors) {
        return Err(Refusal::Repeated.at(i + 1));
    }
    Ok(())
}

// The number of each vector, from the front of out on.
fn numbers(masks: &[u64], vectors: &[u64], out: &mut [u64])
    requires { (length masks.now ≤ max_variables) × (length vectors.now ≤ length out.old) }
    ensures { take (length vectors.now) out.new ≡ map (number_by masks.now) vectors.now }
{
    for (i, x) in vectors.iter().enumerate() {
        out[i] = vectors::number(masks, *x);
    }
}

// The place from 0 of the first vector that agrees with an earlier one on every variable.
// Not inlined: its arrays are given back before rows are placed.
#[inline(never)]
fn first_alike(variables: [Variable; MAX_VARIABLES], p: usize, vectors: &[u64]) -> Option<usize>
    requires { (p ≤ max_variables) × (length vectors.now ≤ max_vectors) }
    ensures { place_number result ≡ repeated (map (number_of (kinds_of (take p variables))) vectors.now) }
{
    let masks = vectors::masks(variables, p);
    let mut out = [0u64; MAX_WORDS];
    numbers(&masks[..p], vectors, &mut out);
    repeats::first_repeat(&out[..vectors.len()])
}

// Checks 8 to 10 of given variables.
#[tactic(auto, using(crate::proofs::Refusing::Checks::faulty_low, crate::proofs::Refusing::Checks::dependent_low, crate::proofs::Refusing::Checks::alike_low, crate::proofs::Refusing::Checks::dependent_same), unfolding(crate::specs::Refusals::ladder))]
pub(crate) fn check_given(
    n: usize,
    variables: [Variable; MAX_VARIABLES],
    p: usize,
    vectors: &[u64],
) -> Result<(), Refused>
    requires { (n ≤ max_inputs) × (p ≤ max_variables) × (length vectors.now ≤ max_vectors) }
    ensures { checked result ≡ refused_as (ladder (given_checks n (kinds_of (take p variables)) vectors.now)) }
{
    if let Some(i) = vectors::first_faulty(n as u8, variables, p) {
        return Err(Refusal::Faulty.at(i + 1));
    }
    if let Some(i) = span::first_dependent(n, variables, p) {
        return Err(Refusal::Dependent.at(i + 1));
    }
    if let Some(i) = first_alike(variables, p, vectors) {
        return Err(Refusal::Alike.at(i + 1));
    }
    Ok(())
}
