// XOR spans of variables: dependence, the kept inputs, and the vector that a word and a column fix. Each function takes the first p of the
// variables, all 24 where p is more; n above 64 counts as 64, and a position past n as no input.
#![tactic(auto)]

ghost use Rattle.std.specs.Prelude.{◌≡◌};
ghost use Rattle.lists.specs.First.{place_number};
ghost use Rattle.span.specs.Within.{inputs_in, kinds_within};
ghost use Rattle.span.specs.Span.{first_dependent, kept};
ghost use Rattle.span.specs.Fixed.{found_by};

mod tags;

use vectors::{MAX_INPUTS, MAX_VARIABLES, Variable};

// The place from 0 of the first variable that is an XOR of earlier ones.
pub fn first_dependent(n: usize, variables: [Variable; MAX_VARIABLES], p: usize) -> Option<usize>
    ensures { place_number result ≡ first_dependent (kinds_within n p variables) }
{
    tags::by_variables(n, variables, p, 0).first
}

// The mask of the kept inputs.
pub fn kept_inputs(n: usize, variables: [Variable; MAX_VARIABLES], p: usize) -> u64
    ensures { result ≡ kept (inputs_in n) (kinds_within n p variables) }
{
    let w = tags::by_variables(n, variables, p, 0);
    tags::by_inputs(n.min(MAX_INPUTS), 0, w.tags).kept
}

// The vector with this word and this column, where the variables and the mask are sound and some vector has them.
pub fn vector(
    n: usize,
    variables: [Variable; MAX_VARIABLES],
    p: usize,
    n1: usize,
    mask: u64,
    word: u64,
    column: usize,
) -> Option<u64>
    ensures { result ≡ found_by (inputs_in n) n1 (kinds_within n p variables) mask word column }
{
    let m = n.min(MAX_INPUTS);
    let q = p.min(MAX_VARIABLES);
    if q < n1 {
        return None;
    }
    if vectors::beyond(q - n1, column as u64) {
        return None;
    }
    let row = word % (1u64 << n1);
    let w = tags::by_variables(n, variables, p, row + ((column as u64) << n1));
    if w.first.is_some() {
        return None;
    }
    let g = tags::by_inputs(m, word >> n1, w.tags);
    if g.kept != mask {
        return None;
    }
    if vectors::beyond(n1 + m - q, word) {
        return None;
    }
    Some(tags::read_off(m, g.tags))
}
