// The variables that the choosing rule takes for a list.
//
// Vectors that agree on all variables so far form a group (groups). A step (rule, best) lays the groups' words (words) out in blocks of 64
// items (lay) and turns each block on its side where it stands (draw). Each input then has a column in each block, with a bit for each item:
// that is the sheet (sheet). A candidate is the XOR of two columns: its ones, counted 64 items at a time, say how many pairs it tells apart
// (judge). The search keeps the best of the candidates (search), and the groups are split by it.
#![tactic(auto)]

ghost use Rattle.std.specs.Prelude.{◌≡◌};
ghost use Rattle.choice.specs.Choosing.{told, chosen_in};

use vectors::{MAX_INPUTS, MAX_VARIABLES, MAX_VECTORS, Variable};

mod best;
mod draw;
mod groups;
mod judge;
mod lay;
mod rule;
mod search;
mod sheet;
mod words;

// The variables in their places, all marked row, and how many there are: an array and a count, since there is no heap.
#[derive(Clone, Copy)]
pub struct Chosen {
    pub variables: [Variable; MAX_VARIABLES],
    pub p: usize,
}

// The variables of the rule; as an error those on all of which two vectors still agree, and none where n is not 1 to 64 or there are more
// than 1,023 vectors.
// Not inlined: its arrays are given back before rows are placed.
#[inline(never)]
pub fn choose(vectors: &[u64], n: u8, degree: usize) -> Result<Chosen, Chosen>
    ensures { told result ≡ chosen_in vectors.now n degree }
{
    if vectors::outside(1, MAX_INPUTS, n as usize) || MAX_VECTORS < vectors.len() {
        let variables = vectors::blank_variables();
        return Err(Chosen { variables, p: 0 });
    }
    rule::choose(vectors, n, degree)
}
