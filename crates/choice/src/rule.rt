// The rule: the best candidate is taken, and the groups are split by it, until no group is left or all places are used.
//
// Tied inputs are left out. Once a variable of the inputs i < j is taken (i = 0 for a single one), x_i and x_j are equal or different
// throughout each group, for good. So a candidate with x_j splits every group as the one with x_i in its place does, which stands earlier,
// and x_i with x_j tells nothing apart: no candidate with x_j can be the first of the best any more.
ghost use Rattle.std.specs.Prelude.{◌≡◌, map, ◌≤◌, ◌<◌, length, get_or, take};
ghost use Rattle.lists.specs.Members.{All};
ghost use Rattle.vectors.specs.Bounds.{max_inputs, max_vectors};
ghost use Rattle.choice.specs.Choosing.{told, chosen_by};
ghost use Rattle.choice.specs.Inner.Ties.{later_of};

use crate::lay::MAX_BLOCKS;
use crate::words::Words;
use crate::{Chosen, best, groups};
use vectors::{Kind, MAX_VARIABLES, MAX_WORDS, Part, Variable};

// The vectors of the members, in their order.
fn gather(vectors: &[u64], order: &[u16], words: &mut [u64])
    requires { All (λ i. i < length vectors.now) order.now × (length order.now ≤ length words.old) }
    ensures { take (length order.now) words.new ≡ map (λ i. get_or vectors.now i 0) order.now }
{
    for (i, m) in order.iter().enumerate() {
        words[i] = vectors[*m as usize];
    }
}

// The word with the later input of a variable alone.
fn later(kind: Kind) -> u64
    ensures { result ≡ later_of kind }
{
    match kind {
        Kind::One(j) => vectors::mask(Kind::One(j)),
        Kind::Two(_, j) => vectors::mask(Kind::One(j)),
    }
}

// The variables by the rule. The items are large, so they are stored once and lent to each step.
pub(crate) fn choose(vectors: &[u64], n: u8, degree: usize) -> Result<Chosen, Chosen>
    requires { (0 < n) × (n ≤ max_inputs) × (length vectors.now ≤ max_vectors) }
    ensures { told result ≡ chosen_by vectors.now n degree }
{
    let mut words = [0u64; MAX_WORDS];
    // What the items start with does not matter; ones are stored without a call of memset.
    let mut items = [1u64; 64 * MAX_BLOCKS];
    let mut variables = vectors::blank_variables();
    let mut groups = groups::all(vectors.len());
    let mut tied: u64 = 0;
    for p in 0..MAX_VARIABLES {
        if groups.count == 0 {
            return Ok(Chosen { variables, p });
        }
        // Copies: where the step reads the groups' own arrays, the search is slower.
        let order = groups.order;
        let sizes = groups.sizes;
        let m = groups.members;
        let q = groups.count;
        gather(vectors, &order[..m], &mut words);
        let members = Words {
            words: &words[..m],
            sizes: &sizes[..q],
        };
        let kind = best::best(&members, n, tied, degree, &mut items);
        groups = groups::refined(vectors, vectors::mask(kind), groups);
        tied |= later(kind);
        variables[p] = Variable {
            kind,
            part: Part::Row,
        };
    }
    let all = Chosen {
        variables,
        p: MAX_VARIABLES,
    };
    if groups.count == 0 { Ok(all) } else { Err(all) }
}
