// Nodes and their tags. The nodes are 0, the ground, and the inputs 1 to n; a variable is an edge between two. A node's tag is twice
// its label and its parity, what it is apart by from the label's node. Joined nodes have one label; a variable whose ends have met is an
// XOR of earlier ones.
ghost use Rattle.std.specs.Prelude.{◌≡◌, map, ◌+◌, ◌≤◌, ◌<◌, length};
ghost use Rattle.lists.specs.First.{place_number};
ghost use Rattle.vectors.specs.Bounds.{max_inputs};
ghost use Rattle.vectors.specs.Variable.{earlier, later};
ghost use Rattle.span.specs.Within.{place_within, within, kinds_within};
ghost use Rattle.span.specs.Span.{first_dependent};
ghost use Rattle.span.specs.Inner.Tags.{start_tags, half, met, turn, joined, tags_on, grounded_on, kept_on, read_off};

use vectors::{Kind, MAX_INPUTS, MAX_VARIABLES, Variable};

// The ground and a node for each input.
const NODES: usize = MAX_INPUTS + 1;

// The node of a position: the ground's where it is past n.
fn node(n: usize, i: u8) -> usize
    ensures { result ≡ place_within n i }
{
    let x = i as usize;
    if n < x { 0 } else { x }
}

#[derive(Clone, Copy)]
struct Edge {
    earlier: usize,
    later: usize,
}

// The ends of a variable.
fn ends(n: usize, kind: Kind) -> Edge
    ensures { (result.earlier ≡ earlier (within n kind)) × (result.later ≡ later (within n kind)) }
{
    match kind {
        Kind::One(i) => Edge {
            earlier: 0,
            later: node(n, i),
        },
        Kind::Two(i, j) => Edge {
            earlier: node(n, i),
            later: node(n, j),
        },
    }
}

// Each node has its own label.
fn start() -> [u8; NODES]
    ensures { result ≡ start_tags (max_inputs + 1) }
{
    std::array::from_fn(|i| 2 * i as u8)
}

// A tag of the label from is turned by d.
fn turned(tag: u8, from: u8, d: u8) -> u8
    ensures { result ≡ turn from d tag }
{
    if tag / 2 == from { tag ^ d } else { tag }
}

// The labels of a and b become one, with a and b apart by value; true where they have met already, and nothing changes.
fn join(tags: &mut [u8], a: usize, b: usize, value: u8) -> bool
    requires { (a < length tags.old) × (b < length tags.old) }
    ensures value { result ≡ met tags.old a b }
    ensures tags_after { tags.new ≡ joined tags.old a b value }
{
    let x = tags[a];
    let y = tags[b];
    let from = x / 2;
    if from == y / 2 {
        return true;
    }
    let d = x ^ y ^ value;
    for tag in tags.iter_mut() {
        *tag = turned(*tag, from, d);
    }
    false
}

#[derive(Clone, Copy)]
pub(crate) struct Walk {
    pub first: Option<usize>,
    pub tags: [u8; NODES],
}

// The place of the first variable that is an XOR of earlier ones, and the tags after all of the variables, with the first one's value as the
// lowest bit of values.
pub(crate) fn by_variables(
    n: usize,
    variables: [Variable; MAX_VARIABLES],
    p: usize,
    values: u64,
) -> Walk
    ensures { (place_number result.first ≡ first_dependent (kinds_within n p variables))
        × (result.tags ≡ tags_on (kinds_within n p variables) values (start_tags (max_inputs + 1))) }
{
    let n = n.min(MAX_INPUTS);
    let mut tags = start();
    let mut rest = values;
    let mut first = None;
    for (i, v) in variables[..p.min(MAX_VARIABLES)].iter().enumerate() {
        let e = ends(n, v.kind);
        let bit = (rest % 2) as u8;
        let inside = join(&mut tags, e.earlier, e.later, bit);
        first = first.or(inside.then_some(i));
        rest /= 2;
    }
    Walk { first, tags }
}

#[derive(Clone, Copy)]
pub(crate) struct Grounded {
    pub kept: u64,
    pub tags: [u8; NODES],
}

// The mask of the inputs that have not met the ground when it is their turn, and the tags after all are joined to it, those with the bits
// of word.
pub(crate) fn by_inputs(n: usize, word: u64, mut tags: [u8; NODES]) -> Grounded
    requires { n ≤ max_inputs }
    ensures { (result.kept ≡ kept_on n 0 (map half tags)) × (result.tags ≡ grounded_on n 0 word tags) }
{
    let mut bits = word;
    let mut kept = 0;
    for j in 0..n {
        let bit = (bits % 2) as u8;
        if !join(&mut tags, j + 1, 0, bit) {
            kept |= 1 << j;
            bits /= 2;
        }
    }
    Grounded { kept, tags }
}

// Each node's parity to the ground.
pub(crate) fn read_off(n: usize, tags: [u8; NODES]) -> u64
    requires { n ≤ max_inputs }
    ensures { result ≡ read_off n 0 tags }
{
    let ground = tags[0] % 2;
    let mut x = 0;
    for (j, tag) in tags[1..=n].iter().enumerate() {
        let bit = (tag % 2 + ground) % 2;
        x |= (bit as u64) << j;
    }
    x
}
