// The groups laid out as items, 64 to a block. There are two ways, and both say how many pairs a candidate tells apart.
//
// A group of more than 11 members is large. Its items are its members, and it begins a block of its own: with a ones and b zeros, a * b pairs
// are told apart. The last of its blocks is filled up with zeros and gets the group's size as its end; any other block has the end 0.
// Of a small group the items are its pairs, the XOR of each two members: a 1 is a pair told apart. Small groups follow each other without
// a gap, after the large ones. Each of their blocks gets a rest, what can be told apart from that block on at most.
//
// A small group of s members has (s - 1) / 2 items for each member, so at most 5; a large one has at most a block for each 12 members. So the
// items of 1,023 members take at most 88 blocks.
ghost use Rattle.std.specs.Prelude.{◌≡◌, map, ◌+◌, ◌-◌, ◌*◌, ◌≤◌, length, take, replicate};
ghost use Rattle.std.specs.Int.Bits.{bit_xor};
ghost use Rattle.std.proofs.lemmas.List.Edits.{sets};
ghost use Rattle.lists.specs.Cut.{cut};
ghost use Rattle.choice.specs.Inner.Layout.{pairs_of, whole_items, max_blocks};
ghost use Rattle.choice.specs.Inner.Gain.{most_of, small_most};
ghost use Rattle.choice.specs.Inner.Laid.{WholeLaid, PairsLaid, LaidOut};

use crate::judge;
use crate::words::Words;

// The members of a group that is laid by its pairs, at most; and the blocks that the items of all groups take, at most.
const PAIRED_MOST: u16 = 11;

pub(crate) const MAX_BLOCKS: usize = 88;

// How many blocks hold large groups, and how many items there are, with the 64 of each of these blocks.
#[derive(Clone, Copy)]
pub(crate) struct Laid {
    pub whole: usize,
    pub items: usize,
}

// Zeros, from place at until another.
fn zero(to: &mut [u64], at: usize, until: usize)
    requires { (at ≤ until) × (until ≤ length to.old) }
    ensures { to.new ≡ sets to.old at (replicate (until - at) 0) }
{
    to[at..until].fill(0);
}

// Each of the words XOR x, from place at on.
fn xored(x: u64, words: &[u64], out: &mut [u64], at: usize)
    requires { at + length words.now ≤ length out.old }
    ensures { out.new ≡ sets out.old at (map (bit_xor x) words.now) }
{
    for (i, word) in words.iter().enumerate() {
        out[at + i] = x ^ *word;
    }
}

// The pairs of a group, from place at on; the place after them.
fn pairs(group: &[u64], out: &mut [u64], at: usize) -> usize
    requires { at + length (pairs_of group.now) ≤ length out.old }
    ensures { (out.new ≡ sets out.old at (pairs_of group.now)) × (result ≡ at + length (pairs_of group.now)) }
{
    let mut w = at;
    for (i, x) in group.iter().enumerate() {
        let others = &group[i + 1..];
        xored(*x, others, out, w);
        w += others.len();
    }
    w
}

// The large groups, each from a new block on, with zeros up to the end of its last; how many blocks they take.
fn lay_whole(groups: &Words, items: &mut [u64], ends: &mut [u16]) -> usize
    requires { (length items.old ≡ 64 * max_blocks) × (ends.old ≡ replicate max_blocks 0) }
    ensures { WholeLaid (cut groups.now.sizes.now groups.now.words.now) items.new ends.new result }
{
    let mut whole = 0;
    let mut from = 0;
    for s in groups.sizes {
        let size = *s as usize;
        let start = from;
        from += size;
        if *s > PAIRED_MOST {
            let at = 64 * whole;
            xored(0, &groups.words[start..from], items, at);
            whole += (size + 63) / 64;
            zero(items, at + size, 64 * whole);
            ends[whole - 1] = *s;
        }
    }
    whole
}

// The pairs of the small groups, from place at on; the place after them. Small is what these groups have at most; a block gets what those of
// them have that are not wholly before it.
fn lay_pairs(groups: &Words, items: &mut [u64], rests: &mut [u64], at: usize, small: u64) -> usize
    requires len { let gs = cut groups.now.sizes.now groups.now.words.now in
        (length items.old ≡ 64 * max_blocks) × (take at items.old ≡ whole_items gs) × (at ≡ length (whole_items gs)) }
    requires rests_len { (length rests.old ≡ max_blocks) × (small ≡ small_most (cut groups.now.sizes.now groups.now.words.now)) }
    ensures { PairsLaid (cut groups.now.sizes.now groups.now.words.now) items.new rests.new result }
{
    let mut left = small;
    let mut b = at / 64;
    let mut w = at;
    let mut from = 0;
    for size in groups.sizes {
        let s = *size;
        let start = from;
        from += s as usize;
        if s <= PAIRED_MOST {
            w = pairs(&groups.words[start..from], items, w);
            let rest = left;
            left -= (s * s / 4) as u64;
            // A group has at most 55 pairs, so it reaches at most one new block.
            if 64 * b < w {
                rests[b] = rest;
                b += 1;
            }
        }
    }
    w
}

// The items of the groups: the large groups first, each from a new block on, then the pairs of the small ones. Most is what the groups have
// at most.
pub(crate) fn lay(
    groups: &Words,
    most: u64,
    items: &mut [u64],
    ends: &mut [u16],
    rests: &mut [u64],
) -> Laid
    requires most { most ≡ most_of groups.now.sizes.now }
    requires len { (length items.old ≡ 64 * max_blocks) × (ends.old ≡ replicate max_blocks 0) × (length rests.old ≡ max_blocks) }
    ensures { LaidOut (cut groups.now.sizes.now groups.now.words.now) items.new ends.new rests.new result }
{
    let whole = lay_whole(groups, items, ends);
    let small = most - judge::most(&ends[..whole]);
    let n = lay_pairs(groups, items, rests, 64 * whole, small);
    zero(items, n, 64 * ((n + 63) / 64));
    Laid { whole, items: n }
}
