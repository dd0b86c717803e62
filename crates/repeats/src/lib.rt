// Words that repeat, found by chained hashing: each slot has the latest word in it, and each word the one before it in its slot.
#![tactic(auto)]

ghost use Rattle.std.specs.Prelude.{◌≡◌, ◌≤◌, ◌<◌, length};
ghost use Rattle.lists.specs.First.{place_number};
ghost use Rattle.vectors.specs.Bounds.{max_vectors};
ghost use Rattle.repeats.specs.Repeats.{repeated_in};
ghost use Rattle.repeats.specs.Chains.{slots, slot_of, Latest, Linked, Seen};

use vectors::{MAX_VECTORS, MAX_WORDS};

// The slot of a word: 11 bits that all 64 go into.
#[tactic(auto, unfolding(crate::specs::Chains::slot_of))]
fn slot(x: u64) -> usize
    ensures { (result ≡ slot_of x) × (result < slots) }
{
    let y = x ^ (x >> 32);
    let z = y ^ (y >> 16);
    ((z ^ (z >> 11)) % 2048) as usize
}

// Whether x is among the words; from is the number of the latest in its slot.
fn seen(words: &[u64], next: &[u16; MAX_WORDS], from: usize, x: u64) -> bool
    requires { (length words.now ≤ max_vectors) × Linked words.now next.now (length words.now) × Latest words.now (length words.now) from (slot_of x) }
    ensures { Seen words.now x result }
{
    let mut j = from;
    // A while: it follows a chain, from a word to the one before it in the slot.
    while j != 0 {
        if words[j - 1] == x {
            return true;
        }
        j = next[j - 1] as usize;
    }
    false
}

// The place from 0 of the first word that equals an earlier one; none where there are more than 1,023 words.
// Not inlined: its arrays are given back before rows are placed.
#[inline(never)]
pub fn first_repeat(words: &[u64]) -> Option<usize>
    ensures { place_number result ≡ repeated_in words.now }
{
    if MAX_VECTORS < words.len() {
        return None;
    }
    // A word is named by its number from 1, and 0 is none: an Option<u16> takes four bytes for two, and with it igu_build_given would
    // pass the stack that include/igu.h asks for.
    let mut heads = [0u16; 2048];
    let mut next = [0u16; MAX_WORDS];
    for (i, x) in words.iter().enumerate() {
        let s = slot(*x);
        let from = heads[s];
        if seen(&words[..i], &next, from as usize, *x) {
            return Some(i);
        }
        next[i] = from;
        heads[s] = i as u16 + 1;
    }
    None
}
