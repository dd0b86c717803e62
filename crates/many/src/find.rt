// The keys looked up, one after the other.
ghost use Rattle.std.specs.Prelude.{◌≡◌, cond, List, ℕ, ◌-◌, ◌^◌, ◌≤◌, ◌<◌, eqb, length, get_or};
ghost use Rattle.record.specs.declared.Record.{Record};
ghost use Rattle.vectors.specs.Bounds.{max_inputs};
ghost use Rattle.record.specs.Tables.{lent};
ghost use Rattle.record.specs.Leads.{word_in};
ghost use Rattle.record.specs.Inner.Formed.{InBounds};
ghost use Rattle.lookup.specs.Lookup.{compared, answer, lookup_of, not_found};
ghost use Rattle.many.specs.Lookups.{told, left, left_by};
ghost use Rattle.many.specs.Image.{image_of};
ghost use Rattle.many.specs.Inner.Images.{FrameOf, Fits, Opened, Narrow};
ghost use Rattle.many.specs.Inner.Keys.{Within, reached, Done, Blank, Ran};

use crate::open::Open;
use crate::tables;
use crate::tables::EIGHTH;
use record::Record;
use refusal::{Refusal, Refused};
use vectors::MAX_INPUTS;

// What is taken from a unit once: the last key of n bits, how many bits the column has, the masks of a column and of a row, L and k.
#[derive(Clone, Copy)]
pub(crate) struct Frame {
    pub last: u64,
    pub shift: u64,
    pub columns: u64,
    pub rows: u64,
    pub cells: usize,
    pub k: usize,
}

// The last number of n bits.
fn last(n: usize) -> u64
    requires { n ≤ max_inputs }
    ensures { result ≡ 2 ^ n - 1 }
{
    if n < MAX_INPUTS {
        (1u64 << n) - 1
    } else {
        u64::MAX
    }
}

pub(crate) fn framed(unit: Record) -> Frame
    requires { InBounds unit }
    ensures { FrameOf unit result }
{
    let columns = unit.p - unit.n1;
    Frame {
        last: last(unit.n),
        shift: columns as u64,
        columns: last(columns),
        rows: last(unit.n1),
        cells: unit.cells,
        k: unit.k,
    }
}

// The index in the cell of a key with the image y and that word; 0 where the cell is at L or above.
// No Option: in a cell 0 is no index too, and `left_by` promises 0 beside a key that is not found.
fn held(frame: Frame, h: &[u16], g: &[u16], y: u64, word: u64) -> usize
    requires { Fits frame (length h.now) (length g.now) }
    ensures { (result < 2 ^ 16) × ((u : Record) (aux : List ℕ) (x : ℕ) → FrameOf u frame → y ≡ image_of u x → word ≡ word_in u x
        → compared u aux x result ≡ answer u (lent h.now g.now aux) x) }
{
    let row = (word & frame.rows) as usize;
    let column = (y & frame.columns) as usize;
    let cell = h[row] as usize + column;
    if frame.cells <= cell {
        return 0;
    }
    record::index(g[cell])
}

// The index i where AUX has that word for it, otherwise 0. The index 0 stays 0, whatever AUX[0] is.
fn matched(aux: &[u64], i: usize, word: u64) -> u16
    requires { (i < length aux.now) × (i < 2 ^ 16) }
    ensures { result ≡ cond (eqb (get_or aux.now i 0) word) i 0 }
{
    let held = aux[i];
    if held == word {
        return i as u16;
    }
    0
}

impl<'a> Open<'a> {
    // As `run`, of keys that have an eighth byte only where they are wide.
    fn along<const WIDE: bool>(
        &self,
        keys: &[u64],
        from: usize,
        indices: &mut [u16],
    ) -> Result<(), Refused>
        requires { (length keys.now ≤ length indices.old) × (from ≤ length keys.now) × Narrow WIDE self.now.frame.last }
        ensures { Ran self.now.frame self.now.images.now (lent self.now.h.now self.now.g.now self.now.aux.now) keys.now from
            indices.old indices.new result }
    {
        // Taken apart: through self each turn would read the slices again, since it writes an index.
        let Open {
            frame,
            images,
            h,
            g,
            aux,
        } = *self;
        let count = keys.len();
        for i in from..count {
            let x = keys[i];
            if frame.last < x {
                return Err(Refusal::Beyond.at(i + 1));
            }
            let y = tables::image::<WIDE>(images, x);
            let word = y >> frame.shift;
            let index = held(frame, h, g, y, word);
            if frame.k < index {
                return Err(Refusal::NoUnit.at(i + 1));
            }
            indices[i] = matched(aux, index, word);
        }
        Ok(())
    }

    // The keys from one on, up to the first that is refused: its refusal, with its number from 1. Wide keys and others have a loop each.
    fn run(&self, keys: &[u64], from: usize, indices: &mut [u16]) -> Result<(), Refused>
        requires { (length keys.now ≤ length indices.old) × (from ≤ length keys.now) }
        ensures { Ran self.now.frame self.now.images.now (lent self.now.h.now self.now.g.now self.now.aux.now) keys.now from
            indices.old indices.new result }
    {
        if self.frame.last < EIGHTH {
            return self.along::<false>(keys, from, indices);
        }
        self.along::<true>(keys, from, indices)
    }

    // The keys from one on that is refused, where a run stopped.
    fn go_on(&self, keys: &[u64], first: Result<(), Refused>, indices: &mut [u16])
        requires { (length keys.now ≤ length indices.old) × Within 0 (length keys.now) first }
        ensures { (u : Record) → Opened u (lent self.now.h.now self.now.g.now self.now.aux.now) self.now.frame self.now.images.now
            → (old : List ℕ) → Done (lookup_of u (lent self.now.h.now self.now.g.now self.now.aux.now)) keys.now old indices.old (reached keys.now first)
            → Blank (lookup_of u (lent self.now.h.now self.now.g.now self.now.aux.now)) keys.now (reached keys.now first)
            → Done (lookup_of u (lent self.now.h.now self.now.g.now self.now.aux.now)) keys.now old indices.new (length keys.now) }
    {
        let mut next = first;
        // A while: each run goes on behind the key at which the one before it stopped.
        while let Err(stop) = next {
            indices[stop.place - 1] = 0;
            next = self.run(keys, stop.place, indices);
        }
    }

    // The answer for all keys, of a unit that is well formed.
    pub(crate) fn all(&self, keys: &[u64], indices: &mut [u16]) -> Result<(), Refused>
        requires { length keys.now ≤ length indices.old }
        ensures { (u : Record) → Opened u (lent self.now.h.now self.now.g.now self.now.aux.now) self.now.frame self.now.images.now
            → left (told result) indices.new ≡ left_by (lookup_of u (lent self.now.h.now self.now.g.now self.now.aux.now)) keys.now indices.old }
    {
        let first = self.run(keys, 0, indices);
        self.go_on(keys, first, indices);
        first
    }
}

// The answer where the unit is not well formed: every key is refused.
pub(crate) fn none(keys: &[u64], indices: &mut [u16]) -> Result<(), Refused>
    requires { length keys.now ≤ length indices.old }
    ensures { left (told result) indices.new ≡ left_by (λ x. not_found 14) keys.now indices.old }
{
    indices[..keys.len()].fill(0);
    if keys.is_empty() {
        return Ok(());
    }
    Err(Refusal::NoUnit.at(1))
}
