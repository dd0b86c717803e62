// Where a row has room. taken has a bit for each cell, 64 to a word: 1 where the cell is taken. Past the cells every bit is 0.
// G and its bits are no struct with a ghost field: that would have to hold between the write of a cell and the write of its bit.
ghost use Rattle.std.specs.Prelude.{◌≡◌, true, ℕ, ◌+◌, ◌≤◌, ◌<◌, length, replicate};
ghost use Rattle.vectors.specs.Bits.{bit};
ghost use Rattle.vectors.specs.Bounds.{max_cells, max_rows};
ghost use Rattle.rows.specs.Fit as fits;
ghost use Rattle.rows.specs.Told.{fit_told};
ghost use Rattle.rows.specs.Inner.Chains.{chain, chain_of, top_of, fit_at};
ghost use Rattle.rows.specs.Inner.Taken.{taken_cells, taken_words, bit_in, shut_bit, Taken, shut_row};

use crate::NoFit;
use crate::links::{Chain, column, next};
use vectors::{MAX_CELLS, MAX_ROWS};

// At a displacement below the number of cells each column's cell is one of TAKEN_CELLS; words for 64 cells from each of these on.
const TAKEN_CELLS: usize = MAX_CELLS + MAX_ROWS;

pub(crate) const TAKEN_WORDS: usize = TAKEN_CELLS / 64 + 1;

// The bits of the 64 cells from start on.
fn window(taken: &[u64; TAKEN_WORDS], start: usize) -> u64
    requires { start < taken_cells }
    ensures { (t : ℕ) → t < 64 → bit result t ≡ bit_in taken.now (start + t) }
{
    let i = start / 64;
    let s = start % 64;
    (taken[i] >> s) | (taken[i + 1] << 1 << (63 - s))
}

// The first fit of a row with the largest column c, d being the smallest displacement at which its cells are free, past the cells too.
fn fit_at(c: usize, d: usize, cells: usize) -> Result<usize, NoFit>
    requires { (c < max_rows) × (d < taken_cells) }
    ensures { fit_told result ≡ fit_at c d cells }
{
    if c + d < cells {
        return Ok(d);
    }
    Err(NoFit {
        tried: cells.saturating_sub(c),
        cells: c + d + 1,
    })
}

impl Chain<'_> {
    // The largest column of the row.
    fn top(&self) -> usize
        ensures { result ≡ top_of (chain self.now.words.now self.now.first) }
    {
        let mut most = 0;
        let mut j = self.first;
        // A while: the step is the link to the row's next vector.
        while j < self.words.len() {
            let w = self.words[j];
            most = most.max(column(w));
            j = next(w);
        }
        most
    }

    // Which of the 64 displacements from d on the row has no room at: bit t for d + t.
    fn shut(&self, taken: &[u64; TAKEN_WORDS], d: usize) -> u64
        requires { fits.inside taken_cells d (chain self.now.words.now self.now.first) ≡ true }
        ensures { (t : ℕ) → t < 64 → bit result t ≡ shut_row taken.now (d + t) (chain self.now.words.now self.now.first) }
    {
        let mut closed = 0;
        let mut j = self.first;
        // A while: the step is the link to the row's next vector.
        while j < self.words.len() {
            let w = self.words[j];
            closed |= window(taken, column(w) + d);
            if closed == u64::MAX {
                return closed;
            }
            j = next(w);
        }
        closed
    }

    // The smallest displacement at which the row fits: the smallest at which its cells are free, 64 looked at at a time.
    pub(crate) fn first_fit(&self, g: &[u16], taken: &[u64; TAKEN_WORDS]) -> Result<usize, NoFit>
        requires { Taken g.now taken.now }
        ensures { fit_told result ≡ fits.first_fit g.now (chain self.now.words.now self.now.first) }
    {
        let c = self.top();
        for d in (0..g.len()).step_by(64) {
            let open = !self.shut(taken, d);
            if open != 0 {
                let e = d + open.trailing_zeros() as usize;
                return fit_at(c, e, g.len());
            }
        }
        fit_at(c, g.len(), g.len())
    }

    // Writes the row's indices into the cells, which are taken from then on.
    pub(crate) fn put(&self, g: &mut [u16], taken: &mut [u64; TAKEN_WORDS], d: usize)
        requires inside { fits.inside (length g.old) d (chain self.now.words.now self.now.first) ≡ true }
        requires taken { Taken g.old taken.old }
        ensures g_after { g.new ≡ fits.put g.old d (chain_of self.now.owner self.now.words.now self.now.first) }
        ensures taken_2 { Taken g.new taken.new }
    {
        let mut j = self.first;
        // A while: the step is the link to the row's next vector.
        while j < self.words.len() {
            let w = self.words[j];
            let c = column(w) + d;
            g[c] = self.owner + j as u16;
            taken[c / 64] |= 1 << (c % 64);
            j = next(w);
        }
    }
}

// The bits of as many cells as a word has bits, or fewer.
fn bits_of(cells: &[u16]) -> u64
    requires { length cells.now ≤ 64 }
    ensures { (t : ℕ) → t < 64 → bit result t ≡ shut_bit (fits.is_free cells.now t) }
{
    let mut bits = 0;
    for word in cells.iter().rev() {
        bits = bits * 2 + u64::from(*word != 0);
    }
    bits
}

// The bits of the cells, in words that are 0.
pub(crate) fn take_cells(g: &[u16], taken: &mut [u64; TAKEN_WORDS])
    requires inside { length g.now ≤ max_cells }
    requires blank { taken.old ≡ replicate taken_words 0 }
    ensures { Taken g.now taken.new }
{
    for (q, cells) in g.chunks(64).enumerate() {
        taken[q] = bits_of(cells);
    }
}
