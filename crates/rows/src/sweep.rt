// The rows in their order: a sweep for each weight.
ghost use Rattle.std.specs.Prelude.{◌≡◌, ◌+◌, ◌*◌, ◌^◌, ◌≤◌, ◌<◌, length, replicate, IfOk};
ghost use Rattle.lists.specs.Members.{All};
ghost use Rattle.vectors.specs.Bounds.{max_cells, max_rows};
ghost use Rattle.rows.specs.Answer.{cares_in, cares_of, left, settled};
ghost use Rattle.rows.specs.Told.{told};
ghost use Rattle.rows.specs.Inner.Chains.{chain_of, Rises, Weighs, Marked, RowTried, undone, Within};
ghost use Rattle.rows.specs.Inner.Swept.{Swept};
ghost use Rattle.rows.specs.Inner.Taken.{Taken};

use crate::links::{Chain, MARK, ROWS, column, head, weight};
use crate::room::TAKEN_WORDS;
use crate::{NoFit, Stop};

// Takes the placing back: empties the cells of the rows that are placed, and H.
fn undo(aux: &[u64], h: &mut [u16], g: &mut [u16])
    requires some { 0 < length aux.now }
    requires within { All (Within h.old (length g.old)) (cares_in aux.now) }
    ensures h_after { h.new ≡ replicate (length h.old) 0 }
    ensures g_after { g.new ≡ undone h.old (cares_in aux.now) g.old }
{
    for word in &aux[1..] {
        let w = *word;
        let d = h[(w % ROWS) as usize];
        if d <= MARK {
            g[column(w) + d as usize] = 0;
        }
    }
    h.fill(0);
}

// Places the row at its first fit, and gives the tries with its own. They are compared with the allowance after the first fit, and where
// they exceed it the row may be placed already.
fn place_row(
    chain: Chain,
    row: usize,
    h: &mut [u16],
    g: &mut [u16],
    taken: &mut [u64; TAKEN_WORDS],
    tries: u64,
    allowance: u64,
) -> Result<u64, Stop>
    requires inside { (row < length h.old) × (tries ≤ max_cells * max_rows) }
    requires taken { Taken g.old taken.old }
    ensures row_tried { RowTried (chain_of chain.entry.owner chain.entry.words.now chain.entry.first) row tries allowance h.old g.old result h.new g.new }
    ensures taken_2 { IfOk result (λ more. Taken g.new taken.new) }
{
    match chain.first_fit(g, taken) {
        Ok(d) => {
            chain.put(g, taken, d);
            h[row] = d as u16;
            let more = tries + (d as u64 + 1);
            if allowance < more {
                return Err(Stop::Over(row));
            }
            Ok(more)
        }
        Err(NoFit { tried, cells }) => {
            if allowance < tries + tried as u64 {
                return Err(Stop::Over(row));
            }
            Err(Stop::NoFit {
                row,
                tried,
                needed: cells,
                tries,
            })
        }
    }
}

// A sweep over the rows in rising order for each level: it places those whose weight is the level.
fn place_levels(
    aux: &[u64],
    h: &mut [u16],
    g: &mut [u16],
    taken: &mut [u64; TAKEN_WORDS],
    owner: u16,
    allowance: u64,
) -> Result<u64, Stop>
    requires linked { (Rises 0 aux.now) × Weighs 0 aux.now }
    requires marked { Marked aux.now h.old }
    requires inside { (0 < length aux.now) × (length aux.now + owner ≤ 2 ^ 16) × (length h.old ≤ max_rows) }
    requires taken { Taken g.old taken.old }
    requires rows { All (λ c. c.row < length h.old) (cares_in aux.now) }
    ensures { Swept allowance owner aux.now (length h.old) g.old h.new g.new result }
{
    let mut tries = 0;
    let mut level = (aux.len() - 1) as u64;
    // A while: the next level is the greatest weight that the sweep finds below this one.
    while 0 < level {
        let mut below = 0;
        for row in 0..h.len() {
            let mark = h[row];
            if let Some(first) = head(mark) {
                let w = weight(aux[first]);
                if w == level {
                    let chain = Chain {
                        words: aux,
                        first,
                        owner,
                    };
                    tries = place_row(chain, row, h, g, taken, tries, allowance)?;
                } else {
                    below = below.max(w);
                }
            }
        }
        level = below;
    }
    Ok(tries)
}

// Places the marked rows, or takes those placed back where the placing ends otherwise.
pub(crate) fn place_rows(
    aux: &[u64],
    h: &mut [u16],
    g: &mut [u16],
    taken: &mut [u64; TAKEN_WORDS],
    owner: u16,
    allowance: u64,
) -> Result<u64, Stop>
    requires linked { (Rises 0 aux.now) × Weighs 0 aux.now }
    requires marked { Marked aux.now h.old }
    requires inside { (0 < length aux.now) × (length aux.now + owner ≤ 2 ^ 16) × (length h.old ≤ max_rows) }
    requires taken { Taken g.old taken.old }
    requires rows { All (λ c. c.row < length h.old) (cares_in aux.now) }
    ensures { left (told result) h.new g.new ≡ settled allowance (cares_of owner aux.now) (length h.old) g.old }
{
    let placed = place_levels(aux, h, g, taken, owner, allowance);
    if placed.is_err() {
        undo(aux, h, g);
    }
    placed
}
