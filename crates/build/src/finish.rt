// The builds past refusal 11: check 12, the rows placed, the tables and the record written. While rows are placed AUX holds row and column
// of each vector.
ghost use Rattle.std.specs.Prelude.{◌≡◌, ◌∷◌, map, suc, ◌+◌, ◌-◌, ◌^◌, ◌≤◌, ◌<◌, length, take, drop, replicate};
ghost use Rattle.std.specs.Int.Count.{ones};
ghost use Rattle.lists.specs.Members.{All};
ghost use Rattle.vectors.specs.Bounds.{max_inputs, max_variables, max_side, max_vectors, max_cells};
ghost use Rattle.vectors.specs.Masks.{word_by};
ghost use Rattle.rows.specs.Answer.{left, settle};
ghost use Rattle.rows.specs.Told as placing;
ghost use Rattle.record.specs.Tables.{lent};
ghost use Rattle.record.specs.Record.{mark_built, record_of};
ghost use Rattle.build.specs.Built.{told};
ghost use Rattle.build.specs.Build as spec;
ghost use Rattle.build.specs.Build.{after, aux_of, placing_of, outcome};
ghost use Rattle.build.specs.Refusals.{check12};
ghost use Rattle.build.specs.Inner.Charts.{kinds_by};
ghost use Rattle.build.specs.Inner.Stops.{stopped};
ghost use Rattle.build.specs.Inner.Places.{place_by};

use crate::Chart;
use record::{Mark, Record};
use refusal::{Refusal, Refused};
use rows::Stop;

// AUX[i] as the placing wants it: the row and the column of vector i, by the masks of the variables, the first n1 of them for rows.
fn write_places(vectors: &[u64], masks: &[u64], n1: usize, aux: &mut [u64])
    requires { (length aux.old ≡ suc (length vectors.now)) × (n1 ≤ length masks.now) × (n1 ≤ max_side) × (length masks.now - n1 ≤ max_side) }
    ensures { aux.new ≡ 0 ∷ map (place_by (take n1 masks.now) (drop n1 masks.now)) vectors.now }
{
    aux[0] = 0;
    for (i, x) in vectors.iter().enumerate() {
        let row = vectors::number(&masks[..n1], *x);
        let column = vectors::number(&masks[n1..], *x);
        aux[i + 1] = row + 4096 * column;
    }
}

// AUX[i] as lookups want it.
fn write_words(vectors: &[u64], rows: &[u64], kept: u64, aux: &mut [u64])
    requires { (length aux.old ≡ suc (length vectors.now)) × (length rows.now + ones kept ≤ max_inputs) }
    ensures { aux.new ≡ 0 ∷ map (word_by rows.now kept) vectors.now }
{
    aux[0] = 0;
    for (i, x) in vectors.iter().enumerate() {
        aux[i + 1] = vectors::word(rows, kept, *x);
    }
}

// Places the rows of the vectors: H is lent with a word for each row, G with a word for each cell, AUX with a word for each vector and one more.
fn place_all(
    chart: Chart,
    allowance: u64,
    h: &mut [u16],
    g: &mut [u16],
    aux: &mut [u64],
) -> Result<u64, Stop>
    requires { (length aux.old ≡ suc (length chart.vectors.now)) × (length h.old ≡ 2 ^ chart.n1) × (length g.old ≤ max_cells) }
    ensures { left (placing.told result) h.new g.new
        ≡ settle allowance (placing_of chart.entry.n1 (kinds_by chart.entry) (length g.old) chart.entry.vectors.now) (replicate (2 ^ chart.entry.n1) 0) (replicate (length g.old) 0) }
{
    let masks = vectors::masks(chart.variables, chart.p);
    g.fill(0);
    write_places(chart.vectors, &masks[..chart.p], chart.n1, aux);
    rows::place(aux, h, g, 0, allowance)
}

// The record of an accepted unit, and AUX as lookups want it.
fn accept(chart: Chart, cells: usize, tries: u64, aux: &mut [u64]) -> Record
    requires { length aux.old ≡ suc (length chart.vectors.now) }
    ensures value { result ≡ record_of mark_built chart.entry.n chart.entry.n1 (length chart.entry.vectors.now) (kinds_by chart.entry) cells tries }
    ensures aux_after { aux.new ≡ aux_of chart.entry.n chart.entry.n1 (kinds_by chart.entry) chart.entry.vectors.now }
{
    let k = chart.vectors.len();
    let masks = vectors::masks(chart.variables, chart.p);
    let kept = span::kept_inputs(chart.n, chart.variables, chart.p);
    write_words(chart.vectors, &masks[..chart.n1], kept, aux);
    let excess = record::excess(chart.p as u32, k as u32);
    let marks = record::marked(chart.variables, chart.p, chart.n1);
    Record {
        n: chart.n,
        p: chart.p,
        n1: chart.n1,
        k,
        cells,
        kept,
        tries,
        excess,
        variables: marks,
        mark: Mark::Built,
    }
}

// The refusal of vectors that are not all placed; none that this crate places are unfit.
fn refused(stop: Stop) -> Refused
    ensures { told (Err result) ≡ stopped stop }
{
    match stop {
        Stop::NoFit { row, needed, .. } => Refusal::NoPlace(needed).at(row),
        Stop::Over(row) => Refusal::Allowance.at(row),
        Stop::Unfit => Refusal::NoPlace(0).at(0),
    }
}

// The build past refusal 12, in the parts of the tables that the unit has, lent whole.
fn finish(
    chart: Chart,
    allowance: u64,
    h: &mut [u16],
    g: &mut [u16],
    aux: &mut [u64],
) -> Result<Record, Refused>
    requires { (length aux.old ≡ suc (length chart.vectors.now)) × (length h.old ≡ 2 ^ chart.n1) × (length g.old ≤ max_cells) }
    ensures { after (told result) h.new g.new aux.new
        ≡ spec.finish chart.entry.n chart.entry.n1 (kinds_by chart.entry) (length g.old) allowance chart.entry.vectors.now (lent h.old g.old aux.old) }
{
    match place_all(chart, allowance, h, g, aux) {
        Ok(tries) => Ok(accept(chart, g.len(), tries, aux)),
        Err(stop) => {
            aux.fill(0);
            Err(refused(stop))
        }
    }
}

// The build past refusals 1 to 11: check 12, and the parts of the tables that the unit has.
// H, G and AUX are no struct: each caller has them as three slices (the C interface), and a struct would be made here to be taken apart in finish.
pub(crate) fn complete(
    chart: Chart,
    cells: usize,
    allowance: u64,
    h: &mut [u16],
    g: &mut [u16],
    aux: &mut [u64],
) -> Result<Record, Refused>
    requires { (cells ≤ length g.old) × (cells ≤ max_cells) × (length chart.vectors.now < length aux.old) }
    ensures { after (told result) h.new g.new aux.new
        ≡ outcome (check12 chart.entry.n1 h.old) chart.entry.n chart.entry.n1 (kinds_by chart.entry) cells allowance chart.entry.vectors.now (lent h.old g.old aux.old) }
{
    let rows = 1usize << chart.n1;
    if h.len() < rows {
        return Err(Refusal::ShortRows.at(0));
    }
    let last = chart.vectors.len() + 1;
    finish(
        chart,
        allowance,
        &mut h[..rows],
        &mut g[..cells],
        &mut aux[..last],
    )
}
