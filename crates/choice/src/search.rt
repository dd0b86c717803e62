// The best candidate: the more pairs it tells apart, the fewer it leaves. A candidate is two inputs i < j, with 0 for none in a single
// input's place. Line 0 has the single inputs, line i the pairs of x_i with later inputs: one loop over the lines goes through the candidates
// in the rule's order, so that of equals the first stays. It starts with x_1 as if that told nothing apart, which is right whatever x_1 tells.
//
// Candidates with a tied input are not judged (see rule), nor any line after a candidate that tells as much apart as any can.
ghost use Rattle.std.specs.Prelude.{◌≡◌, ◌+◌, ◌≤◌, ◌<◌, eqb, length};
ghost use Rattle.vectors.specs.Bits.{input};
ghost use Rattle.vectors.specs.Bounds.{max_inputs};
ghost use Rattle.choice.specs.Choice.{candidates, best_of};
ghost use Rattle.choice.specs.Inner.Judged.{left_by};
ghost use Rattle.choice.specs.Inner.Search.{rank, better_of, Above, LineIs, lines_of};
ghost use Rattle.choice.specs.Inner.Sheets.{gain_of};

use crate::sheet::Sheet;
use vectors::Kind;

// Two inputs, and the pairs of members that their XOR tells apart. The first is 0, not an Option, for none: so line 0 is one like the others.
#[derive(Clone, Copy)]
pub(crate) struct Best {
    i: usize,
    j: usize,
    gain: u64,
}

// Whether input i is tied to an earlier one: no candidate with it can win.
fn is_tied(tied: u64, i: usize) -> bool
    requires { i ≤ max_inputs }
    ensures { result ≡ eqb (input tied i) 1 }
{
    i != 0 && (tied >> (i - 1)) % 2 == 1
}

// The better of the best so far and one more candidate, of inputs i and j; it is not judged where j is tied.
fn better(sheet: &Sheet, i: usize, j: usize, best: Best) -> Best
    requires { (i < j) × (j ≤ sheet.now.n) × (input sheet.now.tied j ≡ 1 → gain_of sheet.now i j ≤ best.gain) }
    ensures { result ≡ better_of (gain_of sheet.now) best i j }
{
    if is_tied(sheet.tied, j) {
        return best;
    }
    let gain = sheet.gain(i, j, best.gain);
    if best.gain < gain {
        Best { i, j, gain }
    } else {
        best
    }
}

// Input i with each later one. None is judged where the best so far tells as much apart as any can, nor where i is tied.
fn best_line(sheet: &Sheet, i: usize, best: Best) -> Best
    requires line { i ≤ sheet.now.n }
    requires high { Above (gain_of sheet.now) sheet.now.n best (rank i (i + 1)) }
    ensures { LineIs (gain_of sheet.now) sheet.now.n i best result }
{
    if sheet.most <= best.gain || is_tied(sheet.tied, i) {
        return best;
    }
    let mut b = best;
    // Not `i + 1..=n`: with its test after the turn the search is slower.
    for j in i + 1..sheet.n + 1 {
        b = better(sheet, i, j, b);
    }
    b
}

// How many lines the candidates have.
fn lines_of(n: usize, degree: usize) -> usize
    ensures { result ≡ lines_of n degree }
{
    if degree == 2 { n } else { 1 }
}

// The first of the candidates that leaves the least.
pub(crate) fn best_of(sheet: &Sheet, degree: usize) -> Kind
    requires { 0 < sheet.now.n }
    ensures { result ≡ best_of (left_by sheet.now.columns.now sheet.now.ends.now (length sheet.now.rests.now)) (candidates sheet.now.n degree) }
{
    let lines = lines_of(sheet.n, degree);
    let mut b = Best {
        i: 0,
        j: 1,
        gain: 0,
    };
    for i in 0..lines {
        b = best_line(sheet, i, b);
    }
    if b.i == 0 {
        Kind::One(b.j as u8)
    } else {
        Kind::Two(b.i as u8, b.j as u8)
    }
}
