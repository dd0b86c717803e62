// The two builds: the checks in their order, the variables chosen or given, and then the tables and the record.
#![tactic(auto)]

ghost use Rattle.std.specs.Prelude.{◌≡◌, ◌≤◌, take};
ghost use Rattle.vectors.specs.Bounds.{max_variables};
ghost use Rattle.vectors.specs.Variable.{kinds_of};
ghost use Rattle.record.specs.Tables.{lent};
ghost use Rattle.build.specs.Built.{told};
ghost use Rattle.build.specs.Inner.Ready.{Listed, Split, listed_prop, split_prop};
ghost use Rattle.build.specs.Build.{after, build_chosen, build_given};

use record::Record;
use refusal::{Refusal, Refused};
use vectors::{MAX_VARIABLES, Variable};

mod checks;
mod finish;

// A list past checks 1 to 11, of vectors of n bits, and how they go into rows and columns: by the first p variables, n1 of them for rows.
// An array with p beside it, as build_given is lent them and the record has them: there is no heap.
#[derive(Clone, Copy)]
pub(crate) struct Chart<'a> {
    pub n: usize,
    pub p: usize,
    pub n1: usize,
    pub variables: [Variable; MAX_VARIABLES],
    pub vectors: &'a [u64],
    ghost few: { p ≤ max_variables },
    ghost listed: { Listed n vectors.now } by { listed_prop n vectors.now },
    ghost split: { Split n n1 (kinds_of (take p variables)) } by { split_prop n n1 (kinds_of (take p variables)) },
}

// The build that chooses its variables. No more displacements are tried than the allowance says.
pub fn build_chosen(
    n: usize,
    degree: usize,
    cells: usize,
    allowance: u64,
    vectors: &[u64],
    h: &mut [u16],
    g: &mut [u16],
    aux: &mut [u64],
) -> Result<Record, Refused>
    ensures { after (told result) h.new g.new aux.new
        ≡ build_chosen n degree cells allowance vectors.now (lent h.old g.old aux.old) }
{
    let two = vectors::outside(1, 2, degree);
    checks::check_list(n, two, cells, vectors, g.len(), aux.len())?;
    let Ok(chosen) = choice::choose(vectors, n as u8, degree) else {
        return Err(Refusal::NotApart.at(0));
    };
    let p = chosen.p;
    let n1 = p - p / 2;
    let variables = chosen.variables;
    let chart = Chart {
        n,
        p,
        n1,
        variables,
        vectors,
    };
    finish::complete(chart, cells, allowance, h, g, aux)
}

// The build whose variables and n1 the caller states, with an allowance likewise.
pub fn build_given(
    n: usize,
    variables: [Variable; MAX_VARIABLES],
    p: usize,
    n1: usize,
    cells: usize,
    allowance: u64,
    vectors: &[u64],
    h: &mut [u16],
    g: &mut [u16],
    aux: &mut [u64],
) -> Result<Record, Refused>
    ensures { after (told result) h.new g.new aux.new
        ≡ build_given n variables p n1 cells allowance vectors.now (lent h.old g.old aux.old) }
{
    let two = vectors::too_many(p, n1);
    checks::check_list(n, two, cells, vectors, g.len(), aux.len())?;
    checks::check_given(n, variables, p, vectors)?;
    let chart = Chart {
        n,
        p,
        n1,
        variables,
        vectors,
    };
    finish::complete(chart, cells, allowance, h, g, aux)
}
