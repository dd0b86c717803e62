// The sheet of the groups, by which all candidates are judged.
ghost use Rattle.std.specs.Prelude.{◌≤◌, length};
ghost use Rattle.vectors.specs.Bounds.{max_inputs};
ghost use Rattle.choice.specs.Inner.Gain.{judged_props};
ghost use Rattle.choice.specs.Inner.Judged.{gain_at, AllJudgeable};
ghost use Rattle.choice.specs.Inner.Search.{Beaten};

// What candidates of n inputs are judged by: a block has a word for each input, its column; the blocks of large groups have their ends, and
// the others their rests; most is what all groups have at most. Tied are the inputs that no candidate needs (see rule).
#[derive(Clone, Copy)]
pub(crate) struct Sheet<'a> {
    pub columns: &'a [u64],
    pub ends: &'a [u16],
    pub rests: &'a [u64],
    pub most: u64,
    pub n: usize,
    pub tied: u64,
    ghost inputs: { n ≤ max_inputs },
    ghost judged: { AllJudgeable columns.now ends.now rests.now most n } by { Prim.hlevel judged_props },
    ghost beaten: { Beaten tied (gain_at columns.now ends.now (length rests.now)) n },
}
