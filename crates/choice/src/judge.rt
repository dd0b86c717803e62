// How many pairs of members a candidate tells apart, from the columns of its inputs. The candidate's column in a block is the XOR of
// theirs. A large group of s members, a of them with 1, has a * (s - a) pairs told apart; of the small groups each 1 is one pair.
//
// A candidate is given up where it cannot pass the best so far. A group of s members has at most s * s / 4 pairs told apart, by halves. Where
// what is counted and what is left at most do not come above the best, the rest is not counted. So a judgement above the best is exact,
// and any other says only that the candidate is not better.
ghost use Rattle.std.specs.Prelude.{◌≡◌, ◌+◌, ◌-◌, ◌≤◌, ◌<◌, length, MatchOption};
ghost use Rattle.std.specs.Int.Count as count;
ghost use Rattle.choice.specs.Inner.Layout.{max_blocks};
ghost use Rattle.choice.specs.Inner.Gain.{whole_gain, most_of, pair_gain};
ghost use Rattle.vectors.specs.Bounds.{max_inputs};
ghost use Rattle.choice.specs.Inner.Judged.{max_gain, columns_size, cross_at, tally_at, Pairs, Judges};
ghost use Rattle.choice.specs.Inner.Sheets.{gain_of};

use crate::sheet::Sheet;

// The XOR of the columns of inputs i and j in block w; input 0 is none.
fn crossed(columns: &[u64], i: usize, j: usize, w: usize) -> u64
    requires { (i ≤ max_inputs) × (j ≤ max_inputs) × (w < max_blocks) × (length columns.now ≡ columns_size) × (0 < j) }
    ensures { result ≡ cross_at columns.now i j w }
{
    let b = columns[64 * w + j - 1];
    if i == 0 {
        return b;
    }
    columns[64 * w + i - 1] ^ b
}

// The ones of a word.
fn ones(x: u64) -> u64
    ensures { (result ≡ count.ones x) × (result ≤ 64) }
{
    u64::count_ones(x) as u64
}

// The ones of three words, by two counts: places that an odd number of the words has, and places that two or three have.
fn ones_of_three(x: u64, y: u64, z: u64) -> u64
    ensures { result ≡ count.ones x + count.ones y + count.ones z }
{
    let xy = x ^ y;
    ones(xy ^ z) + 2 * ones((x & y) | (xy & z))
}

// At most so many pairs are told apart in groups of these sizes: halves.
pub(crate) fn most(sizes: &[u16]) -> u64
    requires { most_of sizes.now ≤ max_gain }
    ensures { result ≡ most_of sizes.now }
{
    let mut sum: u64 = 0;
    for s in sizes {
        let size = *s as u64;
        sum += size * size / 4;
    }
    sum
}

impl<'a> Sheet<'a> {
    // Of the large groups: a block's tally is added to its group's, and the group counts where it ends; none where all that is left does not
    // come above beat. As a part of gain, its loop would test i for each block.
    fn whole(&self, i: usize, j: usize, beat: u64) -> Option<u64>
        requires { (i < j) × (j ≤ self.now.n) }
        ensures { let exact = whole_gain self.now.ends.now (tally_at self.now.columns.now i j) 0 0 in
            MatchOption result (exact + (self.now.most - most_of self.now.ends.now) ≤ beat) (λ gain. gain ≡ exact) }
    {
        let columns = self.columns;
        let ends = self.ends;
        let mut gain: u64 = 0;
        let mut counted: u64 = 0;
        let mut room = self.most;
        for (w, end) in ends.iter().enumerate() {
            counted += ones(crossed(columns, i, j, w));
            let size = *end as u64;
            if size != 0 {
                gain += counted * (size - counted);
                room -= size * size / 4;
                counted = 0;
                if gain + room <= beat {
                    return None;
                }
            }
        }
        Some(gain)
    }

    // Of the small groups, whose pairs fill the blocks after those of the large ones: a pair with value 1 is told apart. Start is what the
    // large ones have; given up where what the blocks left have at most does not come above beat. Three blocks are counted at a time for as
    // long as three are left. Without its test the second loop would be made one of vector instructions, which is slower.
    fn paired(&self, i: usize, j: usize, start: u64, beat: u64) -> u64
        requires { Pairs self.now.columns.now self.now.rests.now i j (length self.now.ends.now) start }
        ensures { Judges (start + pair_gain (length self.now.rests.now - length self.now.ends.now) (tally_at self.now.columns.now i j) (length self.now.ends.now)) beat result }
    {
        let columns = self.columns;
        let rests = self.rests;
        let mut gain = start;
        let mut w = self.ends.len();
        // A while: it goes on by three, and the loop after it from where it stops.
        while w + 2 < rests.len() {
            if gain + rests[w] <= beat {
                return gain;
            }
            let x = crossed(columns, i, j, w);
            let y = crossed(columns, i, j, w + 1);
            let z = crossed(columns, i, j, w + 2);
            gain += ones_of_three(x, y, z);
            w += 3;
        }
        for w in w..rests.len() {
            if gain + rests[w] <= beat {
                return gain;
            }
            gain += ones(crossed(columns, i, j, w));
        }
        gain
    }

    // The pairs that the XOR of inputs i and j tells apart, input 0 being none; or some number up to beat, where they are not more.
    pub(crate) fn gain(&self, i: usize, j: usize, beat: u64) -> u64
        requires { (i < j) × (j ≤ self.now.n) }
        ensures { Judges (gain_of self.now i j) beat result }
    {
        let Some(large) = self.whole(i, j, beat) else {
            return 0;
        };
        self.paired(i, j, large, beat)
    }
}
