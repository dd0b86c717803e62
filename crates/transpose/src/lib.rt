// A block of 64 words turned on its side, in six stages of 32 swaps.
#![tactic(auto)]

ghost use Rattle.std.specs.Prelude.{◌≡◌, ◌+◌, ◌*◌, ◌≤◌, ◌<◌, length};
ghost use Rattle.transpose.specs.Turn.{turned, turned_in};
ghost use Rattle.transpose.specs.Stage.{Distance, Exchanged, swapped, swapped_words};

// A stage: how far apart the words are that change places, and the columns in which they do.
#[derive(Clone, Copy)]
struct Stage {
    distance: usize,
    mask: u64,
    ghost columns: { Distance distance mask },
}

impl Stage {
    // The stage of a distance, with its mask.
    fn new(distance: usize, mask: u64) -> Stage
        requires { Distance distance mask }
        ensures { (result.distance ≡ distance) × (result.mask ≡ mask) }
    {
        Stage { distance, mask }
    }

    // The words low and low + distance change places in the stage's columns.
    fn swap(self, block: &mut [u64; 64], low: usize)
        requires { low + self.distance < 64 }
        ensures { block.new ≡ swapped self.distance self.mask low block.old }
    {
        let a = block[low];
        let b = block[low + self.distance];
        let crossing = ((a >> self.distance) ^ b) & self.mask;
        block[low] = a ^ (crossing << self.distance);
        block[low + self.distance] = b ^ crossing;
    }

    // A block of words from first on, each with the word at the distance after it.
    fn words(self, block: &mut [u64; 64], first: usize)
        requires { first + 2 * self.distance ≤ 64 }
        ensures { block.new ≡ swapped_words self.distance self.mask first self.distance block.old }
    {
        for t in 0..self.distance {
            self.swap(block, first + t);
        }
    }

    // Every pair of words at the distance.
    fn exchange(self, block: &mut [u64; 64])
        ensures { Exchanged self.distance block.old block.new }
    {
        for first in (0..64).step_by(2 * self.distance) {
            self.words(block, first);
        }
    }
}

// 64 words turned on their side: bit t of word i is bit i of what was word t. Another number of words stays as it is.
pub fn transpose(block: &mut [u64])
    ensures { block.new ≡ turned_in block.old }
{
    if let Some(block) = block.as_mut_array::<64>() {
        turn(block);
    }
}

// The six stages.
fn turn(block: &mut [u64; 64])
    ensures { block.new ≡ turned block.old }
{
    Stage::new(32, 0x00000000ffffffff).exchange(block);
    Stage::new(16, 0x0000ffff0000ffff).exchange(block);
    Stage::new(8, 0x00ff00ff00ff00ff).exchange(block);
    Stage::new(4, 0x0f0f0f0f0f0f0f0f).exchange(block);
    Stage::new(2, 0x3333333333333333).exchange(block);
    Stage::new(1, 0x5555555555555555).exchange(block);
}
