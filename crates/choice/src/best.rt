// A step: the best candidate for groups of words, which are laid out, turned on their side, and searched.
ghost use Rattle.std.specs.Prelude.{◌≡◌, ◌*◌, ◌≤◌, ◌<◌, length};
ghost use Rattle.lists.specs.Cut.{cut};
ghost use Rattle.vectors.specs.Bounds.{max_inputs};
ghost use Rattle.choice.specs.Choice.{best_of, candidates};
ghost use Rattle.choice.specs.Inner.Best.{score_of};
ghost use Rattle.choice.specs.Inner.Layout.{max_blocks};
ghost use Rattle.choice.specs.Inner.Ties.{Ties};

use crate::lay::MAX_BLOCKS;
use crate::sheet::Sheet;
use crate::words::Words;
use crate::{draw, judge, lay, search};
use vectors::Kind;

// The first of the candidates of n inputs that leave the fewest pairs of words in a group that agree. Those with a tied
// input are not tried, but for x_1. What the items that are lent hold before and after does not matter.
pub(crate) fn best(groups: &Words, n: u8, tied: u64, degree: usize, items: &mut [u64]) -> Kind
    requires inputs { (0 < n) × (n ≤ max_inputs) }
    requires ties { Ties tied (λ x. x) (cut groups.now.sizes.now groups.now.words.now) }
    requires len { length items.old ≡ 64 * max_blocks }
    ensures { result ≡ best_of (score_of groups.now.sizes.now groups.now.words.now) (candidates n degree) }
{
    let most = judge::most(groups.sizes);
    let mut ends = [0u16; MAX_BLOCKS];
    let mut rests = [1u64; MAX_BLOCKS];
    let laid = lay::lay(groups, most, items, &mut ends, &mut rests);
    let whole = laid.whole;
    let blocks = (laid.items + 63) / 64;
    draw::draw(items, blocks);
    let sheet = Sheet {
        columns: items,
        ends: &ends[..whole],
        rests: &rests[..blocks],
        most,
        n: n as usize,
        tied: tied / 2 * 2,
    };
    search::best_of(&sheet, degree)
}
