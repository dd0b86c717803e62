// The items turned on their side, block by block: a block then has a word for each input, its column, with a bit for each item.
ghost use Rattle.std.specs.Prelude.{◌*◌, ◌≤◌, ◌≡◌, length};
ghost use Rattle.choice.specs.Inner.Layout.{max_blocks};
ghost use Rattle.choice.specs.Inner.Judged.{Drawn};

// Each of the first blocks is turned on its side where it stands.
pub(crate) fn draw(items: &mut [u64], blocks: usize)
    requires { (length items.old ≡ 64 * max_blocks) × (blocks ≤ max_blocks) }
    ensures { Drawn items.old items.new blocks }
{
    for w in 0..blocks {
        let from = 64 * w;
        let to = from + 64;
        transpose::transpose(&mut items[from..to]);
    }
}
