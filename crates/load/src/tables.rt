// The tables filled from the blocks of a file.
ghost use Rattle.std.specs.Prelude.{◌≡◌, true, ◌+◌, ◌*◌, ◌≤◌, length, map};
ghost use Rattle.record.specs.Tables.{lent};
ghost use Rattle.record.specs.Formed.{is_in_bounds, long_enough};
ghost use Rattle.block.specs.Block.{block_size};
ghost use Rattle.file.specs.File.{blocks_for, size_of};
ghost use Rattle.file.specs.Decode.{table_in, tables_in};
ghost use Rattle.file.specs.Read.{loaded_read};

use crate::blocks;
use block::{SIZE, Word};
use file::layout;
use record::Record;

// Fills the words from the blocks of a table, the first of them number `first` of the file.
fn fill_words<W: Word>(first: usize, file: &[u8], words: &mut [W])
    requires { block_size * (first + blocks_for W.PER_BLOCK (length words.old)) ≤ length file.now }
    ensures { map W.value words.new ≡ table_in W.SIZE W.PER_BLOCK first (length words.old) file.now }
{
    for i in 0..words.len().div_ceil(W::PER_BLOCK) {
        let at = SIZE * (first + i);
        block::words(&file[at..at + SIZE], &mut words[W::PER_BLOCK * i..]);
    }
}

// Fills the tables of the unit, which are long enough. They are three slices as in read.
pub(crate) fn fill(unit: Record, file: &[u8], h: &mut [u16], g: &mut [u16], aux: &mut [u64])
    requires unit_value { (is_in_bounds unit ≡ true) × (size_of unit ≤ length file.now) }
    requires aux_value { long_enough unit (lent h.old g.old aux.old) ≡ true }
    ensures { lent h.new g.new aux.new
        ≡ (loaded_read unit (tables_in unit file.now) (lent h.old g.old aux.old)).tables }
{
    let starts = blocks::plan(unit);
    let rows = 1usize << unit.n1;
    let cells = unit.cells;
    let words = unit.k + 1;
    fill_words(layout::H_FIRST, file, &mut h[..rows]);
    fill_words(starts.g, file, &mut g[..cells]);
    fill_words(starts.aux, file, &mut aux[..words]);
}
