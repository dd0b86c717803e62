// A unit written as a file.
ghost use Rattle.std.specs.Prelude.{◌≡◌, ◌+◌, ◌*◌, ◌≤◌, length, map};
ghost use Rattle.std.proofs.lemmas.List.Edits.{sets};
ghost use Rattle.vectors.specs.Variable.{kinds_of};
ghost use Rattle.record.specs.Tables.{lent};
ghost use Rattle.vectors.specs.Bounds.{max_variables};
ghost use Rattle.block.specs.Block.{block_size};
ghost use Rattle.file.specs.Kinds.{byte_of};
ghost use Rattle.file.specs.Layout.{variables_at};
ghost use Rattle.file.specs.File.{variable_bytes, variables_bytes, head_of, blocks_for, table_of, rows_in, words_in, g_first, aux_first, size_of, file_with};
ghost use Rattle.file.specs.Write.{told, after, write_of};

use crate::layout;
use crate::layout::{
    BlockKind, CELLS_AT, H_FIRST, K_AT, LETTERS, LETTERS_AT, MARK_AT, N_AT, N1_AT, P_AT, Starts,
    TRIES_AT, VARIABLES_AT,
};
use block::{SIZE, Word};
use record::Record;
use refusal::Refusal;
use vectors::{Kind, MAX_VARIABLES, Variable};

// The positions of a variable, the second 0 for a single input.
fn positions(kind: Kind) -> [u8; 2]
    ensures { result ≡ variable_bytes kind }
{
    match kind {
        Kind::One(i) => [i, 0],
        Kind::Two(i, j) => [i, j],
    }
}

// Writes the variables into the head.
fn put_variables(variables: &[Variable], head: &mut [u8; SIZE])
    requires { length variables.now ≤ max_variables }
    ensures { head.new ≡ sets head.old variables_at (variables_bytes (kinds_of variables.now)) }
{
    for (i, v) in variables.iter().enumerate() {
        let at = VARIABLES_AT + 2 * i;
        head[at..at + 2].copy_from_slice(&positions(v.kind));
    }
}

// The first block.
fn head(unit: Record) -> [u8; SIZE]
    ensures { result ≡ head_of unit }
{
    let mut b = block::opened(layout::opening(BlockKind::Head, 0));
    b[LETTERS_AT..N_AT].copy_from_slice(&LETTERS);
    block::put_number(unit.n as u64, &mut b[N_AT..P_AT]);
    block::put_number(unit.p as u64, &mut b[P_AT..N1_AT]);
    block::put_number(unit.n1 as u64, &mut b[N1_AT..K_AT]);
    block::put_number(unit.k as u64, &mut b[K_AT..CELLS_AT]);
    block::put_number(unit.cells as u64, &mut b[CELLS_AT..TRIES_AT]);
    block::put_number(unit.tries, &mut b[TRIES_AT..VARIABLES_AT]);
    put_variables(&unit.variables[..unit.p.min(MAX_VARIABLES)], &mut b);
    b[MARK_AT] = u8::from(unit.mark);
    block::sealed(b)
}

// Writes the words as blocks of a kind, the first of them block number `first` of the file.
fn put<W: Word>(kind: BlockKind, first: usize, words: &[W], target: &mut [u8])
    requires { (length words.now ≤ 65536) × (block_size * (first + blocks_for W.PER_BLOCK (length words.now)) ≤ length target.old) }
    ensures { target.new ≡ sets target.old (block_size * first) (table_of (byte_of kind) W.SIZE W.PER_BLOCK first (map W.value words.now)) }
{
    for i in 0..layout::blocks_for(W::PER_BLOCK, words.len()) {
        let number = first + i;
        let at = SIZE * number;
        block::fill(
            layout::opening(kind, number),
            &words[W::PER_BLOCK * i..],
            &mut target[at..at + SIZE],
        );
    }
}

// The head and the tables, which are lent as long as the unit has them. They are three slices as in write.
fn fill(unit: Record, starts: Starts, h: &[u16], g: &[u16], aux: &[u64], target: &mut [u8])
    requires sizes { (length h.now ≡ rows_in unit) × (length g.now ≡ unit.cells) × (length aux.now ≡ words_in unit) }
    requires few { (rows_in unit ≤ 65536) × (unit.cells ≤ 65536) × (words_in unit ≤ 65536) }
    requires room { (starts.g ≡ g_first unit) × (starts.aux ≡ aux_first unit) × (size_of unit ≤ length target.old) }
    ensures { target.new ≡ sets target.old 0 (file_with unit h.now g.now aux.now) }
{
    target[..SIZE].copy_from_slice(&head(unit));
    put(BlockKind::H, H_FIRST, h, target);
    put(BlockKind::G, starts.g, g, target);
    put(BlockKind::Aux, starts.aux, aux, target);
}

// Writes the file of a sound unit, and answers its length; bytes past it keep their value. Refused as `NoUnit` where the unit is not sound,
// and as `ShortTarget` where the target is shorter than the file, with nothing written.
// H, G and AUX are no struct: each caller has them as three slices (the C interface), and it would be taken apart in fill.
pub fn write(
    unit: Record,
    h: &[u16],
    g: &[u16],
    aux: &[u64],
    target: &mut [u8],
) -> Result<usize, Refusal>
    ensures { after (told result) target.new ≡ write_of unit (lent h.now g.now aux.now) target.old }
{
    if !record::sound(unit, h, g, aux) {
        return Err(Refusal::NoUnit);
    }
    let rows = 1usize << unit.n1;
    let cells = unit.cells;
    let words = unit.k + 1;
    let starts = layout::plan(rows as u16, cells as u16, words as u16);
    let length = SIZE * starts.past;
    if target.len() < length {
        return Err(Refusal::ShortTarget);
    }
    fill(unit, starts, &h[..rows], &g[..cells], &aux[..words], target);
    Ok(length)
}
