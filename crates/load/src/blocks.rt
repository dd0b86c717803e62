// The blocks of a file tested.
ghost use Rattle.std.specs.Prelude.{◌≡◌, ℕ, ◌<◌, slice_index, true, ◌-◌, ◌*◌, ◌/◌, ◌%◌, ◌≤◌, length, MatchOption};
ghost use Rattle.vectors.specs.Bounds.{max_variables};
ghost use Rattle.record.specs.Formed.{is_in_bounds};
ghost use Rattle.block.specs.Block.{block_size};
ghost use Rattle.file.specs.File.{rows_in, words_in};
ghost use Rattle.file.specs.Kinds.{byte_of};
ghost use Rattle.file.specs.Plan.{plan_of};
ghost use Rattle.file.specs.Read.{no_blocks, right_checks, is_file};
ghost use Rattle.load.specs.Inner.Said.{said_in};
ghost use Rattle.load.specs.Inner.Laid.{table_laid, has_letters, head_laid, laid_by};

use block::{CHECK_AT, PAYLOAD_AT, SIZE};
use file::layout;
use file::layout::{
    BlockKind, FREE_AT, H_FIRST, LETTERS, LETTERS_AT, MARK_AT, Starts, VARIABLES_AT,
};
use record::Record;

// Bytes that are one block or more, and nothing behind the last.
#[derive(Clone, Copy)]
pub(crate) struct Blocks<'a> {
    pub(crate) bytes: &'a [u8],
    ghost some: { block_size ≤ length bytes.now },
    ghost whole: { length bytes.now % block_size ≡ 0 },
    ghost low: { (i : ℕ) → slice_index bytes.now i < 256 },
}

// The blocks of a table: their kind, the first number and the one past the last, and the bytes of its words.
#[derive(Clone, Copy)]
struct Part {
    kind: BlockKind,
    first: usize,
    past: usize,
    bytes: usize,
}

// Where the tables of a unit lie. That a record is in bounds is no ghost field: the record is what read answers, and only between the test
// and the answer is it asked, here and of the two that call this.
pub(crate) fn plan(unit: Record) -> Starts
    requires { is_in_bounds unit ≡ true }
    ensures { result ≡ plan_of (rows_in unit) unit.cells (words_in unit) }
{
    let rows = 1usize << unit.n1;
    let words = unit.k + 1;
    layout::plan(rows as u16, unit.cells as u16, words as u16)
}

impl<'a> Blocks<'a> {
    // The bytes as blocks; None where there is none of them or no whole number.
    pub(crate) fn of(bytes: &'a [u8]) -> Option<Blocks<'a>>
        ensures { MatchOption result (no_blocks bytes.now ≡ true) (λ b. b.bytes.now ≡ bytes.now) }
    {
        if bytes.is_empty() || bytes.len() % SIZE != 0 {
            return None;
        }
        Some(Blocks { bytes })
    }

    // Whether every block ends in its check.
    pub(crate) fn right_checks(self) -> bool
        ensures { result ≡ right_checks (length self.entry.bytes.now / block_size) self.entry.bytes.now }
    {
        self.bytes.chunks_exact(SIZE).all(|b| block::right(b))
    }

    // Whether each block of a table has its opening, and no byte past the words but 0.
    fn table_laid(self, part: Part) -> bool
        requires { (part.first ≤ part.past) × (block_size * part.past ≤ length self.bytes.now) }
        ensures { result ≡ table_laid (part.past - part.first) (byte_of part.kind) part.first part.bytes self.entry.bytes.now }
    {
        let mut left = part.bytes;
        for number in part.first..part.past {
            let at = SIZE * number;
            let used = (CHECK_AT - PAYLOAD_AT).min(left);
            let opening = layout::opening(part.kind, number);
            if !block::laid(opening, PAYLOAD_AT + used, &self.bytes[at..at + SIZE]) {
                return false;
            }
            left -= used;
        }
        true
    }

    // Whether the four letters stand in the head.
    fn has_letters(self) -> bool
        ensures { result ≡ has_letters self.entry.bytes.now }
    {
        self.bytes[LETTERS_AT..].starts_with(&LETTERS)
    }

    // Whether the first block is a head with the letters and a mark, and has no other byte past p variables but 0.
    #[tactic(auto, unfolding(crate::specs::Inner::Laid::head_laid))]
    fn head_laid(self, p: usize) -> bool
        requires { p ≤ max_variables }
        ensures { result ≡ head_laid p self.entry.bytes.now }
    {
        let head = layout::opening(BlockKind::Head, 0);
        block::laid(head, FREE_AT, &self.bytes[..SIZE])
            && self.has_letters()
            && block::blank(&self.bytes[..MARK_AT], VARIABLES_AT + 2 * p)
            && self.bytes[MARK_AT] <= 1
    }

    // Whether the blocks are those of the record's tables behind its head, each laid out as it should be.
    fn laid_by(self, unit: Record) -> bool
        requires { is_in_bounds unit ≡ true }
        ensures { result ≡ laid_by unit self.entry.bytes.now }
    {
        let starts = plan(unit);
        let h = Part {
            kind: BlockKind::H,
            first: H_FIRST,
            past: starts.g,
            bytes: 2usize << unit.n1,
        };
        let g = Part {
            kind: BlockKind::G,
            first: starts.g,
            past: starts.aux,
            bytes: 2 * unit.cells,
        };
        let aux = Part {
            kind: BlockKind::Aux,
            first: starts.aux,
            past: starts.past,
            bytes: 8 * (unit.k + 1),
        };
        self.bytes.len() == SIZE * starts.past
            && self.head_laid(unit.p)
            && self.table_laid(h)
            && self.table_laid(g)
            && self.table_laid(aux)
    }

    // Whether the bytes are those of a unit's file: unit is what the head says, and every check is right.
    pub(crate) fn is_file(self, unit: Record) -> bool
        requires unit_value { unit ≡ said_in self.bytes.now }
        requires file_value { right_checks (length self.bytes.now / block_size) self.bytes.now ≡ true }
        ensures { result ≡ is_file self.entry.bytes.now }
    {
        record::right(unit) && self.laid_by(unit)
    }
}
