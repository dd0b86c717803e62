// The layout of a file: the kinds of its blocks, the places of the head's fields, and where the tables lie.
ghost use Rattle.std.specs.Prelude.{◌≡◌, ◌≤◌};
ghost use Rattle.file.specs.Kinds.{byte_of};
ghost use Rattle.file.specs.File.{opening, blocks_for};
ghost use Rattle.file.specs.Plan.{plan_of};

use block::{Opening, Word};

// What the blocks of a file hold: the head, or words of H, of G or of AUX.
#[derive(Clone, Copy, PartialEq, Eq, Debug)]
pub enum BlockKind {
    Head,
    H,
    G,
    Aux,
}

impl BlockKind {
    // Byte 0 of such a block.
    pub fn byte(self) -> u8
        ensures { result ≡ byte_of self }
    {
        match self {
            BlockKind::Head => b'U',
            BlockKind::H => b'H',
            BlockKind::G => b'G',
            BlockKind::Aux => b'A',
        }
    }
}

// Byte 1 of a block.
const VERSION: u8 = 1;

// How block `number` of a file begins.
pub fn opening(kind: BlockKind, number: usize) -> Opening
    ensures { result ≡ opening (byte_of kind) number }
{
    Opening {
        kind: kind.byte(),
        version: VERSION,
        number,
    }
}

pub const LETTERS: [u8; 4] = *b"IGU1";

// Where each field of the head begins.
pub const LETTERS_AT: usize = 4;

pub const N_AT: usize = 8;

pub const P_AT: usize = 9;

pub const N1_AT: usize = 10;

pub const K_AT: usize = 11;

pub const CELLS_AT: usize = 13;

pub const TRIES_AT: usize = 15;

pub const VARIABLES_AT: usize = 19;

pub const MARK_AT: usize = 67;

// The first byte that no field has.
pub const FREE_AT: usize = 68;

// The number of the first block of H.
pub const H_FIRST: usize = 1;

// The blocks of so many words, with per of them in a block.
pub(crate) fn blocks_for(per: usize, words: usize) -> usize
    requires { (1 ≤ per) × (per ≤ 256) × (words ≤ 65536) }
    ensures value { result ≡ blocks_for per words }
    ensures upper_bound { result ≤ words }
{
    words.div_ceil(per)
}

// The numbers of the first blocks of G and AUX, and of the block past the last, with so many words of H, G and AUX.
#[derive(Clone, Copy)]
pub struct Starts {
    pub g: usize,
    pub aux: usize,
    pub past: usize,
}

pub fn plan(rows: u16, cells: u16, words: u16) -> Starts
    ensures { result ≡ plan_of rows cells words }
{
    let g = H_FIRST + blocks_for(u16::PER_BLOCK, rows as usize);
    let aux = g + blocks_for(u16::PER_BLOCK, cells as usize);
    let past = aux + blocks_for(u64::PER_BLOCK, words as usize);
    Starts { g, aux, past }
}
