// What is read of a block: numbers, its check, its opening and its words.
ghost use Rattle.std.specs.Prelude.{◌≡◌, ◌+◌, ◌≤◌, min, length, map};
ghost use Rattle.block.specs.Bytes.{number_at};
ghost use Rattle.block.specs.Block.{right_check};
ghost use Rattle.block.specs.Look.{blank_from, laid_out, words_over};

use crate::{CHECK_AT, Opening, PAYLOAD_AT, SIZE, Word};

// The number that the bytes at a place make, as many as size says.
fn word(bytes: &[u8], at: usize, size: usize) -> u64
    requires { (at + size ≤ length bytes.now) × (size ≤ 8) }
    ensures { result ≡ number_at size at bytes.now }
{
    let mut whole = [0u8; 8];
    whole[..size].copy_from_slice(&bytes[at..at + size]);
    u64::from_le_bytes(whole)
}

// The number that the bytes at a place make, as many as size says, eight at most; those that are not there count as 0.
pub fn number(bytes: &[u8], at: usize, size: usize) -> u64
    ensures { result ≡ number_at (min size 8) at bytes.now }
{
    if bytes.len() < at {
        return 0;
    }
    word(bytes, at, size.min(8).min(bytes.len() - at))
}

// Whether a block ends in the check of its other bytes; no slice of another length does.
pub fn right(block: &[u8]) -> bool
    ensures { result ≡ right_check block.now }
{
    let Some(block) = block.as_array::<SIZE>() else {
        return false;
    };
    let s = crate::sums(block);
    word(block, CHECK_AT, 2) == u64::from(s.plain)
        && word(block, CHECK_AT + 2, 2) == u64::from(s.weighed)
}

// Whether the bytes from a place up to the check are 0. They are summed to the end: with no way out of the loop many bytes are summed at
// a time.
pub fn blank(block: &[u8], at: usize) -> bool
    ensures { result ≡ blank_from at block.now }
{
    let end = CHECK_AT.min(block.len());
    let mut s: u32 = 0;
    for b in &block[at.min(end)..end] {
        s += u32::from(*b);
    }
    s == 0
}

// Whether a block has this opening, and its payload is 0 from a place on.
pub fn laid(opening: Opening, at: usize, block: &[u8]) -> bool
    ensures { result ≡ laid_out opening at block.now }
{
    block.starts_with(&opening.bytes()) && blank(block, at)
}

// Takes the first words of a block, as many as are lent and it holds; a slice that is not as long as a block gives none.
pub fn words<W: Word>(block: &[u8], words: &mut [W])
    ensures { map W.value words.new ≡ words_over W.SIZE W.PER_BLOCK block.now (map W.value words.old) }
{
    let Some(block) = block.as_array::<SIZE>() else {
        return;
    };
    let used = W::PER_BLOCK.min(words.len());
    for i in 0..used {
        words[i] = W::of_number(word(block, PAYLOAD_AT + W::SIZE * i, W::SIZE));
    }
}
