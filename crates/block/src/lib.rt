// Blocks of 512 bytes: an opening of four bytes, a payload, and a check over both.
#![tactic(auto)]

ghost use Rattle.std.specs.Prelude.{◌≡◌, ◌++◌, ◌+◌, ◌-◌, ◌*◌, ◌%◌, ◌≤◌, ◌<◌, length, take, drop, map, replicate};
ghost use Rattle.std.proofs.lemmas.List.Edits.{sets};
ghost use Rattle.block.specs.Bytes.{little_of, words_of};
ghost use Rattle.block.specs.Block.{block_size, check_at, modulus, sum_of, weigh, opening_of, sealed as Block·sealed, block_of, in_block};
ghost use Rattle.block.specs.Inner.Columns.{lanes, half_size, Columns, Added};

mod read;
mod word;

pub use read::{blank, laid, number, right, words};
pub use word::Word;

// The bytes of a block, and where its payload and its check begin.
pub const SIZE: usize = 512;

pub const PAYLOAD_AT: usize = 4;

pub const CHECK_AT: usize = 508;

const MODULUS: u32 = 65521;

// Bytes that are summed side by side, and half of a block.
const LANES: usize = 16;

const HALF: usize = LANES * LANES;

// How a block begins; of the number the lowest 16 bits are written. The kind is a number: the definitions opening_of, block_of and laid_out
// have it so, and which kinds there are is crate file's (layout::BlockKind).
#[derive(Clone, Copy)]
pub struct Opening {
    pub kind: u8,
    pub version: u8,
    pub number: usize,
}

impl Opening {
    // The bytes in front of a payload.
    fn bytes(self) -> [u8; PAYLOAD_AT]
        ensures { result ≡ opening_of self }
    {
        [
            self.kind,
            self.version,
            (self.number % 256) as u8,
            (self.number / 256 % 256) as u8,
        ]
    }
}

// The sum of some bytes, and their sum with weights that fall by one to 1 at the last.
#[derive(Clone, Copy)]
struct Totals {
    plain: u32,
    weighed: u32,
}

// Adds a row of bytes to the sums of the columns, and these to their running sums. The two are no struct: half makes them, lends them to its
// two parts and lets them go.
fn add_row(
    block: &[u8; SIZE],
    start: usize,
    row: usize,
    sums: &mut [u16; LANES],
    runs: &mut [u16; LANES],
)
    requires row_lt_lanes { (row < lanes) × (start + half_size ≤ block_size) }
    requires columns { Columns row sums.old runs.old }
    ensures { Added (take lanes (drop (start + lanes * row) block.now)) row sums.old runs.old sums.new runs.new }
{
    let at = start + LANES * row;
    for j in 0..LANES {
        let s = sums[j] + u16::from(block[at + j]);
        sums[j] = s;
        runs[j] += s;
    }
}

// The sums of all bytes, from those of the columns and their running sums.
fn fold(sums: &[u16; LANES], runs: &[u16; LANES]) -> Totals
    requires { Columns lanes sums.now runs.now × (sum_of sums.now ≤ sum_of runs.now) }
    ensures { (result.plain ≡ sum_of sums.now) × (result.weighed + lanes * sum_of sums.now ≡ lanes * sum_of runs.now + weigh lanes sums.now) }
{
    let mut s: u32 = 0;
    let mut t: u32 = 0;
    let mut r: u32 = 0;
    for (sum, run) in sums.iter().zip(runs.iter()) {
        s += u32::from(*sum);
        t += s;
        r += u32::from(*run);
    }
    Totals {
        plain: s,
        weighed: LANES as u32 * (r - s) + t,
    }
}

// The sums of 256 bytes. They are taken as rows of 16: what is summed by columns is summed 16 bytes at a time, and a column's running sum
// weighs its bytes by their rows.
fn half(block: &[u8; SIZE], start: usize) -> Totals
    requires { start + half_size ≤ block_size }
    ensures plain_value { (result.plain ≡ sum_of (take half_size (drop start block.now))) × (result.weighed ≡ weigh half_size (take half_size (drop start block.now))) }
    ensures plain_bound { (result.plain ≤ 65280) × (result.weighed ≤ 65280 * 256) }
{
    let mut sums = [0u16; LANES];
    let mut runs = [0u16; LANES];
    for row in 0..LANES {
        add_row(block, start, row, &mut sums, &mut runs);
    }
    fold(&sums, &runs)
}

// The sums of the check's own bytes.
fn own(block: &[u8; SIZE]) -> Totals
    ensures plain_value { (result.plain ≡ sum_of (drop check_at block.now)) × (result.weighed ≡ weigh 4 (drop check_at block.now)) }
    ensures plain_bound { (result.plain ≤ 1020) × (result.weighed ≤ 10200) }
{
    let mut s: u32 = 0;
    let mut t: u32 = 0;
    for b in &block[CHECK_AT..] {
        s += u32::from(*b);
        t += s;
    }
    Totals {
        plain: s,
        weighed: t,
    }
}

// The two sums of the bytes before the check, modulo 65,521: those of the whole block, less what the check's own bytes have in them.
fn sums(block: &[u8; SIZE]) -> Totals
    ensures { (result.plain ≡ sum_of (take check_at block.now) % modulus) × (result.weighed ≡ weigh check_at (take check_at block.now) % modulus) }
{
    let a = half(block, 0);
    let b = half(block, HALF);
    let c = own(block);
    let plain = a.plain + b.plain - c.plain;
    let weighed = a.weighed + HALF as u32 * a.plain + b.weighed - 4 * plain - c.weighed;
    Totals {
        plain: plain % MODULUS,
        weighed: weighed % MODULUS,
    }
}

// Writes the lowest bytes of a number, as many as the place has.
pub fn put_number(number: u64, place: &mut [u8])
    ensures { place.new ≡ little_of (length place.old) number }
{
    let mut rest = number;
    for b in place.iter_mut() {
        *b = (rest % 256) as u8;
        rest /= 256;
    }
}

// Writes the check behind the bytes that it is of.
fn seal(block: &mut [u8; SIZE])
    ensures { block.new ≡ Block·sealed (take check_at block.old) }
{
    let s = sums(block);
    put_number(u64::from(s.plain), &mut block[CHECK_AT..CHECK_AT + 2]);
    put_number(u64::from(s.weighed), &mut block[CHECK_AT + 2..]);
}

// A block with its opening and nothing else.
pub fn opened(opening: Opening) -> [u8; SIZE]
    ensures { result ≡ opening_of opening ++ replicate check_at 0 }
{
    let mut b = [0u8; SIZE];
    b[..PAYLOAD_AT].copy_from_slice(&opening.bytes());
    b
}

// The block with the check of what stands before it.
pub fn sealed(block: [u8; SIZE]) -> [u8; SIZE]
    ensures { result ≡ Block·sealed (take check_at block) }
{
    let mut b = block;
    seal(&mut b);
    b
}

// Writes the block of the first words, as many as it holds; a slice that is not as long as a block stays as it is.
pub fn fill<W: Word>(opening: Opening, words: &[W], block: &mut [u8])
    ensures { block.new ≡ in_block (block_of opening (words_of W.SIZE (take W.PER_BLOCK (map W.value words.now)))) block.old }
{
    let Some(block) = block.as_mut_array::<SIZE>() else {
        return;
    };
    block[..PAYLOAD_AT].copy_from_slice(&opening.bytes());
    let used = W::PER_BLOCK.min(words.len());
    for (i, w) in words[..used].iter().enumerate() {
        let at = PAYLOAD_AT + W::SIZE * i;
        put_number(w.to_number(), &mut block[at..at + W::SIZE]);
    }
    let rest = PAYLOAD_AT + W::SIZE * used;
    block[rest..CHECK_AT].fill(0);
    seal(block);
}
