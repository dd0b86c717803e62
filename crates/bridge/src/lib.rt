// The unit for C and Rust: seven functions over slices and a flat record of 40 words.
#![tactic(auto)]

ghost use Rattle.std.specs.Prelude.{◌≡◌, ◌∷◌, [], ◌<◌};
ghost use Rattle.record.specs.Tables.{lent};
ghost use Rattle.lookup.specs.Lookup as lookup;
ghost use Rattle.build.specs.Built.{told};
ghost use Rattle.flat.specs.Flat.{flat_of};
ghost use Rattle.bridge.specs.Calls as spec;
ghost use Rattle.bridge.specs.Calls.{left, build_call, given_call, found_in, lookup_call, indexed, many_call, recovered_in, number_in, built_answer, filed, write_call, read_call};

use flat::WORDS;
use unit::{Record, Refusal, Refused};
use vectors::MAX_VARIABLES;

// So many places an answer can tell apart.
const MAX_PLACES: u64 = 1 << 56;

// A refusal and a number in one word.
fn answer(refusal: u8, number: usize) -> u64
    requires { number < 65536 }
    ensures { result ≡ spec.answer refusal number }
{
    u64::from(refusal) + 256 * (number as u64)
}

// A number that was asked for, or the refusal of it, in one word.
fn answered(asked: Result<usize, Refusal>) -> u64
    requires { number_in asked < 65536 }
    ensures { result ≡ spec.answered asked }
{
    match asked {
        Ok(number) => answer(0, number),
        Err(refusal) => answer(refusal.number(), 0),
    }
}

// The record of a build goes to words, a blank one beside a refusal. The answer is the refusal, 256 times the place and 2^32 times the cells needed.
fn leave(built: Result<Record, Refused>, words: &mut [u64; WORDS]) -> u64
    requires { ((told built).place < 65536) × ((told built).needed < 65536) }
    ensures value { result ≡ built_answer (told built).refusal (told built).place (told built).needed }
    ensures words_after { words.new ≡ flat_of (told built).unit }
{
    // In one place: of two each would take room of its own on the stack.
    *words = flat::words(built.unwrap_or(record::blank()));
    match built {
        Ok(_) => 0,
        Err(refused) => {
            let refusal = refused.refusal;
            answer(refusal.number(), refused.place) + 0x1_0000_0000 * (refusal.needed() as u64)
        }
    }
}

// The build that chooses its variables, with an allowance of tries. The answer is the refusal, 256 times the place and 2^32 times the
// cells needed.
pub fn igu_build(
    n: usize,
    degree: usize,
    cells: usize,
    allowance: u64,
    vectors: &[u64],
    h: &mut [u16],
    g: &mut [u16],
    aux: &mut [u64],
    words: &mut [u64; WORDS],
) -> u64
    ensures { left result words.new (lent h.new g.new aux.new)
        ≡ build_call n degree cells allowance vectors.now (lent h.old g.old aux.old) }
{
    let built = unit::build_chosen(n, degree, cells, allowance, vectors, h, g, aux);
    leave(built, words)
}

// The build whose variables and n1 the caller states, likewise.
pub fn igu_build_given(
    n: usize,
    p: usize,
    n1: usize,
    cells: usize,
    allowance: u64,
    variables: &[u64; MAX_VARIABLES],
    vectors: &[u64],
    h: &mut [u16],
    g: &mut [u16],
    aux: &mut [u64],
    words: &mut [u64; WORDS],
) -> u64
    ensures { left result words.new (lent h.new g.new aux.new)
        ≡ given_call n p n1 cells allowance variables.now vectors.now (lent h.old g.old aux.old) }
{
    let built = unit::build_given(
        n,
        flat::variables(variables),
        p,
        n1,
        cells,
        allowance,
        vectors,
        h,
        g,
        aux,
    );
    leave(built, words)
}

// What lookup gives by a record. The words are tested and read here, and not by `flat::seen`, which the compiler would not take in.
fn find(words: &[u64; WORDS], h: &[u16], g: &[u16], aux: &[u64], x: u64) -> Result<usize, Refusal>
    ensures { lookup.told result ≡ found_in words.now (lent h.now g.now aux.now) x }
{
    if !flat::readable(words) {
        return Err(Refusal::NoUnit);
    }
    let all = &words[..];
    let variables = flat::low_variables(&all[8..32]);
    unit::lookup(flat::unit(words, variables), h, g, aux, x)
}

// The refusal and 256 times the number of the registered vector x, or 0.
pub fn igu_lookup(words: &[u64; WORDS], h: &[u16], g: &[u16], aux: &[u64], x: u64) -> u64
    ensures { result ≡ lookup_call words.now (lent h.now g.now aux.now) x }
{
    answered(find(words, h, g, aux, x))
}

// The index of each key goes to indices. The answer is the refusal of the first key that is refused, and 256 times its number, for which it has 56 bits:
// more than any memory has keys.
pub fn igu_lookup_many(
    words: &[u64; WORDS],
    h: &[u16],
    g: &[u16],
    aux: &[u64],
    keys: &[u64],
    indices: &mut [u16],
) -> u64
    ensures { indexed result indices.new
        ≡ many_call words.now (lent h.now g.now aux.now) keys.now indices.old }
{
    match many::lookup_many(flat::seen(words), h, g, aux, keys, indices) {
        Ok(()) => 0,
        Err(refused) => {
            u64::from(refused.refusal.number()) + 256 * (refused.place as u64 % MAX_PLACES)
        }
    }
}

// The refusal; the registered vector with the number i goes to vector.
pub fn igu_recover(
    words: &[u64; WORDS],
    h: &[u16],
    g: &[u16],
    aux: &[u64],
    i: usize,
    vector: &mut [u64; 1],
) -> u64
    ensures value { result ≡ (recovered_in words.now (lent h.now g.now aux.now) i).refusal }
    ensures vector_after { vector.new ≡ (recovered_in words.now (lent h.now g.now aux.now) i).vector ∷ [] }
{
    match unit::recover(flat::seen(words), h, g, aux, i) {
        Ok(recovered) => {
            *vector = [recovered];
            0
        }
        Err(refusal) => {
            *vector = [0];
            u64::from(refusal.number())
        }
    }
}

// The refusal and 256 times the bytes of the file that is written.
pub fn igu_write(words: &[u64; WORDS], h: &[u16], g: &[u16], aux: &[u64], target: &mut [u8]) -> u64
    ensures { filed result target.new ≡ write_call words.now (lent h.now g.now aux.now) target.old }
{
    answered(file::write(flat::seen(words), h, g, aux, target))
}

// The refusal; the record and the tables are the unit's that the file holds.
pub fn igu_read(
    file: &[u8],
    h: &mut [u16],
    g: &mut [u16],
    aux: &mut [u64],
    words: &mut [u64; WORDS],
) -> u64
    ensures { left result words.new (lent h.new g.new aux.new)
        ≡ read_call file.now (lent h.old g.old aux.old) }
{
    let read = load::read(file, h, g, aux);
    // In one place: of two each would take room of its own on the stack, and with both the call would pass what include/igu.h says.
    *words = flat::words(read.unwrap_or(record::blank()));
    match read {
        Ok(_) => 0,
        Err(refusal) => u64::from(refusal.number()),
    }
}
