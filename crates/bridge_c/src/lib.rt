// The functions of crate `bridge` for C, each with its clauses.
#![tactic(auto)]

ghost use Rattle.std.specs.Prelude.{◌≡◌, ◌∷◌, [], ◌<◌};
ghost use Rattle.record.specs.Tables.{lent};
ghost use Rattle.bridge.specs.Calls.{left, build_call, given_call, found_in, lookup_call, indexed, many_call, recovered_in, filed, write_call, read_call};

use flat::WORDS;
use vectors::MAX_VARIABLES;

#[unsafe(no_mangle)]
pub extern "C" fn igu_build(
    n: usize,
    degree: usize,
    cells: usize,
    allowance: u64,
    vectors: &[u64],
    h: &mut [u16],
    g: &mut [u16],
    aux: &mut [u64],
    words: &mut [u64; WORDS],
) -> u64
    ensures { left result words.new (lent h.new g.new aux.new)
        ≡ build_call n degree cells allowance vectors.now (lent h.old g.old aux.old) }
{
    bridge::igu_build(n, degree, cells, allowance, vectors, h, g, aux, words)
}

#[unsafe(no_mangle)]
pub extern "C" fn igu_build_given(
    n: usize,
    p: usize,
    n1: usize,
    cells: usize,
    allowance: u64,
    variables: &[u64; MAX_VARIABLES],
    vectors: &[u64],
    h: &mut [u16],
    g: &mut [u16],
    aux: &mut [u64],
    words: &mut [u64; WORDS],
) -> u64
    ensures { left result words.new (lent h.new g.new aux.new)
        ≡ given_call n p n1 cells allowance variables.now vectors.now (lent h.old g.old aux.old) }
{
    bridge::igu_build_given(
        n, p, n1, cells, allowance, variables, vectors, h, g, aux, words,
    )
}

#[unsafe(no_mangle)]
pub extern "C" fn igu_lookup(words: &[u64; WORDS], h: &[u16], g: &[u16], aux: &[u64], x: u64) -> u64
    ensures { result ≡ lookup_call words.now (lent h.now g.now aux.now) x }
{
    bridge::igu_lookup(words, h, g, aux, x)
}

#[unsafe(no_mangle)]
pub extern "C" fn igu_lookup_many(
    words: &[u64; WORDS],
    h: &[u16],
    g: &[u16],
    aux: &[u64],
    keys: &[u64],
    indices: &mut [u16],
) -> u64
    ensures { indexed result indices.new
        ≡ many_call words.now (lent h.now g.now aux.now) keys.now indices.old }
{
    bridge::igu_lookup_many(words, h, g, aux, keys, indices)
}

#[unsafe(no_mangle)]
pub extern "C" fn igu_recover(
    words: &[u64; WORDS],
    h: &[u16],
    g: &[u16],
    aux: &[u64],
    i: usize,
    vector: &mut [u64; 1],
) -> u64
    ensures value { result ≡ (recovered_in words.now (lent h.now g.now aux.now) i).refusal }
    ensures vector_after { vector.new ≡ (recovered_in words.now (lent h.now g.now aux.now) i).vector ∷ [] }
{
    bridge::igu_recover(words, h, g, aux, i, vector)
}

#[unsafe(no_mangle)]
pub extern "C" fn igu_write(
    words: &[u64; WORDS],
    h: &[u16],
    g: &[u16],
    aux: &[u64],
    target: &mut [u8],
) -> u64
    ensures { filed result target.new ≡ write_call words.now (lent h.now g.now aux.now) target.old }
{
    bridge::igu_write(words, h, g, aux, target)
}

#[unsafe(no_mangle)]
pub extern "C" fn igu_read(
    file: &[u8],
    h: &mut [u16],
    g: &mut [u16],
    aux: &mut [u64],
    words: &mut [u64; WORDS],
) -> u64
    ensures { left result words.new (lent h.new g.new aux.new)
        ≡ read_call file.now (lent h.old g.old aux.old) }
{
    bridge::igu_read(file, h, g, aux, words)
}
