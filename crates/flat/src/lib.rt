// The flat record of 40 words: a unit written to it, and read from it.
#![tactic(auto)]

ghost use Rattle.std.specs.Prelude.{◌≡◌, map, ◌<◌, length};
ghost use Rattle.std.specs.Int.{w64};
ghost use Rattle.std.proofs.Common.{to_z, of_z};
ghost use Rattle.flat.specs.Flat as spec;

use record::{Mark, Record};
use vectors::{Kind, MAX_VARIABLES, Part, Variable};

// The words of a flat record; variables stand in words 8 to 31, the mark behind them.
pub const WORDS: usize = 40;

const MARK_PLACE: usize = 32;

// Functions and not From: Kind and Part belong to crate vectors, and this word of them to the flat record alone.
fn kind_word(kind: Kind) -> u64
    ensures { (result ≡ spec.kind_word kind) × (result < 65536) }
{
    match kind {
        Kind::One(i) => u64::from(i),
        Kind::Two(i, j) => u64::from(i) + 256 * u64::from(j),
    }
}

fn part_word(part: Part) -> u64
    ensures { (result ≡ spec.part_word part) × (result < 2) }
{
    match part {
        Part::Row => 0,
        Part::Column => 1,
    }
}

fn word(variable: Variable) -> u64
    ensures { result ≡ spec.variable_word variable }
{
    kind_word(variable.kind) + 65536 * part_word(variable.part)
}

fn kind_at(i: u8, j: u8) -> Kind
    ensures { result ≡ spec.kind_at i j }
{
    if j == 0 {
        Kind::One(i)
    } else {
        Kind::Two(i, j)
    }
}

fn part_at(mark: u64) -> Part
    ensures { result ≡ spec.part_at mark }
{
    if mark == 0 { Part::Row } else { Part::Column }
}

// The variable of a word's lowest 17 bits. The part is one bit: without a branch the words are read several at a time.
fn low_variable(word: u64) -> Variable
    ensures { result ≡ spec.low_variable word }
{
    let kind = kind_at((word % 256) as u8, (word / 256 % 256) as u8);
    let part = part_at(word / 65536 % 2);
    Variable { kind, part }
}

// The variables of the first 24 words by their lowest 17 bits, blank ones where the words are fewer. The loop goes by the slice's length and not by 24:
// small as it then is, the compiler takes it into lookup, where the length is known, and reads the words there several at a time.
pub fn low_variables(words: &[u64]) -> [Variable; MAX_VARIABLES]
    ensures { result ≡ spec.low_variables words.now }
{
    let mut v = vectors::blank_variables();
    for i in 0..words.len().min(MAX_VARIABLES) {
        v[i] = low_variable(words[i]);
    }
    v
}

// The variable of a word: the blank one where it is above 2^17 - 1.
fn variable_at(word: u64) -> Variable
    ensures { result ≡ spec.variable_at word }
{
    if 131071 < word {
        return low_variable(0);
    }
    low_variable(word)
}

// The variables of 24 words that a caller states.
pub fn variables(words: &[u64; MAX_VARIABLES]) -> [Variable; MAX_VARIABLES]
    ensures { result ≡ map spec.variable_at words.now }
{
    // No map of the array: that takes several hundred bytes of stack, which igu_build_given has in use while rows are placed.
    let mut v = vectors::blank_variables();
    for (i, word) in words.iter().enumerate() {
        v[i] = variable_at(*word);
    }
    v
}

// Whether no word is above 2^17 - 1.
fn all_in_range(words: &[u64]) -> bool
    ensures { result ≡ spec.all_in_range words.now }
{
    let mut bits: u64 = 0;
    for word in words {
        bits |= *word;
    }
    bits < 131072
}

// Whether the variable words of a record are in range.
pub fn readable(words: &[u64; WORDS]) -> bool
    ensures { result ≡ spec.all_in_range (spec.variable_words words.now) }
{
    all_in_range(&words[8..32])
}

// The words of the variables.
fn write_variables(variables: [Variable; MAX_VARIABLES], words: &mut [u64])
    requires { length words.old ≡ 24 }
    ensures { words.new ≡ map spec.variable_word variables }
{
    for (i, v) in variables.iter().enumerate() {
        words[i] = word(*v);
    }
}

// The record of a unit.
pub fn words(unit: Record) -> [u64; WORDS]
    ensures { result ≡ spec.flat_of unit }
{
    let mut w = [0u64; WORDS];
    w[0] = unit.n as u64;
    w[1] = unit.p as u64;
    w[2] = unit.n1 as u64;
    w[3] = unit.k as u64;
    w[4] = unit.cells as u64;
    w[5] = unit.kept;
    w[6] = unit.tries;
    w[7] = unit.excess.cast_unsigned();
    w[MARK_PLACE] = u64::from(u8::from(unit.mark));
    write_variables(unit.variables, &mut w[8..32]);
    w
}

// The unit of a record, with these variables.
pub fn unit(words: &[u64; WORDS], variables: [Variable; MAX_VARIABLES]) -> Record
    ensures { result ≡ spec.unit_with words.now variables }
{
    Record {
        n: words[0] as usize,
        p: words[1] as usize,
        n1: words[2] as usize,
        k: words[3] as usize,
        cells: words[4] as usize,
        kept: words[5],
        tries: words[6],
        excess: words[7].cast_signed(),
        variables,
        mark: Mark::from(words[MARK_PLACE]),
    }
}

// The unit of any record: one with no input, which is refused as 14, where a word of the variables is out of range.
// No Option: what C's calls promise, each says of `unit_seen words`, whatever the words are.
pub fn seen(words: &[u64; WORDS]) -> Record
    ensures { result ≡ spec.unit_seen words.now }
{
    if !readable(words) {
        return Record {
            k: words[3] as usize,
            ..record::blank()
        };
    }
    unit(words, low_variables(&words[8..32]))
}
