// The images of single bits: an image's bit stands at each input of its mask.
ghost use Rattle.std.specs.Prelude.{◌≡◌, List, [], ◌∷◌, ◌++◌, ℕ, ◌-◌, ◌+◌, ◌^◌, ◌%◌, ◌≤◌, ◌<◌, length, take, drop};
ghost use Rattle.std.specs.Int.Bits.{bit_xor};
ghost use Rattle.std.specs.Int.Count.{ones};
ghost use Rattle.vectors.specs.Bits.{place_of};
ghost use Rattle.vectors.specs.Masks.{masks_of, number_by};
ghost use Rattle.vectors.specs.Variable.{mask_of, kinds_of};
ghost use Rattle.vectors.specs.Bounds.{max_inputs, max_variables};
ghost use Rattle.record.specs.Inner.Formed.{InBounds, RightInputs};
ghost use Rattle.many.specs.Inner.Images.{singles, image_masks, OnBits};

use record::Record;
use vectors::{Kind, MAX_INPUTS, Variable};

// The bit put at input i, or taken from it; an input that no word has is left out. The masks before it are ms, and its own is m.
fn toggle(i: u8, bit: u64, images: &mut [u64])
    requires { length images.old ≡ max_inputs }
    ensures { (ms : List ℕ) (m : ℕ) → bit ≡ 2 ^ length ms → OnBits max_inputs (number_by (ms ++ (m ∷ []))) images.old
        → OnBits max_inputs (number_by (ms ++ (bit_xor m (place_of i % 2 ^ max_inputs) ∷ []))) images.new }
{
    let b = i as usize;
    if b == 0 || MAX_INPUTS < b {
        return;
    }
    images[b - 1] ^= bit;
}

// One mask more: the bit at each input of a variable.
fn mark(kind: Kind, bit: u64, images: &mut [u64])
    requires { length images.old ≡ max_inputs }
    ensures { (ms : List ℕ) → bit ≡ 2 ^ length ms → OnBits max_inputs (number_by ms) images.old
        → OnBits max_inputs (number_by (ms ++ (mask_of kind % 2 ^ max_inputs ∷ []))) images.new }
{
    match kind {
        Kind::One(i) => toggle(i, bit, images),
        Kind::Two(i, j) => {
            toggle(i, bit, images);
            toggle(j, bit, images);
        }
    }
}

// The masks of variables, their bits from place at on.
fn mark_variables(variables: &[Variable], at: usize, images: &mut [u64])
    requires { (at + length variables.now ≤ max_variables) × (length images.old ≡ max_inputs) }
    ensures { (ms : List ℕ) → length ms ≡ at → OnBits max_inputs (number_by ms) images.old
        → OnBits max_inputs (number_by (ms ++ masks_of (kinds_of variables.now))) images.new }
{
    for (i, v) in variables.iter().enumerate() {
        mark(v.kind, 1u64 << (at + i), images);
    }
}

// The kept ones of n inputs, each a mask of its own, their bits from place at on.
fn mark_kept(n: usize, kept: u64, at: usize, images: &mut [u64])
    requires { (at + ones kept ≤ max_inputs) × (length images.old ≡ max_inputs) × (n ≤ max_inputs) × (kept < 2 ^ n) }
    ensures { (ms : List ℕ) → length ms ≡ at → OnBits max_inputs (number_by ms) images.old
        → OnBits max_inputs (number_by (ms ++ singles max_inputs 0 kept)) images.new }
{
    let mut rest = kept;
    let mut q = at;
    for j in 0..n {
        if rest % 2 != 0 {
            images[j] ^= 1u64 << q;
            q += 1;
        }
        rest /= 2;
    }
}

// The image of each bit of a word.
pub(crate) fn images(unit: Record) -> [u64; MAX_INPUTS]
    requires { InBounds unit × RightInputs unit }
    ensures { OnBits max_inputs (number_by (image_masks unit)) result }
{
    let variables = unit.variables;
    let mut images = [0u64; MAX_INPUTS];
    mark_variables(&variables[unit.n1..unit.p], 0, &mut images);
    mark_variables(&variables[..unit.n1], unit.p - unit.n1, &mut images);
    mark_kept(unit.n, unit.kept, unit.p, &mut images);
    images
}
