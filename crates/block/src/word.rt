// The words that a table has: of 16 bits in H and G, of 64 in AUX.
ghost use Rattle.std.specs.Prelude.{◌≡◌, ℕ, ◌%◌, ◌^◌};
ghost use Rattle.block.specs.Block.{short_word, long_word, short_words, long_words};
ghost use Rattle.block.specs.Held.{Held, short_held, long_held};

use crate::{CHECK_AT, PAYLOAD_AT};

pub trait Word: Copy {
    // Its bytes, and how many of it the payload of a block holds.
    ghost SIZE: { ℕ };

    ghost PER_BLOCK: { ℕ };

    // The number that it is.
    ghost value: { Self → ℕ };

    const SIZE: usize;

    const PER_BLOCK: usize;

    fn to_number(self) -> u64
        ensures { result ≡ value self };

    // The word of a number's lowest bytes.
    fn of_number(number: u64) -> Self
        ensures { value result ≡ number % 256 ^ SIZE };

    ghost held: { Held SIZE PER_BLOCK };
}

impl Word for u16 {
    ghost SIZE = { short_word };

    ghost PER_BLOCK = { short_words };

    ghost value = { λ w. w };

    ghost held = { short_held };

    const SIZE: usize = 2;

    const PER_BLOCK: usize = (CHECK_AT - PAYLOAD_AT) / 2;

    fn to_number(self) -> u64 {
        u64::from(self)
    }

    fn of_number(number: u64) -> u16 {
        (number % 65536) as u16
    }
}

impl Word for u64 {
    ghost SIZE = { long_word };

    ghost PER_BLOCK = { long_words };

    ghost value = { λ w. w };

    ghost held = { long_held };

    const SIZE: usize = 8;

    const PER_BLOCK: usize = (CHECK_AT - PAYLOAD_AT) / 8;

    fn to_number(self) -> u64 {
        self
    }

    fn of_number(number: u64) -> u64 {
        number
    }
}
