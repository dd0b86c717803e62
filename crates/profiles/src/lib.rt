// Dated keys for the separation engine. A key has five fields and no bits: the packing stands in `keys` and nowhere else. A unit is built from a
// list of keys, and a key gives its profile's bytes out of the brand owner's slab or, where the brand's unit does not know it, the house's.
#![tactic(auto)]

use unit::Record;

mod keys;
mod places;

pub use keys::{build, word_of};
pub use places::{ask, find, profile};

// A profile key. A field can be over its width: press has 8 bits, ink 12, substrate 12, screen 8, and the day, counted from 1 January 2000, 16.
#[derive(Clone, Copy, PartialEq, Eq, Debug)]
pub struct Key {
    pub press: u32,
    pub ink: u32,
    pub substrate: u32,
    pub screen: u32,
    pub day: u32,
}

// Whose slab.
#[derive(Clone, Copy, PartialEq, Eq, Debug)]
pub enum Whose {
    House,
    Brand,
}

// A slab of profiles that are equally long: the record of its unit, the bytes of one profile, the bytes of the slab.
#[derive(Clone, Copy)]
pub struct Slab {
    pub unit: Record,
    pub size: usize,
    pub length: usize,
}

// What a slab's length is judged by: the keys of its unit, the bytes of one profile, the bytes of the slab.
#[derive(Clone, Copy, PartialEq, Eq, Debug)]
pub struct Room {
    pub keys: usize,
    pub size: usize,
    pub length: usize,
}

// Where a key's profile is: whose slab, and the number of the profile there from 1. The number is 0, of the house, for an unknown key.
#[derive(Clone, Copy, PartialEq, Eq, Debug)]
pub struct Held {
    pub whose: Whose,
    pub number: usize,
}
