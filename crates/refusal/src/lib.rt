// The refusals of SCOPE 11.1 and 22.2, by name; each has a number.
#![tactic(auto)]

ghost use Rattle.std.specs.Prelude.{◌≡◌};
ghost use Rattle.refusal.specs.Refusal.{number_of, needed_of};

// Why a call is refused.
#[derive(Clone, Copy, Debug, PartialEq, Eq)]
pub enum Refusal {
    // n is out of bounds.
    Inputs,
    // The degree, or how many variables are given.
    Degree,
    // No vectors, or too many.
    Vectors,
    // L is out of bounds.
    Cells,
    // G or AUX is too short for the cells and the vectors.
    ShortTables,
    // A vector or a key has a bit beyond n.
    Beyond,
    // A vector equals an earlier one.
    Repeated,
    // A variable is faulty.
    Faulty,
    // A variable is an XOR of earlier ones.
    Dependent,
    // A vector agrees with an earlier one on every variable.
    Alike,
    // The variables of the rule do not tell the vectors apart.
    NotApart,
    // H is too short for the rows.
    ShortRows,
    // A row has no place; with so many cells it would have one. An addition does not work them out and says 0.
    NoPlace(usize),
    // The record and the tables are no unit.
    NoUnit,
    // No vector has that number.
    NoVector,
    // The target, or the words for the answers, are too few.
    ShortTarget,
    // A file that is empty or not of whole blocks.
    FileLength,
    // A block does not fit its check.
    BlockCheck,
    // The checks are right, and the file is no unit's.
    NoFile,
    // A table is too short for the unit of a file.
    ShortForFile,
    // A field of a key is over its width.
    Width,
    // A slab is too short for its unit.
    ShortSlab,
    // The vector is registered already.
    Registered,
    // More tries would be made than are allowed.
    Allowance,
}

// A refusal with its place, 0 where it has none.
#[derive(Clone, Copy, Debug, PartialEq, Eq)]
pub struct Refused {
    pub refusal: Refusal,
    pub place: usize,
}

impl Refusal {
    // The number that SCOPE gives it.
    pub fn number(self) -> u8
        ensures { result ≡ number_of self }
    {
        match self {
            Refusal::Inputs => 1,
            Refusal::Degree => 2,
            Refusal::Vectors => 3,
            Refusal::Cells => 4,
            Refusal::ShortTables => 5,
            Refusal::Beyond => 6,
            Refusal::Repeated => 7,
            Refusal::Faulty => 8,
            Refusal::Dependent => 9,
            Refusal::Alike => 10,
            Refusal::NotApart => 11,
            Refusal::ShortRows => 12,
            Refusal::NoPlace(_) => 13,
            Refusal::NoUnit => 14,
            Refusal::NoVector => 15,
            Refusal::ShortTarget => 20,
            Refusal::FileLength => 21,
            Refusal::BlockCheck => 22,
            Refusal::NoFile => 23,
            Refusal::ShortForFile => 24,
            Refusal::Width => 30,
            Refusal::ShortSlab => 31,
            Refusal::Registered => 40,
            Refusal::Allowance => 41,
        }
    }

    // The cells that are needed beside 13; 0 beside the others.
    pub fn needed(self) -> usize
        ensures { result ≡ needed_of self }
    {
        match self {
            Refusal::NoPlace(cells) => cells,
            _ => 0,
        }
    }

    // The refusal at a place.
    pub fn at(self, place: usize) -> Refused
        ensures { result ≡ record { refusal = self; place = place } }
    {
        Refused {
            refusal: self,
            place,
        }
    }
}

// A refusal alone has the place 0.
impl From<Refusal> for Refused {
    ghost from_gives = { λ r e. e ≡ record { refusal = r; place = 0 } };

    fn from(refusal: Refusal) -> Refused {
        refusal.at(0)
    }
}
