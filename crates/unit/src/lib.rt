// The index generation unit: the entries of the library, handed on from the crates that have them. What they promise together, the demands,
// the sign of the excess and the sample units, is stated in specs/.
#![tactic(auto)]

pub use build::{build_chosen, build_given};
pub use lookup::lookup;
pub use record::{Mark, Record, well_formed};
pub use recover::recover;
pub use refusal::{Refusal, Refused};
