// The unit as a file of blocks.
#![tactic(auto)]

pub mod layout;
mod writing;

pub use writing::write;
