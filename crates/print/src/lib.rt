// A unit printed, a refusal printed, numbers in lines, numbers behind lines, a sentence with numbers in it, and a fixed text.
#![tactic(auto)]

mod decimal;
mod form;
mod line;
mod page;

pub use form::sentence;
pub use page::{MAX_BYTES, beside, lines, print, refused, refused_number, text};
