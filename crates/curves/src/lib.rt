// Certified levels and obligations, by the capacity rules of 22 January 2015; articles are cited by their number.

#![tactic(auto)]

mod coefficients;
mod figures;
mod levels;
mod obligations;
mod ranges;
mod rounding;
mod terms;

pub use coefficients::{kh, kj};
pub use figures::marked_figures;
pub use levels::{Method, Supply, level};
pub use obligations::{Sort, Step, added, obligation};
pub use ranges::{OutOfRange, judge};
pub use terms::YearTerms;
