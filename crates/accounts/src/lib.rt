// What the book works out from the records of its accounts: steps, obligations, gaps and the settlement.

#![tactic(auto)]

pub mod loading;
pub mod open;
pub mod settling;

pub use loading::{Addition, load_in_range, with_step};
pub use open::OpenAccounts;
pub use settling::first_incomplete;
