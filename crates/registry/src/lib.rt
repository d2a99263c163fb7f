// The registry: one delivery year, its three registers, and the eleven calls over any ledger.

#![tactic(auto)]

mod book;
mod calls;
mod phase;
mod ranges;
pub mod state;

pub use book::{ENTITIES, OFFERS};
pub use state::Book;
