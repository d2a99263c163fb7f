// The words of the book: its records, its calls, their answers and refusals.

#![tactic(auto)]

pub mod calls;
pub mod faults;
pub mod records;

pub use calls::{Call, Reply, Stage, Statement};
pub use faults::RegistryFault;
pub use records::{Account, Entity, Offer, Series};
pub use refusals::Refusal;
pub use settlement::Settlement;
