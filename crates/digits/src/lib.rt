// What lines and frames are made of: base-sixteen digits, and numbers of one to eight bytes.

#![tactic(auto)]

pub mod frame;
pub mod hex;
pub mod laws;
pub mod numbers;
