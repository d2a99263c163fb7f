// Lines and frames: from a line to the call that it writes, and from an answer to its line.

#![tactic(auto)]

pub mod answers;
pub mod fault;
pub mod frame;
pub mod kind;

pub use answers::{LINE_END, answer_frame, kind_of, write_line};
pub use fault::LineFault;
pub use frame::read_call;
pub use kind::Kind;
