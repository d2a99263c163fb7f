// Reading lines: each line is answered by one line.

#![tactic(auto)]

pub mod block;
pub mod buffer;
pub mod reading;

pub use block::{Progress, answer_block};
pub use buffer::LineBuffer;
pub use reading::{WORKING_SPACE, read_line};
