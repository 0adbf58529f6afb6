// The report of a frame: its lines, one at a time, each in a small buffer that the caller lends.
#![tactic(auto)]

mod lines;
mod marks;
mod put;

pub use marks::{Mark, dump_start, next_line};
