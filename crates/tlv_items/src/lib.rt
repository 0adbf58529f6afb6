// The items of a frame's tail: the walk over them with its end report, the value of an item, and the writer of an item.
#![tactic(auto)]

mod item;
mod walk;
mod write;

pub use item::{End, Item, Step};
pub use walk::{end, step, value};
pub use write::write_item;
