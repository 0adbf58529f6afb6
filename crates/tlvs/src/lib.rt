// Values and records of a frame's items: a step with its value, the reader that holds a tail and a place, and the search for the
// records of a type. What is known of items themselves is passed on from `tlv_items`.
#![tactic(auto)]

mod read_tlvs;
mod search;
mod values;

pub use read_tlvs::ReadTLVs;
pub use search::{Found, Record};
pub use tlv_items::{End, Item, Step, end, step, value, write_item};
pub use values::{StepWithValue, step_with_value};
pub use wire::AWDLTLVType;
