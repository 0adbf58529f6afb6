// What the formats above this crate are read and written with: refusals, little-endian numbers and
// addresses at a place of a slice, stores into a lent buffer, and the type numbers of items.
#![tactic(auto)]

mod awdl_tlv_type;
mod read;
mod refusal;
mod value;
mod write;

pub use awdl_tlv_type::AWDLTLVType;
pub use read::{field_at, first_short};
pub use refusal::Refusal;
pub use value::{MACAddress, Wire};
pub use write::{put_slice, within};
