// Numbers and bytes as text, in both directions.
#![tactic(auto)]

mod decimal;
mod hex;

pub use decimal::{decimal_of, put_decimal};
pub use hex::{HexError, hex_into, put_hex, repeat_into, same};
