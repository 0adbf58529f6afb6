// The fields of the data path record, and how they are read: the flags, and behind them only the
// fields that the flags announce.
#![tactic(auto)]

mod fields;
mod optional;
mod read;

pub use fields::{CountryCode, InfraBssidChannel};
pub use optional::{Field, Optional};

// The record is put together in a crate of its own, `data_path_state`, since a check's time grows
// with a crate. Only for that crate the readers of the two parts of a record are public, and with
// them what they answer: a caller takes the record's own reader.
pub use read::{Addresses, Body, Extended, Head, Unicast, read_body, read_head};
