// A channel in each of its encodings, and the one that a report names.
#![tactic(auto)]

mod channel;

pub use channel::{Channel, ChannelEncoding, LegacyFlags};
