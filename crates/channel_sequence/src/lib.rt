// The sequence of sixteen channels that a peer hops over.
#![tactic(auto)]

mod channel_sequence;
mod conversion;

pub use channel_sequence::ChannelSequence;
