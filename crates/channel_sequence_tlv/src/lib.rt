// The record that holds a channel sequence.
#![tactic(auto)]

mod channel_sequence_tlv;

pub use channel_sequence_tlv::ChannelSequenceTLV;
