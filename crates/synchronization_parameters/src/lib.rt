// The timing that a peer announces, with the channels that it hops over: its synchronization value.
#![tactic(auto)]

mod synchronization_parameters_tlv;

pub use synchronization_parameters_tlv::SynchronizationParametersTLV;
