// The data path record: flags, and behind them only the fields that the flags announce.
#![tactic(auto)]

mod consistent;
mod data_path_state_tlv;
mod mend;
mod optional;
mod write;

pub use data_path_fields::{CountryCode, Field, InfraBssidChannel, Optional};
pub use data_path_state_tlv::DataPathStateTLV;
pub use data_path_words::{
    ChannelMap, DataPathChannel, DataPathExtendedFlags, DataPathFlags, DataPathStats,
    UnicastOptions,
};
