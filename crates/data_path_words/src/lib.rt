// The words of the data path record: their named bits, which bits they keep, and the channel word.
#![tactic(auto)]

mod flags;
mod misc;
mod names;

pub use flags::{DataPathExtendedFlags, DataPathFlags, has};
pub use misc::{ChannelMap, DataPathChannel, DataPathStats, UnicastOptions};
