ghost use Rattle.std.specs.Prelude.{◌≡◌};
ghost use Rattle.wire.specs.Words.{word_by};
ghost use Rattle.data_path_words.specs.Words.{channel_of, word_of, options_kept, channel_word, channel_bytes, options_word, options_bytes, stats, stats_bytes, zero_channel};

use wire::{Refusal, Wire, put_slice};

#[derive(Clone, Copy, Debug, PartialEq, Eq, Hash, Default)]
pub struct DataPathStats {
    pub msec_since_activation: u32,
    pub aw_seq_counter: u32,
    pub pay_update_coutner: u32,
}

impl Wire for DataPathStats {
    ghost format = { stats };

    ghost bytes = { stats_bytes };

    fn read_at(s: &[u8], at: usize) -> Result<(DataPathStats, usize), Refusal> {
        let (msec_since_activation, at) = u32::read_at(s, at)?;
        let (aw_seq_counter, at) = u32::read_at(s, at)?;
        let (pay_update_coutner, at) = u32::read_at(s, at)?;
        let stats = DataPathStats {
            msec_since_activation,
            aw_seq_counter,
            pay_update_coutner,
        };
        Ok((stats, at))
    }

    // The words are put in one piece: all three of them, or none.
    fn put_at(self, buf: &mut [u8], at: usize) -> usize {
        put_slice(buf, at, &three_words(self))
    }
}

fn three_words(s: DataPathStats) -> [u8; 12]
    ensures { result ≡ stats_bytes s }
{
    let [m0, m1, m2, m3] = s.msec_since_activation.to_le_bytes();
    let [a0, a1, a2, a3] = s.aw_seq_counter.to_le_bytes();
    let [p0, p1, p2, p3] = s.pay_update_coutner.to_le_bytes();
    [m0, m1, m2, m3, a0, a1, a2, a3, p0, p1, p2, p3]
}

#[derive(Clone, Copy, Debug, PartialEq, Eq, Hash, Default)]
pub struct ChannelMap(pub u16);

impl ChannelMap {
    pub const CHANNEL_6: u16 = 1 << 0;

    pub const CHANNEL_44: u16 = 1 << 1;

    pub const CHANNEL_149: u16 = 1 << 2;

    pub const KEEP: u16 = ChannelMap::CHANNEL_6 | ChannelMap::CHANNEL_44 | ChannelMap::CHANNEL_149;
}

#[derive(Clone, Copy, Debug, PartialEq, Eq, Hash)]
pub enum DataPathChannel {
    SingleChannel(u8),
    ChannelMap(ChannelMap),
}

impl From<u16> for DataPathChannel {
    ghost from_gives = { λ word channel. channel ≡ channel_of word };

    fn from(value: u16) -> DataPathChannel {
        if value % 2 == 1 {
            return DataPathChannel::ChannelMap(ChannelMap(value & ChannelMap::KEEP));
        }
        let [low, _] = value.to_le_bytes();
        DataPathChannel::SingleChannel(low)
    }
}

impl From<DataPathChannel> for u16 {
    ghost from_gives = { λ channel word. word ≡ word_of channel };

    fn from(value: DataPathChannel) -> u16 {
        match value {
            DataPathChannel::SingleChannel(channel) => u16::from(channel),
            DataPathChannel::ChannelMap(map) => map.0,
        }
    }
}

// By hand, since only a case without a value can be derived as the default.
impl Default for DataPathChannel {
    ghost is_default = { λ channel. channel ≡ zero_channel };

    fn default() -> DataPathChannel {
        DataPathChannel::SingleChannel(0)
    }
}

impl Wire for DataPathChannel {
    ghost format = { channel_word };

    ghost bytes = { channel_bytes };

    fn read_at(s: &[u8], at: usize) -> Result<(DataPathChannel, usize), Refusal> {
        let (word, at) = u16::read_at(s, at)?;
        Ok((DataPathChannel::from(word), at))
    }

    fn put_at(self, buf: &mut [u8], at: usize) -> usize {
        u16::from(self).put_at(buf, at)
    }
}

#[derive(Clone, Copy, Debug, PartialEq, Eq, Hash, Default)]
pub struct UnicastOptions(pub u32);

impl UnicastOptions {
    pub const START_AIRPLAY: u32 = 1 << 1;

    pub const CACHE_REQUEST: u32 = 1 << 3;

    pub const JUMPSTART_DFS_PROXY: u32 = 1 << 5;

    pub const AIRPLAY_ON_DFS_CHANNEL: u32 = 1 << 6;

    pub const START_SIDECAR: u32 = 1 << 9;

    pub const SIDECAR_BG_REQUEST: u32 = 1 << 10;

    pub const SIDECAR_FG_REQUEST: u32 = 1 << 11;

    pub const STOP_SIDECAR: u32 = 1 << 12;

    pub const START_MULTI_PEER_STEERING: u32 = 1 << 13;

    pub const START_REAL_TIME_MODE: u32 = 1 << 14;

    pub const STOP_REAL_TIME_MODE: u32 = 1 << 15;

    pub const START_AIRPLAY_RECOVERY: u32 = 1 << 16;

    pub const START_HT_MODE: u32 = 1 << 17;

    pub const STOP_HT_MODE: u32 = 1 << 18;

    pub const STOP_AIRPLAY: u32 = 1 << 19;

    pub const FAILED_MULTI_PEER_STEERING: u32 = 1 << 20;

    pub const UNKNOWN: u32 = 1 << 21 | 1 << 22 | 1 << 23;

    pub const START_RTG_ENSEMBLE: u32 = 1 << 24;

    pub const STOP_RTG_ENSEMBLE: u32 = 1 << 25;

    pub const START_AIRPLAY_IN_RTG_MODE: u32 = 1 << 26;

    pub const STOP_AIRPLAY_IN_RTG_MODE: u32 = 1 << 27;

    pub const START_SIDECAR_IN_RTG_MODE: u32 = 1 << 28;

    pub const STOP_SIDECAR_IN_RTG_MODE: u32 = 1 << 29;

    pub const START_REMOTE_CAMERA: u32 = 1 << 30;

    pub const STOP_REMOTE_CAMERA: u32 = 1 << 31;

    // What `from_bits` keeps, told from the other side: all but bits 0, 2, 4, 7 and 8, which have no name.
    pub const KEEP: u32 = !(1 << 0 | 1 << 2 | 1 << 4 | 1 << 7 | 1 << 8);

    // It stands beside `DataPathExtendedFlags::from_bits` and in no trait with it: but for `bits & mask` they differ in all that
    // they say. Neither is a `From`: bits are dropped, and the Rust's own name is `from_bits`.
    pub fn from_bits(bits: u32) -> UnicastOptions
        ensures { result.0 ≡ word_by options_kept bits }
    {
        // The names are written out once more and `KEEP` is not taken, so that the edits option_left_out and options_kept_whole
        // turn the mask that is used.
        let keep = UnicastOptions::START_AIRPLAY
            | UnicastOptions::CACHE_REQUEST
            | UnicastOptions::JUMPSTART_DFS_PROXY
            | UnicastOptions::AIRPLAY_ON_DFS_CHANNEL
            | UnicastOptions::START_SIDECAR
            | UnicastOptions::SIDECAR_BG_REQUEST
            | UnicastOptions::SIDECAR_FG_REQUEST
            | UnicastOptions::STOP_SIDECAR
            | UnicastOptions::START_MULTI_PEER_STEERING
            | UnicastOptions::START_REAL_TIME_MODE
            | UnicastOptions::STOP_REAL_TIME_MODE
            | UnicastOptions::START_AIRPLAY_RECOVERY
            | UnicastOptions::START_HT_MODE
            | UnicastOptions::STOP_HT_MODE
            | UnicastOptions::STOP_AIRPLAY
            | UnicastOptions::FAILED_MULTI_PEER_STEERING
            | UnicastOptions::UNKNOWN
            | UnicastOptions::START_RTG_ENSEMBLE
            | UnicastOptions::STOP_RTG_ENSEMBLE
            | UnicastOptions::START_AIRPLAY_IN_RTG_MODE
            | UnicastOptions::STOP_AIRPLAY_IN_RTG_MODE
            | UnicastOptions::START_SIDECAR_IN_RTG_MODE
            | UnicastOptions::STOP_SIDECAR_IN_RTG_MODE
            | UnicastOptions::START_REMOTE_CAMERA
            | UnicastOptions::STOP_REMOTE_CAMERA;
        UnicastOptions(bits & keep)
    }
}

impl Wire for UnicastOptions {
    ghost format = { options_word };

    ghost bytes = { options_bytes };

    fn read_at(s: &[u8], at: usize) -> Result<(UnicastOptions, usize), Refusal> {
        let (bits, at) = u32::read_at(s, at)?;
        Ok((UnicastOptions::from_bits(bits), at))
    }

    fn put_at(self, buf: &mut [u8], at: usize) -> usize {
        self.0.put_at(buf, at)
    }
}
