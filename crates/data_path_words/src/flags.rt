ghost use Rattle.std.specs.Prelude.{◌≡◌};
ghost use Rattle.wire.specs.Words.{word_by};
ghost use Rattle.data_path_words.specs.Words.{extended_kept, has_any, extended_word, extended_bytes};

use wire::{Refusal, Wire};

// Whether a word has one of the bits of a mask. A mask without bits finds none.
pub fn has(word: u16, mask: u16) -> bool
    ensures { result ≡ has_any word mask }
{
    word & mask != 0
}

#[derive(Clone, Copy, Debug, PartialEq, Eq, Hash, Default)]
pub struct DataPathFlags(pub u16);

impl DataPathFlags {
    pub const INFRA_BSSID_CHANNEL_PRESENT: u16 = 1 << 0;

    pub const INFRA_ADDRESS_PRESENT: u16 = 1 << 1;

    pub const AWDL_ADDRESS_PRESENT: u16 = 1 << 2;

    pub const RSDB_SUPPORT: u16 = 1 << 3;

    pub const IS_UMI: u16 = 1 << 4;

    pub const DUALBAND_SUPPORT: u16 = 1 << 5;

    pub const AIRPLAY_SINK: u16 = 1 << 6;

    pub const FOLLOW_CHANNEL_SEQUENCE: u16 = 1 << 7;

    pub const COUNTRY_CODE_PRESENT: u16 = 1 << 8;

    pub const CHANNEL_MAP_PRESENT: u16 = 1 << 9;

    pub const AIRPLAY_SOLO_MODE_SUPPORT: u16 = 1 << 10;

    pub const UMI_SUPPORT: u16 = 1 << 11;

    pub const UNICAST_OPTIONS_PRESENT: u16 = 1 << 12;

    pub const IS_REALTIME: u16 = 1 << 13;

    pub const RANGEABLE: u16 = 1 << 14;

    pub const EXTENDED_FLAGS: u16 = 1 << 15;
}

#[derive(Clone, Copy, Debug, PartialEq, Eq, Hash, Default)]
pub struct DataPathExtendedFlags(pub u16);

impl DataPathExtendedFlags {
    pub const LOG_TRIGGER_ID_PRESENT: u16 = 1 << 0;

    pub const RANGING_DISCOVERY_SUPPORTED: u16 = 1 << 1;

    pub const RLFC_PRESENT: u16 = 1 << 2;

    pub const IS_SOCIAL_CHANNEL_MAP_SUPPORTED: u16 = 1 << 3;

    pub const DYNAMIC_SDB_ACTIVE: u16 = 1 << 4;

    pub const STATS_PRESENT: u16 = 1 << 5;

    pub const DFS_PROXY_SUPPORT: u16 = 1 << 6;

    pub const HIGH_EFFICIENCY_SUPPORT: u16 = 1 << 8;

    pub const IS_SIDEKICK_HUB: u16 = 1 << 9;

    pub const FAST_DISCOVERY_ACTIVE: u16 = 1 << 10;

    pub const WIFI_SIX_E_SUPPORT: u16 = 1 << 11;

    pub const ULTRA_LOW_LATENCY_INFRA_SUPPORT: u16 = 1 << 12;

    pub const PRO_MODE_ACTIVE: u16 = 1 << 13;

    pub const UNKNOWN: u16 = 1 << 14 | 1 << 15;

    // Bit 7 has no name and is dropped.
    pub const KEEP: u16 = DataPathExtendedFlags::LOG_TRIGGER_ID_PRESENT
        | DataPathExtendedFlags::RANGING_DISCOVERY_SUPPORTED
        | DataPathExtendedFlags::RLFC_PRESENT
        | DataPathExtendedFlags::IS_SOCIAL_CHANNEL_MAP_SUPPORTED
        | DataPathExtendedFlags::DYNAMIC_SDB_ACTIVE
        | DataPathExtendedFlags::STATS_PRESENT
        | DataPathExtendedFlags::DFS_PROXY_SUPPORT
        | DataPathExtendedFlags::HIGH_EFFICIENCY_SUPPORT
        | DataPathExtendedFlags::IS_SIDEKICK_HUB
        | DataPathExtendedFlags::FAST_DISCOVERY_ACTIVE
        | DataPathExtendedFlags::WIFI_SIX_E_SUPPORT
        | DataPathExtendedFlags::ULTRA_LOW_LATENCY_INFRA_SUPPORT
        | DataPathExtendedFlags::PRO_MODE_ACTIVE
        | DataPathExtendedFlags::UNKNOWN;

    pub fn from_bits(bits: u16) -> DataPathExtendedFlags
        ensures { result.0 ≡ word_by extended_kept bits }
    {
        DataPathExtendedFlags(bits & DataPathExtendedFlags::KEEP)
    }
}

// This word, a `DataPathChannel` and `UnicastOptions` are each read as the number that they are, which is then turned into the
// word: two lines for each, and with a trait for the three they would be no fewer.
impl Wire for DataPathExtendedFlags {
    ghost format = { extended_word };

    ghost bytes = { extended_bytes };

    fn read_at(s: &[u8], at: usize) -> Result<(DataPathExtendedFlags, usize), Refusal> {
        let (bits, at) = u16::read_at(s, at)?;
        Ok((DataPathExtendedFlags::from_bits(bits), at))
    }

    fn put_at(self, buf: &mut [u8], at: usize) -> usize {
        self.0.put_at(buf, at)
    }
}
