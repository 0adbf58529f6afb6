ghost use Rattle.std.specs.Prelude.{◌≡◌};
ghost use Rattle.wire.specs.ShortFields.{total};
ghost use Rattle.data_path_words.specs.Names.{flag_names, extended_names, channel_names, option_names};

use crate::flags::{DataPathExtendedFlags, DataPathFlags};
use crate::misc::{ChannelMap, UnicastOptions};

// Nobody calls these functions. Each answers the names of one word, line for line as the definition has their bits, and is there for its
// contract, which compares the two: names that changed places would leave every mask as it is.
fn flag_names() -> [u16; 16]
    ensures { result ≡ flag_names }
{
    [
        DataPathFlags::INFRA_BSSID_CHANNEL_PRESENT,
        DataPathFlags::INFRA_ADDRESS_PRESENT,
        DataPathFlags::AWDL_ADDRESS_PRESENT,
        DataPathFlags::RSDB_SUPPORT,
        DataPathFlags::IS_UMI,
        DataPathFlags::DUALBAND_SUPPORT,
        DataPathFlags::AIRPLAY_SINK,
        DataPathFlags::FOLLOW_CHANNEL_SEQUENCE,
        DataPathFlags::COUNTRY_CODE_PRESENT,
        DataPathFlags::CHANNEL_MAP_PRESENT,
        DataPathFlags::AIRPLAY_SOLO_MODE_SUPPORT,
        DataPathFlags::UMI_SUPPORT,
        DataPathFlags::UNICAST_OPTIONS_PRESENT,
        DataPathFlags::IS_REALTIME,
        DataPathFlags::RANGEABLE,
        DataPathFlags::EXTENDED_FLAGS,
    ]
}

fn extended_names() -> [u16; 14]
    ensures { result ≡ extended_names }
{
    [
        DataPathExtendedFlags::LOG_TRIGGER_ID_PRESENT,
        DataPathExtendedFlags::RANGING_DISCOVERY_SUPPORTED,
        DataPathExtendedFlags::RLFC_PRESENT,
        DataPathExtendedFlags::IS_SOCIAL_CHANNEL_MAP_SUPPORTED,
        DataPathExtendedFlags::DYNAMIC_SDB_ACTIVE,
        DataPathExtendedFlags::STATS_PRESENT,
        DataPathExtendedFlags::DFS_PROXY_SUPPORT,
        DataPathExtendedFlags::HIGH_EFFICIENCY_SUPPORT,
        DataPathExtendedFlags::IS_SIDEKICK_HUB,
        DataPathExtendedFlags::FAST_DISCOVERY_ACTIVE,
        DataPathExtendedFlags::WIFI_SIX_E_SUPPORT,
        DataPathExtendedFlags::ULTRA_LOW_LATENCY_INFRA_SUPPORT,
        DataPathExtendedFlags::PRO_MODE_ACTIVE,
        DataPathExtendedFlags::UNKNOWN,
    ]
}

fn channel_names() -> [u16; 3]
    ensures { result ≡ channel_names }
{
    [
        ChannelMap::CHANNEL_6,
        ChannelMap::CHANNEL_44,
        ChannelMap::CHANNEL_149,
    ]
}

// The public mask is the sum of the names. No call of this crate uses it.
fn option_names() -> [u32; 25]
    ensures names { result ≡ option_names }
    ensures mask { UnicastOptions.KEEP ≡ total option_names }
{
    [
        UnicastOptions::START_AIRPLAY,
        UnicastOptions::CACHE_REQUEST,
        UnicastOptions::JUMPSTART_DFS_PROXY,
        UnicastOptions::AIRPLAY_ON_DFS_CHANNEL,
        UnicastOptions::START_SIDECAR,
        UnicastOptions::SIDECAR_BG_REQUEST,
        UnicastOptions::SIDECAR_FG_REQUEST,
        UnicastOptions::STOP_SIDECAR,
        UnicastOptions::START_MULTI_PEER_STEERING,
        UnicastOptions::START_REAL_TIME_MODE,
        UnicastOptions::STOP_REAL_TIME_MODE,
        UnicastOptions::START_AIRPLAY_RECOVERY,
        UnicastOptions::START_HT_MODE,
        UnicastOptions::STOP_HT_MODE,
        UnicastOptions::STOP_AIRPLAY,
        UnicastOptions::FAILED_MULTI_PEER_STEERING,
        UnicastOptions::UNKNOWN,
        UnicastOptions::START_RTG_ENSEMBLE,
        UnicastOptions::STOP_RTG_ENSEMBLE,
        UnicastOptions::START_AIRPLAY_IN_RTG_MODE,
        UnicastOptions::STOP_AIRPLAY_IN_RTG_MODE,
        UnicastOptions::START_SIDECAR_IN_RTG_MODE,
        UnicastOptions::STOP_SIDECAR_IN_RTG_MODE,
        UnicastOptions::START_REMOTE_CAMERA,
        UnicastOptions::STOP_REMOTE_CAMERA,
    ]
}
