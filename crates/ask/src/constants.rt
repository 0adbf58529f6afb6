// The numbers that have names.
use crate::output::{Answered, Fault, Output};
use crate::value::Value;
use crate::words::Words;
use action_frame::AWDLActionFrame;
use channel::LegacyFlags;
use channel_sequence_tlv::ChannelSequenceTLV;
use data_path_state::{
    ChannelMap, DataPathExtendedFlags as Extended, DataPathFlags as Flags, DataPathStateTLV,
    UnicastOptions as Options,
};
use std::io::Write;
use synchronization_parameters::SynchronizationParametersTLV as Synchronization;
use tlvs::AWDLTLVType;

const TYPES: [(&str, u8); 15] = [
    ("NULL", AWDLTLVType::NULL),
    ("SERVICE_RESPONSE", AWDLTLVType::SERVICE_RESPONSE),
    (
        "SYNCHRONIZATION_PARAMETERS",
        AWDLTLVType::SYNCHRONIZATION_PARAMETERS,
    ),
    ("ELECTION_PARAMETERS", AWDLTLVType::ELECTION_PARAMETERS),
    ("HT_CAPABILITIES", AWDLTLVType::HT_CAPABILITIES),
    ("DATA_PATH_STATE", AWDLTLVType::DATA_PATH_STATE),
    ("ARPA", AWDLTLVType::ARPA),
    ("IEEE80211_CONTAINER", AWDLTLVType::IEEE80211_CONTAINER),
    ("CHANNEL_SEQUENCE", AWDLTLVType::CHANNEL_SEQUENCE),
    ("SYNCHRONIZATION_TREE", AWDLTLVType::SYNCHRONIZATION_TREE),
    ("VERSION", AWDLTLVType::VERSION),
    (
        "ELECTION_PARAMETERS_V2",
        AWDLTLVType::ELECTION_PARAMETERS_V2,
    ),
    ("DATA_PATH_TLV_TYPE", DataPathStateTLV::TLV_TYPE),
    ("SYNCHRONIZATION_TLV_TYPE", Synchronization::TLV_TYPE),
    ("CHANNEL_SEQUENCE_TLV_TYPE", ChannelSequenceTLV::TLV_TYPE),
];

const SIZES: [(&str, usize); 7] = [
    ("HEADER_SIZE", AWDLActionFrame::HEADER_SIZE),
    ("DATA_PATH_MIN_SIZE", DataPathStateTLV::MIN_SIZE),
    ("DATA_PATH_MAX_SIZE", DataPathStateTLV::MAX_SIZE),
    ("SYNCHRONIZATION_MIN_SIZE", Synchronization::MIN_SIZE),
    ("SYNCHRONIZATION_MAX_SIZE", Synchronization::MAX_SIZE),
    ("CHANNEL_SEQUENCE_MIN_SIZE", ChannelSequenceTLV::MIN_SIZE),
    ("CHANNEL_SEQUENCE_MAX_SIZE", ChannelSequenceTLV::MAX_SIZE),
];

const SUBTYPES: [(&str, u8); 2] = [("PSF", AWDLActionFrame::PSF), ("MIF", AWDLActionFrame::MIF)];

const DATA_PATH_FLAGS: [(&str, u16); 16] = [
    (
        "INFRA_BSSID_CHANNEL_PRESENT",
        Flags::INFRA_BSSID_CHANNEL_PRESENT,
    ),
    ("INFRA_ADDRESS_PRESENT", Flags::INFRA_ADDRESS_PRESENT),
    ("AWDL_ADDRESS_PRESENT", Flags::AWDL_ADDRESS_PRESENT),
    ("RSDB_SUPPORT", Flags::RSDB_SUPPORT),
    ("IS_UMI", Flags::IS_UMI),
    ("DUALBAND_SUPPORT", Flags::DUALBAND_SUPPORT),
    ("AIRPLAY_SINK", Flags::AIRPLAY_SINK),
    ("FOLLOW_CHANNEL_SEQUENCE", Flags::FOLLOW_CHANNEL_SEQUENCE),
    ("COUNTRY_CODE_PRESENT", Flags::COUNTRY_CODE_PRESENT),
    ("CHANNEL_MAP_PRESENT", Flags::CHANNEL_MAP_PRESENT),
    (
        "AIRPLAY_SOLO_MODE_SUPPORT",
        Flags::AIRPLAY_SOLO_MODE_SUPPORT,
    ),
    ("UMI_SUPPORT", Flags::UMI_SUPPORT),
    ("UNICAST_OPTIONS_PRESENT", Flags::UNICAST_OPTIONS_PRESENT),
    ("IS_REALTIME", Flags::IS_REALTIME),
    ("RANGEABLE", Flags::RANGEABLE),
    ("EXTENDED_FLAGS", Flags::EXTENDED_FLAGS),
];

const EXTENDED_FLAGS: [(&str, u16); 15] = [
    ("LOG_TRIGGER_ID_PRESENT", Extended::LOG_TRIGGER_ID_PRESENT),
    (
        "RANGING_DISCOVERY_SUPPORTED",
        Extended::RANGING_DISCOVERY_SUPPORTED,
    ),
    ("RLFC_PRESENT", Extended::RLFC_PRESENT),
    (
        "IS_SOCIAL_CHANNEL_MAP_SUPPORTED",
        Extended::IS_SOCIAL_CHANNEL_MAP_SUPPORTED,
    ),
    ("DYNAMIC_SDB_ACTIVE", Extended::DYNAMIC_SDB_ACTIVE),
    ("STATS_PRESENT", Extended::STATS_PRESENT),
    ("DFS_PROXY_SUPPORT", Extended::DFS_PROXY_SUPPORT),
    ("HIGH_EFFICIENCY_SUPPORT", Extended::HIGH_EFFICIENCY_SUPPORT),
    ("IS_SIDEKICK_HUB", Extended::IS_SIDEKICK_HUB),
    ("FAST_DISCOVERY_ACTIVE", Extended::FAST_DISCOVERY_ACTIVE),
    ("WIFI_SIX_E_SUPPORT", Extended::WIFI_SIX_E_SUPPORT),
    (
        "ULTRA_LOW_LATENCY_INFRA_SUPPORT",
        Extended::ULTRA_LOW_LATENCY_INFRA_SUPPORT,
    ),
    ("PRO_MODE_ACTIVE", Extended::PRO_MODE_ACTIVE),
    ("UNKNOWN", Extended::UNKNOWN),
    ("KEEP", Extended::KEEP),
];

const UNICAST_OPTIONS: [(&str, u32); 26] = [
    ("START_AIRPLAY", Options::START_AIRPLAY),
    ("CACHE_REQUEST", Options::CACHE_REQUEST),
    ("JUMPSTART_DFS_PROXY", Options::JUMPSTART_DFS_PROXY),
    ("AIRPLAY_ON_DFS_CHANNEL", Options::AIRPLAY_ON_DFS_CHANNEL),
    ("START_SIDECAR", Options::START_SIDECAR),
    ("SIDECAR_BG_REQUEST", Options::SIDECAR_BG_REQUEST),
    ("SIDECAR_FG_REQUEST", Options::SIDECAR_FG_REQUEST),
    ("STOP_SIDECAR", Options::STOP_SIDECAR),
    (
        "START_MULTI_PEER_STEERING",
        Options::START_MULTI_PEER_STEERING,
    ),
    ("START_REAL_TIME_MODE", Options::START_REAL_TIME_MODE),
    ("STOP_REAL_TIME_MODE", Options::STOP_REAL_TIME_MODE),
    ("START_AIRPLAY_RECOVERY", Options::START_AIRPLAY_RECOVERY),
    ("START_HT_MODE", Options::START_HT_MODE),
    ("STOP_HT_MODE", Options::STOP_HT_MODE),
    ("STOP_AIRPLAY", Options::STOP_AIRPLAY),
    (
        "FAILED_MULTI_PEER_STEERING",
        Options::FAILED_MULTI_PEER_STEERING,
    ),
    ("UNKNOWN", Options::UNKNOWN),
    ("START_RTG_ENSEMBLE", Options::START_RTG_ENSEMBLE),
    ("STOP_RTG_ENSEMBLE", Options::STOP_RTG_ENSEMBLE),
    (
        "START_AIRPLAY_IN_RTG_MODE",
        Options::START_AIRPLAY_IN_RTG_MODE,
    ),
    (
        "STOP_AIRPLAY_IN_RTG_MODE",
        Options::STOP_AIRPLAY_IN_RTG_MODE,
    ),
    (
        "START_SIDECAR_IN_RTG_MODE",
        Options::START_SIDECAR_IN_RTG_MODE,
    ),
    (
        "STOP_SIDECAR_IN_RTG_MODE",
        Options::STOP_SIDECAR_IN_RTG_MODE,
    ),
    ("START_REMOTE_CAMERA", Options::START_REMOTE_CAMERA),
    ("STOP_REMOTE_CAMERA", Options::STOP_REMOTE_CAMERA),
    ("KEEP", Options::KEEP),
];

const CHANNEL_MAP: [(&str, u16); 4] = [
    ("CHANNEL_6", ChannelMap::CHANNEL_6),
    ("CHANNEL_44", ChannelMap::CHANNEL_44),
    ("CHANNEL_149", ChannelMap::CHANNEL_149),
    ("KEEP", ChannelMap::KEEP),
];

const LEGACY_FLAGS: [(&str, u8); 1] = [("KEEP", LegacyFlags::KEEP)];

fn show<T: Value>(group: &[(&'static str, T)], words: Words<'_>, out: &mut Output) -> Answered {
    words.end()?;
    out.accepted()?;
    for (name, number) in group {
        out.text(b" ")?;
        out.make_room(name.len() + 1)?;
        write!(out, "{name}=")?;
        number.show(out)?;
    }
    Ok(())
}

pub(crate) fn answer(mut words: Words<'_>, out: &mut Output) -> Answered {
    match words.next() {
        b"types" => show(&TYPES, words, out),
        b"sizes" => show(&SIZES, words, out),
        b"subtypes" => show(&SUBTYPES, words, out),
        b"data_path_flags" => show(&DATA_PATH_FLAGS, words, out),
        b"extended_flags" => show(&EXTENDED_FLAGS, words, out),
        b"unicast_options" => show(&UNICAST_OPTIONS, words, out),
        b"channel_map" => show(&CHANNEL_MAP, words, out),
        b"legacy_flags" => show(&LEGACY_FLAGS, words, out),
        _ => Err(Fault::BadQuestion),
    }
}
