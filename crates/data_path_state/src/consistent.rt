ghost use Rattle.std.specs.Prelude.{◌≡◌, ◌&&◌};
ghost use Rattle.data_path_state.specs.Consistent as C;

use crate::data_path_state_tlv::DataPathStateTLV;
use crate::optional;
use data_path_words::{
    ChannelMap, DataPathChannel, DataPathExtendedFlags, DataPathFlags, UnicastOptions, has,
};

// Each test below is a formula, as its definition is; only the two kinds of channel are told apart by a branch.
impl DataPathStateTLV {
    #[tactic(auto, using(data_path_words::proofs::OneBit::announcing))]
    pub(crate) fn bits_match(self) -> bool
        ensures { result ≡ (C.flags_match self && C.extended_match self) }
    {
        let w = self.flags.0;
        let e = self.extended_flags.value.0;
        (has(w, DataPathFlags::INFRA_BSSID_CHANNEL_PRESENT) == self.infra_bssid_channel.present)
            & (has(w, DataPathFlags::INFRA_ADDRESS_PRESENT) == self.infra_address.present)
            & (has(w, DataPathFlags::AWDL_ADDRESS_PRESENT) == self.awdl_address.present)
            & (has(w, DataPathFlags::COUNTRY_CODE_PRESENT) == self.country_code.present)
            & (has(w, DataPathFlags::CHANNEL_MAP_PRESENT) == self.channel_map.present)
            & (has(w, DataPathFlags::UNICAST_OPTIONS_PRESENT) == self.unicast_options.present)
            & (has(w, DataPathFlags::EXTENDED_FLAGS) == self.extended_flags.present)
            & ((has(e, DataPathExtendedFlags::LOG_TRIGGER_ID_PRESENT)
                == self.log_trigger_id.present)
                & (has(e, DataPathExtendedFlags::RLFC_PRESENT) == self.rlfc.present)
                & (has(e, DataPathExtendedFlags::STATS_PRESENT) == self.stats.present))
    }

    pub(crate) fn only_with(self) -> bool
        ensures { result ≡ C.only_with self }
    {
        (!self.unicast_options_ext.present | self.unicast_options.present)
            & (!self.log_trigger_id.present | self.extended_flags.present)
            & (!self.rlfc.present | self.extended_flags.present)
            & (!self.stats.present | self.extended_flags.present)
    }

    pub(crate) fn words_kept(self) -> bool
        ensures { result ≡ C.words_kept self }
    {
        let extended = self.extended_flags.value;
        let options = self.unicast_options.value;
        (DataPathExtendedFlags::from_bits(extended.0) == extended)
            & (UnicastOptions::from_bits(options.0) == options)
    }

    #[tactic(auto, using(crate::proofs::Zeros::zeros))]
    pub(crate) fn absent_zero(self) -> bool
        ensures { result ≡ C.absent_zero self }
    {
        optional::absent_zero(self.country_code)
            & optional::absent_zero(self.channel_map)
            & optional::absent_zero(self.infra_bssid_channel)
            & optional::absent_zero(self.infra_address)
            & optional::absent_zero(self.awdl_address)
            & optional::absent_zero(self.unicast_options)
            & optional::absent_zero(self.unicast_options_ext)
            & optional::absent_zero(self.extended_flags)
            & optional::absent_zero(self.rlfc)
            & optional::absent_zero(self.log_trigger_id)
            & optional::absent_zero(self.stats)
    }
}

pub(crate) fn channel_right(c: DataPathChannel) -> bool
    ensures { result ≡ C.channel_right c }
{
    match c {
        DataPathChannel::SingleChannel(channel) => (channel % 2 == 0) & (channel <= 254),
        DataPathChannel::ChannelMap(map) => (map.0 % 2 == 1) & (map.0 <= ChannelMap::KEEP),
    }
}
