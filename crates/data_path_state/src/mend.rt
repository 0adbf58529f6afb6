ghost use Rattle.std.specs.Prelude.{◌≡◌};
ghost use Rattle.data_path_state.specs.Mended as M;

use crate::data_path_state_tlv::DataPathStateTLV;
use crate::optional;
use crate::write::if_there;
use data_path_fields::Optional;
use data_path_words::{DataPathExtendedFlags, DataPathFlags, UnicastOptions};

// The bits that announce no field, of the flags and of the extended word.
const OTHER_FLAGS: u16 = DataPathFlags::RSDB_SUPPORT
    | DataPathFlags::IS_UMI
    | DataPathFlags::DUALBAND_SUPPORT
    | DataPathFlags::AIRPLAY_SINK
    | DataPathFlags::FOLLOW_CHANNEL_SEQUENCE
    | DataPathFlags::AIRPLAY_SOLO_MODE_SUPPORT
    | DataPathFlags::UMI_SUPPORT
    | DataPathFlags::IS_REALTIME
    | DataPathFlags::RANGEABLE;

const OTHER_EXTENDED: u16 = DataPathExtendedFlags::KEEP
    - DataPathExtendedFlags::LOG_TRIGGER_ID_PRESENT
    - DataPathExtendedFlags::RLFC_PRESENT
    - DataPathExtendedFlags::STATS_PRESENT;

impl DataPathStateTLV {
    fn has_options(self) -> bool
        ensures { result ≡ M.has_options self }
    {
        self.unicast_options.present | self.unicast_options_ext.present
    }

    pub(crate) fn mend_options(self) -> Optional<UnicastOptions>
        ensures { result ≡ M.mended_options self }
    {
        let options = optional::mend(self.unicast_options).value;
        Optional {
            present: self.has_options(),
            value: UnicastOptions::from_bits(options.0),
        }
    }

    fn has_extended(self) -> bool
        ensures { result ≡ M.has_extended self }
    {
        self.extended_flags.present
            | self.log_trigger_id.present
            | self.rlfc.present
            | self.stats.present
    }

    // The presence bits are set in the record's own word, or in 0.
    pub(crate) fn mend_extended(self) -> Optional<DataPathExtendedFlags>
        ensures { result ≡ M.mended_extended self }
    {
        let word = optional::mend(self.extended_flags).value.0 & OTHER_EXTENDED;
        let trigger = if_there(
            self.log_trigger_id.present,
            DataPathExtendedFlags::LOG_TRIGGER_ID_PRESENT,
        );
        let rlfc = if_there(self.rlfc.present, DataPathExtendedFlags::RLFC_PRESENT);
        let stats = if_there(self.stats.present, DataPathExtendedFlags::STATS_PRESENT);
        Optional {
            present: self.has_extended(),
            value: DataPathExtendedFlags(word + trigger + rlfc + stats),
        }
    }

    pub(crate) fn mend_flags(self) -> DataPathFlags
        ensures { result ≡ M.mended_flags self }
    {
        let word = self.flags.0 & OTHER_FLAGS;
        DataPathFlags(
            word + if_there(
                self.infra_bssid_channel.present,
                DataPathFlags::INFRA_BSSID_CHANNEL_PRESENT,
            ) + if_there(
                self.infra_address.present,
                DataPathFlags::INFRA_ADDRESS_PRESENT,
            ) + if_there(
                self.awdl_address.present,
                DataPathFlags::AWDL_ADDRESS_PRESENT,
            ) + if_there(
                self.country_code.present,
                DataPathFlags::COUNTRY_CODE_PRESENT,
            ) + if_there(self.channel_map.present, DataPathFlags::CHANNEL_MAP_PRESENT)
                + if_there(self.has_options(), DataPathFlags::UNICAST_OPTIONS_PRESENT)
                + if_there(self.has_extended(), DataPathFlags::EXTENDED_FLAGS),
        )
    }
}
