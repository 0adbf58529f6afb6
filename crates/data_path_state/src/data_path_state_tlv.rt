ghost use Rattle.std.specs.Prelude.{◌≡◌};
ghost use Rattle.wire.specs.Said.{said, told};
ghost use Rattle.wire.specs.Writing.{Wrote};
ghost use Rattle.data_path_state.specs.Bytes.{size_of, bytes_of};
ghost use Rattle.data_path_state.specs.Consistent as C;
ghost use Rattle.data_path_state.specs.Mended.{mended};
ghost use Rattle.data_path_state.specs.DataPath as D;
ghost use Rattle.data_path_state.specs.DataPath.{data_path};

use crate::consistent::channel_right;
use crate::optional;
use data_path_fields::{
    Body, CountryCode, Head, InfraBssidChannel, Optional, read_body, read_head,
};
use data_path_words::{
    DataPathChannel, DataPathExtendedFlags, DataPathFlags, DataPathStats, UnicastOptions,
};
use wire::{AWDLTLVType, MACAddress, Refusal, within};

#[derive(Clone, Copy, Debug, PartialEq, Eq, Hash, Default)]
pub struct DataPathStateTLV {
    pub flags: DataPathFlags,
    pub country_code: Optional<CountryCode>,
    pub channel_map: Optional<DataPathChannel>,
    pub infra_bssid_channel: Optional<InfraBssidChannel>,
    pub infra_address: Optional<MACAddress>,
    pub awdl_address: Optional<MACAddress>,
    pub unicast_options: Optional<UnicastOptions>,
    pub unicast_options_ext: Optional<u32>,
    pub extended_flags: Optional<DataPathExtendedFlags>,
    pub rlfc: Optional<u32>,
    pub log_trigger_id: Optional<u16>,
    pub stats: Optional<DataPathStats>,
}

impl DataPathStateTLV {
    pub const TLV_TYPE: u8 = AWDLTLVType::DATA_PATH_STATE;

    pub const MIN_SIZE: usize = 2;

    pub const MAX_SIZE: usize = 57;

    // The record and its size. Bytes behind the record are no part of it.
    pub fn read(s: &[u8]) -> Result<(DataPathStateTLV, usize), Refusal>
        ensures { said result ≡ data_path s.now 0 }
    {
        let (head, at) = read_head(s)?;
        let (body, size) = read_body(s, at, head.flags)?;
        Ok((record_of(head, body), size))
    }

    #[tactic(auto, unfolding(crate::specs::Consistent::consistent))]
    pub fn consistent(self) -> bool
        ensures { result ≡ C.consistent self }
    {
        self.bits_match()
            & self.only_with()
            & channel_right(self.channel_map.value)
            & self.words_kept()
            & self.absent_zero()
    }

    // What the Rust's writer does before it writes. A channel that is there is left as it is.
    #[tactic(auto, unfolding(crate::specs::Mended::mended))]
    pub fn mend(self) -> DataPathStateTLV
        ensures { result ≡ mended self }
    {
        DataPathStateTLV {
            flags: self.mend_flags(),
            country_code: optional::mend(self.country_code),
            channel_map: optional::mend(self.channel_map),
            infra_bssid_channel: optional::mend(self.infra_bssid_channel),
            infra_address: optional::mend(self.infra_address),
            awdl_address: optional::mend(self.awdl_address),
            unicast_options: self.mend_options(),
            unicast_options_ext: optional::mend(self.unicast_options_ext),
            extended_flags: self.mend_extended(),
            rlfc: optional::mend(self.rlfc),
            log_trigger_id: optional::mend(self.log_trigger_id),
            stats: optional::mend(self.stats),
        }
    }

    pub fn size(self) -> Result<usize, Refusal>
        ensures { told result ≡ size_of self }
    {
        if !self.consistent() {
            return Err(Refusal::Inconsistent);
        }
        Ok(self.sum())
    }

    pub fn write(self, buf: &mut [u8]) -> Result<usize, Refusal>
        ensures { Wrote buf.old (bytes_of self) (told result) buf.new }
    {
        let n = within(buf.len(), self.size())?;
        self.put_record(buf);
        Ok(n)
    }
}

fn record_of(head: Head, body: Body) -> DataPathStateTLV
    ensures { result ≡ D.record_of head body }
{
    DataPathStateTLV {
        flags: DataPathFlags(head.flags),
        country_code: head.country,
        channel_map: head.channel,
        infra_bssid_channel: body.addresses.bssid,
        infra_address: body.addresses.infra,
        awdl_address: body.addresses.awdl,
        unicast_options: body.unicast.options,
        unicast_options_ext: body.unicast.ext,
        extended_flags: body.extended.flags,
        rlfc: body.extended.rlfc,
        log_trigger_id: body.extended.trigger,
        stats: body.extended.stats,
    }
}
