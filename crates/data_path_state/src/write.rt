ghost use Rattle.std.specs.Prelude.{◌≡◌, cond, ◌≤◌};
ghost use Rattle.wire.specs.Writing.{PutIfRoom};
ghost use Rattle.data_path_state.specs.Bytes as B;

use crate::data_path_state_tlv::DataPathStateTLV;
use crate::optional;
use wire::Wire;

// What a field adds where it is there: to the size its bytes, and to the flags its bit.
pub(crate) fn if_there(present: bool, n: u16) -> u16
    ensures value { result ≡ B.counted present n }
    ensures upper_bound { result ≤ n }
{
    if present { n } else { 0 }
}

fn unicast_length(second: bool) -> u16
    ensures { result ≡ cond second 8 4 }
{
    if second { 8 } else { 4 }
}

impl DataPathStateTLV {
    #[tactic(auto, unfolding(crate::specs::Bytes::sum))]
    pub(crate) fn sum(self) -> usize
        ensures { result ≡ B.sum self }
    {
        let fields = if_there(self.country_code.present, 3)
            + if_there(self.channel_map.present, 2)
            + if_there(self.infra_bssid_channel.present, 8)
            + if_there(self.infra_address.present, 6)
            + if_there(self.awdl_address.present, 6)
            + if_there(self.unicast_options.present, 6)
            + if_there(self.unicast_options_ext.present, 4)
            + if_there(self.extended_flags.present, 2)
            + if_there(self.log_trigger_id.present, 2)
            + if_there(self.rlfc.present, 4)
            + if_there(self.stats.present, 12);
        DataPathStateTLV::MIN_SIZE + usize::from(fields)
    }

    // Each of these puts a part of the record, field after field.
    fn put_head(self, buf: &mut [u8], at: usize) -> usize
        ensures { PutIfRoom buf.old at (B.head_bytes self) result buf.new }
    {
        let at = self.flags.0.put_at(buf, at);
        let at = optional::put_at(self.country_code, buf, at);
        optional::put_at(self.channel_map, buf, at)
    }

    fn put_addresses(self, buf: &mut [u8], at: usize) -> usize
        ensures { PutIfRoom buf.old at (B.addresses_bytes self) result buf.new }
    {
        let at = optional::put_at(self.infra_bssid_channel, buf, at);
        let at = optional::put_at(self.infra_address, buf, at);
        optional::put_at(self.awdl_address, buf, at)
    }

    fn put_unicast(self, buf: &mut [u8], at: usize) -> usize
        ensures { PutIfRoom buf.old at (B.unicast_bytes self) result buf.new }
    {
        if !self.unicast_options.present {
            return at;
        }
        let at = unicast_length(self.unicast_options_ext.present).put_at(buf, at);
        let at = self.unicast_options.value.put_at(buf, at);
        optional::put_at(self.unicast_options_ext, buf, at)
    }

    fn put_extended(self, buf: &mut [u8], at: usize) -> usize
        ensures { PutIfRoom buf.old at (B.extended_bytes self) result buf.new }
    {
        if !self.extended_flags.present {
            return at;
        }
        let at = self.extended_flags.value.put_at(buf, at);
        let at = optional::put_at(self.log_trigger_id, buf, at);
        let at = optional::put_at(self.rlfc, buf, at);
        optional::put_at(self.stats, buf, at)
    }

    pub(crate) fn put_record(self, buf: &mut [u8]) -> usize
        ensures { PutIfRoom buf.old 0 (B.record_bytes self) result buf.new }
    {
        let at = self.put_head(buf, 0);
        let at = self.put_addresses(buf, at);
        let at = self.put_unicast(buf, at);
        self.put_extended(buf, at)
    }
}
