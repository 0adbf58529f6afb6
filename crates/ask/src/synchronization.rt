// Synchronization records.
use crate::buffers::Buffers;
use crate::output::{Answered, Fault, Output};
use crate::record::{Pass, Record};
use crate::words::Words;
use synchronization_parameters::SynchronizationParametersTLV;

impl Record for SynchronizationParametersTLV {
    fn through<P: Pass>(self, fields: &mut P) -> Result<SynchronizationParametersTLV, Fault> {
        Ok(SynchronizationParametersTLV {
            next_channel: fields.pass(b"next_channel=", self.next_channel)?,
            tx_counter: fields.pass(b"tx_counter=", self.tx_counter)?,
            master_channel: fields.pass(b"master_channel=", self.master_channel)?,
            guard_time: fields.pass(b"guard_time=", self.guard_time)?,
            aw_period: fields.pass(b"aw_period=", self.aw_period)?,
            af_period: fields.pass(b"af_period=", self.af_period)?,
            awdl_flags: fields.pass(b"awdl_flags=", self.awdl_flags)?,
            aw_ext_length: fields.pass(b"aw_ext_length=", self.aw_ext_length)?,
            aw_common_length: fields.pass(b"aw_common_length=", self.aw_common_length)?,
            remaining_aw_length: fields.pass(b"remaining_aw_length=", self.remaining_aw_length)?,
            min_ext_count: fields.pass(b"min_ext_count=", self.min_ext_count)?,
            max_multicast_ext_count: fields.pass(
                b"max_multicast_ext_count=",
                self.max_multicast_ext_count,
            )?,
            max_unicast_ext_count: fields.pass(
                b"max_unicast_ext_count=",
                self.max_unicast_ext_count,
            )?,
            max_af_ext_count: fields.pass(b"max_af_ext_count=", self.max_af_ext_count)?,
            master_address: fields.pass(b"master_address=", self.master_address)?,
            presence_mode: fields.pass(b"presence_mode=", self.presence_mode)?,
            reserved: fields.pass(b"reserved=", self.reserved)?,
            aw_seq_number: fields.pass(b"aw_seq_number=", self.aw_seq_number)?,
            ap_beacon_alignment_delta: fields.pass(
                b"ap_beacon_alignment_delta=",
                self.ap_beacon_alignment_delta,
            )?,
            channel_sequence: self.channel_sequence.through(fields)?,
        })
    }
}

pub(crate) fn read(words: Words<'_>, buffers: &mut Buffers, out: &mut Output) -> Answered {
    let value = words.only_bytes(&mut buffers.given)?;
    out.read(b"size=", SynchronizationParametersTLV::read(value))
}
