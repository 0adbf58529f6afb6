// Data path records.
use crate::buffers::Buffers;
use crate::output::{Answered, Fault, Output};
use crate::record::{Pass, Record};
use crate::value::{Value, among, name_of};
use crate::words::Words;
use data_path_state::{
    ChannelMap, CountryCode, DataPathChannel, DataPathExtendedFlags, DataPathFlags,
    DataPathStateTLV, DataPathStats, InfraBssidChannel, Optional, UnicastOptions,
};
use std::io;
use std::io::Write;

#[derive(Clone, Copy, Debug, PartialEq, Eq, Hash)]
pub(crate) enum DataPathCall {
    Read,
    Mend,
    ChannelWord,
    WordOfChannel,
    UnicastOptions,
    ExtendedFlags,
    Has,
}

pub(crate) const CALLS: [(&str, DataPathCall); 7] = [
    ("data_path_read", DataPathCall::Read),
    ("data_path_mend", DataPathCall::Mend),
    ("channel_word", DataPathCall::ChannelWord),
    ("word_of_channel", DataPathCall::WordOfChannel),
    ("unicast_options", DataPathCall::UnicastOptions),
    ("extended_flags", DataPathCall::ExtendedFlags),
    ("has", DataPathCall::Has),
];

// The kind of a channel, which its word tells.
#[derive(Clone, Copy, Debug, PartialEq, Eq, Hash)]
enum Kind {
    Single,
    Map,
}

const KINDS: [(&str, Kind); 2] = [("single", Kind::Single), ("map", Kind::Map)];

// As for the `Kind` of marks: an impl for every type with a table would overlap with the one for numbers.
impl Value for Kind {
    fn of(word: &[u8]) -> Option<Kind> {
        among(&KINDS, word)
    }

    fn show(self, out: &mut Output) -> io::Result<()> {
        out.write_all(name_of(&KINDS, self))
    }
}

// A channel is as wide as its kind says.
fn channel<P: Pass>(
    fields: &mut P,
    kind_name: &[u8],
    name: &[u8],
    channel: DataPathChannel,
) -> Result<DataPathChannel, Fault> {
    let (kind, single) = match channel {
        DataPathChannel::SingleChannel(single) => (Kind::Single, single),
        DataPathChannel::ChannelMap(_) => (Kind::Map, 0),
    };
    match fields.pass(kind_name, kind)? {
        Kind::Single => Ok(DataPathChannel::SingleChannel(fields.pass(name, single)?)),
        Kind::Map => {
            let map = fields.pass(name, u16::from(channel))?;
            Ok(DataPathChannel::ChannelMap(ChannelMap(map)))
        }
    }
}

impl Record for DataPathChannel {
    fn through<P: Pass>(self, fields: &mut P) -> Result<DataPathChannel, Fault> {
        channel(fields, b"channel_kind=", b"channel=", self)
    }
}

impl Record for CountryCode {
    fn through<P: Pass>(self, fields: &mut P) -> Result<CountryCode, Fault> {
        Ok(CountryCode {
            first: fields.pass(b"country_first=", self.first)?,
            second: fields.pass(b"country_second=", self.second)?,
            pad: fields.pass(b"country_pad=", self.pad)?,
        })
    }
}

impl Record for InfraBssidChannel {
    fn through<P: Pass>(self, fields: &mut P) -> Result<InfraBssidChannel, Fault> {
        Ok(InfraBssidChannel {
            bssid: fields.pass(b"infra_bssid=", self.bssid)?,
            channel: fields.pass(b"infra_channel=", self.channel)?,
        })
    }
}

impl Record for DataPathStats {
    fn through<P: Pass>(self, fields: &mut P) -> Result<DataPathStats, Fault> {
        Ok(DataPathStats {
            msec_since_activation: fields.pass(
                b"msec_since_activation=",
                self.msec_since_activation,
            )?,
            aw_seq_counter: fields.pass(b"aw_seq_counter=", self.aw_seq_counter)?,
            pay_update_coutner: fields.pass(b"pay_update_coutner=", self.pay_update_coutner)?,
        })
    }
}

// A part of the record that may be absent, with what stands there all the same.
fn part<P: Pass, R: Record>(
    fields: &mut P,
    name: &[u8],
    part: Optional<R>,
) -> Result<Optional<R>, Fault> {
    let present = fields.pass(name, part.present)?;
    let value = part.value.through(fields)?;
    Ok(Optional { present, value })
}

// The same of one value, which has a name of its own.
fn field<P: Pass, T: Value>(
    fields: &mut P,
    name: &[u8],
    value_name: &[u8],
    field: Optional<T>,
) -> Result<Optional<T>, Fault> {
    let present = fields.pass(name, field.present)?;
    let value = fields.pass(value_name, field.value)?;
    Ok(Optional { present, value })
}

// This and the next hand on to the number inside: one impl for both would overlap with the one for numbers.
impl Value for UnicastOptions {
    fn of(word: &[u8]) -> Option<UnicastOptions> {
        Some(UnicastOptions(u32::of(word)?))
    }

    fn show(self, out: &mut Output) -> io::Result<()> {
        self.0.show(out)
    }
}

impl Value for DataPathExtendedFlags {
    fn of(word: &[u8]) -> Option<DataPathExtendedFlags> {
        Some(DataPathExtendedFlags(u16::of(word)?))
    }

    fn show(self, out: &mut Output) -> io::Result<()> {
        self.0.show(out)
    }
}

impl Record for DataPathStateTLV {
    fn through<P: Pass>(self, fields: &mut P) -> Result<DataPathStateTLV, Fault> {
        Ok(DataPathStateTLV {
            flags: DataPathFlags(fields.pass(b"flags=", self.flags.0)?),
            country_code: part(fields, b"country_code=", self.country_code)?,
            channel_map: part(fields, b"channel_map=", self.channel_map)?,
            infra_bssid_channel: part(fields, b"infra_bssid_channel=", self.infra_bssid_channel)?,
            infra_address: field(fields, b"infra_address=", b"infra=", self.infra_address)?,
            awdl_address: field(fields, b"awdl_address=", b"awdl=", self.awdl_address)?,
            unicast_options: field(
                fields,
                b"unicast_options=",
                b"options=",
                self.unicast_options,
            )?,
            unicast_options_ext: field(
                fields,
                b"unicast_options_ext=",
                b"ext=",
                self.unicast_options_ext,
            )?,
            extended_flags: field(
                fields,
                b"extended_flags=",
                b"extended=",
                self.extended_flags,
            )?,
            rlfc: field(fields, b"rlfc=", b"rlfc_word=", self.rlfc)?,
            log_trigger_id: field(
                fields,
                b"log_trigger_id=",
                b"trigger_id=",
                self.log_trigger_id,
            )?,
            stats: part(fields, b"stats=", self.stats)?,
        })
    }
}

fn word_of_channel(mut words: Words<'_>, out: &mut Output) -> Answered {
    let channel = channel(&mut words, b"", b"", DataPathChannel::default())?;
    words.end()?;
    out.number(b"word=", Ok(u16::from(channel)))
}

fn has(mut words: Words<'_>, out: &mut Output) -> Answered {
    let word: u16 = words.value()?;
    let mask: u16 = words.only_value()?;
    out.number(b"has=", Ok(data_path_words::has(word, mask)))
}

pub(crate) fn answer(
    call: DataPathCall,
    words: Words<'_>,
    buffers: &mut Buffers,
    out: &mut Output,
) -> Answered {
    match call {
        DataPathCall::Read => {
            let value = words.only_bytes(&mut buffers.given)?;
            out.read(b"size=", DataPathStateTLV::read(value))
        }
        DataPathCall::Mend => {
            let record: DataPathStateTLV = words.only_record()?;
            out.record(Ok(record.mend()))
        }
        DataPathCall::ChannelWord => {
            let word: u16 = words.only_value()?;
            out.record(Ok(DataPathChannel::from(word)))
        }
        DataPathCall::WordOfChannel => word_of_channel(words, out),
        DataPathCall::UnicastOptions => {
            let bits: u32 = words.only_value()?;
            out.number(b"bits=", Ok(UnicastOptions::from_bits(bits).0))
        }
        DataPathCall::ExtendedFlags => {
            let bits: u16 = words.only_value()?;
            out.number(b"bits=", Ok(DataPathExtendedFlags::from_bits(bits).0))
        }
        DataPathCall::Has => has(words, out),
    }
}
