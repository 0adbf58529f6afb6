// Channels and their encodings.
use crate::output::{Answered, Fault, Output};
use crate::record::{Pass, Record};
use crate::words::Words;
use channel::{Channel, ChannelEncoding, LegacyFlags};

#[derive(Clone, Copy, Debug, PartialEq, Eq, Hash)]
pub(crate) enum ChannelCall {
    Channel,
    Encoding,
    EncodingSize,
    EntrySize,
    LegacyFlags,
    SupportChannel,
    Bandwidth,
    Band,
}

pub(crate) const CALLS: [(&str, ChannelCall); 8] = [
    ("channel", ChannelCall::Channel),
    ("encoding", ChannelCall::Encoding),
    ("encoding_size", ChannelCall::EncodingSize),
    ("entry_size", ChannelCall::EntrySize),
    ("legacy_flags", ChannelCall::LegacyFlags),
    ("support_channel", ChannelCall::SupportChannel),
    ("channel_bandwidth", ChannelCall::Bandwidth),
    ("band", ChannelCall::Band),
];

const ENCODINGS: [(&str, ChannelEncoding); 3] = [
    ("simple", ChannelEncoding::Simple),
    ("legacy", ChannelEncoding::Legacy),
    ("opclass", ChannelEncoding::OpClass),
];

impl Record for Channel {
    fn through<P: Pass>(self, fields: &mut P) -> Result<Channel, Fault> {
        Ok(Channel {
            encoding: fields.pass(b"encoding=", self.encoding)?,
            first: fields.pass(b"first=", self.first)?,
            second: fields.pass(b"second=", self.second)?,
        })
    }
}

// No call answers the number of an encoding, and this is the one place that shows it.
fn encoding_number(encoding: ChannelEncoding) -> u8 {
    match encoding {
        ChannelEncoding::Simple => 0,
        ChannelEncoding::Legacy => 1,
        ChannelEncoding::OpClass => 3,
    }
}

fn encoding(words: Words<'_>, out: &mut Output) -> Answered {
    let found = ChannelEncoding::try_from(words.only_value::<u8>()?);
    out.number(b"encoding=", found.map(encoding_number))
}

fn entry_size(mut words: Words<'_>, out: &mut Output) -> Answered {
    let encoding = words.among(&ENCODINGS)?;
    words.end()?;
    out.number(b"size=", Ok(encoding.entry_size()))
}

fn flags(words: Words<'_>) -> Result<LegacyFlags, Fault> {
    Ok(LegacyFlags(words.only_value()?))
}

pub(crate) fn answer(call: ChannelCall, words: Words<'_>, out: &mut Output) -> Answered {
    match call {
        ChannelCall::Channel => {
            let channel: Channel = words.only_record()?;
            out.number(b"channel=", channel.channel())
        }
        ChannelCall::Encoding => encoding(words, out),
        ChannelCall::EncodingSize => {
            let bits: u8 = words.only_value()?;
            out.number(b"size=", ChannelEncoding::size(bits))
        }
        ChannelCall::EntrySize => entry_size(words, out),
        ChannelCall::LegacyFlags => {
            let bits: u8 = words.only_value()?;
            out.number(b"bits=", Ok(LegacyFlags::from_bits(bits).0))
        }
        ChannelCall::SupportChannel => { out.number(b"bits=", Ok(flags(words)?.support_channel())) }
        ChannelCall::Bandwidth => out.number(b"bits=", Ok(flags(words)?.channel_bandwidth())),
        ChannelCall::Band => out.number(b"bits=", Ok(flags(words)?.band())),
    }
}
