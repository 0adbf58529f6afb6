// Sequences of sixteen channels, and the record that holds one.
use crate::buffers::Buffers;
use crate::output::{Answered, Fault, Output};
use crate::record::{Pass, Record};
use crate::words::Words;
use channel::Channel;
use channel_sequence::ChannelSequence;
use channel_sequence_tlv::ChannelSequenceTLV;

#[derive(Clone, Copy, Debug, PartialEq, Eq, Hash)]
pub(crate) enum SequenceCall {
    Read,
    Fixed,
    ToSimple,
    Entry,
    ReadRecord,
    Head,
}

pub(crate) const CALLS: [(&str, SequenceCall); 6] = [
    ("sequence_read", SequenceCall::Read),
    ("sequence_fixed", SequenceCall::Fixed),
    ("sequence_to_simple", SequenceCall::ToSimple),
    ("sequence_entry", SequenceCall::Entry),
    ("channel_sequence_read", SequenceCall::ReadRecord),
    ("channel_sequence_head", SequenceCall::Head),
];

impl Record for ChannelSequence {
    fn through<P: Pass>(self, fields: &mut P) -> Result<ChannelSequence, Fault> {
        Ok(ChannelSequence {
            encoding: fields.pass(b"encoding=", self.encoding)?,
            bytes: fields.pass(b"bytes=", self.bytes)?,
        })
    }
}

impl Record for ChannelSequenceTLV {
    fn through<P: Pass>(self, fields: &mut P) -> Result<ChannelSequenceTLV, Fault> {
        Ok(ChannelSequenceTLV {
            duplicate_count: fields.pass(b"duplicate_count=", self.duplicate_count)?,
            step_count: fields.pass(b"step_count=", self.step_count)?,
            fill_channel: fields.pass(b"fill_channel=", self.fill_channel)?,
            channel_sequence: self.channel_sequence.through(fields)?,
        })
    }
}

fn read(mut words: Words<'_>, buffers: &mut Buffers, out: &mut Output) -> Answered {
    let bytes = words.bytes(&mut buffers.given)?;
    let at: usize = words.value()?;
    let encoding: u8 = words.only_value()?;
    out.read(b"next=", ChannelSequence::read(bytes, at, encoding))
}

fn entry(mut words: Words<'_>, out: &mut Output) -> Answered {
    let sequence: ChannelSequence = words.record()?;
    let n: usize = words.only_value()?;
    match sequence.entry(n) {
        Ok(Some(channel)) => out.record(Ok(channel)),
        Ok(None) => out.text(b"0 offset=0 nothing"),
        Err(why) => out.record::<Channel>(Err(why)),
    }
}

fn read_record(mut words: Words<'_>, buffers: &mut Buffers, out: &mut Output) -> Answered {
    let bytes = words.bytes(&mut buffers.given)?;
    let at: usize = words.only_value()?;
    out.read(b"next=", ChannelSequenceTLV::read(bytes, at))
}

pub(crate) fn answer(
    call: SequenceCall,
    words: Words<'_>,
    buffers: &mut Buffers,
    out: &mut Output,
) -> Answered {
    match call {
        SequenceCall::Read => read(words, buffers, out),
        SequenceCall::Fixed => {
            let channel: Channel = words.only_record()?;
            out.record(ChannelSequence::fixed_channel_sequence(channel))
        }
        SequenceCall::ToSimple => {
            let sequence: ChannelSequence = words.only_record()?;
            out.record(sequence.to_simple())
        }
        SequenceCall::Entry => entry(words, out),
        SequenceCall::ReadRecord => read_record(words, buffers, out),
        SequenceCall::Head => {
            let record: ChannelSequenceTLV = words.only_record()?;
            out.named_hex(b"0 offset=0 head=", &record.head())
        }
    }
}
