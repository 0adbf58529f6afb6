// The header of a frame, its tail, its stamps and its offsets, and refusals.
use crate::buffers::Buffers;
use crate::output::{Answered, Fault, Output};
use crate::record::{Pass, Record};
use crate::words::Words;
use action_frame::{AWDLActionFrame, PhyTxTime, TargetTxTime};
use tlvs::Item;
use wire::Refusal;

#[derive(Clone, Copy, Debug, PartialEq, Eq, Hash)]
pub(crate) enum FrameCall {
    Refusal,
    Read,
    TxDelta,
    Tail,
    OffsetInFrame,
    Write,
}

pub(crate) const CALLS: [(&str, FrameCall); 6] = [
    ("refusal", FrameCall::Refusal),
    ("frame_read", FrameCall::Read),
    ("tx_delta", FrameCall::TxDelta),
    ("frame_tail", FrameCall::Tail),
    ("offset_in_frame", FrameCall::OffsetInFrame),
    ("frame_write", FrameCall::Write),
];

// The offset and the channel of a refusal stand behind its name.
const REFUSALS: [(&str, Refusal); 15] = [
    ("Short", Refusal::Short(0)),
    ("NotAction", Refusal::NotAction),
    ("NotVersion", Refusal::NotVersion),
    ("UnicastLength", Refusal::UnicastLength),
    ("Encoding", Refusal::Encoding),
    ("NoRoom", Refusal::NoRoom),
    ("Inconsistent", Refusal::Inconsistent),
    ("TooLong", Refusal::TooLong),
    ("ChannelCount", Refusal::ChannelCount),
    ("LegacySequence", Refusal::LegacySequence),
    ("CorrectedChannel", Refusal::CorrectedChannel),
    ("TooMany", Refusal::TooMany),
    ("NonePermitted", Refusal::NonePermitted),
    ("NotPermitted", Refusal::NotPermitted),
    ("SmallerLoad", Refusal::SmallerLoad(0)),
];

impl Record for AWDLActionFrame {
    fn through<P: Pass>(self, fields: &mut P) -> Result<AWDLActionFrame, Fault> {
        Ok(AWDLActionFrame {
            subtype: fields.pass(b"subtype=", self.subtype)?,
            reserved: fields.pass(b"reserved=", self.reserved)?,
            phy_tx_time: PhyTxTime(fields.pass(b"phy_tx_time=", self.phy_tx_time.0)?),
            target_tx_time: TargetTxTime(fields.pass(b"target_tx_time=", self.target_tx_time.0)?),
        })
    }
}

fn refusal(mut words: Words<'_>, out: &mut Output) -> Answered {
    let named = words.among(&REFUSALS)?;
    let offset: usize = words.value()?;
    let channel: u8 = words.only_value()?;
    let why = match named {
        Refusal::Short(_) => Refusal::Short(offset),
        Refusal::SmallerLoad(_) => Refusal::SmallerLoad(channel),
        _ => named,
    };
    out.number::<u8>(b"channel=", Err(why))
}

fn tx_delta(mut words: Words<'_>, out: &mut Output) -> Answered {
    let phy = PhyTxTime(words.value()?);
    let target = TargetTxTime(words.only_value()?);
    out.number(b"micros=", Ok(action_frame::tx_delta(phy, target)))
}

fn offset_in_frame(mut words: Words<'_>, buffers: &mut Buffers, out: &mut Output) -> Answered {
    let frame = words.bytes(&mut buffers.given)?;
    let item: Item = words.record()?;
    let offset: usize = words.only_value()?;
    match AWDLActionFrame::offset_in_frame(frame, item, offset) {
        Some(place) => out.number(b"in_frame=", Ok(place)),
        None => out.text(b"0 offset=0 nothing"),
    }
}

fn write(mut words: Words<'_>, buffers: &mut Buffers, out: &mut Output) -> Answered {
    let header: AWDLActionFrame = words.record()?;
    let tail = words.bytes(&mut buffers.given)?;
    let lent = words.only_bytes(&mut buffers.lent)?;
    let size = header.write(tail, lent);
    out.wrote(size, lent)
}

pub(crate) fn answer(
    call: FrameCall,
    words: Words<'_>,
    buffers: &mut Buffers,
    out: &mut Output,
) -> Answered {
    match call {
        FrameCall::Refusal => refusal(words, out),
        FrameCall::Read => {
            let frame = words.only_bytes(&mut buffers.given)?;
            out.read(b"size=", AWDLActionFrame::read(frame))
        }
        FrameCall::TxDelta => tx_delta(words, out),
        FrameCall::Tail => {
            let frame = words.only_bytes(&mut buffers.given)?;
            out.named_hex(b"0 offset=0 tail=", AWDLActionFrame::tail(frame))
        }
        FrameCall::OffsetInFrame => offset_in_frame(words, buffers, out),
        FrameCall::Write => write(words, buffers, out),
    }
}
