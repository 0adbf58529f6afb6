ghost use Rattle.std.specs.Prelude.{◌≡◌};
ghost use Rattle.wire.specs.Said.{said, told};
ghost use Rattle.wire.specs.Writing.{length_of, Wrote};
ghost use Rattle.channel_sequence_tlv.specs.SequenceTLVs.{consistent, size_of, head_bytes, bytes_of};
ghost use Rattle.channel_sequence_tlv.specs.SequenceTLVReader.{channel_sequence_record};

use channel_sequence::ChannelSequence;
use wire::{AWDLTLVType, Refusal};

// The sequence that a peer hops over, with what stands in front of it. A synchronization value holds the same behind its fixed part.
#[derive(Clone, Copy, Debug, PartialEq, Eq, Hash, Default)]
pub struct ChannelSequenceTLV {
    pub duplicate_count: u8,
    pub step_count: u8,
    pub fill_channel: u16,
    pub channel_sequence: ChannelSequence,
}

// What stands in front of the entries.
const HEAD_SIZE: usize = 6;

// How many of these six bytes each field takes.
const HEAD_WIDTHS: [u8; 5] = [1, 1, 1, 1, 2];

// The number of entries less one, as it stands on the wire.
const COUNT: u8 = 15;

impl ChannelSequenceTLV {
    pub const TLV_TYPE: u8 = AWDLTLVType::CHANNEL_SEQUENCE;

    pub const MIN_SIZE: usize = 22;

    pub const MAX_SIZE: usize = 38;

    // The record, and the place behind it. The count is looked at when all six bytes are there; only where they are not, the field that is
    // short is looked for.
    pub fn read(s: &[u8], at: usize) -> Result<(ChannelSequenceTLV, usize), Refusal>
        ensures { said result ≡ channel_sequence_record s.now at }
    {
        let entries = match wire::field_at(s, at, HEAD_SIZE) {
            Ok(behind_head) => behind_head,
            Err(_) => return Err(Refusal::Short(wire::first_short(s, at, &HEAD_WIDTHS))),
        };
        if s[at] != COUNT {
            return Err(Refusal::ChannelCount);
        }
        let (channel_sequence, next) = ChannelSequence::read(s, entries, s[at + 1])?;
        let fill_channel = u16::from_le_bytes([s[at + 4], s[at + 5]]);
        let record = ChannelSequenceTLV {
            duplicate_count: s[at + 2],
            step_count: s[at + 3],
            fill_channel,
            channel_sequence,
        };
        Ok((record, next))
    }

    pub fn consistent(self) -> Result<bool, Refusal>
        ensures { told result ≡ consistent self }
    {
        self.channel_sequence.consistent()
    }

    pub fn size(self) -> Result<usize, Refusal>
        ensures { told result ≡ size_of self }
    {
        Ok(HEAD_SIZE + self.channel_sequence.size()?)
    }

    // What a writer goes by, settled before its first byte. A record with a legacy sequence has a size too, and is not written.
    pub fn written_size(self) -> Result<usize, Refusal>
        ensures { told result ≡ length_of (bytes_of self) }
    {
        Ok(HEAD_SIZE + self.channel_sequence.written_size()?)
    }

    // The bytes in front of the entries, for a writer that has asked the size.
    pub fn head(self) -> [u8; 6]
        ensures { result ≡ head_bytes self }
    {
        let sequence = self.channel_sequence;
        let [low, high] = self.fill_channel.to_le_bytes();
        [
            COUNT,
            sequence.encoding,
            self.duplicate_count,
            self.step_count,
            low,
            high,
        ]
    }

    pub fn write(self, buf: &mut [u8]) -> Result<usize, Refusal>
        ensures { Wrote buf.old (bytes_of self) (told result) buf.new }
    {
        let n = wire::within(buf.len(), self.written_size())?;
        let head = self.head();
        let sequence = self.channel_sequence;
        wire::put_slice(buf, 0, &head);
        wire::put_slice(buf, HEAD_SIZE, &sequence.bytes[..n - HEAD_SIZE]);
        Ok(n)
    }
}
