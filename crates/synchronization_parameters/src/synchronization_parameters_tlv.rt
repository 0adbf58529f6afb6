ghost use Rattle.std.specs.Prelude.{◌≡◌, ◌+◌, ◌*◌, ◌≤◌, length, get_or};
ghost use Rattle.wire.specs.Said.{said, told};
ghost use Rattle.wire.specs.Writing.{length_of, PutIfRoom, Wrote};
ghost use Rattle.synchronization_parameters.specs.SynchronizationReader.{synchronization};
ghost use Rattle.synchronization_parameters.specs.SynchronizationBytes.{consistent, size_of, fixed_bytes, bytes_of};

use channel_sequence_tlv::ChannelSequenceTLV;
use wire::{AWDLTLVType, MACAddress, Refusal, Wire};

// The timing that a peer announces, and the sequence that it hops over. What stands behind these in the value is no part of the record.
#[derive(Clone, Copy, Debug, PartialEq, Eq, Hash, Default)]
pub struct SynchronizationParametersTLV {
    pub next_channel: u8,
    pub tx_counter: u16,
    pub master_channel: u8,
    pub guard_time: u8,
    pub aw_period: u16,
    pub af_period: u16,
    pub awdl_flags: u16,
    pub aw_ext_length: u16,
    pub aw_common_length: u16,
    pub remaining_aw_length: u16,
    pub min_ext_count: u8,
    pub max_multicast_ext_count: u8,
    pub max_unicast_ext_count: u8,
    pub max_af_ext_count: u8,
    pub master_address: MACAddress,
    pub presence_mode: u8,
    // What it means is not known, so it is written again as it was read.
    pub reserved: u8,
    pub aw_seq_number: u16,
    pub ap_beacon_alignment_delta: u16,
    pub channel_sequence: ChannelSequenceTLV,
}

// The bytes in front of the sequence.
const FIXED_SIZE: usize = 33;

// How many of the fixed bytes each field takes. The mode and its reserved byte are one.
const WIDTHS: [u8; 18] = [1, 2, 1, 1, 2, 2, 2, 2, 2, 2, 1, 1, 1, 1, 6, 2, 2, 2];

impl SynchronizationParametersTLV {
    pub const TLV_TYPE: u8 = AWDLTLVType::SYNCHRONIZATION_PARAMETERS;

    pub const MIN_SIZE: usize = 55;

    pub const MAX_SIZE: usize = 71;

    // The record, and the place behind it.
    pub fn read(s: &[u8]) -> Result<(SynchronizationParametersTLV, usize), Refusal>
        ensures { said result ≡ synchronization s.now 0 }
    {
        // The length is asked once, and each field is then taken at its place without a test of its own. Only where the fixed part
        // is not all there, the field that is short is looked for. What refuses the sequence has an arm of its own, and not `?`, since a
        // must-fail edit makes an answer of it.
        if s.len() < FIXED_SIZE {
            return Err(Refusal::Short(wire::first_short(s, 0, &WIDTHS)));
        }
        match ChannelSequenceTLV::read(s, FIXED_SIZE) {
            Ok((channel_sequence, next)) => {
                let parameters = SynchronizationParametersTLV {
                    next_channel: s[0],
                    tx_counter: word(s, 1),
                    master_channel: s[3],
                    guard_time: s[4],
                    aw_period: word(s, 5),
                    af_period: word(s, 7),
                    awdl_flags: word(s, 9),
                    aw_ext_length: word(s, 11),
                    aw_common_length: word(s, 13),
                    remaining_aw_length: word(s, 15),
                    min_ext_count: s[17],
                    max_multicast_ext_count: s[18],
                    max_unicast_ext_count: s[19],
                    max_af_ext_count: s[20],
                    master_address: MACAddress(s[21], s[22], s[23], s[24], s[25], s[26]),
                    presence_mode: s[27],
                    reserved: s[28],
                    aw_seq_number: word(s, 29),
                    ap_beacon_alignment_delta: word(s, 31),
                    channel_sequence,
                };
                Ok((parameters, next))
            }
            Err(why) => Err(why),
        }
    }

    pub fn consistent(self) -> Result<bool, Refusal>
        ensures { told result ≡ consistent self }
    {
        self.channel_sequence.consistent()
    }

    pub fn size(self) -> Result<usize, Refusal>
        ensures { told result ≡ size_of self }
    {
        let n = self.channel_sequence.size()?;
        Ok(FIXED_SIZE + n)
    }

    // What the writer goes by, settled before its first byte. A record with a legacy sequence has a size too, and is not written. The
    // refusal has an arm of its own, for the same reason as in `read`.
    pub fn written_size(self) -> Result<usize, Refusal>
        ensures { told result ≡ length_of (bytes_of self) }
    {
        match self.channel_sequence.written_size() {
            Ok(n) => Ok(FIXED_SIZE + n),
            Err(why_not) => Err(why_not),
        }
    }

    pub fn write(self, buf: &mut [u8]) -> Result<usize, Refusal>
        ensures { Wrote buf.old (bytes_of self) (told result) buf.new }
    {
        let n = wire::within(buf.len(), self.written_size())?;
        let at = self.put_fields(buf);
        let head = self.channel_sequence.head();
        let at = wire::put_slice(buf, at, &head);
        let sequence = self.channel_sequence.channel_sequence;
        wire::put_slice(buf, at, &sequence.bytes[..n - FIXED_SIZE - head.len()]);
        Ok(n)
    }

    // Puts the fields at the start of a buffer, and gives the place behind them.
    fn put_fields(self, buf: &mut [u8]) -> usize
        ensures { PutIfRoom buf.old 0 (fixed_bytes self) result buf.new }
    {
        let at = self.next_channel.put_at(buf, 0);
        let at = self.tx_counter.put_at(buf, at);
        let at = self.master_channel.put_at(buf, at);
        let at = self.guard_time.put_at(buf, at);
        let at = self.aw_period.put_at(buf, at);
        let at = self.af_period.put_at(buf, at);
        let at = self.awdl_flags.put_at(buf, at);
        let at = self.aw_ext_length.put_at(buf, at);
        let at = self.aw_common_length.put_at(buf, at);
        let at = self.remaining_aw_length.put_at(buf, at);
        let at = self.min_ext_count.put_at(buf, at);
        let at = self.max_multicast_ext_count.put_at(buf, at);
        let at = self.max_unicast_ext_count.put_at(buf, at);
        let at = self.max_af_ext_count.put_at(buf, at);
        let at = self.master_address.put_at(buf, at);
        let at = self.presence_mode.put_at(buf, at);
        let at = self.reserved.put_at(buf, at);
        let at = self.aw_seq_number.put_at(buf, at);
        self.ap_beacon_alignment_delta.put_at(buf, at)
    }
}

// The number at a place of a value that has its two bytes.
fn word(s: &[u8], at: usize) -> u16
    requires { at + 2 ≤ length s.now }
    ensures { result ≡ get_or s.now at 0 + 256 * get_or s.now (at + 1) 0 }
{
    u16::from_le_bytes([s[at], s[at + 1]])
}
