ghost use Rattle.std.specs.Prelude.{◌≡◌, ◌∷◌, [], ◌*◌, ◌<◌};
ghost use Rattle.wire.specs.Said.{said, told};
ghost use Rattle.wire.specs.Writing.{length_of, Wrote};
ghost use Rattle.channel.specs.Channels.{entry_size};
ghost use Rattle.channel_sequence.specs.Sequences.{all_zero, all_flags_fit, consistent_bytes, consistent, size_of, bytes_of};
ghost use Rattle.channel_sequence.specs.Sequences.{padded, times, entry_of, consistent_entry, fixed};
ghost use Rattle.channel_sequence.specs.SequenceReader.{sequence, kept_entries};
ghost use Rattle.channel_sequence.specs.Conversion.{to_simple};
ghost use Rattle.channel_sequence.specs.Hops.{entry_bytes, entry_channel, hop_at, said_entry};

use crate::conversion::simple_of;
use channel::{Channel, ChannelEncoding, LegacyFlags};
use wire::Refusal;

// Sixteen entries in one encoding. In a consistent sequence the bytes that the encoding does not use are 0. The encoding is the
// byte on the wire and no `ChannelEncoding`: a record with one that is not listed can be asked too, and is refused with 5.
#[derive(Clone, Copy, Debug, PartialEq, Eq, Hash, Default)]
pub struct ChannelSequence {
    pub encoding: u8,
    pub bytes: [u8; 32],
}

impl ChannelSequence {
    // The sequence, and the place behind it.
    pub fn read(s: &[u8], at: usize, encoding: u8) -> Result<(ChannelSequence, usize), Refusal>
        ensures { said result ≡ sequence encoding s.now at }
    {
        let known = ChannelEncoding::try_from(encoding)?;
        let next = wire::field_at(s, at, size_in(known))?;
        let mut bytes = [0; 32];
        wire::put_slice(&mut bytes, 0, &s[at..next]);
        if known == ChannelEncoding::Legacy {
            keep_flags(&mut bytes);
        }
        Ok((ChannelSequence { encoding, bytes }, next))
    }

    pub fn consistent(self) -> Result<bool, Refusal>
        ensures { told result ≡ consistent self }
    {
        let known = ChannelEncoding::try_from(self.encoding)?;
        Ok(consistent_bytes(known, &self.bytes))
    }

    pub fn size(self) -> Result<usize, Refusal>
        ensures { told result ≡ size_of self }
    {
        let known = ChannelEncoding::try_from(self.encoding)?;
        if consistent_bytes(known, &self.bytes) {
            return Ok(size_in(known));
        }
        Err(Refusal::Inconsistent)
    }

    // What a writer goes by, settled before its first byte. A legacy sequence has a size too, and is not written.
    pub fn written_size(self) -> Result<usize, Refusal>
        ensures { told result ≡ length_of (bytes_of self) }
    {
        if self.encoding == ChannelEncoding::LEGACY {
            return Err(Refusal::LegacySequence);
        }
        self.size()
    }

    pub fn write(self, buf: &mut [u8]) -> Result<usize, Refusal>
        ensures { Wrote buf.old (bytes_of self) (told result) buf.new }
    {
        let bytes = self.bytes;
        let n = wire::within(buf.len(), self.written_size())?;
        wire::put_slice(buf, 0, &bytes[..n]);
        Ok(n)
    }

    // The hop with a number, from 0, as its bytes stand: the sequence need not be consistent.
    pub fn entry(self, n: usize) -> Result<Option<Channel>, Refusal>
        ensures { said_entry result ≡ hop_at self n }
    {
        let known = ChannelEncoding::try_from(self.encoding)?;
        if 16 <= n {
            return Ok(None);
        }
        Ok(Some(entry_in(known, self.encoding, &self.bytes, n)))
    }

    // One channel sixteen times.
    pub fn fixed_channel_sequence(channel: Channel) -> Result<ChannelSequence, Refusal>
        ensures { told result ≡ fixed channel }
    {
        let Channel {
            encoding,
            first,
            second,
        } = channel;
        let known = ChannelEncoding::try_from(encoding)?;
        if consistent_entry(known, first, second) {
            let bytes = repeated(known, first, second);
            return Ok(ChannelSequence { encoding, bytes });
        }
        Err(Refusal::Inconsistent)
    }

    // For a legacy sequence that is to be written: its channels, each moved to its primary one, as a simple sequence.
    pub fn to_simple(self) -> Result<ChannelSequence, Refusal>
        ensures { told result ≡ to_simple self }
    {
        if self.encoding != ChannelEncoding::LEGACY {
            return Err(Refusal::Encoding);
        }
        if all_flags_fit(&self.bytes) {
            return simple_of(&self.bytes);
        }
        Err(Refusal::Inconsistent)
    }
}

// The bytes that sixteen entries take.
fn size_in(known: ChannelEncoding) -> usize
    ensures { result ≡ 16 * entry_size known }
{
    16 * known.entry_size()
}

fn entry_in(known: ChannelEncoding, encoding: u8, bytes: &[u8; 32], n: usize) -> Channel
    requires { n < 16 }
    ensures { result ≡ entry_channel encoding (entry_bytes known n bytes.now) }
{
    match known {
        ChannelEncoding::Simple => Channel {
            encoding,
            first: bytes[n],
            second: 0,
        },
        ChannelEncoding::Legacy | ChannelEncoding::OpClass => Channel {
            encoding,
            first: bytes[2 * n],
            second: bytes[2 * n + 1],
        },
    }
}

// Entry by entry, the flags lose the bits without a name. By index: behind a borrow by `chunks_exact_mut` a proof knows how long
// the entries are, and not what stands in them.
fn keep_flags(entries: &mut [u8; 32])
    ensures { entries.new ≡ kept_entries entries.old }
{
    for i in 0..16 {
        entries[2 * i] = LegacyFlags::from_bits(entries[2 * i]).0;
    }
}

// A simple sequence does not use its last sixteen bytes.
fn consistent_bytes(known: ChannelEncoding, bytes: &[u8; 32]) -> bool
    ensures { result ≡ consistent_bytes known bytes.now }
{
    let all = &bytes[..];
    match known {
        ChannelEncoding::Simple => all_zero(&all[16..]),
        ChannelEncoding::Legacy => all_flags_fit(all),
        ChannelEncoding::OpClass => true,
    }
}

fn all_zero(unused: &[u8]) -> bool
    ensures { result ≡ all_zero unused.now }
{
    unused.iter().all(|byte| *byte == 0)
}

fn all_flags_fit(entries: &[u8]) -> bool
    ensures { result ≡ all_flags_fit entries.now }
{
    entries
        .iter()
        .step_by(2)
        .all(|flags| *flags <= LegacyFlags::KEEP)
}

// The two bytes are passed without their encoding, which is known here and no longer a number.
fn consistent_entry(known: ChannelEncoding, first: u8, second: u8) -> bool
    ensures { result ≡ consistent_entry known first second }
{
    match known {
        ChannelEncoding::Simple => second == 0,
        ChannelEncoding::Legacy => first <= LegacyFlags::KEEP,
        ChannelEncoding::OpClass => true,
    }
}

fn repeated(known: ChannelEncoding, first: u8, second: u8) -> [u8; 32]
    ensures { result ≡ padded (times 16 (entry_of known first second)) }
{
    match known {
        ChannelEncoding::Simple => singles(first),
        ChannelEncoding::Legacy | ChannelEncoding::OpClass => pairs(first, second),
    }
}

// This one fills half of the bytes and the next all of them: over the bytes of an entry it is a loop for both, and no plainer.
#[tactic(auto, unfolding(crate::specs::Sequences::times))]
fn singles(channel: u8) -> [u8; 32]
    ensures { result ≡ padded (times 16 (channel ∷ [])) }
{
    let mut bytes = [0; 32];
    bytes[..16].fill(channel);
    bytes
}

// By index, as `keep_flags`.
fn pairs(first: u8, second: u8) -> [u8; 32]
    ensures { result ≡ padded (times 16 (first ∷ second ∷ [])) }
{
    let mut bytes = [0; 32];
    for i in 0..16 {
        bytes[2 * i] = first;
        bytes[2 * i + 1] = second;
    }
    bytes
}
