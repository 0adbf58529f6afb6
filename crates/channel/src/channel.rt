ghost use Rattle.std.specs.Prelude.{◌≡◌};
ghost use Rattle.wire.specs.Said.{told};
ghost use Rattle.channel.specs.Channels.{encoding_of, entry_size, size_of_encoding};
ghost use Rattle.channel.specs.Channels.{support_channel, channel_bandwidth, band, kept_flags};
ghost use Rattle.channel.specs.Channels.{corrected_legacy, corrected_in, corrected};

use wire::Refusal;

// The three channel encodings. The one whose number is 0 is the default.
#[derive(Clone, Copy, Debug, PartialEq, Eq, Hash, Default)]
pub enum ChannelEncoding {
    // The channel alone.
    #[default]
    Simple,
    // Flags, then the channel.
    Legacy,
    // The channel, then its operating class.
    OpClass,
}

// The one place of the records that tells a listed encoding from any other.
impl TryFrom<u8> for ChannelEncoding {
    type Error = Refusal;

    ghost try_from_gives = { λ encoding found. told found ≡ encoding_of encoding };

    #[tactic(auto, unfolding(crate::specs::Channels::encoding_of))]
    fn try_from(encoding: u8) -> Result<ChannelEncoding, Refusal> {
        match encoding {
            0 => Ok(ChannelEncoding::Simple),
            ChannelEncoding::LEGACY => Ok(ChannelEncoding::Legacy),
            3 => Ok(ChannelEncoding::OpClass),
            _ => Err(Refusal::Encoding),
        }
    }
}

impl ChannelEncoding {
    // Sequences of this one are read and no longer written.
    pub const LEGACY: u8 = 1;

    // The bytes that one channel takes.
    pub fn entry_size(self) -> usize
        ensures { result ≡ entry_size self }
    {
        match self {
            ChannelEncoding::Simple => 1,
            ChannelEncoding::Legacy | ChannelEncoding::OpClass => 2,
        }
    }

    // The channel that the two bytes of an entry stand for: a legacy channel is moved to its primary one.
    pub fn corrected(self, first: u8, second: u8) -> u8
        ensures { result ≡ corrected_in self first second }
    {
        match self {
            ChannelEncoding::Simple | ChannelEncoding::OpClass => first,
            ChannelEncoding::Legacy => corrected_legacy(LegacyFlags(first), second),
        }
    }

    // The bytes that one channel takes, for an encoding as it stands on the wire.
    pub fn size(encoding: u8) -> Result<usize, Refusal>
        ensures { told result ≡ size_of_encoding encoding }
    {
        Ok(ChannelEncoding::try_from(encoding)?.entry_size())
    }
}

// The flags of the legacy encoding, as named bits of one byte.
#[derive(Clone, Copy, Debug, PartialEq, Eq, Hash, Default)]
pub struct LegacyFlags(pub u8);

impl LegacyFlags {
    pub const KEEP: u8 = 0x3F;

    // Bits without a name are dropped, so it is no `From`.
    pub fn from_bits(bits: u8) -> LegacyFlags
        ensures { result.0 ≡ kept_flags bits }
    {
        LegacyFlags(bits & LegacyFlags::KEEP)
    }

    // 1 is lower, 2 upper and 3 primary. This and the next two are each the number of its two bits and no enum: 0 has no meaning
    // and is answered too (`support_channel`, `channel_bandwidth`, `band`).
    pub fn support_channel(self) -> u8
        ensures { result ≡ support_channel self.0 }
    {
        self.0 % 4
    }

    // 1 is 20 MHz, 2 is 40 and 3 is 80.
    pub fn channel_bandwidth(self) -> u8
        ensures { result ≡ channel_bandwidth self.0 }
    {
        self.0 / 4 % 4
    }

    // 1 is 5 GHz and 2 is 2.4 GHz.
    pub fn band(self) -> u8
        ensures { result ≡ band self.0 }
    {
        self.0 / 16 % 4
    }
}

// The two bytes of an entry. A simple channel has one, and its second is 0. The encoding is the byte on the wire and no
// `ChannelEncoding`: a record with one that is not listed can be asked too, and is refused with 5.
#[derive(Clone, Copy, Debug, PartialEq, Eq, Hash, Default)]
pub struct Channel {
    pub encoding: u8,
    pub first: u8,
    pub second: u8,
}

impl Channel {
    // What a report names.
    pub fn channel(self) -> Result<u8, Refusal>
        ensures { told result ≡ corrected self }
    {
        Ok(ChannelEncoding::try_from(self.encoding)?.corrected(self.first, self.second))
    }
}

// A release build of the Rust counts modulo 256 here, and so do we.
fn corrected_legacy(flags: LegacyFlags, channel: u8) -> u8
    ensures { result ≡ corrected_legacy flags.0 channel }
{
    match flags.support_channel() {
        1 => channel.wrapping_sub(2),
        2 => channel.wrapping_add(2),
        _ => channel,
    }
}
