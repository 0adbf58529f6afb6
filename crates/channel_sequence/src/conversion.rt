ghost use Rattle.std.specs.Prelude.{◌≡◌, length};
ghost use Rattle.wire.specs.Said.{told};
ghost use Rattle.channel_sequence.specs.Conversion.{corrected_inside, simple_of};

use crate::channel_sequence::ChannelSequence;
use channel::{Channel, ChannelEncoding, LegacyFlags};
use wire::Refusal;

// The channels of sixteen legacy entries as a simple sequence. By index: over `chunks_exact(2).enumerate()` the loop's invariant
// would have to say where the iterator stands, and here it goes by `i` alone.
pub(crate) fn simple_of(entries: &[u8; 32]) -> Result<ChannelSequence, Refusal>
    ensures { told result ≡ simple_of entries.now }
{
    let mut bytes = [0; 32];
    for i in 0..16 {
        bytes[i] = corrected_inside(LegacyFlags(entries[2 * i]), entries[2 * i + 1])?;
    }
    Ok(ChannelSequence { encoding: 0, bytes })
}

// The corrected channel, refused where it would wrap.
fn corrected_inside(flags: LegacyFlags, channel: u8) -> Result<u8, Refusal>
    ensures { told result ≡ corrected_inside flags.0 channel }
{
    let support = flags.support_channel();
    if support == 1 && channel < 2 {
        return Err(Refusal::CorrectedChannel);
    }
    if support == 2 && 253 < channel {
        return Err(Refusal::CorrectedChannel);
    }
    Channel {
        encoding: ChannelEncoding::LEGACY,
        first: flags.0,
        second: channel,
    }
    .channel()
}
