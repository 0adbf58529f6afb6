ghost use Rattle.std.specs.Prelude.{◌≡◌};
ghost use Rattle.wire.specs.Said.{told};
ghost use Rattle.channel_judge.specs.Judging.{judged, proposed, load_in};

use crate::loads::Loads;
use wire::Refusal;

// Whether a channel is accepted to move to. The sequences are lent one behind the other, 33 bytes each: the encoding and the 32
// bytes. They are bytes, since a length that is no multiple of 33 is answered too. Both lists are lent as C lends them.
pub fn judge(sequences: &[u8], permitted: &[u8], proposal: u8) -> Result<(), Refusal>
    ensures { told result ≡ judged sequences.now permitted.now proposal }
{
    let mut loads = Loads::new();
    loads.count_lent(sequences, permitted.len())?;
    loads.judge(permitted, proposal)
}

// The first channel of the list that the judge accepts.
pub fn own_proposal(sequences: &[u8], permitted: &[u8]) -> Result<u8, Refusal>
    ensures { told result ≡ proposed sequences.now permitted.now }
{
    let mut loads = Loads::new();
    loads.count_lent(sequences, permitted.len())?;
    loads.least(permitted)
}

// How many entries stand for a channel, permitted or not.
pub fn channel_load(sequences: &[u8], channel: u8) -> Result<u16, Refusal>
    ensures { told result ≡ load_in sequences.now channel }
{
    let mut loads = Loads::new();
    loads.count_lent(sequences, 0)?;
    Ok(loads.of_channel(channel))
}
