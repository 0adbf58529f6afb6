ghost use Rattle.std.specs.Prelude.{◌≡◌};
ghost use Rattle.wire.specs.Said.{told};
ghost use Rattle.wire.specs.Outcomes.{reply};
ghost use Rattle.channel_judge.specs.Judging.{proposed};
ghost use Rattle.channel_judge.specs.Outcomes.{judged_reply};
ghost use Rattle.exports.specs.Judging.{judged_in, load_of};
ghost use Rattle.exports.specs.Told.{ToldPlaced};

use crate::lent::held_byte;
use crate::told::{number_of, tell_placed};
use wire::Refusal;

fn judge(sequences: &[u8], permitted: &[u8], proposal: u32) -> Result<(), Refusal>
    ensures { told result ≡ judged_in sequences.now permitted.now proposal }
{
    channel_judge::judge(sequences, permitted, held_byte(proposal)?)
}

pub fn awdl_judge(
    sequences: &[u8],
    permitted: &[u8],
    proposal: u32,
    offset: &mut usize,
    own: &mut u32,
) -> u32
    ensures { ToldPlaced (judged_reply (judged_in sequences.now permitted.now proposal)) result offset.new own.new }
{
    match judge(sequences, permitted, proposal) {
        Ok(()) => {
            *offset = 0;
            *own = 0;
            0
        }
        Err(why) => {
            *offset = why.offset();
            *own = u32::from(why.channel());
            number_of(why)
        }
    }
}

pub fn awdl_own_proposal(
    sequences: &[u8],
    permitted: &[u8],
    offset: &mut usize,
    channel: &mut u32,
) -> u32
    ensures { ToldPlaced (reply 0 (proposed sequences.now permitted.now)) result offset.new channel.new }
{
    let own = channel_judge::own_proposal(sequences, permitted);
    tell_placed(own.map(u32::from), offset, channel)
}

pub fn awdl_channel_load(sequences: &[u8], channel: u32, offset: &mut usize, load: &mut u32) -> u32
    ensures { ToldPlaced (reply 0 (load_of sequences.now channel)) result offset.new load.new }
{
    let counted = held_byte(channel).and_then(|c| channel_judge::channel_load(sequences, c));
    tell_placed(counted.map(u32::from), offset, load)
}
