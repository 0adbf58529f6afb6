ghost use Rattle.wire.specs.Outcomes.{reply};
ghost use Rattle.channel_judge.specs.Judging.{proposed};
ghost use Rattle.channel_judge.specs.Outcomes.{judged_reply};
ghost use Rattle.exports.specs.Judging.{judged_in, load_of};
ghost use Rattle.exports.specs.Told.{ToldPlaced};

#[unsafe(no_mangle)]
pub extern "C" fn awdl_judge(
    sequences: &[u8],
    permitted: &[u8],
    proposal: u32,
    offset: &mut usize,
    own: &mut u32,
) -> u32
    ensures { ToldPlaced (judged_reply (judged_in sequences.now permitted.now proposal)) result offset.new own.new }
{
    exports::awdl_judge(sequences, permitted, proposal, offset, own)
}

#[unsafe(no_mangle)]
pub extern "C" fn awdl_own_proposal(
    sequences: &[u8],
    permitted: &[u8],
    offset: &mut usize,
    channel: &mut u32,
) -> u32
    ensures { ToldPlaced (reply 0 (proposed sequences.now permitted.now)) result offset.new channel.new }
{
    exports::awdl_own_proposal(sequences, permitted, offset, channel)
}

#[unsafe(no_mangle)]
pub extern "C" fn awdl_channel_load(
    sequences: &[u8],
    channel: u32,
    offset: &mut usize,
    load: &mut u32,
) -> u32
    ensures { ToldPlaced (reply 0 (load_of sequences.now channel)) result offset.new load.new }
{
    exports::awdl_channel_load(sequences, channel, offset, load)
}
