// Which channel to move to. The permitted channels stand in the lent buffer, so that both lists are bytes.
use crate::buffers::Buffers;
use crate::output::{Answered, Output};
use crate::words::Words;

#[derive(Clone, Copy, Debug, PartialEq, Eq, Hash)]
pub(crate) enum JudgeCall {
    Judge,
    OwnProposal,
    ChannelLoad,
}

pub(crate) const CALLS: [(&str, JudgeCall); 3] = [
    ("judge", JudgeCall::Judge),
    ("own_proposal", JudgeCall::OwnProposal),
    ("channel_load", JudgeCall::ChannelLoad),
];

// Beside an acceptance no channel is shown.
fn judge(mut words: Words<'_>, buffers: &mut Buffers, out: &mut Output) -> Answered {
    let sequences = words.bytes(&mut buffers.given)?;
    let permitted = words.bytes(&mut buffers.lent)?;
    let proposal: u8 = words.only_value()?;
    let judgement = channel_judge::judge(sequences, permitted, proposal);
    out.number::<u8>(b"own=", judgement.and(Ok(0)))
}

pub(crate) fn answer(
    call: JudgeCall,
    mut words: Words<'_>,
    buffers: &mut Buffers,
    out: &mut Output,
) -> Answered {
    match call {
        JudgeCall::Judge => judge(words, buffers, out),
        JudgeCall::OwnProposal => {
            let sequences = words.bytes(&mut buffers.given)?;
            let permitted = words.only_bytes(&mut buffers.lent)?;
            let proposal = channel_judge::own_proposal(sequences, permitted);
            out.number(b"channel=", proposal)
        }
        JudgeCall::ChannelLoad => {
            let sequences = words.bytes(&mut buffers.given)?;
            let channel: u8 = words.only_value()?;
            let load = channel_judge::channel_load(sequences, channel);
            out.number(b"load=", load)
        }
    }
}
