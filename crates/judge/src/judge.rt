// The answer to a question: its judgement, and the loads behind it where the sequences and the list could be judged by.
use crate::question::{Bad, Fault, Question};
use arrayvec::ArrayVec;
use std::io::Write;
use std::{fmt, io};
use wire::Refusal;

// It has room for a judgement and sixteen loads.
pub(crate) type Answer = ArrayVec<u8, 512>;

impl fmt::Display for Fault {
    fn fmt<W: fmt::Write>(&self, f: &mut fmt::Formatter<W>) -> fmt::Result {
        match self {
            Fault::TooLong => write!(f, "too long"),
            Fault::NotHex => write!(f, "not hexadecimal digits in pairs"),
            Fault::Refused(Refusal::Short(offset)) => {
                write!(f, "cut in the field that starts at byte {offset}")
            }
            Fault::Refused(Refusal::Encoding) => write!(f, "the encoding is not 0, 1 or 3"),
            Fault::Refused(Refusal::ChannelCount) => write!(f, "the count is not 15"),
            Fault::Refused(why) => {
                let number = why.number();
                write!(f, "refused {number}")
            }
        }
    }
}

impl fmt::Display for Bad {
    fn fmt<W: fmt::Write>(&self, f: &mut fmt::Formatter<W>) -> fmt::Result {
        match self {
            Bad::List => write!(
                f,
                "bad list: permitted channels are numbers from 0 to 255 with commas between, or - for none"
            ),
            Bad::Proposal => write!(f, "bad proposal: a number from 0 to 255, or - for none"),
            Bad::File(line, fault) => write!(f, "bad file, line {line}: {fault}"),
        }
    }
}

fn put_refused(out: &mut Answer, why: Refusal) -> io::Result<()> {
    let number = why.number();
    match why {
        Refusal::TooMany => writeln!(
            out,
            "refused {number}: more than 64 sequences or more than 16 permitted channels"
        ),
        Refusal::NonePermitted => writeln!(out, "refused {number}: no permitted channel"),
        _ => writeln!(out, "refused {number}"),
    }
}

// The loads of a question that was judged, so that the same sequences are not refused here.
fn put_loads(out: &mut Answer, question: &Question) -> io::Result<()> {
    for channel in question.permitted.as_slice() {
        if let Ok(load) = channel_judge::channel_load(question.sequences.as_slice(), *channel) {
            writeln!(out, "channel {channel} load {load}")?;
        }
    }
    Ok(())
}

// Two refusals name the proposal, and the loads are shown behind them.
fn put_judged(out: &mut Answer, question: &Question, proposal: u8) -> io::Result<()> {
    match channel_judge::judge(
        question.sequences.as_slice(),
        question.permitted.as_slice(),
        proposal,
    ) {
        Ok(()) => writeln!(out, "accepted {proposal}")?,
        Err(why @ Refusal::NotPermitted) => {
            let number = why.number();
            writeln!(out, "refused {number}: {proposal} is not permitted")?;
        }
        Err(why @ Refusal::SmallerLoad(own)) => {
            let number = why.number();
            writeln!(
                out,
                "refused {number}: {proposal} has a larger load than {own}, our own proposal"
            )?;
        }
        Err(why) => return put_refused(out, why),
    }
    put_loads(out, question)
}

fn put_own(out: &mut Answer, question: &Question) -> io::Result<()> {
    match channel_judge::own_proposal(
        question.sequences.as_slice(),
        question.permitted.as_slice(),
    ) {
        Ok(own) => writeln!(out, "proposed {own}")?,
        Err(why) => return put_refused(out, why),
    }
    put_loads(out, question)
}

pub(crate) fn put_answer(
    out: &mut Answer,
    good: Result<(), Bad>,
    question: &Question,
) -> io::Result<()> {
    match good {
        Ok(()) => match question.proposal {
            Some(proposal) => put_judged(out, question, proposal),
            None => put_own(out, question),
        },
        Err(bad) => writeln!(out, "{bad}"),
    }
}
