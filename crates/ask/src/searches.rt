// The searches for records of a kind: the first, the next from a place on, the first in a reader that is set to a place, and all.
use crate::buffers::Buffers;
use crate::output::{Answered, Output};
use crate::record::Record;
use crate::words::Words;
use channel_sequence_tlv::ChannelSequenceTLV;
use data_path_state::DataPathStateTLV;
use synchronization_parameters::SynchronizationParametersTLV;
use tlvs::{Found, ReadTLVs};

#[derive(Clone, Copy, Debug, PartialEq, Eq, Hash)]
pub(crate) enum Search {
    First,
    Next,
    FirstInReader,
    All,
}

#[derive(Clone, Copy, Debug, PartialEq, Eq, Hash)]
pub(crate) enum Sought {
    DataPath,
    Synchronization,
    ChannelSequence,
}

use Search::{All, First, FirstInReader, Next};
use Sought::{ChannelSequence, DataPath, Synchronization};

pub(crate) const CALLS: [(&str, (Search, Sought)); 12] = [
    ("first_data_path", (First, DataPath)),
    ("next_data_path", (Next, DataPath)),
    ("reader_first_data_path", (FirstInReader, DataPath)),
    ("all_data_paths", (All, DataPath)),
    ("first_synchronization", (First, Synchronization)),
    ("next_synchronization", (Next, Synchronization)),
    (
        "reader_first_synchronization",
        (FirstInReader, Synchronization),
    ),
    ("all_synchronizations", (All, Synchronization)),
    ("first_channel_sequence", (First, ChannelSequence)),
    ("next_channel_sequence", (Next, ChannelSequence)),
    (
        "reader_first_channel_sequence",
        (FirstInReader, ChannelSequence),
    ),
    ("all_channel_sequences", (All, ChannelSequence)),
];

fn show_found<R: Record>(found: Found<R>, out: &mut Output) -> Answered {
    let behind = found.behind;
    out.text(b" found")?;
    found.item.through(out)?;
    out.named(b" next=", behind)?;
    found.record.through(out)?;
    Ok(())
}

// Where nothing is found, what stands for it is shown.
fn show_one<R: Record>(found: Option<Found<R>>, nothing: Option<R>, out: &mut Output) -> Answered {
    out.accepted()?;
    if let Some(found) = found {
        return show_found(found, out);
    }
    out.text(b" nothing")?;
    if let Some(record) = nothing {
        record.through(out)?;
    }
    Ok(())
}

// Each turn goes on at the place that the last answer gave, behind its record.
fn show_all<R: Record + tlvs::Record>(tail: &[u8], out: &mut Output) -> Answered {
    let mut place = 0;
    let mut records = 0usize;
    out.accepted()?;
    while let Some(found) = R::next(tail, place) {
        show_found(found, out)?;
        place = found.behind;
        records = records.wrapping_add(1);
    }
    out.named(b" records=", records)?;
    Ok(())
}

fn look<R: Record + tlvs::Record>(
    search: Search,
    mut words: Words<'_>,
    buffers: &mut Buffers,
    nothing: Option<R>,
    out: &mut Output,
) -> Answered {
    let tail = words.bytes(&mut buffers.given)?;
    match search {
        First => {
            words.end()?;
            show_one(R::first(tail), nothing, out)
        }
        Next => {
            let place: usize = words.only_value()?;
            show_one(R::next(tail, place), nothing, out)
        }
        FirstInReader => {
            let place: usize = words.only_value()?;
            let reader = ReadTLVs::new(tail).go_on(place);
            show_one(R::first_in(reader), nothing, out)
        }
        All => {
            words.end()?;
            show_all::<R>(tail, out)
        }
    }
}

// Where nothing is found, a data path search answers no record and the others the zero one.
pub(crate) fn answer(
    (search, sought): (Search, Sought),
    words: Words<'_>,
    buffers: &mut Buffers,
    out: &mut Output,
) -> Answered {
    match sought {
        DataPath => look::<DataPathStateTLV>(search, words, buffers, None, out),
        Synchronization => {
            let zero = SynchronizationParametersTLV::default();
            look(search, words, buffers, Some(zero), out)
        }
        ChannelSequence => {
            let zero = ChannelSequenceTLV::default();
            look(search, words, buffers, Some(zero), out)
        }
    }
}
