// The calls that four kinds of records have in common: whether one is consistent, its sizes, and its writer.
use crate::buffers::Buffers;
use crate::output::{Answered, Output};
use crate::record::Record;
use crate::words::Words;
use channel_sequence::ChannelSequence;
use channel_sequence_tlv::ChannelSequenceTLV;
use data_path_state::DataPathStateTLV;
use synchronization_parameters::SynchronizationParametersTLV;
use wire::Refusal;

#[derive(Clone, Copy, Debug, PartialEq, Eq, Hash)]
pub(crate) enum RecordCall {
    Consistent,
    Size,
    WrittenSize,
    Write,
}

#[derive(Clone, Copy, Debug, PartialEq, Eq, Hash)]
pub(crate) enum Format {
    DataPath,
    Synchronization,
    ChannelSequence,
    Sequence,
}

use Format::{ChannelSequence as OfRecord, DataPath, Sequence, Synchronization};
use RecordCall::{Consistent, Size, Write, WrittenSize};

pub(crate) const CALLS: [(&str, (Format, RecordCall)); 15] = [
    ("data_path_consistent", (DataPath, Consistent)),
    ("data_path_size", (DataPath, Size)),
    ("data_path_write", (DataPath, Write)),
    ("synchronization_consistent", (Synchronization, Consistent)),
    ("synchronization_size", (Synchronization, Size)),
    (
        "synchronization_written_size",
        (Synchronization, WrittenSize),
    ),
    ("synchronization_write", (Synchronization, Write)),
    ("channel_sequence_consistent", (OfRecord, Consistent)),
    ("channel_sequence_size", (OfRecord, Size)),
    ("channel_sequence_written_size", (OfRecord, WrittenSize)),
    ("channel_sequence_write", (OfRecord, Write)),
    ("sequence_consistent", (Sequence, Consistent)),
    ("sequence_size", (Sequence, Size)),
    ("sequence_written_size", (Sequence, WrittenSize)),
    ("sequence_write", (Sequence, Write)),
];

// A record that can be measured and written. The records' own functions are no trait's, so that each of these hands on to one.
trait Measured: Record {
    fn consistency(self) -> Result<bool, Refusal>;

    fn own_size(self) -> Result<usize, Refusal>;

    fn size_written(self) -> Result<usize, Refusal>;

    fn write_into(self, buf: &mut [u8]) -> Result<usize, Refusal>;
}

impl Measured for DataPathStateTLV {
    fn consistency(self) -> Result<bool, Refusal> {
        Ok(self.consistent())
    }

    fn own_size(self) -> Result<usize, Refusal> {
        self.size()
    }

    // It has no written size beside its size, and no call asks for one.
    fn size_written(self) -> Result<usize, Refusal> {
        self.size()
    }

    fn write_into(self, buf: &mut [u8]) -> Result<usize, Refusal> {
        self.write(buf)
    }
}

impl Measured for SynchronizationParametersTLV {
    fn consistency(self) -> Result<bool, Refusal> {
        self.consistent()
    }

    fn own_size(self) -> Result<usize, Refusal> {
        self.size()
    }

    fn size_written(self) -> Result<usize, Refusal> {
        self.written_size()
    }

    fn write_into(self, buf: &mut [u8]) -> Result<usize, Refusal> {
        self.write(buf)
    }
}

impl Measured for ChannelSequenceTLV {
    fn consistency(self) -> Result<bool, Refusal> {
        self.consistent()
    }

    fn own_size(self) -> Result<usize, Refusal> {
        self.size()
    }

    fn size_written(self) -> Result<usize, Refusal> {
        self.written_size()
    }

    fn write_into(self, buf: &mut [u8]) -> Result<usize, Refusal> {
        self.write(buf)
    }
}

impl Measured for ChannelSequence {
    fn consistency(self) -> Result<bool, Refusal> {
        self.consistent()
    }

    fn own_size(self) -> Result<usize, Refusal> {
        self.size()
    }

    fn size_written(self) -> Result<usize, Refusal> {
        self.written_size()
    }

    fn write_into(self, buf: &mut [u8]) -> Result<usize, Refusal> {
        self.write(buf)
    }
}

fn write<R: Measured>(mut words: Words<'_>, buffers: &mut Buffers, out: &mut Output) -> Answered {
    let record: R = words.record()?;
    let lent = words.only_bytes(&mut buffers.lent)?;
    let size = record.write_into(lent);
    out.wrote(size, lent)
}

fn answer_of<R: Measured>(
    call: RecordCall,
    words: Words<'_>,
    buffers: &mut Buffers,
    out: &mut Output,
) -> Answered {
    match call {
        Consistent => out.number(b"consistent=", words.only_record::<R>()?.consistency()),
        Size => out.number(b"size=", words.only_record::<R>()?.own_size()),
        WrittenSize => out.number(b"size=", words.only_record::<R>()?.size_written()),
        Write => write::<R>(words, buffers, out),
    }
}

pub(crate) fn answer(
    (format, call): (Format, RecordCall),
    words: Words<'_>,
    buffers: &mut Buffers,
    out: &mut Output,
) -> Answered {
    match format {
        DataPath => answer_of::<DataPathStateTLV>(call, words, buffers, out),
        Synchronization => answer_of::<SynchronizationParametersTLV>(call, words, buffers, out),
        OfRecord => answer_of::<ChannelSequenceTLV>(call, words, buffers, out),
        Sequence => answer_of::<ChannelSequence>(call, words, buffers, out),
    }
}
