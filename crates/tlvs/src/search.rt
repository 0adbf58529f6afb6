ghost use Rattle.std.specs.Prelude.{◌≡◌, ℕ};
ghost use Rattle.wire.specs.Reading.{Reader};
ghost use Rattle.wire.specs.Said.{said};
ghost use Rattle.channel_sequence_tlv.specs.SequenceTLVReader.{channel_sequence_record};
ghost use Rattle.data_path_state.specs.DataPath.{data_path};
ghost use Rattle.synchronization_parameters.specs.SynchronizationReader.{synchronization};
ghost use Rattle.tlvs.specs.Search.{next_from};
ghost use Rattle.tlvs.specs.Said.{said_found};

use crate::read_tlvs::ReadTLVs;
use channel_sequence_tlv::ChannelSequenceTLV;
use data_path_state::DataPathStateTLV;
use synchronization_parameters::SynchronizationParametersTLV;
use tlv_items::{Item, Step, step, value};
use wire::Refusal;

// The next record of a type, its item, and the place behind that item, from which a caller goes on.
#[derive(Clone, Copy, Debug, PartialEq, Eq, Hash)]
pub struct Found<R> {
    pub record: R,
    pub item: Item,
    pub behind: usize,
}

// A record that stands in the values of one type of items, and the search for it.
pub trait Record: Copy {
    ghost TYPE_NUMBER: { ℕ };

    ghost format: { Reader Self };

    const TYPE_NUMBER: u8;

    fn read_value(value: &[u8]) -> Result<(Self, usize), Refusal>
        ensures { said result ≡ format value.now 0 };

    // Each turn looks at one item, and passes over it where it is of another type or its value is refused. The search ends where
    // the walk does, whole or cut.
    #[tactic(auto, using(crate::proofs::Searches::turns))]
    fn next(tail: &[u8], from: usize) -> Option<Found<Self>>
        ensures { said_found result ≡ next_from TYPE_NUMBER format tail.now from }
    {
        let mut at = from;
        while let Step::Item(item, behind) = step(tail, at) {
            at = behind;
            if item.tlv_type != Self::TYPE_NUMBER {
                continue;
            }
            let Ok((record, _)) = Self::read_value(value(tail, item)) else {
                continue;
            };
            return Some(Found {
                record,
                item,
                behind,
            });
        }
        None
    }

    fn first(tail: &[u8]) -> Option<Found<Self>>
        ensures { said_found result ≡ next_from TYPE_NUMBER format tail.now 0 }
    {
        Self::next(tail, 0)
    }

    // The first record from the reader's place on.
    fn first_in(reader: ReadTLVs<'_>) -> Option<Found<Self>>
        ensures { said_found result ≡ next_from TYPE_NUMBER format reader.entry.bytes.now reader.entry.at }
    {
        Self::next(reader.bytes, reader.at)
    }
}

impl Record for DataPathStateTLV {
    ghost TYPE_NUMBER = { 0x0C };

    ghost format = { data_path };

    const TYPE_NUMBER: u8 = DataPathStateTLV::TLV_TYPE;

    fn read_value(value: &[u8]) -> Result<(DataPathStateTLV, usize), Refusal> {
        DataPathStateTLV::read(value)
    }
}

impl Record for SynchronizationParametersTLV {
    ghost TYPE_NUMBER = { 0x04 };

    ghost format = { synchronization };

    const TYPE_NUMBER: u8 = SynchronizationParametersTLV::TLV_TYPE;

    fn read_value(value: &[u8]) -> Result<(SynchronizationParametersTLV, usize), Refusal> {
        SynchronizationParametersTLV::read(value)
    }
}

impl Record for ChannelSequenceTLV {
    ghost TYPE_NUMBER = { 0x12 };

    ghost format = { channel_sequence_record };

    const TYPE_NUMBER: u8 = ChannelSequenceTLV::TLV_TYPE;

    fn read_value(value: &[u8]) -> Result<(ChannelSequenceTLV, usize), Refusal> {
        ChannelSequenceTLV::read(value, 0)
    }
}
