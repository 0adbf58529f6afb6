ghost use Rattle.std.specs.Prelude.{◌≡◌};
ghost use Rattle.wire.specs.Refusals.{number_of, offset_of, carried_channel};

// Why a call refuses. Every crate answers with one of these.
#[derive(Clone, Copy, Debug, PartialEq, Eq, Hash)]
pub enum Refusal {
    // The input ends before a byte that is needed. The offset is that of the first byte of the field that does not fit, counted
    // from the start of what the reader was given.
    Short(usize),
    // The frame's first byte is there and is not 0x08.
    NotAction,
    // The frame's second byte is there and is not 0x10.
    NotVersion,
    // A unicast length is neither 4 nor 8.
    UnicastLength,
    // A channel encoding is none of the three or, where a sequence is to be converted, not the legacy one.
    Encoding,
    // The lent buffer is shorter than what is to be written.
    NoRoom,
    // The record is not consistent.
    Inconsistent,
    // An item's value is longer than its length field can say.
    TooLong,
    // The count in front of a channel sequence is not that of sixteen entries.
    ChannelCount,
    // A legacy sequence was to be written.
    LegacySequence,
    // The correction of a legacy channel passes below 0 or above 255.
    CorrectedChannel,
    // There are more than 64 sequences, or more than 16 permitted channels, to judge by.
    TooMany,
    // No channel is permitted.
    NonePermitted,
    // The proposed channel is not a permitted one.
    NotPermitted,
    // A permitted channel has a smaller load than the proposed one. The channel is our own proposal.
    SmallerLoad(u8),
}

impl Refusal {
    // The number that the report shows. 9 told of a sending stamp below the hand-over stamp, and is not given to anything else.
    pub fn number(self) -> u8
        ensures { result ≡ number_of self }
    {
        match self {
            Refusal::Short(_) => 1,
            Refusal::NotAction => 2,
            Refusal::NotVersion => 3,
            Refusal::UnicastLength => 4,
            Refusal::Encoding => 5,
            Refusal::NoRoom => 6,
            Refusal::Inconsistent => 7,
            Refusal::TooLong => 8,
            Refusal::ChannelCount => 10,
            Refusal::LegacySequence => 18,
            Refusal::CorrectedChannel => 19,
            Refusal::TooMany => 27,
            Refusal::NonePermitted => 28,
            Refusal::NotPermitted => 29,
            Refusal::SmallerLoad(_) => 30,
        }
    }

    // Only a reader that is short has one, and all others have 0. Of a header it is an offset of the frame; of an item's value
    // `AWDLActionFrame::offset_in_frame` makes one. It is 0 and no `Option`: `outcome` and `reply` promise the offset 0 behind
    // every other refusal, and callers in C are told it.
    pub fn offset(self) -> usize
        ensures { result ≡ offset_of self }
    {
        match self {
            Refusal::Short(at) => at,
            _ => 0,
        }
    }

    // Our own proposal beside the refusal of another. Nothing else that is refused has a channel, and all others have 0, and no
    // `None`, for the same reason (`carried_channel`).
    pub fn channel(self) -> u8
        ensures { result ≡ carried_channel self }
    {
        match self {
            Refusal::SmallerLoad(own) => own,
            _ => 0,
        }
    }
}
