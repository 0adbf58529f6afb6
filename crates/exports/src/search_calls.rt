ghost use Rattle.std.specs.Prelude.{◌≡◌, ◌∷◌, []};
ghost use Rattle.data_path_state.specs.Outcomes.{zero_data_path};
ghost use Rattle.synchronization_parameters.specs.SynchronizationReader.{zero_synchronization};
ghost use Rattle.channel_sequence_tlv.specs.SequenceTLVs.{zero_channel_sequence};
ghost use Rattle.tlvs.specs.Said.{said_found};
ghost use Rattle.tlvs.specs.Search.{next_data_path, next_synchronization, next_channel_sequence};
ghost use Rattle.exports.specs.DataPaths.{data_path_numbers};
ghost use Rattle.exports.specs.Sequences.{channel_sequence_numbers};
ghost use Rattle.exports.specs.Synchronizations.{synchronization_numbers};
ghost use Rattle.exports.specs.Told.{ToldSearch};

use crate::data_path_reading::data_path_into;
use crate::lent::Lent;
use channel_sequence_tlv::ChannelSequenceTLV;
use data_path_state::DataPathStateTLV;
use synchronization_parameters::SynchronizationParametersTLV;
use tlv_items::{Item, Step, step, value};
use tlvs::{Found, Record};

fn item_numbers(item: Item, behind: usize) -> [usize; 4]
    ensures { result ≡ item.at ∷ item.tlv_type ∷ item.length ∷ behind ∷ [] }
{
    [item.at, usize::from(item.tlv_type), item.length, behind]
}

fn tell_found<R: Lent<N>, const N: usize>(
    found: Option<Found<R>>,
    item: &mut [usize; 4],
    numbers: &mut [u32; N],
) -> u32
    ensures { ToldSearch R.numbers_of R.zero (said_found found) result item.new numbers.new }
{
    match found {
        Some(f) => {
            *item = item_numbers(f.item, f.behind);
            *numbers = f.record.to_numbers();
            1
        }
        None => {
            *item = [0; 4];
            numbers.fill(0);
            0
        }
    }
}

// The search of `tlvs`, with each value read straight into the numbers (docs/SPEED.md).
#[tactic(auto, using(tlvs::proofs::Searches::turns))]
pub fn awdl_next_data_path(
    tail: &[u8],
    at: usize,
    item: &mut [usize; 4],
    numbers: &mut [u32; 44],
) -> u32
    ensures { ToldSearch data_path_numbers zero_data_path (next_data_path tail.now at) result item.new numbers.new }
{
    let mut place = at;
    while let Step::Item(it, behind) = step(tail, place) {
        place = behind;
        if it.tlv_type != DataPathStateTLV::TLV_TYPE {
            continue;
        }
        let Ok(_) = data_path_into(value(tail, it), numbers) else {
            continue;
        };
        *item = item_numbers(it, behind);
        return 1;
    }
    *item = [0; 4];
    *numbers = [0; 44];
    0
}

pub fn awdl_first_data_path(tail: &[u8], item: &mut [usize; 4], numbers: &mut [u32; 44]) -> u32
    ensures { ToldSearch data_path_numbers zero_data_path (next_data_path tail.now 0) result item.new numbers.new }
{
    awdl_next_data_path(tail, 0, item, numbers)
}

pub fn awdl_next_synchronization(
    tail: &[u8],
    at: usize,
    item: &mut [usize; 4],
    numbers: &mut [u32; 60],
) -> u32
    ensures { ToldSearch synchronization_numbers zero_synchronization (next_synchronization tail.now at) result item.new numbers.new }
{
    let found = SynchronizationParametersTLV::next(tail, at);
    tell_found(found, item, numbers)
}

pub fn awdl_first_synchronization(
    tail: &[u8],
    item: &mut [usize; 4],
    numbers: &mut [u32; 60],
) -> u32
    ensures { ToldSearch synchronization_numbers zero_synchronization (next_synchronization tail.now 0) result item.new numbers.new }
{
    awdl_next_synchronization(tail, 0, item, numbers)
}

pub fn awdl_next_channel_sequence(
    tail: &[u8],
    at: usize,
    item: &mut [usize; 4],
    numbers: &mut [u32; 36],
) -> u32
    ensures { ToldSearch channel_sequence_numbers zero_channel_sequence (next_channel_sequence tail.now at) result item.new numbers.new }
{
    let found = ChannelSequenceTLV::next(tail, at);
    tell_found(found, item, numbers)
}

pub fn awdl_first_channel_sequence(
    tail: &[u8],
    item: &mut [usize; 4],
    numbers: &mut [u32; 36],
) -> u32
    ensures { ToldSearch channel_sequence_numbers zero_channel_sequence (next_channel_sequence tail.now 0) result item.new numbers.new }
{
    awdl_next_channel_sequence(tail, 0, item, numbers)
}
