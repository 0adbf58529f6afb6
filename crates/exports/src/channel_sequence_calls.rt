// The calls of the channel sequence record. Numbers that fit are narrowed by `as` (`fit`).
ghost use Rattle.std.specs.Prelude.{◌≡◌, refl, true, ◌+◌, ◌≤◌, length, get_or};
ghost use Rattle.wire.specs.Said.{told};
ghost use Rattle.wire.specs.Outcomes.{outcome, reply};
ghost use Rattle.wire.specs.Writing.{length_of, Put, Wrote};
ghost use Rattle.channel_sequence_tlv.specs.SequenceTLVs.{zero_channel_sequence, head_bytes};
ghost use Rattle.channel_sequence_tlv.specs.SequenceTLVReader.{channel_sequence_record};
ghost use Rattle.exports.specs.Held.{fits, flagged};
ghost use Rattle.exports.specs.Laid.{beside, numbered};
ghost use Rattle.exports.specs.Sequences.{channel_sequence_numbers, channel_sequence_largest, channel_sequence_of, channel_sequence_in};
ghost use Rattle.exports.specs.Sequences.{channel_sequence_consistent, channel_sequence_size, channel_sequence_bytes};
ghost use Rattle.exports.specs.Told.{ToldReading, ToldNumber, ToldWriting};

use crate::lent::{Lent, fit};
use crate::numbers::put_part;
use crate::sequence_calls::{sequence_into, sequence_of, written_size};
use crate::told::{tell, tell_flag, tell_read};
use channel_sequence_tlv::ChannelSequenceTLV;
use wire::Refusal;

// The largest number of each field, at its place among the numbers that C lends.
const LARGEST: [u32; 36] = [
    255, 255, 65535, 255, 255, 255, 255, 255, 255, 255, 255, 255, 255, 255, 255, 255, 255, 255,
    255, 255, 255, 255, 255, 255, 255, 255, 255, 255, 255, 255, 255, 255, 255, 255, 255, 255,
];

impl Lent<36> for ChannelSequenceTLV {
    ghost numbers_of = { channel_sequence_numbers };

    ghost held_in = { channel_sequence_in };

    ghost zero = { zero_channel_sequence };

    fn to_numbers(self) -> [u32; 36] {
        let sequence = self.channel_sequence.to_numbers();
        let mut numbers = [0; 36];
        numbers[0] = u32::from(self.duplicate_count);
        numbers[1] = u32::from(self.step_count);
        numbers[2] = u32::from(self.fill_channel);
        numbers[3..36].copy_from_slice(&sequence);
        numbers
    }

    fn held(numbers: &[u32; 36]) -> Result<ChannelSequenceTLV, Refusal> {
        let largest = LARGEST;
        fit(numbers, &largest)?;
        Ok(channel_sequence_of(numbers))
    }

    ghost zeros = { refl };
}

pub(crate) fn channel_sequence_of(numbers: &[u32]) -> ChannelSequenceTLV
    requires many { length numbers.now ≡ 36 }
    requires largest_value { fits numbers.now channel_sequence_largest ≡ true }
    ensures { result ≡ channel_sequence_of numbers.now }
{
    ChannelSequenceTLV {
        duplicate_count: numbers[0] as u8,
        step_count: numbers[1] as u8,
        fill_channel: numbers[2] as u16,
        channel_sequence: sequence_of(&numbers[3..36]),
    }
}

// The entries, where the six bytes in front of them are there and the count is right.
fn entries_into(s: &[u8], at: usize, numbers: &mut [u32]) -> Result<usize, Refusal>
    requires many { length numbers.old ≡ 36 }
    requires at_in_bounds { at + 6 ≤ length s.now }
    requires at_value { get_or s.now at 0 ≡ 15 }
    ensures { beside result numbers.new ≡ numbered channel_sequence_numbers channel_sequence_record s.now at }
{
    numbers[0] = u32::from(s[at + 2]);
    numbers[1] = u32::from(s[at + 3]);
    numbers[2] = u32::from(u16::from_le_bytes([s[at + 4], s[at + 5]]));
    sequence_into(s, at + 6, s[at + 1], &mut numbers[3..36])
}

// Reads a record straight into its numbers (docs/SPEED.md). Where it is refused, what stands in these is not said.
pub(crate) fn channel_sequence_into(
    s: &[u8],
    at: usize,
    numbers: &mut [u32],
) -> Result<usize, Refusal>
    requires { length numbers.old ≡ 36 }
    ensures { beside result numbers.new ≡ numbered channel_sequence_numbers channel_sequence_record s.now at }
{
    match wire::field_at(s, at, 6) {
        Ok(_) if s[at] == 15 => entries_into(s, at, numbers),
        Ok(_) => Err(Refusal::ChannelCount),
        // Only where the six bytes are not all there, the field that is short is looked for.
        Err(_) => {
            let short = wire::first_short(s, at, &[1, 1, 1, 1, 2]);
            Err(Refusal::Short(short))
        }
    }
}

// As the other two `*_told`: each record has its own table, its own place of the sequence and its own count of bytes in front of
// the entries, and as one function these would be parameters.
fn channel_sequence_told(numbers: &[u32; 36]) -> Result<usize, Refusal>
    ensures { told result ≡ length_of (channel_sequence_bytes numbers.now) }
{
    let largest = LARGEST;
    fit(numbers, &largest)?;
    Ok(6 + written_size(&numbers[3..36])?)
}

// Puts the bytes in front of the entries. The room was asked once, and a step of the record's own writer would ask again (docs/SPEED.md).
pub(crate) fn put_head(numbers: &[u32], buffer: &mut [u8], at: usize)
    requires many { length numbers.now ≡ 36 }
    requires largest_value { fits numbers.now channel_sequence_largest ≡ true }
    requires at_in_bounds { at + 6 ≤ length buffer.old }
    ensures { Put buffer.old at (head_bytes (channel_sequence_of numbers.now)) (at + 6) buffer.new }
{
    let [low, high] = (numbers[2] as u16).to_le_bytes();
    buffer[at] = 15;
    buffer[at + 1] = numbers[3] as u8;
    buffer[at + 2] = numbers[0] as u8;
    buffer[at + 3] = numbers[1] as u8;
    buffer[at + 4] = low;
    buffer[at + 5] = high;
}

fn write_channel_sequence(numbers: &[u32; 36], buffer: &mut [u8]) -> Result<usize, Refusal>
    ensures { Wrote buffer.old (channel_sequence_bytes numbers.now) (told result) buffer.new }
{
    let size = wire::within(buffer.len(), channel_sequence_told(numbers))?;
    put_head(numbers, buffer, 0);
    put_part(buffer, 6, &numbers[4..size - 2]);
    Ok(size)
}

// As those of a sequence (`sequence_consistent`).
fn channel_sequence_consistent(numbers: &[u32; 36]) -> Result<bool, Refusal>
    ensures { flagged (told result) ≡ channel_sequence_consistent numbers.now }
{
    let largest = LARGEST;
    fit(numbers, &largest)?;
    channel_sequence_of(numbers).consistent()
}

fn channel_sequence_size(numbers: &[u32; 36]) -> Result<usize, Refusal>
    ensures { told result ≡ channel_sequence_size numbers.now }
{
    let largest = LARGEST;
    fit(numbers, &largest)?;
    channel_sequence_of(numbers).size()
}

pub fn awdl_channel_sequence_read(
    bytes: &[u8],
    at: usize,
    offset: &mut usize,
    size: &mut usize,
    numbers: &mut [u32; 36],
) -> u32
    ensures { ToldReading channel_sequence_numbers (outcome zero_channel_sequence at (channel_sequence_record bytes.now at)) result offset.new size.new numbers.new }
{
    let behind = channel_sequence_into(bytes, at, numbers);
    tell_read(behind, at, offset, size, numbers)
}

pub fn awdl_channel_sequence_consistent(numbers: &[u32; 36], consistent: &mut u32) -> u32
    ensures { ToldNumber (reply 0 (channel_sequence_consistent numbers.now)) result consistent.new }
{
    let answer = channel_sequence_consistent(numbers);
    tell_flag(answer, consistent)
}

pub fn awdl_channel_sequence_size(numbers: &[u32; 36], size: &mut usize) -> u32
    ensures { ToldNumber (reply 0 (channel_sequence_size numbers.now)) result size.new }
{
    let answer = channel_sequence_size(numbers);
    tell(answer, 0, size)
}

pub fn awdl_channel_sequence_write(numbers: &[u32; 36], buffer: &mut [u8], size: &mut usize) -> u32
    ensures { ToldWriting buffer.old (channel_sequence_bytes numbers.now) result size.new buffer.new }
{
    let wrote = write_channel_sequence(numbers, buffer);
    tell(wrote, 0, size)
}
