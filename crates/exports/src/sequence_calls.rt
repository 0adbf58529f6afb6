// The calls of a sequence and of a channel. Numbers that fit are narrowed by `as` (`fit`).
ghost use Rattle.std.specs.Prelude.{◌≡◌, refl, true, ◌*◌, length};
ghost use Rattle.wire.specs.Said.{told};
ghost use Rattle.wire.specs.Outcomes.{outcome, reply};
ghost use Rattle.wire.specs.Writing.{length_of, Wrote};
ghost use Rattle.channel.specs.Channels.{entry_size};
ghost use Rattle.channel_sequence.specs.Sequences.{zero_sequence, all_zero, padded, bytes_of};
ghost use Rattle.channel_sequence.specs.SequenceReader.{kept_entries, kept_bytes, sequence};
ghost use Rattle.channel_sequence.specs.Hops.{nothing, zero_channel, said_entry};
ghost use Rattle.exports.specs.Held.{fits, octets, flagged};
ghost use Rattle.exports.specs.Laid.{beside, numbered};
ghost use Rattle.exports.specs.Sequences.{channel_numbers, channel_in, corrected_of, sequence_numbers, sequence_of, sequence_in};
ghost use Rattle.exports.specs.Sequences.{sequence_consistent, sequence_size, sequence_bytes, sequence_entry, sequence_simple, sequence_read_in};
ghost use Rattle.exports.specs.Told.{ToldReading, ToldNumber, ToldRecord, ToldWriting, ToldHop};

use crate::lent::{Lent, fit, held_byte};
use crate::numbers::{bytes_of, put_bytes, put_part};
use crate::told::{number_of, tell, tell_flag, tell_read, tell_record};
use channel::{Channel, ChannelEncoding, LegacyFlags};
use channel_sequence::ChannelSequence;
use wire::Refusal;

impl Lent<3> for Channel {
    ghost numbers_of = { channel_numbers };

    ghost held_in = { channel_in };

    ghost zero = { zero_channel };

    fn to_numbers(self) -> [u32; 3] {
        [
            u32::from(self.encoding),
            u32::from(self.first),
            u32::from(self.second),
        ]
    }

    fn held(numbers: &[u32; 3]) -> Result<Channel, Refusal> {
        fit(numbers, &[255; 3])?;
        Ok(Channel {
            encoding: numbers[0] as u8,
            first: numbers[1] as u8,
            second: numbers[2] as u8,
        })
    }

    ghost zeros = { refl };
}

impl Lent<33> for ChannelSequence {
    ghost numbers_of = { sequence_numbers };

    ghost held_in = { sequence_in };

    ghost zero = { zero_sequence };

    fn to_numbers(self) -> [u32; 33] {
        let bytes = self.bytes;
        let mut numbers = [0; 33];
        numbers[0] = u32::from(self.encoding);
        put_bytes(&mut numbers[1..33], &bytes);
        numbers
    }

    fn held(numbers: &[u32; 33]) -> Result<ChannelSequence, Refusal> {
        fit(numbers, &[255; 33])?;
        Ok(sequence_of(numbers))
    }

    ghost zeros = { refl };
}

pub(crate) fn sequence_of(numbers: &[u32]) -> ChannelSequence
    requires many { length numbers.now ≡ 33 }
    requires octets_value { fits numbers.now (octets 33) ≡ true }
    ensures { result ≡ sequence_of numbers.now }
{
    ChannelSequence {
        encoding: numbers[0] as u8,
        bytes: bytes_of(&numbers[1..33]),
    }
}

// Sixteen bytes as numbers, and sixteen zeros behind them.
fn put_half(numbers: &mut [u32], part: &[u8])
    requires part_len { length part.now ≡ 16 }
    requires many { length numbers.old ≡ 32 }
    ensures { numbers.new ≡ padded part.now }
{
    put_bytes(&mut numbers[..16], part);
    put_bytes(&mut numbers[16..32], &[0; 16]);
}

// Flags and channel, entry by entry: the flags lose the bits without a name.
fn put_kept(numbers: &mut [u32], part: &[u8])
    requires part_len { length part.now ≡ 32 }
    requires many { length numbers.old ≡ 32 }
    ensures { numbers.new ≡ kept_entries part.now }
{
    // By index, as `put_bytes`.
    for i in 0..16 {
        numbers[2 * i] = u32::from(LegacyFlags::from_bits(part[2 * i]).0);
        numbers[2 * i + 1] = u32::from(part[2 * i + 1]);
    }
}

// The bytes of a sequence as numbers, straight from those on the wire: a record between them would go through memory (docs/SPEED.md), and so
// it is with the writers below.
fn put_entries(known: ChannelEncoding, numbers: &mut [u32], part: &[u8])
    requires part_len { length part.now ≡ 16 * entry_size known }
    requires many { length numbers.old ≡ 32 }
    ensures { numbers.new ≡ padded (kept_bytes known part.now) }
{
    match known {
        ChannelEncoding::Simple => put_half(numbers, part),
        ChannelEncoding::Legacy => put_kept(numbers, part),
        ChannelEncoding::OpClass => put_bytes(numbers, part),
    }
}

// Reads a sequence into its numbers. Where it is refused, what stands in these is not said.
pub(crate) fn sequence_into(
    s: &[u8],
    at: usize,
    encoding: u8,
    numbers: &mut [u32],
) -> Result<usize, Refusal>
    requires { length numbers.old ≡ 33 }
    ensures { beside result numbers.new ≡ numbered sequence_numbers (sequence encoding) s.now at }
{
    let known = ChannelEncoding::try_from(encoding)?;
    let next = wire::field_at(s, at, 16 * known.entry_size())?;
    numbers[0] = u32::from(encoding);
    put_entries(known, &mut numbers[1..33], &s[at..next]);
    Ok(next)
}

fn sequence_read_in(
    s: &[u8],
    at: usize,
    encoding: u32,
    numbers: &mut [u32; 33],
) -> Result<usize, Refusal>
    ensures { beside result numbers.new ≡ numbered sequence_numbers (sequence_read_in encoding) s.now at }
{
    let encoding = held_byte(encoding)?;
    sequence_into(s, at, encoding, numbers)
}

// Whether a simple sequence leaves its last sixteen bytes 0. Every number is looked at, as in `fit`.
fn no_more(numbers: &[u32]) -> bool
    ensures { result ≡ all_zero numbers.now }
{
    numbers
        .iter()
        .fold(true, |none, number| none & (*number == 0))
}

// How many bytes are written of a sequence. The number is matched as it was lent, since no `TryFrom` of an encoding takes one of
// 32 bits; it is the second place that tells the encodings (docs/SPEED.md).
pub(crate) fn written_size(numbers: &[u32]) -> Result<usize, Refusal>
    requires { length numbers.now ≡ 33 }
    ensures { told result ≡ length_of (bytes_of (sequence_of numbers.now)) }
{
    match numbers[0] {
        0 if no_more(&numbers[17..33]) => Ok(16),
        0 => Err(Refusal::Inconsistent),
        1 => Err(Refusal::LegacySequence),
        3 => Ok(32),
        _ => Err(Refusal::Encoding),
    }
}

fn sequence_told(numbers: &[u32; 33]) -> Result<usize, Refusal>
    ensures { told result ≡ length_of (sequence_bytes numbers.now) }
{
    fit(numbers, &[255; 33])?;
    written_size(numbers)
}

fn write_sequence(numbers: &[u32; 33], buffer: &mut [u8]) -> Result<usize, Refusal>
    ensures { Wrote buffer.old (sequence_bytes numbers.now) (told result) buffer.new }
{
    let size = wire::within(buffer.len(), sequence_told(numbers))?;
    put_part(buffer, 0, &numbers[1..1 + size]);
    Ok(size)
}

// Each asks the record where it is made. Through `held`, which hands it on in a `Result`, they took half as long again and more (docs/LOOK-BACK.md).
fn sequence_consistent(numbers: &[u32; 33]) -> Result<bool, Refusal>
    ensures { flagged (told result) ≡ sequence_consistent numbers.now }
{
    fit(numbers, &[255; 33])?;
    sequence_of(numbers).consistent()
}

fn sequence_size(numbers: &[u32; 33]) -> Result<usize, Refusal>
    ensures { told result ≡ sequence_size numbers.now }
{
    fit(numbers, &[255; 33])?;
    sequence_of(numbers).size()
}

fn sequence_entry(numbers: &[u32; 33], entry: usize) -> Result<Option<Channel>, Refusal>
    ensures { said_entry result ≡ sequence_entry numbers.now entry }
{
    fit(numbers, &[255; 33])?;
    sequence_of(numbers).entry(entry)
}

fn sequence_to_simple(numbers: &[u32; 33]) -> Result<ChannelSequence, Refusal>
    ensures { told result ≡ sequence_simple numbers.now }
{
    fit(numbers, &[255; 33])?;
    sequence_of(numbers).to_simple()
}

pub fn awdl_sequence_read(
    bytes: &[u8],
    at: usize,
    encoding: u32,
    offset: &mut usize,
    size: &mut usize,
    sequence: &mut [u32; 33],
) -> u32
    ensures { ToldReading sequence_numbers (outcome zero_sequence at (sequence_read_in encoding bytes.now at)) result offset.new size.new sequence.new }
{
    let behind = sequence_read_in(bytes, at, encoding, sequence);
    tell_read(behind, at, offset, size, sequence)
}

pub fn awdl_sequence_consistent(sequence: &[u32; 33], consistent: &mut u32) -> u32
    ensures { ToldNumber (reply 0 (sequence_consistent sequence.now)) result consistent.new }
{
    let answer = sequence_consistent(sequence);
    tell_flag(answer, consistent)
}

pub fn awdl_sequence_size(sequence: &[u32; 33], size: &mut usize) -> u32
    ensures { ToldNumber (reply 0 (sequence_size sequence.now)) result size.new }
{
    let answer = sequence_size(sequence);
    tell(answer, 0, size)
}

pub fn awdl_sequence_write(sequence: &[u32; 33], buffer: &mut [u8], size: &mut usize) -> u32
    ensures { ToldWriting buffer.old (sequence_bytes sequence.now) result size.new buffer.new }
{
    let wrote = write_sequence(sequence, buffer);
    tell(wrote, 0, size)
}

pub fn awdl_sequence_entry(
    sequence: &[u32; 33],
    entry: usize,
    found: &mut u32,
    channel: &mut [u32; 3],
) -> u32
    ensures { ToldHop (reply nothing (sequence_entry sequence.now entry)) result found.new channel.new }
{
    *found = 0;
    *channel = [0; 3];
    match sequence_entry(sequence, entry) {
        Ok(Some(hop)) => {
            *found = 1;
            *channel = hop.to_numbers();
            0
        }
        Ok(None) => 0,
        Err(why) => number_of(why),
    }
}

pub fn awdl_sequence_to_simple(sequence: &[u32; 33], simple: &mut [u32; 33]) -> u32
    ensures { ToldRecord sequence_numbers (reply zero_sequence (sequence_simple sequence.now)) result simple.new }
{
    let made = sequence_to_simple(sequence);
    tell_record(made, simple)
}

pub fn awdl_channel(channel: &[u32; 3], answer: &mut u32) -> u32
    ensures { ToldNumber (reply 0 (corrected_of channel.now)) result answer.new }
{
    let corrected = Channel::held(channel).and_then(|c| c.channel());
    tell(corrected.map(u32::from), 0, answer)
}
