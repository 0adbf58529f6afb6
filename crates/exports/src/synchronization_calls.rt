// The calls of the synchronization record. Numbers that fit are narrowed by `as` (`fit`).
ghost use Rattle.std.specs.Prelude.{◌≡◌, refl, true, ℕ, ◌+◌, ◌*◌, ◌≤◌, length, get_or, take, drop};
ghost use Rattle.wire.specs.Reading.{read};
ghost use Rattle.wire.specs.Said.{told};
ghost use Rattle.wire.specs.Outcomes.{outcome, reply};
ghost use Rattle.wire.specs.Writing.{length_of, Put, Wrote};
ghost use Rattle.synchronization_parameters.specs.declared.synchronization_parameters_tlv.SynchronizationParametersTLV as Parameters;
ghost use Rattle.synchronization_parameters.specs.SynchronizationReader.{synchronization, zero_synchronization};
ghost use Rattle.synchronization_parameters.specs.SynchronizationBytes.{fixed_bytes};
ghost use Rattle.exports.specs.Held.{fits, flagged};
ghost use Rattle.exports.specs.Laid.{beside, numbered};
ghost use Rattle.exports.specs.Synchronizations.{synchronization_numbers, synchronization_largest, synchronization_of, synchronization_in};
ghost use Rattle.exports.specs.Synchronizations.{synchronization_consistent, synchronization_size, synchronization_bytes};
ghost use Rattle.exports.specs.Told.{ToldReading, ToldNumber, ToldWriting};

use crate::channel_sequence_calls::{channel_sequence_into, channel_sequence_of, put_head};
use crate::lent::{Lent, fit};
use crate::numbers::{address_from, put_part};
use crate::sequence_calls::written_size;
use crate::told::{tell, tell_flag, tell_read};
use synchronization_parameters::SynchronizationParametersTLV;
use wire::{MACAddress, Refusal};

// The largest number of each field, at its place among the numbers that C lends.
const LARGEST: [u32; 60] = [
    255, 65535, 255, 255, 65535, 65535, 65535, 65535, 65535, 65535, 255, 255, 255, 255, 255, 255,
    255, 255, 255, 255, 255, 255, 65535, 65535, 255, 255, 65535, 255, 255, 255, 255, 255, 255, 255,
    255, 255, 255, 255, 255, 255, 255, 255, 255, 255, 255, 255, 255, 255, 255, 255, 255, 255, 255,
    255, 255, 255, 255, 255, 255, 255,
];

impl Lent<60> for SynchronizationParametersTLV {
    ghost numbers_of = { synchronization_numbers };

    ghost held_in = { synchronization_in };

    ghost zero = { zero_synchronization };

    fn to_numbers(self) -> [u32; 60] {
        let fixed = fixed_numbers(self);
        let channels = self.channel_sequence.to_numbers();
        let mut numbers = [0; 60];
        numbers[..24].copy_from_slice(&fixed);
        numbers[24..60].copy_from_slice(&channels);
        numbers
    }

    fn held(numbers: &[u32; 60]) -> Result<SynchronizationParametersTLV, Refusal> {
        let largest = LARGEST;
        fit(numbers, &largest)?;
        Ok(synchronization_of(numbers))
    }

    ghost zeros = { refl };
}

fn fixed_numbers(p: SynchronizationParametersTLV) -> [u32; 24]
    ensures { result ≡ take 24 (synchronization_numbers p) }
{
    let MACAddress(a, b, c, d, e, f) = p.master_address;
    [
        u32::from(p.next_channel),
        u32::from(p.tx_counter),
        u32::from(p.master_channel),
        u32::from(p.guard_time),
        u32::from(p.aw_period),
        u32::from(p.af_period),
        u32::from(p.awdl_flags),
        u32::from(p.aw_ext_length),
        u32::from(p.aw_common_length),
        u32::from(p.remaining_aw_length),
        u32::from(p.min_ext_count),
        u32::from(p.max_multicast_ext_count),
        u32::from(p.max_unicast_ext_count),
        u32::from(p.max_af_ext_count),
        u32::from(a),
        u32::from(b),
        u32::from(c),
        u32::from(d),
        u32::from(e),
        u32::from(f),
        u32::from(p.presence_mode),
        u32::from(p.reserved),
        u32::from(p.aw_seq_number),
        u32::from(p.ap_beacon_alignment_delta),
    ]
}

#[tactic(auto, using(crate::proofs::Synchronizations::small_synchronization))]
fn synchronization_of(numbers: &[u32; 60]) -> SynchronizationParametersTLV
    requires { fits numbers.now synchronization_largest ≡ true }
    ensures { result ≡ synchronization_of numbers.now }
{
    SynchronizationParametersTLV {
        next_channel: numbers[0] as u8,
        tx_counter: numbers[1] as u16,
        master_channel: numbers[2] as u8,
        guard_time: numbers[3] as u8,
        aw_period: numbers[4] as u16,
        af_period: numbers[5] as u16,
        awdl_flags: numbers[6] as u16,
        aw_ext_length: numbers[7] as u16,
        aw_common_length: numbers[8] as u16,
        remaining_aw_length: numbers[9] as u16,
        min_ext_count: numbers[10] as u8,
        max_multicast_ext_count: numbers[11] as u8,
        max_unicast_ext_count: numbers[12] as u8,
        max_af_ext_count: numbers[13] as u8,
        master_address: address_from(numbers, 14),
        presence_mode: numbers[20] as u8,
        reserved: numbers[21] as u8,
        aw_seq_number: numbers[22] as u16,
        ap_beacon_alignment_delta: numbers[23] as u16,
        channel_sequence: channel_sequence_of(&numbers[24..60]),
    }
}

// The number at a place of a value that has its two bytes. It is as `word` of the record's own reader, which is private to it.
fn word_at(s: &[u8], at: usize) -> u32
    requires { at + 2 ≤ length s.now }
    ensures { result ≡ get_or s.now at 0 + 256 * get_or s.now (at + 1) 0 }
{
    u32::from(u16::from_le_bytes([s[at], s[at + 1]]))
}

// The numbers in front of the sequence, of a value that has its fixed part, straight from the bytes (docs/SPEED.md).
fn put_fixed(s: &[u8], numbers: &mut [u32])
    requires in_bounds { 33 ≤ length s.now }
    requires many { length numbers.old ≡ 24 }
    ensures { (p : Parameters.SynchronizationParametersTLV) (next : ℕ) → synchronization s.now 0 ≡ read p next → numbers.new ≡ take 24 (synchronization_numbers p) }
{
    numbers[0] = u32::from(s[0]);
    numbers[1] = word_at(s, 1);
    numbers[2] = u32::from(s[3]);
    numbers[3] = u32::from(s[4]);
    numbers[4] = word_at(s, 5);
    numbers[5] = word_at(s, 7);
    numbers[6] = word_at(s, 9);
    numbers[7] = word_at(s, 11);
    numbers[8] = word_at(s, 13);
    numbers[9] = word_at(s, 15);
    numbers[10] = u32::from(s[17]);
    numbers[11] = u32::from(s[18]);
    numbers[12] = u32::from(s[19]);
    numbers[13] = u32::from(s[20]);
    numbers[14] = u32::from(s[21]);
    numbers[15] = u32::from(s[22]);
    numbers[16] = u32::from(s[23]);
    numbers[17] = u32::from(s[24]);
    numbers[18] = u32::from(s[25]);
    numbers[19] = u32::from(s[26]);
    numbers[20] = u32::from(s[27]);
    numbers[21] = u32::from(s[28]);
    numbers[22] = word_at(s, 29);
    numbers[23] = word_at(s, 31);
}

// How many of the fixed bytes each field takes. The mode and its reserved byte are one. They stand here a second time, as all of
// the fixed part does (docs/SPEED.md).
const WIDTHS: [u8; 18] = [1, 2, 1, 1, 2, 2, 2, 2, 2, 2, 1, 1, 1, 1, 6, 2, 2, 2];

// Reads a record straight into its numbers (docs/SPEED.md). Where it is refused, what stands in these is not said.
fn synchronization_into(s: &[u8], numbers: &mut [u32; 60]) -> Result<usize, Refusal>
    ensures { beside result numbers.new ≡ numbered synchronization_numbers synchronization s.now 0 }
{
    // Only where the fixed part is not all there, the field that is short is looked for.
    if s.len() < 33 {
        return Err(Refusal::Short(wire::first_short(s, 0, &WIDTHS)));
    }
    put_fixed(s, &mut numbers[..24]);
    channel_sequence_into(s, 33, &mut numbers[24..60])
}

fn synchronization_told(numbers: &[u32; 60]) -> Result<usize, Refusal>
    ensures { told result ≡ length_of (synchronization_bytes numbers.now) }
{
    let largest = LARGEST;
    fit(numbers, &largest)?;
    Ok(39 + written_size(&numbers[27..60])?)
}

// Puts the bytes in front of the sequence, those of the first ten fields and, behind them, the others. The room was asked once, and a step
// of the record's own writer would ask again (docs/SPEED.md).
#[tactic(auto, using(crate::proofs::Synchronizations::small_synchronization))]
fn put_front(numbers: &[u32; 60], buffer: &mut [u8])
    requires in_bounds { 17 ≤ length buffer.old }
    requires synchronization_largest_value { fits numbers.now synchronization_largest ≡ true }
    ensures { Put buffer.old 0 (take 17 (fixed_bytes (synchronization_of numbers.now))) 17 buffer.new }
{
    let tx_counter = (numbers[1] as u16).to_le_bytes();
    let aw_period = (numbers[4] as u16).to_le_bytes();
    let af_period = (numbers[5] as u16).to_le_bytes();
    let awdl_flags = (numbers[6] as u16).to_le_bytes();
    let aw_ext_length = (numbers[7] as u16).to_le_bytes();
    let aw_common_length = (numbers[8] as u16).to_le_bytes();
    let remaining_aw_length = (numbers[9] as u16).to_le_bytes();
    buffer[0] = numbers[0] as u8;
    buffer[1] = tx_counter[0];
    buffer[2] = tx_counter[1];
    buffer[3] = numbers[2] as u8;
    buffer[4] = numbers[3] as u8;
    buffer[5] = aw_period[0];
    buffer[6] = aw_period[1];
    buffer[7] = af_period[0];
    buffer[8] = af_period[1];
    buffer[9] = awdl_flags[0];
    buffer[10] = awdl_flags[1];
    buffer[11] = aw_ext_length[0];
    buffer[12] = aw_ext_length[1];
    buffer[13] = aw_common_length[0];
    buffer[14] = aw_common_length[1];
    buffer[15] = remaining_aw_length[0];
    buffer[16] = remaining_aw_length[1];
}

#[tactic(auto, using(crate::proofs::Synchronizations::small_synchronization))]
fn put_rest(numbers: &[u32; 60], buffer: &mut [u8])
    requires in_bounds { 33 ≤ length buffer.old }
    requires synchronization_largest_value { fits numbers.now synchronization_largest ≡ true }
    ensures { Put buffer.old 17 (drop 17 (fixed_bytes (synchronization_of numbers.now))) 33 buffer.new }
{
    let aw_seq_number = (numbers[22] as u16).to_le_bytes();
    let ap_beacon_alignment_delta = (numbers[23] as u16).to_le_bytes();
    buffer[17] = numbers[10] as u8;
    buffer[18] = numbers[11] as u8;
    buffer[19] = numbers[12] as u8;
    buffer[20] = numbers[13] as u8;
    buffer[21] = numbers[14] as u8;
    buffer[22] = numbers[15] as u8;
    buffer[23] = numbers[16] as u8;
    buffer[24] = numbers[17] as u8;
    buffer[25] = numbers[18] as u8;
    buffer[26] = numbers[19] as u8;
    buffer[27] = numbers[20] as u8;
    buffer[28] = numbers[21] as u8;
    buffer[29] = aw_seq_number[0];
    buffer[30] = aw_seq_number[1];
    buffer[31] = ap_beacon_alignment_delta[0];
    buffer[32] = ap_beacon_alignment_delta[1];
}

fn write_synchronization(numbers: &[u32; 60], buffer: &mut [u8]) -> Result<usize, Refusal>
    ensures { Wrote buffer.old (synchronization_bytes numbers.now) (told result) buffer.new }
{
    let size = wire::within(buffer.len(), synchronization_told(numbers))?;
    put_front(numbers, buffer);
    put_rest(numbers, buffer);
    put_head(&numbers[24..60], buffer, 33);
    put_part(buffer, 39, &numbers[28..size - 11]);
    Ok(size)
}

// As those of a sequence (`sequence_consistent`).
fn synchronization_consistent(numbers: &[u32; 60]) -> Result<bool, Refusal>
    ensures { flagged (told result) ≡ synchronization_consistent numbers.now }
{
    let largest = LARGEST;
    fit(numbers, &largest)?;
    synchronization_of(numbers).consistent()
}

fn synchronization_size(numbers: &[u32; 60]) -> Result<usize, Refusal>
    ensures { told result ≡ synchronization_size numbers.now }
{
    let largest = LARGEST;
    fit(numbers, &largest)?;
    synchronization_of(numbers).size()
}

pub fn awdl_synchronization_read(
    bytes: &[u8],
    offset: &mut usize,
    size: &mut usize,
    numbers: &mut [u32; 60],
) -> u32
    ensures { ToldReading synchronization_numbers (outcome zero_synchronization 0 (synchronization bytes.now 0)) result offset.new size.new numbers.new }
{
    let behind = synchronization_into(bytes, numbers);
    tell_read(behind, 0, offset, size, numbers)
}

pub fn awdl_synchronization_consistent(numbers: &[u32; 60], consistent: &mut u32) -> u32
    ensures { ToldNumber (reply 0 (synchronization_consistent numbers.now)) result consistent.new }
{
    let answer = synchronization_consistent(numbers);
    tell_flag(answer, consistent)
}

pub fn awdl_synchronization_size(numbers: &[u32; 60], size: &mut usize) -> u32
    ensures { ToldNumber (reply 0 (synchronization_size numbers.now)) result size.new }
{
    let answer = synchronization_size(numbers);
    tell(answer, 0, size)
}

pub fn awdl_synchronization_write(numbers: &[u32; 60], buffer: &mut [u8], size: &mut usize) -> u32
    ensures { ToldWriting buffer.old (synchronization_bytes numbers.now) result size.new buffer.new }
{
    let wrote = write_synchronization(numbers, buffer);
    tell(wrote, 0, size)
}
