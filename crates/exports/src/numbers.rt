// Bytes as numbers of 32 bits, and such numbers as bytes. Numbers that fit are narrowed by `as` (`fit`). A part of a record's
// numbers is a slice with its length in a clause: as an array it would have to be made by `try_from`, with a refusal that cannot
// come.
ghost use Rattle.std.specs.Prelude.{◌≡◌, true, ◌+◌, ◌≤◌, length, take, drop};
ghost use Rattle.wire.specs.Addresses.{address_of};
ghost use Rattle.wire.specs.Writing.{Put};
ghost use Rattle.exports.specs.Held.{fits, octets};

use wire::MACAddress;

pub(crate) fn put_bytes(numbers: &mut [u32], bytes: &[u8])
    requires { length bytes.now ≡ length numbers.old }
    ensures { numbers.new ≡ bytes.now }
{
    // By index: behind `iter_mut` and an adapter such as `zip`, a proof knows how many the numbers are, and not which.
    for (i, byte) in bytes.iter().enumerate() {
        numbers[i] = u32::from(*byte);
    }
}

// Numbers that are bytes, at a place of a buffer that has room for them.
#[tactic(auto, using(crate::proofs::Fits::octet_in))]
pub(crate) fn put_part(buffer: &mut [u8], at: usize, part: &[u32])
    requires part_in_bounds { at + length part.now ≤ length buffer.old }
    requires part_value { fits part.now (octets (length part.now)) ≡ true }
    ensures { Put buffer.old at part.now (at + length part.now) buffer.new }
{
    // By index, as `put_bytes`.
    for (i, number) in part.iter().enumerate() {
        buffer[at + i] = *number as u8;
    }
}

// The bytes of a sequence.
pub(crate) fn bytes_of(numbers: &[u32]) -> [u8; 32]
    requires many { length numbers.now ≡ 32 }
    requires octets_value { fits numbers.now (octets 32) ≡ true }
    ensures { result ≡ numbers.now }
{
    let mut bytes = [0; 32];
    put_part(&mut bytes, 0, numbers);
    bytes
}

// An address, from a place of its record's numbers on.
pub(crate) fn address_from(numbers: &[u32], at: usize) -> MACAddress
    requires at_in_bounds { at + 6 ≤ length numbers.now }
    requires octets_value { fits (take 6 (drop at numbers.now)) (octets 6) ≡ true }
    ensures { result ≡ address_of (drop at numbers.now) }
{
    MACAddress(
        numbers[at] as u8,
        numbers[at + 1] as u8,
        numbers[at + 2] as u8,
        numbers[at + 3] as u8,
        numbers[at + 4] as u8,
        numbers[at + 5] as u8,
    )
}
