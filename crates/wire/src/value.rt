ghost use Rattle.std.specs.Prelude.{◌≡◌, ℕ, List};
ghost use Rattle.wire.specs.Reading.{Reader};
ghost use Rattle.wire.specs.Numbers.{number, little_bytes};
ghost use Rattle.wire.specs.Addresses.{address, address_bytes};
ghost use Rattle.wire.specs.Said.{said};
ghost use Rattle.wire.specs.Writing.{Put};

use crate::read::field_at;
use crate::refusal::Refusal;
use crate::write::put_slice;

// A value that is read from a place of a slice, and put at one, in one way. The slice and the place are two parameters and no
// cursor, of which a contract would have to say the state before and after each field, on a refusal too.
pub trait Wire: Copy {
    ghost format: { Reader Self };

    ghost bytes: { Self → List ℕ };

    // The value, and the place behind it.
    fn read_at(s: &[u8], at: usize) -> Result<(Self, usize), Refusal>
        ensures { said result ≡ format s.now at };

    // The place behind the bytes. Where they do not fit, the buffer and the place stay as they are.
    fn put_at(self, buf: &mut [u8], at: usize) -> usize
        ensures { Put buf.old at (bytes self) result buf.new };
}

// Numbers are little-endian, whatever the board.
impl Wire for u8 {
    ghost format = { number 1 };

    ghost bytes = { little_bytes 1 };

    fn read_at(s: &[u8], at: usize) -> Result<(u8, usize), Refusal> {
        let next = field_at(s, at, 1)?;
        Ok((s[at], next))
    }

    fn put_at(self, buf: &mut [u8], at: usize) -> usize {
        put_slice(buf, at, &[self])
    }
}

impl Wire for u16 {
    ghost format = { number 2 };

    ghost bytes = { little_bytes 2 };

    fn read_at(s: &[u8], at: usize) -> Result<(u16, usize), Refusal> {
        let next = field_at(s, at, 2)?;
        Ok((u16::from_le_bytes([s[at], s[at + 1]]), next))
    }

    fn put_at(self, buf: &mut [u8], at: usize) -> usize {
        let two_bytes = self.to_le_bytes();
        put_slice(buf, at, &two_bytes)
    }
}

impl Wire for u32 {
    ghost format = { number 4 };

    ghost bytes = { little_bytes 4 };

    fn read_at(s: &[u8], at: usize) -> Result<(u32, usize), Refusal> {
        let next = field_at(s, at, 4)?;
        Ok((
            u32::from_le_bytes([s[at], s[at + 1], s[at + 2], s[at + 3]]),
            next,
        ))
    }

    fn put_at(self, buf: &mut [u8], at: usize) -> usize {
        let four_bytes = self.to_le_bytes();
        put_slice(buf, at, &four_bytes)
    }
}

// Six bytes in the order of the wire. Their number is a part of the type, so that no law of a record's size has to ask for it.
// The bytes are named where they are taken apart: a `From` to and from `[u8; 6]` would name them again.
#[derive(Clone, Copy, Debug, PartialEq, Eq, Hash, Default)]
pub struct MACAddress(pub u8, pub u8, pub u8, pub u8, pub u8, pub u8);

impl Wire for MACAddress {
    ghost format = { address };

    ghost bytes = { address_bytes };

    fn read_at(s: &[u8], at: usize) -> Result<(MACAddress, usize), Refusal> {
        let next = field_at(s, at, 6)?;
        Ok((
            MACAddress(s[at], s[at + 1], s[at + 2], s[at + 3], s[at + 4], s[at + 5]),
            next,
        ))
    }

    fn put_at(self, buf: &mut [u8], at: usize) -> usize {
        put_slice(buf, at, &[self.0, self.1, self.2, self.3, self.4, self.5])
    }
}
