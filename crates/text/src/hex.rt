ghost use Rattle.std.specs.Prelude.{ℕ, ◌≡◌, ◌+◌, ◌*◌, ◌/◌, ◌%◌, ◌<◌, ◌↔◌, IsTrue, IsSome, length, slice_index, replicate, Some};
ghost use Rattle.wire.specs.Writing.{Put};
ghost use Rattle.text.specs.Text.{hex, hex_digit};
ghost use Rattle.text.specs.Words.{meant, hex_digit_of, hex_byte_of, hex_of};
ghost use Rattle.text.specs.Into.{PutSaid, TellsSame};

use wire::{field_at, put_slice};

// The digit of a number below sixteen.
fn digit(d: u8) -> u8
    requires { d < 16 }
    ensures { result ≡ hex_digit d }
{
    match d {
        0..=9 => b'0' + d,
        _ => b'A' + (d - 10),
    }
}

// Two functions, this one and the next, so that the edit digits_turned_round turns one of them.
fn high_digit(byte: u8) -> u8
    ensures { result ≡ hex_digit (byte / 16) }
{
    digit(byte / 16)
}

fn low_digit(byte: u8) -> u8
    ensures { result ≡ hex_digit (byte % 16) }
{
    digit(byte % 16)
}

// Two digits for each byte. Where they do not fit, the buffer and the place stay as they are. They are put by hand for the reason
// of `put_decimal`.
pub fn put_hex(buf: &mut [u8], at: usize, bytes: &[u8]) -> usize
    ensures { Put buf.old at (hex bytes.now) result buf.new }
{
    if field_at(buf, at, 2 * bytes.len()).is_err() {
        return at;
    }
    // The room was asked once, and `put_slice` would ask again for each byte (docs/SPEED.md).
    for (i, byte) in bytes.iter().enumerate() {
        buf[at + 2 * i] = high_digit(*byte);
        buf[at + 2 * i + 1] = low_digit(*byte);
    }
    at + 2 * bytes.len()
}

// Why no bytes were put.
#[derive(Clone, Copy, Debug, PartialEq, Eq, Hash)]
pub enum HexError {
    NoRoom,
    // The word is no bytes in hex.
    NotHex,
}

fn digit_of(letter: u8) -> Option<u8>
    ensures { result ≡ hex_digit_of letter }
{
    match letter {
        b'0'..=b'9' => Some(letter - b'0'),
        b'A'..=b'F' => Some(letter - b'A' + 10),
        b'a'..=b'f' => Some(letter - b'a' + 10),
        _ => None,
    }
}

fn byte_of(high: u8, low: u8) -> Option<u8>
    ensures { result ≡ hex_byte_of high low }
{
    Some(digit_of(high)? * 16 + digit_of(low)?)
}

// Whether a word is bytes in hex: an even number of digits. `chunks_exact(2).all(..)` was tried, and its proof did not close.
fn is_hex(word: &[u8]) -> bool
    ensures { result ≡ meant (hex_of word.now) }
{
    if word.len() % 2 == 1 {
        return false;
    }
    for pair in word.chunks_exact(2) {
        if byte_of(pair[0], pair[1]).is_none() {
            return false;
        }
    }
    true
}

// Puts the bytes that a word writes in hex digits, in either case, and gives the place behind them. Nothing is put where it is no
// hex or does not fit.
pub fn hex_into(buf: &mut [u8], at: usize, word: &[u8]) -> Result<usize, HexError>
    ensures { PutSaid buf.old at (hex_of word.now) result buf.new }
{
    if !is_hex(word) {
        return Err(HexError::NotHex);
    }
    if field_at(buf, at, word.len() / 2).is_err() {
        return Err(HexError::NoRoom);
    }
    let mut place = at;
    for pair in word.chunks_exact(2) {
        let byte = byte_of(pair[0], pair[1]).unwrap();
        place = put_slice(buf, place, &[byte]);
    }
    Ok(place)
}

// Puts one byte many times, and gives the place behind them.
pub fn repeat_into(buf: &mut [u8], at: usize, byte: u8, times: usize) -> Result<usize, HexError>
    ensures { PutSaid buf.old at (Some (replicate times byte)) result buf.new }
{
    let Ok(next) = field_at(buf, at, times) else {
        return Err(HexError::NoRoom);
    };
    buf[at..next].fill(byte);
    Ok(next)
}

// Whether two slices have the same bytes.
pub fn same(a: &[u8], b: &[u8]) -> bool
    ensures { TellsSame a.now b.now result }
{
    a == b
}
