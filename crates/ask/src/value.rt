// Values that a word of a question stands for, and that an answer shows.
ghost use Rattle.std.specs.Prelude.{◌≤◌, length, IfSome};

use crate::output::Output;
use std::fmt::Display;
use std::io;
use std::io::Write;
use wire::MACAddress;

// It is neither `FromStr` nor `Display`: most of the types are not this program's, and a number is taken as `text` takes it.
pub(crate) trait Value: Copy {
    fn of(word: &[u8]) -> Option<Self>;

    fn show(self, out: &mut Output) -> io::Result<()>;
}

// The numbers, each as far as its type goes.
pub(crate) trait Number: Copy + Display + TryFrom<u64>
where
    Self::Error: Drop,
{}

impl Number for u8 {}

impl Number for u16 {}

impl Number for u32 {}

impl Number for usize {}

impl<T: Number> Value for T
where
    T::Error: Drop,
{
    fn of(word: &[u8]) -> Option<T> {
        T::try_from(text::decimal_of(word)?).ok()
    }

    // No number has more than twenty digits.
    fn show(self, out: &mut Output) -> io::Result<()> {
        out.make_room(20)?;
        write!(out, "{self}")
    }
}

impl Value for bool {
    fn of(word: &[u8]) -> Option<bool> {
        match text::decimal_of(word)? {
            0 => Some(false),
            1 => Some(true),
            _ => None,
        }
    }

    fn show(self, out: &mut Output) -> io::Result<()> {
        u8::from(self).show(out)
    }
}

// The bytes of an address are named here, since `wire` has no conversion between it and `[u8; 6]`.
impl Value for MACAddress {
    fn of(word: &[u8]) -> Option<MACAddress> {
        let mut bytes = [0u8; 6];
        if word.len() != 12 {
            return None;
        }
        text::hex_into(&mut bytes, 0, word).ok()?;
        let [a, b, c, d, e, f] = bytes;
        Some(MACAddress(a, b, c, d, e, f))
    }

    fn show(self, out: &mut Output) -> io::Result<()> {
        out.hex(&[self.0, self.1, self.2, self.3, self.4, self.5])
    }
}

impl<const N: usize> Value for [u8; N] {
    fn of(word: &[u8]) -> Option<[u8; N]> {
        let mut bytes = [0u8; N];
        let n = put_bytes(word, &mut bytes)?;
        if n == N { Some(bytes) } else { None }
    }

    fn show(self, out: &mut Output) -> io::Result<()> {
        out.hex(&self)
    }
}

// Hex digits, or two of them, a star, and how often.
fn put_part(part: &[u8], buf: &mut [u8], at: usize) -> Option<usize>
    ensures { IfSome result (λ n. n ≤ length buf.new) }
{
    match part.split_first_chunk::<3>() {
        Some(([high, low, b'*'], times)) => {
            let mut one = [0u8; 1];
            text::hex_into(&mut one, 0, &[*high, *low]).ok()?;
            let times = usize::try_from(text::decimal_of(times)?).ok()?;
            text::repeat_into(buf, at, one[0], times).ok()
        }
        _ if part.is_empty() => None,
        _ => text::hex_into(buf, at, part).ok(),
    }
}

// Puts the bytes that a word gives, parts of them with plus signs between, and tells how many there are.
pub(crate) fn put_bytes(word: &[u8], buf: &mut [u8]) -> Option<usize>
    ensures { IfSome result (λ n. n ≤ length buf.new) }
{
    if text::same(word, b"-") {
        return Some(0);
    }
    let mut n = 0;
    for part in word.split(|c| *c == b'+') {
        n = put_part(part, buf, n)?;
    }
    Some(n)
}

// What a word of a table stands for. The tables are short, and a map would need a heap.
pub(crate) fn among<T: Copy>(table: &[(&'static str, T)], word: &[u8]) -> Option<T> {
    let (_, value) = table
        .iter()
        .find(|(name, _)| text::same(name.as_bytes(), word))?;
    Some(*value)
}

// The word that stands for a value. A value that has none is shown by nothing.
pub(crate) fn name_of<T: Copy + PartialEq>(
    table: &[(&'static str, T)],
    wanted: T,
) -> &'static [u8] {
    match table.iter().find(|(_, value)| *value == wanted) {
        Some((name, _)) => name.as_bytes(),
        None => b"",
    }
}
