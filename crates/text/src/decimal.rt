ghost use Rattle.std.specs.Prelude.{◌≡◌, [], ◌∷◌, ◌+◌, ◌<◌};
ghost use Rattle.wire.specs.Writing.{Put};
ghost use Rattle.text.specs.Text.{decimal};
ghost use Rattle.text.specs.Words.{digits_of, in64_bits, decimal_of};

use wire::put_slice;

// A `u8` has no `From<u64>`, and `try_from` would have a refusal that cannot come.
fn digit(d: u64) -> u8
    requires { d < 10 }
    ensures { result ≡ 48 + d }
{
    b'0' + d as u8
}

// The last digit is found first, so the digits are gathered from the end of twenty places, which are enough for every number. `write!`
// would promise them only where it succeeds, and no contract says that it does; `to_string` takes memory from a heap. The turns are
// written out by the compiler, so that this is a call of its own: inside its callers it kept them from knowing their words' lengths.
#[inline(never)]
pub fn put_decimal(buf: &mut [u8], at: usize, n: u64) -> usize
    ensures { Put buf.old at (decimal n) result buf.new }
{
    let mut digits = [0u8; 20];
    let mut rest = n;
    for first in (0..20).rev() {
        digits[first] = digit(rest % 10);
        rest /= 10;
        if rest == 0 {
            return put_slice(buf, at, &digits[first..]);
        }
    }
    unreachable!()
}

// The number that has one digit more than n, if the letter is a digit and the number still fits.
#[tactic(auto, unfolding(crate::specs::Words::digits_of))]
fn with_digit(n: u64, letter: u8) -> Option<u64>
    ensures { result ≡ in64_bits (digits_of n (letter ∷ [])) }
{
    match letter {
        b'0'..=b'9' => n.checked_mul(10)?.checked_add(u64::from(letter - b'0')),
        _ => None,
    }
}

// Nothing but 1 to 20 digits is a number, and only one that fits. The library's `parse` takes a sign too, and any number of zeros.
pub fn decimal_of(word: &[u8]) -> Option<u64>
    ensures { result ≡ decimal_of word.now }
{
    if word.is_empty() || 20 < word.len() {
        return None;
    }
    let mut n = 0;
    for letter in word {
        n = with_digit(n, *letter)?;
    }
    Some(n)
}
