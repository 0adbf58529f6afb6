// How an answer is laid down: its number is returned, and the rest goes into what was lent.
ghost use Rattle.std.specs.Prelude.{◌≡◌, replicate};
ghost use Rattle.wire.specs.Refusals.{number_of};
ghost use Rattle.wire.specs.Said.{told};
ghost use Rattle.wire.specs.Outcomes.{outcome, reply};
ghost use Rattle.exports.specs.Held.{flagged};
ghost use Rattle.exports.specs.Laid.{beside};
ghost use Rattle.exports.specs.Told.{ToldReading, ToldNumber, ToldPlaced, ToldRecord};

use crate::lent::Lent;
use wire::Refusal;

pub(crate) fn number_of(why: Refusal) -> u32
    ensures { result ≡ number_of why }
{
    u32::from(why.number())
}

// The value goes to the place that was lent for it, or zero does.
pub(crate) fn tell<T: Copy>(answer: Result<T, Refusal>, zero: T, place: &mut T) -> u32
    ensures number { result ≡ (reply zero (told answer)).number }
    ensures value { place.new ≡ (reply zero (told answer)).value }
{
    match answer {
        Ok(value) => {
            *place = value;
            0
        }
        Err(why) => {
            *place = zero;
            number_of(why)
        }
    }
}

pub(crate) fn tell_flag(answer: Result<bool, Refusal>, flag: &mut u32) -> u32
    ensures { ToldNumber (reply 0 (flagged (told answer))) result flag.new }
{
    tell(answer.map(u32::from), 0, flag)
}

// An answer that can be short has an offset, too.
pub(crate) fn tell_placed(answer: Result<u32, Refusal>, offset: &mut usize, place: &mut u32) -> u32
    ensures { ToldPlaced (reply 0 (told answer)) result offset.new place.new }
{
    *offset = answer.err().map_or(0, |why| why.offset());
    tell(answer, 0, place)
}

// As `tell`, with a record's numbers in the place of the value. As a call of `tell` it was tried, and was not
// proved without an answer by hand.
pub(crate) fn tell_record<R: Lent<N>, const N: usize>(
    answer: Result<R, Refusal>,
    numbers: &mut [u32; N],
) -> u32
    ensures { ToldRecord R.numbers_of (reply R.zero (told answer)) result numbers.new }
{
    match answer {
        Ok(record) => {
            *numbers = record.to_numbers();
            0
        }
        Err(why) => {
            numbers.fill(0);
            number_of(why)
        }
    }
}

// A reader has laid its record's numbers down, or it refused, and then they are 0. It never goes back, so that the difference is the size.
pub(crate) fn tell_read<const N: usize>(
    behind: Result<usize, Refusal>,
    at: usize,
    offset: &mut usize,
    size: &mut usize,
    numbers: &mut [u32; N],
) -> u32
    ensures { ToldReading (λ ns. ns) (outcome (replicate N 0) at (beside behind numbers.old)) result offset.new size.new numbers.new }
{
    match behind {
        Ok(next) => {
            *offset = 0;
            *size = next.saturating_sub(at);
            0
        }
        Err(why) => {
            *offset = why.offset();
            *size = 0;
            numbers.fill(0);
            number_of(why)
        }
    }
}
