ghost use Rattle.std.specs.Prelude.{◌≡◌};
ghost use Rattle.wire.specs.Said.{told};
ghost use Rattle.wire.specs.Answer.{place_of};
ghost use Rattle.wire.specs.Reading.{field};
ghost use Rattle.wire.specs.ShortFields.{first_short};

use crate::refusal::Refusal;

// The place behind n bytes. It finds the shortage for a caller that takes the bytes as a part.
pub fn field_at(s: &[u8], at: usize, n: usize) -> Result<usize, Refusal>
    ensures { told result ≡ place_of (field n s.now at) }
{
    match at.checked_add(n) {
        Some(next) if next <= s.len() => Ok(next),
        _ => Err(Refusal::Short(at)),
    }
}

// Among fields in a row, the place at which the first one starts that does not fit, or the place behind them all. A caller asks it
// who has tested for all of their bytes at once, and did not find them.
pub fn first_short(s: &[u8], at: usize, widths: &[u8]) -> usize
    ensures { result ≡ first_short widths.now s.now at }
{
    let mut place = at;
    for width in widths {
        let Ok(behind_field) = field_at(s, place, usize::from(*width)) else {
            return place;
        };
        place = behind_field;
    }
    place
}
