// Records as the numbers that are lent for them.
ghost use Rattle.std.specs.Prelude.{◌≡◌, ℕ, List, length, replicate};
ghost use Rattle.wire.specs.declared.refusal.Refusal.TheVariants.{Inconsistent};
ghost use Rattle.wire.specs.Answer.{Answer, require};
ghost use Rattle.wire.specs.Said.{told};
ghost use Rattle.exports.specs.Held.{fits, held_byte};

use wire::Refusal;

// A record that is lent as numbers, in the order of its fields. It is no `From` and `TryFrom`: those would be two impls for each
// record, and neither has the zero record, which `tell_record` speaks of beside the numbers.
pub(crate) trait Lent<const N: usize>: Copy {
    ghost numbers_of: { Self → List ℕ };

    ghost held_in: { List ℕ → Answer Self };

    ghost zero: { Self };

    fn to_numbers(self) -> [u32; N]
        ensures { result ≡ numbers_of self };

    // Numbers that their fields cannot hold are refused before anything else is asked. Most calls ask the record where it is made,
    // and not through this (`sequence_consistent`).
    fn held(numbers: &[u32; N]) -> Result<Self, Refusal>
        ensures { told result ≡ held_in numbers.now };

    ghost zeros: { numbers_of zero ≡ replicate N 0 };
}

// Whether each number is one that its field holds. Every number is looked at, so that the compiler may look at several at once;
// and they are narrowed by `as` afterwards, since `try_from` would look at each again. That they fit stands in the clauses of
// those who narrow them, and in no type: parts of a record's numbers are narrowed too, each by its own part of the table.
pub(crate) fn fit(numbers: &[u32], largest: &[u32]) -> Result<(), Refusal>
    requires { length numbers.now ≡ length largest.now }
    ensures { told result ≡ require (fits numbers.now largest.now) Inconsistent }
{
    if all_fit(numbers, largest) {
        return Ok(());
    }
    Err(Refusal::Inconsistent)
}

fn all_fit(numbers: &[u32], largest: &[u32]) -> bool
    requires { length numbers.now ≡ length largest.now }
    ensures { result ≡ fits numbers.now largest.now }
{
    numbers
        .iter()
        .zip(largest)
        .fold(true, |fit, (number, most)| fit & (*number <= *most))
}

// A number that stands alone, in a field of a byte.
pub(crate) fn held_byte(number: u32) -> Result<u8, Refusal>
    ensures { told result ≡ held_byte number }
{
    u8::try_from(number).map_err(|_| Refusal::Inconsistent)
}
