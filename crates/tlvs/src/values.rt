ghost use Rattle.std.specs.Prelude.{◌≡◌};
ghost use Rattle.wire.specs.Parts.{part_at};
ghost use Rattle.tlv_items.specs.Items.{step_at, value_at, value_start_at};

use tlv_items::Step;

// A step with the value of its item. Where there is no item the value is the empty part at the tail's start: `ReadTLVs::next`
// promises that part too, and so it stands beside the step.
#[derive(Clone, Copy, Debug, PartialEq, Eq, Hash)]
pub struct StepWithValue<'a> {
    pub step: Step,
    pub value: &'a [u8],
}

// A step, and its item's value as that part of the tail.
pub fn step_with_value<'a>(tail: &'a [u8], at: usize) -> StepWithValue<'a>
    ensures { (result.step ≡ step_at tail.now at) × (result.value.now ≡ value_at tail.now at) × (result.value.ref_ptr ≡ part_at (value_start_at tail.now at) tail.entry.ref_ptr) }
{
    match tlv_items::step(tail, at) {
        // The step was found here, so that the part needs no second test, as `value` would make.
        step @ Step::Item(_, behind_value) => StepWithValue {
            step,
            value: &tail[at + 3..behind_value],
        },
        step @ (Step::Whole | Step::Cut(_)) => StepWithValue {
            step,
            value: &tail[..0],
        },
    }
}
