ghost use Rattle.std.specs.Prelude.{◌≡◌};
ghost use Rattle.wire.specs.Parts.{part_at};
ghost use Rattle.tlv_items.specs.Items.{step_at, value_at, value_start_at};

use crate::values::{StepWithValue, step_with_value};

// A tail and a place in it.
#[derive(Clone, Copy, Debug, PartialEq, Eq, Hash)]
pub struct ReadTLVs<'a> {
    pub bytes: &'a [u8],
    pub at: usize,
}

impl<'a> ReadTLVs<'a> {
    pub fn new(bytes: &'a [u8]) -> ReadTLVs<'a>
        ensures { (result.bytes ≡ bytes.entry) × (result.at ≡ 0) }
    {
        ReadTLVs { bytes, at: 0 }
    }

    // The same tail, from another place on.
    pub fn go_on(self, at: usize) -> ReadTLVs<'a>
        ensures { (result.bytes ≡ self.entry.bytes) × (result.at ≡ at) }
    {
        ReadTLVs { at, ..self }
    }

    // What stands at the place, with the value of the item as that part of the tail.
    pub fn next(self) -> StepWithValue<'a>
        ensures { (result.step ≡ step_at self.entry.bytes.now self.entry.at) × (result.value.now ≡ value_at self.entry.bytes.now self.entry.at) × (result.value.ref_ptr ≡ part_at (value_start_at self.entry.bytes.now self.entry.at) self.entry.bytes.ref_ptr) }
    {
        step_with_value(self.bytes, self.at)
    }
}
