ghost use Rattle.std.specs.Prelude.{◌≡◌};
ghost use Rattle.wire.specs.Parts.{part_at};
ghost use Rattle.tlv_items.specs.Items.{step_at, value_of, value_start};
ghost use Rattle.tlv_items.specs.Walk.{walk, end_report};
ghost use Rattle.tlv_items.specs.Said.{said_end};

use crate::item::{End, Item, Step};

// With fewer than three bytes left, or a length above what follows, the tail is cut at the place of the item. It goes by what is left:
// the three fields read one after the other took a fifth to a third longer (docs/SPEED.md).
pub fn step(tail: &[u8], at: usize) -> Step
    ensures { result ≡ step_at tail.now at }
{
    if at == tail.len() {
        return Step::Whole;
    }
    let left = tail.len().saturating_sub(at);
    if left < 3 {
        return Step::Cut(at);
    }
    let behind_length = at + 3;
    let length = usize::from(u16::from_le_bytes([tail[at + 1], tail[at + 2]]));
    if left - 3 < length {
        Step::Cut(at)
    } else {
        Step::Item(
            Item {
                at,
                tlv_type: tail[at],
                length,
            },
            behind_length + length,
        )
    }
}

// An item's value, as that part of the tail. Numbers that do not lie within the tail have the empty part.
pub fn value(tail: &[u8], item: Item) -> &[u8]
    ensures { (result.now ≡ value_of tail.now item) × (result.ref_ptr ≡ part_at (value_start tail.now item) tail.entry.ref_ptr) }
{
    let Ok(behind_length) = wire::field_at(tail, item.at, 3) else {
        return &tail[..0];
    };
    let Ok(behind_value) = wire::field_at(tail, behind_length, item.length) else {
        return &tail[..0];
    };
    &tail[behind_length..behind_value]
}

// Walks the whole tail and counts. It goes by the places that the steps give, and its answer is what the last step finds, which an
// iterator over the items would not hand out.
pub fn end(tail: &[u8]) -> End
    ensures { said_end result ≡ end_report (walk tail.now) }
{
    let mut at = 0;
    let mut items = 0;
    loop {
        match step(tail, at) {
            Step::Item(_, behind_value) => {
                at = behind_value;
                items += 1;
            }
            Step::Whole => return End::Whole(items),
            Step::Cut(place) => return End::Cut(place, items),
        }
    }
}
