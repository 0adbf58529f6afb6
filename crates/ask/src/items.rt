// The walk over a tail, its items and their values.
use crate::buffers::Buffers;
use crate::output::{Answered, Output};
use crate::record::Record;
use crate::words::Words;
use tlvs::{End, Item, ReadTLVs, Step, StepWithValue};

#[derive(Clone, Copy, Debug, PartialEq, Eq, Hash)]
pub(crate) enum ItemCall {
    Step,
    StepWithValue,
    ReaderNext,
    Value,
    End,
    Walk,
    Write,
}

pub(crate) const CALLS: [(&str, ItemCall); 7] = [
    ("step", ItemCall::Step),
    ("step_with_value", ItemCall::StepWithValue),
    ("reader_next", ItemCall::ReaderNext),
    ("value", ItemCall::Value),
    ("end", ItemCall::End),
    ("walk", ItemCall::Walk),
    ("write_item", ItemCall::Write),
];

fn show_step(step: Step, out: &mut Output) -> Answered {
    match step {
        Step::Item(item, next) => {
            out.text(b" item")?;
            item.through(out)?;
            out.named(b" next=", next)?;
        }
        Step::Whole => out.text(b" whole")?,
        Step::Cut(place) => out.named(b" cut at=", place)?,
    }
    Ok(())
}

fn step(mut words: Words<'_>, buffers: &mut Buffers, out: &mut Output) -> Answered {
    let tail = words.bytes(&mut buffers.given)?;
    let place: usize = words.only_value()?;
    out.accepted()?;
    show_step(tlvs::step(tail, place), out)
}

fn show_both(both: StepWithValue<'_>, out: &mut Output) -> Answered {
    out.accepted()?;
    show_step(both.step, out)?;
    out.named_hex(b" value=", both.value)
}

fn step_with_value(mut words: Words<'_>, buffers: &mut Buffers, out: &mut Output) -> Answered {
    let tail = words.bytes(&mut buffers.given)?;
    let place: usize = words.only_value()?;
    show_both(tlvs::step_with_value(tail, place), out)
}

fn reader_next(mut words: Words<'_>, buffers: &mut Buffers, out: &mut Output) -> Answered {
    let tail = words.bytes(&mut buffers.given)?;
    let place: usize = words.only_value()?;
    show_both(ReadTLVs::new(tail).go_on(place).next(), out)
}

fn value(mut words: Words<'_>, buffers: &mut Buffers, out: &mut Output) -> Answered {
    let tail = words.bytes(&mut buffers.given)?;
    let item: Item = words.only_record()?;
    out.named_hex(b"0 offset=0 value=", tlvs::value(tail, item))
}

fn end(tail: &[u8], out: &mut Output) -> Answered {
    match tlvs::end(tail) {
        End::Whole(items) => out.named(b"0 offset=0 whole items=", items)?,
        End::Cut(place, items) => {
            out.named(b"0 offset=0 cut at=", place)?;
            out.named(b" items=", items)?;
        }
    }
    Ok(())
}

// Each turn shows what stands at the place, and the next goes on at the place that this answer gave. It is a `loop`, since what
// ends the walk is no item and is shown too.
fn walk(tail: &[u8], out: &mut Output) -> Answered {
    let mut place = 0;
    let mut items = 0usize;
    out.accepted()?;
    loop {
        let both = tlvs::step_with_value(tail, place);
        show_step(both.step, out)?;
        let Step::Item(_, next) = both.step else {
            out.named(b" items=", items)?;
            return Ok(());
        };
        out.named_hex(b" value=", both.value)?;
        place = next;
        items = items.wrapping_add(1);
    }
}

fn write(mut words: Words<'_>, buffers: &mut Buffers, out: &mut Output) -> Answered {
    let tlv_type: u8 = words.value()?;
    let value = words.bytes(&mut buffers.given)?;
    let lent = words.only_bytes(&mut buffers.lent)?;
    let size = tlvs::write_item(tlv_type, value, lent);
    out.wrote(size, lent)
}

pub(crate) fn answer(
    call: ItemCall,
    words: Words<'_>,
    buffers: &mut Buffers,
    out: &mut Output,
) -> Answered {
    match call {
        ItemCall::Step => step(words, buffers, out),
        ItemCall::StepWithValue => step_with_value(words, buffers, out),
        ItemCall::ReaderNext => reader_next(words, buffers, out),
        ItemCall::Value => value(words, buffers, out),
        ItemCall::End => end(words.only_bytes(&mut buffers.given)?, out),
        ItemCall::Walk => walk(words.only_bytes(&mut buffers.given)?, out),
        ItemCall::Write => write(words, buffers, out),
    }
}
