ghost use Rattle.std.specs.Prelude.{◌≡◌};
ghost use Rattle.wire.specs.Said.{told};
ghost use Rattle.wire.specs.Writing.{Wrote};
ghost use Rattle.tlv_items.specs.Items.{step_at};
ghost use Rattle.exports.specs.Frames.{item_bytes_in};
ghost use Rattle.exports.specs.Told.{ToldWriting, ToldStep};

use crate::lent::held_byte;
use crate::told::tell;
use tlv_items::Step;
use wire::Refusal;

fn write_item(tlv_type: u32, value: &[u8], buffer: &mut [u8]) -> Result<usize, Refusal>
    ensures { Wrote buffer.old (item_bytes_in tlv_type value.now) (told result) buffer.new }
{
    let tlv_type = held_byte(tlv_type)?;
    tlv_items::write_item(tlv_type, value, buffer)
}

pub fn awdl_write_item(tlv_type: u32, value: &[u8], buffer: &mut [u8], size: &mut usize) -> u32
    ensures { ToldWriting buffer.old (item_bytes_in tlv_type value.now) result size.new buffer.new }
{
    let wrote = write_item(tlv_type, value, buffer);
    tell(wrote, 0, size)
}

pub fn awdl_step(tail: &[u8], at: usize, step: &mut [usize; 5]) -> u32
    ensures { ToldStep (step_at tail.now at) result step.new }
{
    match tlv_items::step(tail, at) {
        Step::Item(item, next) => {
            *step = [
                item.at,
                usize::from(item.tlv_type),
                item.length,
                at + 3,
                next,
            ];
            1
        }
        Step::Whole => {
            *step = [0; 5];
            0
        }
        Step::Cut(place) => {
            *step = [place, 0, 0, 0, 0];
            2
        }
    }
}
