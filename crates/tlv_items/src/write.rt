ghost use Rattle.std.specs.Prelude.{◌≡◌};
ghost use Rattle.wire.specs.Said.{told};
ghost use Rattle.wire.specs.Writing.{Wrote};
ghost use Rattle.tlv_items.specs.ItemBytes.{item_bytes};

use wire::{Refusal, Wire};

// A value that is too long is refused before the room is asked.
pub fn write_item(tlv_type: u8, value: &[u8], buf: &mut [u8]) -> Result<usize, Refusal>
    ensures { Wrote buf.old (item_bytes tlv_type value.now) (told result) buf.new }
{
    let Ok(length) = u16::try_from(value.len()) else {
        return Err(Refusal::TooLong);
    };
    let size = wire::within(buf.len(), Ok(3 + value.len()))?;
    let at = tlv_type.put_at(buf, 0);
    let at = length.put_at(buf, at);
    wire::put_slice(buf, at, value);
    Ok(size)
}
