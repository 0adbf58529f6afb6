ghost use Rattle.tlv_items.specs.Items.{step_at};
ghost use Rattle.exports.specs.Frames.{item_bytes_in};
ghost use Rattle.exports.specs.Told.{ToldWriting, ToldStep};

#[unsafe(no_mangle)]
pub extern "C" fn awdl_write_item(
    tlv_type: u32,
    value: &[u8],
    buffer: &mut [u8],
    size: &mut usize,
) -> u32
    ensures { ToldWriting buffer.old (item_bytes_in tlv_type value.now) result size.new buffer.new }
{
    exports::awdl_write_item(tlv_type, value, buffer, size)
}

#[unsafe(no_mangle)]
pub extern "C" fn awdl_step(tail: &[u8], at: usize, step: &mut [usize; 5]) -> u32
    ensures { ToldStep (step_at tail.now at) result step.new }
{
    exports::awdl_step(tail, at, step)
}
