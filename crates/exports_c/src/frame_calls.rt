ghost use Rattle.std.specs.Prelude.{◌≡◌};
ghost use Rattle.wire.specs.Outcomes.{outcome};
ghost use Rattle.action_frame.specs.Frames.{header, zero_frame};
ghost use Rattle.action_frame.specs.Stamps.{delta};
ghost use Rattle.exports.specs.Frames.{frame_numbers, frame_bytes};
ghost use Rattle.exports.specs.Told.{ToldReading, ToldWriting};

#[unsafe(no_mangle)]
pub extern "C" fn awdl_frame_read(
    bytes: &[u8],
    offset: &mut usize,
    size: &mut usize,
    frame: &mut [u32; 4],
) -> u32
    ensures { ToldReading frame_numbers (outcome zero_frame 0 (header bytes.now 0)) result offset.new size.new frame.new }
{
    exports::awdl_frame_read(bytes, offset, size, frame)
}

#[unsafe(no_mangle)]
pub extern "C" fn awdl_frame_write(
    frame: &[u32; 4],
    tail: &[u8],
    buffer: &mut [u8],
    size: &mut usize,
) -> u32
    ensures { ToldWriting buffer.old (frame_bytes frame.now tail.now) result size.new buffer.new }
{
    exports::awdl_frame_write(frame, tail, buffer, size)
}

#[unsafe(no_mangle)]
pub extern "C" fn awdl_tx_delta(phy_tx_time: u32, target_tx_time: u32) -> u32
    ensures { result ≡ delta (record { 0 = phy_tx_time }) (record { 0 = target_tx_time }) }
{
    exports::awdl_tx_delta(phy_tx_time, target_tx_time)
}
