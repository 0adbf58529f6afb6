// The calls of the action frame. Numbers that fit are narrowed by `as` (`fit`).
ghost use Rattle.std.specs.Prelude.{◌≡◌, refl};
ghost use Rattle.wire.specs.Said.{told};
ghost use Rattle.wire.specs.Outcomes.{outcome};
ghost use Rattle.wire.specs.Writing.{Wrote};
ghost use Rattle.action_frame.specs.Frames.{header, zero_frame};
ghost use Rattle.action_frame.specs.Stamps.{delta};
ghost use Rattle.exports.specs.Frames.{frame_numbers, frame_in, frame_bytes};
ghost use Rattle.exports.specs.Laid.{beside, numbered};
ghost use Rattle.exports.specs.Told.{ToldReading, ToldWriting};

use crate::lent::{Lent, fit};
use crate::told::{tell, tell_read};
use action_frame::{AWDLActionFrame, PhyTxTime, TargetTxTime};
use wire::Refusal;

impl Lent<4> for AWDLActionFrame {
    ghost numbers_of = { frame_numbers };

    ghost held_in = { frame_in };

    ghost zero = { zero_frame };

    fn to_numbers(self) -> [u32; 4] {
        [
            u32::from(self.subtype),
            u32::from(self.reserved),
            self.phy_tx_time.0,
            self.target_tx_time.0,
        ]
    }

    fn held(numbers: &[u32; 4]) -> Result<AWDLActionFrame, Refusal> {
        fit(numbers, &[255, 255, u32::MAX, u32::MAX])?;
        Ok(AWDLActionFrame {
            subtype: numbers[0] as u8,
            reserved: numbers[1] as u8,
            phy_tx_time: PhyTxTime(numbers[2]),
            target_tx_time: TargetTxTime(numbers[3]),
        })
    }

    ghost zeros = { refl };
}

fn frame_into(bytes: &[u8], numbers: &mut [u32; 4]) -> Result<usize, Refusal>
    ensures { beside result numbers.new ≡ numbered frame_numbers header bytes.now 0 }
{
    let (frame, behind) = AWDLActionFrame::read(bytes)?;
    *numbers = frame.to_numbers();
    Ok(behind)
}

fn write_frame(numbers: &[u32; 4], tail: &[u8], buffer: &mut [u8]) -> Result<usize, Refusal>
    ensures { Wrote buffer.old (frame_bytes numbers.now tail.now) (told result) buffer.new }
{
    AWDLActionFrame::held(numbers)?.write(tail, buffer)
}

pub fn awdl_frame_read(
    bytes: &[u8],
    offset: &mut usize,
    size: &mut usize,
    frame: &mut [u32; 4],
) -> u32
    ensures { ToldReading frame_numbers (outcome zero_frame 0 (header bytes.now 0)) result offset.new size.new frame.new }
{
    let behind = frame_into(bytes, frame);
    tell_read(behind, 0, offset, size, frame)
}

pub fn awdl_frame_write(frame: &[u32; 4], tail: &[u8], buffer: &mut [u8], size: &mut usize) -> u32
    ensures { ToldWriting buffer.old (frame_bytes frame.now tail.now) result size.new buffer.new }
{
    let wrote = write_frame(frame, tail, buffer);
    tell(wrote, 0, size)
}

pub fn awdl_tx_delta(phy_tx_time: u32, target_tx_time: u32) -> u32
    ensures { result ≡ delta (record { 0 = phy_tx_time }) (record { 0 = target_tx_time }) }
{
    action_frame::tx_delta(PhyTxTime(phy_tx_time), TargetTxTime(target_tx_time))
}
