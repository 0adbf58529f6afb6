// The head of an action frame, the part behind it, the offsets of its items' values in it, and the gap between its two stamps.
#![tactic(auto)]

ghost use Rattle.std.specs.Prelude.{◌≡◌, ◌≤◌, min, length};
ghost use Rattle.wire.specs.Answer.{answer, place_of};
ghost use Rattle.wire.specs.Said.{said, told};
ghost use Rattle.wire.specs.Parts.{part_at};
ghost use Rattle.wire.specs.Writing.{Put, Wrote};
ghost use Rattle.action_frame.specs.Frames.{fixed_byte, fields, header, tail_of, header_bytes, bytes_of};
ghost use Rattle.action_frame.specs.Offsets.{offset_in_frame};
ghost use Rattle.action_frame.specs.Stamps.{delta};

use tlv_items::Item;
use wire::{Refusal, Wire};

// When the radio began to send the frame, in microseconds.
#[derive(Clone, Copy, Debug, PartialEq, Eq, Hash, Default)]
pub struct PhyTxTime(pub u32);

// When the driver handed the frame to the radio, in microseconds. It has the shape of the other stamp and is a type of its own, as
// `tx_delta` asks: so the two cannot change places.
#[derive(Clone, Copy, Debug, PartialEq, Eq, Hash, Default)]
pub struct TargetTxTime(pub u32);

#[derive(Clone, Copy, Debug, PartialEq, Eq, Hash, Default)]
pub struct AWDLActionFrame {
    pub subtype: u8,
    // What it means is not known, so it is written again as it was read.
    pub reserved: u8,
    pub phy_tx_time: PhyTxTime,
    pub target_tx_time: TargetTxTime,
}

// The pair of bytes in front of every frame.
const FIRST: u8 = 0x08;

const SECOND: u8 = 0x10;

impl AWDLActionFrame {
    // Periodic synchronization and master indication. Any other subtype is read and written too.
    pub const PSF: u8 = 0x00;

    pub const MIF: u8 = 0x03;

    pub const HEADER_SIZE: usize = 12;

    // The header with its size.
    pub fn read(frame: &[u8]) -> Result<(AWDLActionFrame, usize), Refusal>
        ensures { said result ≡ header frame.now 0 }
    {
        let at = fixed_byte(frame, 0, FIRST, Refusal::NotAction)?;
        let at = fixed_byte(frame, at, SECOND, Refusal::NotVersion)?;
        fields_at(frame, at)
    }

    // The items of a frame, where they lie in it. A frame that is shorter than its header has none.
    pub fn tail(frame: &[u8]) -> &[u8]
        ensures { (result.now ≡ tail_of frame.now) × (result.ref_ptr ≡ part_at (min 12 (length frame.now)) frame.entry.ref_ptr) }
    {
        &frame[AWDLActionFrame::HEADER_SIZE.min(frame.len())..]
    }

    // The offset in the frame of what has an offset in the value of one of its items: where the reader of the value was short, the
    // field would start there. It may start at the value's end, and so the end has an offset too. A caller looks at the number
    // first, since only with 1 does an offset tell of a field. There is none where the item does not lie within the frame, or the
    // offset lies past the end of its value.
    pub fn offset_in_frame(frame: &[u8], item: Item, offset: usize) -> Option<usize>
        ensures { result ≡ offset_in_frame frame.now item offset }
    {
        let start = wire::field_at(frame, AWDLActionFrame::HEADER_SIZE, item.at).ok()?;
        let value = wire::field_at(frame, start, 3).ok()?;
        wire::field_at(frame, value, item.length).ok()?;
        if item.length < offset {
            return None;
        }
        Some(value + offset)
    }

    pub fn write(self, tail: &[u8], buf: &mut [u8]) -> Result<usize, Refusal>
        ensures { Wrote buf.old (answer (bytes_of self tail.now)) (told result) buf.new }
    {
        let size = AWDLActionFrame::HEADER_SIZE + tail.len();
        let size = wire::within(buf.len(), Ok(size))?;
        let at = put_header(buf, self);
        wire::put_slice(buf, at, tail);
        Ok(size)
    }
}

// How long the frame waited between the driver and the air, in microseconds. The clock behind both stamps rolls over after
// 71.6 minutes, so a frame may be sent at a lower stamp than it was handed over at.
pub fn tx_delta(phy: PhyTxTime, target: TargetTxTime) -> u32
    ensures { result ≡ delta phy target }
{
    phy.0.wrapping_sub(target.0)
}

// The place behind a byte that has to have a value. A missing byte is told from a wrong one.
fn fixed_byte(s: &[u8], at: usize, value: u8, why: Refusal) -> Result<usize, Refusal>
    ensures { told result ≡ place_of (fixed_byte value why s.now at) }
{
    let (byte, next) = u8::read_at(s, at)?;
    if byte != value {
        return Err(why);
    }
    Ok(next)
}

// What stands behind the two fixed bytes. The subtype and the reserved byte are one field.
fn fields_at(s: &[u8], at: usize) -> Result<(AWDLActionFrame, usize), Refusal>
    ensures { said result ≡ fields s.now at }
{
    let behind_reserved = wire::field_at(s, at, 2)?;
    let (phy, behind_phy) = u32::read_at(s, behind_reserved)?;
    let (target, behind_target) = u32::read_at(s, behind_phy)?;
    let header = AWDLActionFrame {
        subtype: s[at],
        reserved: s[at + 1],
        phy_tx_time: PhyTxTime(phy),
        target_tx_time: TargetTxTime(target),
    };
    Ok((header, behind_target))
}

// The place behind the header, which is put at the start of the buffer.
fn put_header(buf: &mut [u8], f: AWDLActionFrame) -> usize
    requires { 12 ≤ length buf.old }
    ensures { Put buf.old 0 (header_bytes f) result buf.new }
{
    let at = FIRST.put_at(buf, 0);
    let at = SECOND.put_at(buf, at);
    let at = f.subtype.put_at(buf, at);
    let at = f.reserved.put_at(buf, at);
    let at = f.phy_tx_time.0.put_at(buf, at);
    f.target_tx_time.0.put_at(buf, at)
}
