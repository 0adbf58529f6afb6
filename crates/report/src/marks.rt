ghost use Rattle.std.specs.Prelude.{◌≡◌};
ghost use Rattle.data_path_state.specs.DataPath.{data_path};
ghost use Rattle.synchronization_parameters.specs.SynchronizationReader as Sync;
ghost use Rattle.action_frame.specs.Frames as Frames;
ghost use Rattle.report.specs.Lines as Lines;
ghost use Rattle.report.specs.Marks.{first_mark, at_header, mark_behind, at_place, stands_at};
ghost use Rattle.report.specs.Shown.{PutWithRoom, Shows};

use crate::lines;
use crate::put::put_text;
use action_frame::AWDLActionFrame;
use data_path_state::DataPathStateTLV;
use synchronization_parameters::SynchronizationParametersTLV;
use tlvs::{Item, Step};

// A place in a report, from which a caller goes on. `End` is a mark too, so that the last line has one behind it as every other.
#[derive(Clone, Copy, Debug, PartialEq, Eq, Hash)]
pub enum Mark {
    // The one line of an input that is too long.
    TooLong,
    // The first line of a frame.
    Frame,
    // A place of the tail, with the number of items before it.
    Item(usize, usize),
    // The value of an item, with the place behind it and the number of items up to there. The two cases hold the same and are no
    // struct: the statements and `ask` name each by its case.
    DataPath(Item, usize, usize),
    Synchronization(Item, usize, usize),
    // Behind the last line.
    End,
}

// The longest input that the dump takes. A caller without that limit starts at the mark `Frame`.
const MOST: usize = 4096;

pub fn dump_start(input: &[u8]) -> Mark
    ensures { result ≡ first_mark input.now }
{
    if input.len() <= MOST {
        Mark::Frame
    } else {
        Mark::TooLong
    }
}

fn frame_line(frame: &[u8], out: &mut [u8; 128]) -> (usize, Mark)
    ensures { Shows out.old (at_header (Frames.header frame.now 0)) (Some result) out.new }
{
    match AWDLActionFrame::read(frame) {
        Ok((f, _)) => (lines::header(out, f), Mark::Item(0, 0)),
        Err(why) => {
            let n = lines::one_number(out, b"refused ", u64::from(why.number()));
            (n, Mark::End)
        }
    }
}

fn data_path_line(value: &[u8], out: &mut [u8; 128]) -> usize
    ensures { PutWithRoom out.old 0 (Lines.data_line (data_path value.now 0)) result out.new }
{
    match DataPathStateTLV::read(value) {
        Ok((record, size)) => {
            let flags = u64::from(record.flags.0);
            lines::two_numbers(out, b"data flags=", flags, b" size=", lines::of_usize(size))
        }
        Err(why) => lines::one_number(out, b"value refused ", u64::from(why.number())),
    }
}

fn synchronization_line(value: &[u8], out: &mut [u8; 128]) -> usize
    ensures { PutWithRoom out.old 0 (Lines.sync_line (Sync.synchronization value.now 0)) result out.new }
{
    match SynchronizationParametersTLV::read(value) {
        Ok((record, _)) => lines::one_number(out, b"sync seq=", u64::from(record.aw_seq_number)),
        Err(why) => lines::one_number(out, b"value refused ", u64::from(why.number())),
    }
}

fn mark_behind(item: Item, next: usize, items: usize) -> Mark
    ensures { result ≡ mark_behind item next items }
{
    match item.tlv_type {
        DataPathStateTLV::TLV_TYPE => Mark::DataPath(item, next, items),
        SynchronizationParametersTLV::TLV_TYPE => Mark::Synchronization(item, next, items),
        _ => Mark::Item(next, items),
    }
}

// A place that is none of this walk has no line. The walk counts from the tail's start, and a report from the frame's.
fn item_line(tail: &[u8], at: usize, items: usize, out: &mut [u8; 128]) -> Option<(usize, Mark)>
    ensures { Shows out.old (at_place tail.now at items) result out.new }
{
    if at < items || tail.len() < at {
        return None;
    }
    let place = lines::of_usize(at + AWDLActionFrame::HEADER_SIZE);
    let count = lines::of_usize(items);
    match tlvs::step(tail, at) {
        Step::Item(item, next) => {
            let tlv_type = u64::from(item.tlv_type);
            let n = lines::item(out, place, tlv_type, lines::of_usize(item.length));
            Some((n, mark_behind(item, next, items + 1)))
        }
        Step::Whole => {
            let n = lines::one_number(out, b"end whole items=", count);
            Some((n, Mark::End))
        }
        Step::Cut(_) => {
            let n = lines::two_numbers(out, b"end cut at=", place, b" items=", count);
            Some((n, Mark::End))
        }
    }
}

// The line at a mark, from the start of the lent buffer, which is as long as any line: how many bytes it has, and the mark behind
// it. A line of its own would need a heap.
pub fn next_line(frame: &[u8], mark: Mark, out: &mut [u8; 128]) -> Option<(usize, Mark)>
    ensures { Shows out.old (stands_at frame.now mark) result out.new }
{
    let tail = AWDLActionFrame::tail(frame);
    match mark {
        Mark::TooLong => Some((put_text(out, 0, b"input too long\n"), Mark::End)),
        Mark::Frame => Some(frame_line(frame, out)),
        Mark::Item(at, items) => item_line(tail, at, items, out),
        Mark::DataPath(item, next, items) => {
            let n = data_path_line(tlvs::value(tail, item), out);
            Some((n, Mark::Item(next, items)))
        }
        Mark::Synchronization(item, next, items) => {
            let n = synchronization_line(tlvs::value(tail, item), out);
            Some((n, Mark::Item(next, items)))
        }
        Mark::End => None,
    }
}
