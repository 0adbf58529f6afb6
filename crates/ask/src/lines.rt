// The lines of a frame's report, one at a time and all of them.
use crate::buffers::Buffers;
use crate::output::{Answered, Fault, Output};
use crate::record::{Pass, Record};
use crate::value::{Value, among, name_of};
use crate::words::Words;
use report::Mark;
use std::io;
use std::io::Write;
use tlvs::Item;

#[derive(Clone, Copy, Debug, PartialEq, Eq, Hash)]
pub(crate) enum LineCall {
    DumpStart,
    Lines,
    Dump,
    NextLine,
}

pub(crate) const CALLS: [(&str, LineCall); 4] = [
    ("dump_start", LineCall::DumpStart),
    ("lines", LineCall::Lines),
    ("dump", LineCall::Dump),
    ("next_line", LineCall::NextLine),
];

// What a mark's word says of it. The numbers of the mark stand behind the word.
#[derive(Clone, Copy, Debug, PartialEq, Eq, Hash)]
enum Kind {
    TooLong,
    Frame,
    Item,
    DataPath,
    Synchronization,
    End,
}

const KINDS: [(&str, Kind); 6] = [
    ("too_long", Kind::TooLong),
    ("frame", Kind::Frame),
    ("item", Kind::Item),
    ("data_path", Kind::DataPath),
    ("synchronization", Kind::Synchronization),
    ("end", Kind::End),
];

// As for the `Kind` of data path channels: an impl for every type with a table would overlap with the one for numbers.
impl Value for Kind {
    fn of(word: &[u8]) -> Option<Kind> {
        among(&KINDS, word)
    }

    fn show(self, out: &mut Output) -> io::Result<()> {
        out.write_all(name_of(&KINDS, self))
    }
}

fn kind_of(mark: Mark) -> Kind {
    match mark {
        Mark::TooLong => Kind::TooLong,
        Mark::Frame => Kind::Frame,
        Mark::Item(_, _) => Kind::Item,
        Mark::DataPath(_, _, _) => Kind::DataPath,
        Mark::Synchronization(_, _, _) => Kind::Synchronization,
        Mark::End => Kind::End,
    }
}

// The numbers behind a mark that stands in an item's value. They are passed one by one, as the cases of `Mark` hold them.
fn inner<P: Pass>(
    fields: &mut P,
    item: Item,
    next: usize,
    items: usize,
) -> Result<(Item, usize, usize), Fault> {
    let item = item.through(fields)?;
    let next = fields.pass(b"next=", next)?;
    let items = fields.pass(b"items=", items)?;
    Ok((item, next, items))
}

// The place and the count of a mark, as far as it has them.
fn numbers_of(mark: Mark) -> (Item, usize, usize) {
    match mark {
        Mark::Item(place, items) => (Item::default(), place, items),
        Mark::DataPath(item, next, items) => (item, next, items),
        Mark::Synchronization(item, next, items) => (item, next, items),
        _ => (Item::default(), 0, 0),
    }
}

fn mark<P: Pass>(fields: &mut P, mark: Mark) -> Result<Mark, Fault> {
    let (item, place, items) = numbers_of(mark);
    match fields.pass(b"mark=", kind_of(mark))? {
        Kind::TooLong => Ok(Mark::TooLong),
        Kind::Frame => Ok(Mark::Frame),
        Kind::Item => {
            let place = fields.pass(b"at=", place)?;
            Ok(Mark::Item(place, fields.pass(b"items=", items)?))
        }
        Kind::DataPath => {
            let (item, next, items) = inner(fields, item, place, items)?;
            Ok(Mark::DataPath(item, next, items))
        }
        Kind::Synchronization => {
            let (item, next, items) = inner(fields, item, place, items)?;
            Ok(Mark::Synchronization(item, next, items))
        }
        Kind::End => Ok(Mark::End),
    }
}

fn dump_start(input: &[u8], out: &mut Output) -> Answered {
    out.accepted()?;
    mark(out, report::dump_start(input))?;
    Ok(())
}

fn next_line(mut words: Words<'_>, buffers: &mut Buffers, out: &mut Output) -> Answered {
    let frame = words.bytes(&mut buffers.given)?;
    let start = mark(&mut words, Mark::Frame)?;
    let mut lent: [u8; 128] = words.only_value()?;
    match report::next_line(frame, start, &mut lent) {
        Some((length, next)) => {
            out.named(b"0 offset=0 line length=", length)?;
            mark(out, next)?;
        }
        None => out.text(b"0 offset=0 nothing")?,
    }
    out.named_hex(b" buffer=", &lent)
}

// Each line without its end, behind a bar. Each turn goes on from the mark that the last answer gave.
fn lines(frame: &[u8], start: Mark, out: &mut Output) -> Answered {
    let mut line = [0u8; 128];
    let mut mark = start;
    let mut count = 0usize;
    out.accepted()?;
    while let Some((length, next)) = report::next_line(frame, mark, &mut line) {
        out.text(b" | ")?;
        if let Some((_, words)) = line[..length].split_last() {
            out.text(words)?;
        }
        mark = next;
        count = count.wrapping_add(1);
    }
    out.named(b" | lines=", count)?;
    Ok(())
}

pub(crate) fn answer(
    call: LineCall,
    words: Words<'_>,
    buffers: &mut Buffers,
    out: &mut Output,
) -> Answered {
    if let LineCall::NextLine = call {
        return next_line(words, buffers, out);
    }
    let input = words.only_bytes(&mut buffers.given)?;
    match call {
        LineCall::DumpStart => dump_start(input, out),
        LineCall::Lines => lines(input, Mark::Frame, out),
        _ => lines(input, report::dump_start(input), out),
    }
}
