// The words of a question that are not yet taken: what stands between spaces.
use crate::output::{Answered, Fault};
use crate::record::{Pass, Record};
use crate::value::{Value, among, put_bytes};

#[derive(Clone, Copy)]
pub(crate) struct Words<'a> {
    rest: &'a [u8],
}

// A word may stand behind the name of its field.
impl<'a> Pass for Words<'a> {
    fn pass<T: Value>(&mut self, name: &[u8], _shown: T) -> Result<T, Fault> {
        let word = self.next();
        T::of(word.strip_prefix(name).unwrap_or(word)).ok_or(Fault::BadQuestion)
    }
}

impl<'a> Words<'a> {
    pub(crate) fn new(line: &'a [u8]) -> Words<'a> {
        Words { rest: line }
    }

    // The next word, which is empty at the end.
    pub(crate) fn next(&mut self) -> &'a [u8] {
        let spaces = self.rest.iter().position(|c| *c != b' ');
        let from = &self.rest[spaces.unwrap_or(self.rest.len())..];
        let length = from.iter().position(|c| *c == b' ').unwrap_or(from.len());
        let (word, rest) = from.split_at(length);
        self.rest = rest;
        word
    }

    pub(crate) fn value<T: Value>(&mut self) -> Result<T, Fault> {
        T::of(self.next()).ok_or(Fault::BadQuestion)
    }

    pub(crate) fn among<T: Copy>(&mut self, table: &[(&'static str, T)]) -> Result<T, Fault> {
        among(table, self.next()).ok_or(Fault::BadQuestion)
    }

    pub(crate) fn record<R: Record>(&mut self) -> Result<R, Fault> {
        R::default().through(self)
    }

    // Bytes go into a buffer, which has room for the longest argument.
    pub(crate) fn bytes<'b>(&mut self, buf: &'b mut [u8]) -> Result<&'b mut [u8], Fault> {
        let n = put_bytes(self.next(), buf).ok_or(Fault::BadQuestion)?;
        Ok(&mut buf[..n])
    }

    // Nothing stands behind the arguments.
    pub(crate) fn end(self) -> Answered {
        if self.rest.iter().all(|c| *c == b' ') {
            return Ok(());
        }
        Err(Fault::BadQuestion)
    }

    // This and the two below end the question behind its last argument. As one function they would be handed a closure that takes
    // the argument, which is no shorter.
    pub(crate) fn only_value<T: Value>(mut self) -> Result<T, Fault> {
        let value = self.value()?;
        self.end()?;
        Ok(value)
    }

    pub(crate) fn only_record<R: Record>(mut self) -> Result<R, Fault> {
        let record = self.record()?;
        self.end()?;
        Ok(record)
    }

    pub(crate) fn only_bytes<'b>(mut self, buf: &'b mut [u8]) -> Result<&'b mut [u8], Fault> {
        let bytes = self.bytes(buf)?;
        self.end()?;
        Ok(bytes)
    }
}
