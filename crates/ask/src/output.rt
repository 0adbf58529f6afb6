// Answers are gathered in a block, which is written where the next word has no room.
use crate::record::{Pass, Record};
use crate::value::Value;
use arrayvec::ArrayVec;
use std::io;
use std::io::{Stdout, Write};
use wire::Refusal;

// Why a question has no answer.
#[derive(Clone, Copy, Debug, PartialEq, Eq, Hash)]
pub(crate) enum Fault {
    BadQuestion,
    Unread,
    Unwritten,
}

impl From<io::Error> for Fault {
    fn from(_error: io::Error) -> Fault {
        Fault::Unwritten
    }
}

pub(crate) type Answered = Result<(), Fault>;

#[derive(Drop)]
pub(crate) struct Output {
    stdout: Stdout,
    block: ArrayVec<u8, 65536>,
}

// What does not fit goes whole into the next block, so that a word or a number is never in two (long bytes go by parts): one whose
// output takes no more has all that was written, up to the end of a word.
impl Write for Output {
    fn write(&mut self, buf: &[u8]) -> io::Result<usize> {
        self.make_room(buf.len())?;
        self.block.write(buf)
    }

    // At once, where the library's would go on as long as less is taken. What is longer than a block goes past it: the block is empty then.
    fn write_all(&mut self, buf: &[u8]) -> io::Result<()> {
        self.make_room(buf.len())?;
        if self.block.try_extend_from_slice(buf).is_err() {
            return self.stdout.write_all(buf);
        }
        Ok(())
    }

    fn flush(&mut self) -> io::Result<()> {
        self.stdout.write_all(self.block.as_slice())?;
        self.block.clear();
        Ok(())
    }
}

// A field is shown behind a space and its name.
impl Pass for Output {
    fn pass<T: Value>(&mut self, name: &[u8], value: T) -> Result<T, Fault> {
        self.write_all(b" ")?;
        self.named(name, value)?;
        Ok(value)
    }
}

impl Output {
    pub(crate) fn new(stdout: Stdout) -> Output {
        Output {
            stdout,
            block: ArrayVec::new(),
        }
    }

    // A block that has no room for so many bytes is written.
    pub(crate) fn make_room(&mut self, n: usize) -> io::Result<()> {
        if self.block.remaining_capacity() < n {
            self.flush()?;
        }
        Ok(())
    }

    // A word and the value behind it.
    pub(crate) fn named<T: Value>(&mut self, name: &[u8], value: T) -> io::Result<()> {
        self.write_all(name)?;
        value.show(self)
    }

    fn some_hex(&mut self, bytes: &[u8]) -> io::Result<()> {
        let mut digits = [0u8; 1024];
        self.make_room(16384)?;
        for some in bytes.chunks(512) {
            let n = text::put_hex(&mut digits, 0, some);
            self.write_all(&digits[..n])?;
        }
        Ok(())
    }

    // Bytes in hex, some thousand at a time, so that each part has room, and a sign where there are none.
    pub(crate) fn hex(&mut self, bytes: &[u8]) -> io::Result<()> {
        if bytes.is_empty() {
            return self.write_all(b"-");
        }
        for some in bytes.chunks(8192) {
            self.some_hex(some)?;
        }
        Ok(())
    }

    pub(crate) fn named_hex(&mut self, name: &[u8], bytes: &[u8]) -> Answered {
        self.write_all(name)?;
        self.hex(bytes)?;
        Ok(())
    }

    pub(crate) fn text(&mut self, words: &[u8]) -> Answered {
        self.write_all(words)?;
        Ok(())
    }

    // What an answer begins with: the number of its refusal, or 0, and its offset.
    fn begin(&mut self, number: u8, offset: usize) -> Answered {
        number.show(self)?;
        self.named(b" offset=", offset)?;
        Ok(())
    }

    // The same of an answer without a refusal, as one word.
    pub(crate) fn accepted(&mut self) -> Answered {
        self.text(b"0 offset=0")
    }

    // The number beside a refusal is the channel that one of them carries.
    pub(crate) fn number<T: Value>(&mut self, name: &[u8], answer: Result<T, Refusal>) -> Answered {
        match answer {
            Ok(number) => {
                self.begin(0, 0)?;
                self.pass(name, number)?;
            }
            Err(why) => {
                self.begin(why.number(), why.offset())?;
                self.pass(name, why.channel())?;
            }
        }
        Ok(())
    }

    // Beside a refusal the zero record is shown.
    pub(crate) fn record<R: Record>(&mut self, answer: Result<R, Refusal>) -> Answered {
        match answer {
            Ok(record) => {
                self.begin(0, 0)?;
                record.through(self)?;
            }
            Err(why) => {
                self.begin(why.number(), why.offset())?;
                R::default().through(self)?;
            }
        }
        Ok(())
    }

    // What a reader answers: a size or the place behind the record, and the record.
    pub(crate) fn read<R: Record>(
        &mut self,
        name: &[u8],
        answer: Result<(R, usize), Refusal>,
    ) -> Answered {
        match answer {
            Ok((record, size)) => {
                self.number(name, Ok(size))?;
                record.through(self)?;
            }
            Err(why) => {
                self.number::<usize>(name, Err(why))?;
                R::default().through(self)?;
            }
        }
        Ok(())
    }

    // What a writer answers, and the buffer behind it.
    pub(crate) fn wrote(&mut self, size: Result<usize, Refusal>, lent: &[u8]) -> Answered {
        self.number(b"size=", size)?;
        self.named_hex(b" buffer=", lent)
    }
}
