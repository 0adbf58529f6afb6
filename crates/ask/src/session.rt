// The lines of the input, each a question, and their answers.
use crate::buffers::Buffers;
use crate::calls::answer;
use crate::output::{Answered, Fault, Output};
use crate::words::Words;
use arrayvec::ArrayVec;
use std::io::{Stdout, Write};

// The longest line that is taken.
const LONGEST: usize = 16384;

// The line so far has room for one letter more than is taken, which tells that there are more.
#[derive(Drop)]
pub(crate) struct Session {
    line: ArrayVec<u8, 16385>,
    buffers: Buffers,
    out: Output,
}

fn ask(line: &[u8], buffers: &mut Buffers, out: &mut Output) -> Answered {
    if LONGEST < line.len() {
        return Err(Fault::BadQuestion);
    }
    let mut words = Words::new(line);
    let name = words.next();
    answer(name, words, buffers, out)
}

// Lines without a word and lines that start with # have no answer, but for those that are too long.
fn is_passed_over(line: &[u8]) -> bool {
    line.len() <= LONGEST && (line.starts_with(b"#") || line.iter().all(|c| *c == b' '))
}

fn answer_line(line: &[u8], buffers: &mut Buffers, out: &mut Output) -> Answered {
    if is_passed_over(line) {
        return Ok(());
    }
    match ask(line, buffers, out) {
        Err(Fault::BadQuestion) => out.text(b"bad question\n"),
        answered => {
            answered?;
            out.text(b"\n")
        }
    }
}

impl Session {
    pub(crate) fn new(stdout: Stdout) -> Session {
        Session {
            line: ArrayVec::new(),
            buffers: Buffers::new(),
            out: Output::new(stdout),
        }
    }

    fn end_line(&mut self) -> Answered {
        answer_line(self.line.as_slice(), &mut self.buffers, &mut self.out)?;
        self.line.clear();
        Ok(())
    }

    // `judge` gathers its lines in the same way, and its `take_block` says why that stands in both.
    pub(crate) fn take_block(&mut self, block: &[u8]) -> Answered {
        for byte in block {
            if *byte == b'\n' {
                self.end_line()?;
            } else {
                let _ = self.line.try_push(*byte);
            }
        }
        self.out.flush()?;
        Ok(())
    }

    // The last line may lack its line feed.
    pub(crate) fn finish(&mut self) -> Answered {
        self.end_line()?;
        self.out.flush()?;
        Ok(())
    }
}
