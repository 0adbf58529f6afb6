// The lines of the input, and the question that they are of.
use crate::judge::put_answer;
use crate::question::{Bad, Question};
use arrayvec::ArrayVec;
use std::io::Stdout;

// What ends the program before the end of its input.
#[derive(Clone, Copy, Debug, PartialEq, Eq, Hash)]
pub(crate) enum Failure {
    Unread,
    Unwritten,
}

impl Failure {
    pub(crate) fn message(self) -> &'static [u8] {
        match self {
            Failure::Unread => b"cannot read the input\n",
            Failure::Unwritten => b"cannot write\n",
        }
    }
}

// The question so far, whether it is good, where there is a line of one, and where its answer goes. The first thing that is bad is
// what is answered, so that a question which is bad stays as it is. The question stays in its place and is emptied for the next one:
// it has room for all of its sequences, and to hand it on line by line took longer than the line (docs/SPEED.md).
#[derive(Drop)]
struct Asked {
    stdout: Stdout,
    question: Question,
    good: Option<Result<(), Bad>>,
}

impl Asked {
    fn show(&self) -> Result<(), Failure> {
        let Some(good) = self.good else {
            return Ok(());
        };
        let mut out = ArrayVec::new();
        put_answer(&mut out, good, &self.question).map_err(|_| Failure::Unwritten)?;
        self.stdout
            .write_all(out.as_slice())
            .map_err(|_| Failure::Unwritten)
    }

    // Lines before the first list are a question of their own.
    fn take_line(&mut self, line: &[u8]) -> Result<(), Failure> {
        if line.starts_with(b"permitted ") {
            self.show()?;
            self.question.clear();
            self.good = Some(self.question.permit(line));
            return Ok(());
        }
        self.good = Some(match self.good {
            Some(Err(bad)) => Err(bad),
            _ => self.question.take(line),
        });
        Ok(())
    }
}

// The line so far has room for one character more than is taken, which tells that there are more.
#[derive(Drop)]
pub(crate) struct Session {
    line: ArrayVec<u8, 8199>,
    asked: Asked,
}

impl Session {
    pub(crate) fn new(stdout: Stdout) -> Session {
        Session {
            line: ArrayVec::new(),
            asked: Asked {
                stdout,
                question: Question::new(),
                good: None,
            },
        }
    }

    fn end_line(&mut self) -> Result<(), Failure> {
        self.asked.take_line(self.line.as_slice())?;
        self.line.clear();
        Ok(())
    }

    // `ask` reads its blocks and gathers its lines in the same way. The two differ in what they do at a failed read, at the end
    // of a block and at the end of the input, and no crate below both reads input: one for these few lines is no plainer.
    pub(crate) fn take_block(&mut self, block: &[u8]) -> Result<(), Failure> {
        for byte in block {
            if *byte == b'\n' {
                self.end_line()?;
            } else {
                let _ = self.line.try_push(*byte);
            }
        }
        Ok(())
    }

    // The last line may lack its line feed, and the last question has no other behind it.
    pub(crate) fn finish(mut self) -> Result<(), Failure> {
        if !self.line.is_empty() {
            self.end_line()?;
        }
        self.asked.show()
    }
}
