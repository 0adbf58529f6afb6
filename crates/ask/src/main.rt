// Answers questions, a line each. What fails is said on standard error, where the launcher looks for it, and the exit status is
// then 1.
#![tactic(auto)]

mod buffers;
mod calls;
mod channels;
mod constants;
mod data_path;
mod frames;
mod items;
mod judging;
mod lines;
mod output;
mod record;
mod records;
mod searches;
mod sequences;
mod session;
mod synchronization;
mod value;
mod words;

use output::{Answered, Fault};
use session::Session;
use std::io::{Read, Stdin, Stdout};
use std::process::ExitCode;

// Answers are written before more is read, so that one who waits for them has them. Each loop has to be proved to end, and
// nothing gets less as blocks are read: the range is there so that this one ends, and no input has as many blocks. `judge` reads
// its blocks in the same way, and its `take_block` says why that stands in both.
fn answer_blocks(mut stdin: Stdin, session: &mut Session) -> Answered {
    let mut block = [0u8; 65536];
    for _ in 0..u64::MAX {
        let n = stdin.read(&mut block).map_err(|_| Fault::Unread)?;
        if n == 0 {
            break;
        }
        session.take_block(&block[..n])?;
    }
    Ok(())
}

// What stood before a read that failed is answered too.
fn answer_all(stdin: Stdin, stdout: Stdout) -> Answered {
    let mut session = Session::new(stdout);
    let read = answer_blocks(stdin, &mut session);
    if read == Err(Fault::Unwritten) {
        return read;
    }
    let answered = session.finish();
    read.and(answered)
}

fn main(rt: HostRuntime) -> ExitCode {
    let message = match answer_all(rt.stdin(), rt.stdout()) {
        Ok(()) => return ExitCode::SUCCESS,
        Err(Fault::Unread) => b"cannot read the input\n".as_slice(),
        Err(Fault::BadQuestion | Fault::Unwritten) => b"cannot write\n".as_slice(),
    };
    let _ = rt.stderr().write_all(message);
    ExitCode::FAILURE
}
