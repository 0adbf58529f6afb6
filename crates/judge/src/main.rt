// Judges channels: the input is lines, and each question of it is answered as soon as it has ended. What fails is said on standard
// error, where the launcher looks for it, and the exit status is then 1.
#![tactic(auto)]

mod judge;
mod question;
mod session;

use session::{Failure, Session};
use std::io::{Read, Stdin, Stdout};
use std::process::ExitCode;

// Each loop has to be proved to end, and nothing gets less as blocks are read: the range is there so that this one ends, and no
// input has as many blocks. `ask` reads its blocks in the same way, and `take_block` says why that stands in both.
fn answer_all(mut stdin: Stdin, stdout: Stdout) -> Result<(), Failure> {
    let mut session = Session::new(stdout);
    let mut block = [0u8; 65536];
    for _ in 0..u64::MAX {
        let n = stdin.read(&mut block).map_err(|_| Failure::Unread)?;
        if n == 0 {
            break;
        }
        session.take_block(&block[..n])?;
    }
    session.finish()
}

fn main(rt: HostRuntime) -> ExitCode {
    match answer_all(rt.stdin(), rt.stdout()) {
        Ok(()) => ExitCode::SUCCESS,
        Err(failure) => {
            let _ = rt.stderr().write_all(failure.message());
            ExitCode::FAILURE
        }
    }
}
