// Reads one input and writes its report. What is written is made by the library. What fails is said on standard error, where the
// launcher looks for it, and the exit status is then 1.
#![tactic(auto)]

ghost use Rattle.std.specs.Prelude.{◌<◌, ◌≡◌, length, IfOk};
ghost use Rattle.std.specs.Counts.{IsPrefixLen};

use report::Mark;
use std::io;
use std::io::{Read, Stdin, Stdout};
use std::process::ExitCode;

// It has room for the longest frame and for one byte more, which tells that there is more.
fn room() -> [u8; 4097]
    ensures { 4097 ≡ length result }
{
    [0; 4097]
}

// Reads until the input ends or the space is full: each of these brings no byte. The library's `copy` with `take` would try again
// after a read that was interrupted, where this program says that it cannot read, and ends.
fn read_input(mut stdin: Stdin, space: &mut [u8]) -> io::Result<usize>
    ensures { IfOk result (λ n. IsPrefixLen n space.new) }
{
    let mut at = 0;
    loop {
        let n = stdin.read(&mut space[at..])?;
        if n == 0 {
            return Ok(at);
        }
        at += n;
    }
}

// It stops at the first line that is not written.
fn show(stdout: Stdout, input: &[u8], mark: Mark) -> io::Result<()> {
    let mut line = [0u8; 128];
    let mut at = mark;
    while let Some((n, next)) = report::next_line(input, at, &mut line) {
        stdout.write_all(&line[..n])?;
        at = next;
    }
    Ok(())
}

// What was read is the whole input, or it is too long: the space has more room than the longest frame takes. The number stands
// beside the space, and no part of it is passed alone, since it is the space of which this is asked (the edit no_byte_more).
fn dump(stdout: Stdout, space: &[u8], n: usize) -> io::Result<()>
    requires in_bounds { 4096 < length space.now }
    requires prefix_len { IsPrefixLen n space.now }
{
    let input = &space[..n];
    show(stdout, input, report::dump_start(input))
}

// What is said where it fails. Nothing is shown of an input that could not be read to its end.
fn run(rt: &HostRuntime) -> Result<(), &'static str> {
    let mut space = room();
    let n = read_input(rt.stdin(), &mut space).map_err(|_| "cannot read the input\n")?;
    dump(rt.stdout(), &space, n).map_err(|_| "cannot write\n")
}

fn main(rt: HostRuntime) -> ExitCode {
    let Err(message) = run(&rt) else {
        return ExitCode::SUCCESS;
    };
    let _ = rt.stderr().write_all(message.as_bytes());
    ExitCode::FAILURE
}
