// An old image from standard input; the new one, without twins, to standard output. Where it is refused nothing is written
// there, and one line to standard error: R, the number and the place.
//
// The image is the whole input. There is space for 65,536 bytes of it, one more than a length field can say: an input that fills
// it is refused, and is read no further. What is converted is `rewrite`'s; here are only the reads, the writes and the line. An
// input that cannot be read, or an output that cannot be written, ends the program, which says so on standard error.
#![tactic(auto)]

mod source; // source.rt: standard input
mod sink; // sink.rt: standard output and standard error
mod answer; // answer.rt: what is written for the bytes that were read

use crate::answer::answer;
use crate::source::read_input;
use std::io::{Read, Write};
use std::time::Clock;
use streams::Fault;

fn run<R, I, O, E>(rt: &R, stdin: &mut I, stdout: &mut O, stderr: &mut E) -> Result<(), Fault>
where
    R: Clock,
    I: Read,
    O: Write,
    E: Write,
{
    let mut space = io::large_buffer();
    let n = read_input(rt, stdin, &mut space)?;
    answer(rt, stdout, stderr, &space[..n])
}

fn main(rt: HostRuntime) {
    if let Err(fault) = run(&rt, &mut rt.stdin(), &mut rt.stdout(), &mut rt.stderr()) {
        let _ = eprintln!(rt; "convert: {fault}");
    }
}
