// An image and then queries of 12 bytes each from standard input; a line to standard output for each answer.
//
// The image is the bytes up to its length field. A refused image gives one line and nothing more. What a query is
// answered is `decide`'s; here are only the reads, the writes and the lines. An input that cannot be read, or an output
// that cannot be written, ends the program, which says so on standard error.
#![tactic(auto)]

mod line; // line.rt: an answer as a line
mod source; // source.rt: what standard input holds
mod sink; // sink.rt: standard output
mod answers; // answers.rt: the lines of queries and of what is left
mod serve; // serve.rt: one turn after the other

use crate::serve::{refuse, serve};
use crate::source::{Taken, read_image};
use std::io::{Read, Write};
use std::time::Clock;
use streams::Fault;

fn run<R, I, O>(rt: &R, stdin: &mut I, stdout: &mut O) -> Result<(), Fault>
where
    R: Clock,
    I: Read,
    O: Write,
{
    let mut space = io::large_buffer();
    let (Taken::Whole(have) | Taken::Cut(have)) = read_image(rt, stdin, &mut space)?;
    let image = image::leading(&space[..have]);
    match image::check(image) {
        Err(f) => refuse(rt, stdout, f),
        Ok(()) => serve(rt, stdin, stdout, image),
    }
}

fn main(rt: HostRuntime) {
    if let Err(fault) = run(&rt, &mut rt.stdin(), &mut rt.stdout()) {
        let _ = eprintln!(rt; "permit: {fault}");
    }
}
