// A policy as text from standard input; its image to standard output. Where a row is refused nothing is written there, and
// one line to standard error: R, the number, the place of the row's first byte in the text, and the row's number, from 1.
//
// A text may have any length, and rows are added as they come: there is space for 65,536 bytes of rows, and a row in the form
// has at most 460. What a row adds is `extend`'s; here are only the reads, the writes and the line. An input that cannot be
// read, or an output that cannot be written, ends the program, which says so on standard error.
#![tactic(auto)]

mod feeds; // feeds.rt: line feeds in the bytes that have come
mod line; // line.rt: the line of a refused row
mod turn; // turn.rt: a turn, and the end of the input
mod sink; // sink.rt: standard output and standard error
mod stop; // stop.rt: why there is no image
mod run; // run.rt: one turn after the other

use crate::run::run;

fn main(rt: HostRuntime) {
    let mut image = io::large_buffer();
    let _ = extend::build(b"", &mut image);
    let done = run(
        &rt,
        &mut rt.stdin(),
        &mut rt.stdout(),
        &mut rt.stderr(),
        &mut image,
    );
    if let Err(fault) = done {
        let _ = eprintln!(rt; "compile: {fault}");
    }
}
