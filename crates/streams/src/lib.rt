// What the programs do: reads and writes that are made again where the system says so, numbers put into a buffer, and what is
// kept of a read.
#![tactic(auto)]

mod again; // again.rt: a call that is made again
mod fault; // fault.rt: a stream that failed
mod source; // source.rt: a read
mod sink; // sink.rt: a write
mod number; // number.rt: bytes and numbers, from a place of a buffer on
mod rest; // rest.rt: what is left of the bytes that have come

pub use fault::Fault;
pub use number::{put_byte, put_field, put_line, put_refusal};
pub use rest::keep_rest;
pub use sink::write_all;
pub use source::{read_between, read_some};
