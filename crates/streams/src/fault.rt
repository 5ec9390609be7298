// A stream that failed.
use std::io::{Cursor, Write};
use std::{fmt, io};

// Which of a program's streams could not be read or written, and why. It is said as `standard input: Input/output error`.
#[derive(Clone, Copy)]
pub enum Fault {
    Input(io::Error),
    Output(io::Error),
    Errors(io::Error),
}

// Longer than any text that the system has for an error.
const TEXT: usize = 1024;

// An error's text without the system's number of it, which std puts behind.
fn reason(text: &str) -> &str {
    match text.split_once(" (os error ") {
        Some((words, _)) => words,
        None => text,
    }
}

impl fmt::Display for Fault {
    fn fmt<W: fmt::Write>(&self, f: &mut fmt::Formatter<W>) -> fmt::Result {
        let (stream, error) = match self {
            Fault::Input(error) => ("standard input", error),
            Fault::Output(error) => ("standard output", error),
            Fault::Errors(error) => ("standard error", error),
        };
        let mut text = Cursor::new([0u8; TEXT]);
        let _ = write!(text, "{error}");
        let end = text.position() as usize;
        let text = text.into_inner();
        match str::from_utf8(&text[..end.min(TEXT)]) {
            Ok(text) => write!(f, "{stream}: {}", reason(text)),
            Err(_) => write!(f, "{stream}: {error}"),
        }
    }
}
