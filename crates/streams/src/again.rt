// A read or a write that failed: whether to make it again.
ghost use Rattle.std.specs.Prelude.{◌≡◌, IfSome, is_ok};
ghost use Rattle.std.specs.IoError.{raw_os_error};
ghost use Rattle.streams.specs.Input.{try_again};

use std::io::ErrorKind;
use std::time::{Clock, Duration};
use std::{io, thread};

// The system's numbers of the two errors after which a call is made again.
const EINTR: i32 = 4;

const EAGAIN: i32 = 11;

// An interrupted call is made again, and so is one that found nothing there yet.
fn is_again(error: i32) -> bool
    ensures { result ≡ try_again error }
{
    error == EINTR || error == EAGAIN
}

// The same of an error that a reader or a writer gives, which has the system's number if the system gave it.
fn is_passing(error: &io::Error) -> bool
    ensures { IfSome (raw_os_error error.now) (λ e. result ≡ try_again e) }
{
    match error.raw_os_error() {
        Some(number) => is_again(number),
        None => matches!(error.kind(), ErrorKind::Interrupted | ErrorKind::WouldBlock),
    }
}

// After a call that failed with this error: waits a millisecond where the call may be made again, and gives the error back where
// it may not.
pub(crate) fn retry<R: Clock>(rt: &R, error: io::Error) -> io::Result<()>
    ensures { IfSome (raw_os_error error) (λ e. is_ok result ≡ try_again e) }
{
    if !is_passing(&error) {
        return Err(error);
    }
    thread::sleep(rt, Duration::from_millis(1));
    Ok(())
}
