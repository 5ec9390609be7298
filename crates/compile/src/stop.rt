// Why there is no image.
ghost use Rattle.std.specs.Prelude.{◌≡◌};
ghost use Rattle.compile.specs.declared.stop.Stop.TheVariants.{Row, Stream};

use lines::RowRefusal;
use streams::Fault;

// A row that is refused, or a stream that failed.
#[derive(Clone, Copy)]
pub(crate) enum Stop {
    Row(RowRefusal),
    Stream(Fault),
}

impl From<RowRefusal> for Stop {
    ghost from_gives = { λ f s. s ≡ Row f };

    fn from(f: RowRefusal) -> Stop {
        Stop::Row(f)
    }
}

impl From<Fault> for Stop {
    ghost from_gives = { λ f s. s ≡ Stream f };

    fn from(fault: Fault) -> Stop {
        Stop::Stream(fault)
    }
}
