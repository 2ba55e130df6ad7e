//! `Cause`: why a call of a file failed. `FileDisk` keeps that of the last one, and the program's `main` shows it.
ghost use Rattle.std.specs.Prelude.{◌≡◌, ◌≢◌};

use std::fmt::{self, Display, Formatter, Write};
use std::io::{self, ErrorKind};

/// Why a call of a file failed.
#[derive(Clone, Copy)]
pub enum Cause {
    /// Another run has the file.
    InUse,
    /// What the path names has no bytes of its own, as a folder, a fifo or a device.
    NotRegular,
    /// The path names nothing.
    Missing,
    /// The system's error.
    System(io::Error),
}

impl From<io::Error> for Cause {
    ghost use Rattle.std.specs.Prelude.{◌≡◌};
    ghost use Rattle.rb_rawfile.specs.declared.cause.Cause.TheVariants.{System};

    ghost from_gives = { λ error cause. cause ≡ System error };

    fn from(error: io::Error) -> Cause {
        Cause::System(error)
    }
}

impl Cause {
    ghost use Rattle.std.specs.IoError.{error_kind};

    /// Why a file wasn't held. A lock that would have to wait is another run's.
    pub fn of_lock(error: io::Error) -> Cause
        ensures held { error_kind error ≡ ErrorKind.WouldBlock → result ≡ Cause.InUse }
        ensures other { error_kind error ≢ ErrorKind.WouldBlock → result ≡ Cause.System error }
    {
        if error.kind() == ErrorKind::WouldBlock {
            Cause::InUse
        } else {
            Cause::System(error)
        }
    }
}

impl Display for Cause {
    /// Writes the cause as the end of a sentence, in one line.
    fn fmt<W: Write>(&self, f: &mut Formatter<W>) -> fmt::Result {
        match self {
            Cause::InUse => f.write_str("in use by another run"),
            Cause::NotRegular => f.write_str("not a regular file"),
            Cause::Missing => f.write_str("there is no file of this name"),
            Cause::System(error) => Display::fmt(error, f),
        }
    }
}
