//! What is written beside the replies: why a run ended as it did, and what the program says of itself. `main` calls it.
ghost use Rattle.std.specs.Prelude.{◌≡◌};

use crate::usage::Fault;
use rb_layout::VERSION;
use rb_rawfile::Cause;
use rb_shell::Status;
use rb_words::Question;
use std::fmt::{self, Display, Formatter, Write};
use std::io;

const FORMS: &str = "rbsh FILE format tables=N blocks=N segments=N log=N
rbsh FILE run frames=N
rbsh FILE gen N
rbsh --version
rbsh --help";

// The ranges of the numbers, as `rb_words` takes them.
const RANGES: &str =
    "N is decimal, without leading zeros: tables 1 to 16, blocks 1 to 4096, segments 1 to 16,
log 64 to 4096, frames 16 to 4096, gen 0 to 1000000.";

/// How a run ended, and what is known of why.
#[derive(Clone, Copy)]
pub struct Ended<'a> {
    pub status: Status,
    /// The file that the first word names.
    pub file: &'a str,
    /// Which word is wrong, where the words have none of the forms.
    pub fault: Option<Fault<'a>>,
    /// Of the script's source, the file and the replies' sink: why the last call that failed did so. Of the file also
    /// that there is none.
    pub source: Option<io::Error>,
    pub disk: Option<Cause>,
    pub sink: Option<io::Error>,
}

impl<'a> Ended<'a> {
    /// A run that ended with this status before it had a file or a stream.
    pub fn by(status: Status) -> Ended<'a>
        ensures status { result.status ≡ status }
    {
        Ended {
            status,
            file: "",
            fault: None,
            source: None,
            disk: None,
            sink: None,
        }
    }
}

/// A word in one line: what would end the line, or command a terminal, is shown as a question mark.
#[derive(Clone, Copy)]
pub struct OneLine<'a>(pub &'a str);

impl Display for OneLine<'_> {
    fn fmt<W: Write>(&self, f: &mut Formatter<W>) -> fmt::Result {
        for letter in self.0.chars() {
            f.write_char(if letter.is_control() { '?' } else { letter })?;
        }
        Ok(())
    }
}

// A cause, where one is known.
#[derive(Clone, Copy)]
struct Known<T>(Option<T>);

impl<T: Display> Display for Known<T> {
    fn fmt<W: Write>(&self, f: &mut Formatter<W>) -> fmt::Result {
        match &self.0 {
            Some(cause) => Display::fmt(cause, f),
            None => f.write_str("a call failed"),
        }
    }
}

/// Says on standard error how the run ended and why, in one line, where all wasn't done. Behind words that have no form
/// the forms follow.
pub fn report(rt: &HostRuntime, ended: &Ended<'_>) -> io::Result<()> {
    let name = ended.status.name();
    let file = OneLine(ended.file);
    match ended.status {
        Status::Done => Ok(()),
        Status::Usage => {
            match ended.fault {
                Some(fault) => eprintln!(rt; "{name}: {fault}")?,
                None => eprintln!(rt; "{name}: the words have none of these forms")?,
            }
            eprintln!(rt; "{FORMS}\n{RANGES}")
        }
        Status::SourceFault => eprintln!(rt; "{name}: standard input: {}", Known(ended.source)),
        Status::DiskFault => eprintln!(rt; "{name}: {file}: {}", Known(ended.disk)),
        Status::SinkFault => eprintln!(rt; "{name}: standard output: {}", Known(ended.sink)),
        Status::NotAStore => match ended.disk {
            Some(cause) => eprintln!(rt; "{name}: {file}: {cause}"),
            None => eprintln!(rt;
                "{name}: {file}: not a store, or a damaged one; tools/inspect says what is wrong"
            ),
        },
        Status::NoMemory => eprintln!(rt; "{name}: out of memory, nothing was done"),
        Status::NotEmpty => eprintln!(rt; "{name}: {file}: the file isn't empty"),
        Status::TooLong => eprintln!(rt; "{name}: standard input: 1000000000 bytes or more"),
    }
}

/// Answers on standard output what is asked of the program itself.
pub fn answer(rt: &HostRuntime, question: Question) -> io::Result<()> {
    match question {
        Question::Version => println!(rt;
            "rbsh, form {VERSION} of the file; forms 101 to 104 were before the first release"
        ),
        Question::Help => println!(rt; "{FORMS}\n{RANGES}"),
    }
}
