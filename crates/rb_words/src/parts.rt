//! The words as one file, one command and a list of parameters, read by `clap`. `parse_words` calls it.
ghost use Rattle.std.specs.Prelude.{◌≡◌, ◌≢◌, ◌<◌, length};
ghost use Rattle.std.specs.Prelude.{IfOk, IfErr, IsErrAnd, IfSome, IfNone};
ghost use Rattle.clap.specs.Words.{app_of, kind_of};
ghost use Rattle.rb_words.specs.Words.{texts, ArePlain};
ghost use Rattle.rb_words.specs.Parts.{form, HasParts};

use clap::error::ErrorKind;
use clap::{Arg, ArgMatches, Command, Error};
use rb_base::NoMemory;
use std::alloc::{AllocError, Global};

/// Where the matches have the word of the command.
pub(crate) const COMMAND: &str = "command";

/// Where the matches have the parameters of the command.
pub(crate) const PARAMETERS: &str = "parameters";

/// The words by their parts, where none is empty or begins with a minus. None where they are fewer than two. Err is for
/// want of memory alone.
pub(crate) fn read_parts<'a>(
    alloc: Global,
    words: &'a [String],
) -> Result<Option<ArgMatches<'a>>, NoMemory>
    requires { ArePlain words.now }
    ensures parts { IfOk result (λ o. IfSome o (λ m. HasParts m (texts words.now))) }
    ensures few { IfOk result (λ o. IfNone o (length words.now < 2)) }
{
    let Ok(form) = form_of_words(alloc) else {
        return Err(NoMemory);
    };
    parts_of(form.try_get_matches_from(words))
}

// What a parse comes to: Err is for want of memory, and any other error says that the words are no such parts.
fn parts_of(parse: Result<ArgMatches<'_>, Error>) -> Result<Option<ArgMatches<'_>>, NoMemory>
    ensures parts { IfOk result (λ o. IfSome o (λ m. parse.entry ≡ Ok m)) }
    ensures refused { IfOk result (λ o. IfNone o (IsErrAnd parse.entry (λ e. kind_of e ≢ ErrorKind.OutOfMemory))) }
    ensures memory { IfErr result (λ _. IsErrAnd parse.entry (λ e. kind_of e ≡ ErrorKind.OutOfMemory)) }
{
    match parse {
        Ok(matches) => Ok(Some(matches)),
        Err(error) => match error.kind() {
            ErrorKind::OutOfMemory => Err(NoMemory),
            _ => Ok(None),
        },
    }
}

// A file, a command and any number of parameters. No word asks for help, and none is the program's name.
fn form_of_words<'a>(alloc: Global) -> Result<Command<'a>, AllocError>
    ensures { IfOk result (λ command. app_of command ≡ form) }
{
    let file = Arg::new(alloc, "file").required(true);
    let command = Arg::new(alloc, COMMAND).required(true);
    let parameters = Arg::new(alloc, PARAMETERS).num_args(0..);
    Command::new(alloc, "rbsh")
        .no_binary_name(true)
        .disable_help_flag(true)
        .arg(file)?
        .arg(command)?
        .arg(parameters)
}
