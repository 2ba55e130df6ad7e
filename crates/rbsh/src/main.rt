//! The program `rbsh`: hands the words of the command line, standard input, standard output and the file that the
//! first word names to the shell, and ends with its status.
#![tactic(auto)]

ghost use Rattle.std.specs.Prelude.{◌≡◌, ◌⊎◌, ◌≤◌, ℕ, IfErr};
ghost use Rattle.std.specs.Process.{exit_status};
ghost use Rattle.rb_layout.specs.declared.layout.Layout.{Layout};
ghost use Rattle.rb_shell.specs.Statuses.{EndsFormat, EndsGenerator, EndsRun, status_code};
ghost use Rattle.rb_words.specs.Words.{AsksFormat, AsksGen, AsksRun, IsUsage};

mod progress;
mod report;
mod usage;

use crate::progress::Progress;
use crate::report::{Ended, answer, report};
use crate::usage::find_fault;
use rb_filedisk::FileDisk;
use rb_shell::{Status, run};
use rb_stream::{StdSink, StdSource};
use rb_words::{Question, parse_question};
use std::env;
use std::io::ErrorKind;
use std::process::ExitCode;

// The words after the program's name.
fn words(rt: &HostRuntime) -> Result<Vec<String>, Status>
    ensures { IfErr result (λ status. (status ≡ Status.NoMemory) ⊎ (status ≡ Status.Usage)) }
{
    let mut args = match env::args(rt) {
        Ok(args) => args,
        Err(error) if error.kind() == ErrorKind::OutOfMemory => return Err(Status::NoMemory),
        // A word is no text.
        Err(_) => return Err(Status::Usage),
    };
    let _ = args.next();
    args.collect(rt.alloc()).map_err(|_| Status::NoMemory)
}

// Does what the words ask for. These are the clauses of `run` that a real file and real streams leave something of.
fn run_words<'a>(rt: &HostRuntime, words: &'a [String]) -> Ended<'a>
    ensures usage { result.status ≡ Status.Usage → IsUsage words.now }
    ensures other_words { IsUsage words.now
        → (result.status ≡ Status.Usage) ⊎ (result.status ≡ Status.NoMemory) }
    ensures format_ends { (l : Layout) → AsksFormat words.now l → EndsFormat result.status }
    ensures run_ends { (n : ℕ) → AsksRun words.now n → EndsRun result.status }
    ensures gen_ends { (n : ℕ) → AsksGen words.now n → EndsGenerator result.status }
{
    let file = match words.first() {
        Some(file) => file.as_str(),
        None => "",
    };
    let progress = Progress::begin(rt);
    let mut source = StdSource::new(rt.stdin());
    let mut sink = StdSink::watched(rt.stdout(), &progress);
    let disk = FileDisk::at(rt, file);
    let (status, disk) = run(rt.alloc(), words, &mut source, &mut sink, disk);
    progress.wipe();
    Ended {
        status,
        file,
        fault: find_fault(words),
        source: source.error(),
        disk: disk.into_cause(),
        sink: sink.error(),
    }
}

// Answers a question about the program.
fn answer_words<'a>(rt: &HostRuntime, question: Question) -> Ended<'a>
    ensures { (result.status ≡ Status.Done) ⊎ (result.status ≡ Status.SinkFault) }
{
    match answer(rt, question) {
        Ok(()) => Ended::by(Status::Done),
        Err(error) => Ended {
            sink: Some(error),
            ..Ended::by(Status::SinkFault)
        },
    }
}

// Says how it ended, and gives the number that the process ends with.
fn end(rt: &HostRuntime, ended: &Ended<'_>) -> ExitCode
    ensures { exit_status result ≡ status_code ended.now.status }
{
    // Where standard error can't be written to, the status still tells.
    let _ = report(rt, ended);
    ExitCode::from(ended.status.code())
}

// Answers a question about the program, or does what the words ask for over a file. A question asks for no file, so of
// other words it says what `run_words` says.
fn do_words<'a>(rt: &HostRuntime, words: &'a [String]) -> Ended<'a>
    ensures usage { result.status ≡ Status.Usage → IsUsage words.now }
    ensures format_ends { (l : Layout) → AsksFormat words.now l → EndsFormat result.status }
    ensures run_ends { (n : ℕ) → AsksRun words.now n → EndsRun result.status }
    ensures gen_ends { (n : ℕ) → AsksGen words.now n → EndsGenerator result.status }
{
    match parse_question(words) {
        Some(question) => answer_words(rt, question),
        None => run_words(rt, words),
    }
}

// Does what the process was started for, and gives the number that it ends with.
fn end_of(rt: &HostRuntime) -> ExitCode
    ensures { exit_status result ≤ 8 }
{
    match words(rt) {
        Ok(words) => end(rt, &do_words(rt, &words)),
        Err(status) => end(rt, &Ended::by(status)),
    }
}

fn main(rt: HostRuntime) -> ExitCode {
    end_of(&rt)
}
