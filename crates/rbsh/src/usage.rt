//! Which word of a command line that has none of the forms is wrong, and what is to stand in its place. `report` shows
//! it.
use crate::report::OneLine;
use rb_base::parse_decimal;
use std::fmt::{self, Display, Formatter, Write};

/// A number that a command takes: the text in front of it, the least and the greatest.
#[derive(Clone, Copy)]
pub struct Parameter {
    name: &'static str,
    least: u64,
    most: u64,
}

const FORMAT: [Parameter; 4] = [
    Parameter {
        name: "tables=",
        least: 1,
        most: 16,
    },
    Parameter {
        name: "blocks=",
        least: 1,
        most: 4096,
    },
    Parameter {
        name: "segments=",
        least: 1,
        most: 16,
    },
    Parameter {
        name: "log=",
        least: 64,
        most: 4096,
    },
];

const RUN: [Parameter; 1] = [Parameter {
    name: "frames=",
    least: 16,
    most: 4096,
}];

const GEN: [Parameter; 1] = [Parameter {
    name: "",
    least: 0,
    most: 1_000_000,
}];

impl Parameter {
    // Whether a word is this parameter with a number in its range.
    fn takes(self, word: &str) -> bool {
        match word.as_bytes().strip_prefix(self.name.as_bytes()) {
            Some(digits) => match parse_decimal(digits) {
                Some(number) => self.least <= number && number <= self.most,
                None => false,
            },
            None => false,
        }
    }
}

/// What is wrong with the words of a command line.
#[derive(Clone, Copy)]
pub enum Fault<'a> {
    /// There is no word.
    NoFile,
    /// The first word can't name a file: it is empty, or begins with a minus.
    NotAFile(&'a str),
    /// Nothing follows the file.
    NoCommand,
    /// The second word is no command.
    NotACommand(&'a str),
    /// No word stands where a number is wanted.
    Missing(Parameter),
    /// Another word stands where this number is wanted.
    NotANumber(&'a str, Parameter),
    /// This word comes behind all that are wanted.
    TooMany(&'a str),
}

impl Display for Fault<'_> {
    /// Writes the fault as the end of a sentence, in one line.
    fn fmt<W: Write>(&self, f: &mut Formatter<W>) -> fmt::Result {
        match self {
            Fault::NoFile => f.write_str("no file is named"),
            Fault::NotAFile(word) => write!(f, "'{}' names no file", OneLine(word)),
            Fault::NoCommand => f.write_str("no command follows the file"),
            Fault::NotACommand(word) => {
                write!(f, "'{}' is no command: format, run, gen", OneLine(word))
            }
            Fault::Missing(wanted) => {
                write!(
                    f,
                    "{}N is missing, N {} to {}",
                    wanted.name, wanted.least, wanted.most
                )
            }
            Fault::NotANumber(word, wanted) => write!(
                f,
                "'{}' stands for {}N, N {} to {}",
                OneLine(word),
                wanted.name,
                wanted.least,
                wanted.most
            ),
            Fault::TooMany(word) => write!(f, "'{}' is one word too many", OneLine(word)),
        }
    }
}

/// The first fault of words that have none of the forms; None where none of these is found.
pub fn find_fault<'a>(words: &'a [String]) -> Option<Fault<'a>> {
    let [file, words @ ..] = words else {
        return Some(Fault::NoFile);
    };
    if file.is_empty() || file.starts_with('-') {
        return Some(Fault::NotAFile(file.as_str()));
    }
    let [command, words @ ..] = words else {
        return Some(Fault::NoCommand);
    };
    match command.as_str() {
        "format" => number_fault(words, &FORMAT),
        "run" => number_fault(words, &RUN),
        "gen" => number_fault(words, &GEN),
        other => Some(Fault::NotACommand(other)),
    }
}

// The first fault of the words behind a command that takes these numbers.
fn number_fault<'a>(words: &'a [String], wanted: &[Parameter]) -> Option<Fault<'a>> {
    for (place, parameter) in wanted.iter().enumerate() {
        match words.get(place) {
            None => return Some(Fault::Missing(*parameter)),
            Some(word) if !parameter.takes(word.as_str()) => {
                return Some(Fault::NotANumber(word.as_str(), *parameter));
            }
            Some(_) => {}
        }
    }
    let more = words.get(wanted.len())?;
    Some(Fault::TooMany(more.as_str()))
}
