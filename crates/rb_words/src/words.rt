//! What the words of the command line ask for. The shell calls it with the words after the program's name.
ghost use Rattle.std.specs.Prelude.{◌∷◌, ◌↔◌};
ghost use Rattle.std.specs.Prelude.{IsTrue, IfSome, IfNone, IfOk};
ghost use Rattle.rb_words.specs.Words.{ArePlain, IsPlain, AskFor};
ghost use Rattle.rb_words.specs.Parts.{SpellRequest, referred};
ghost use Rattle.rb_words.specs.declared.words.Request.{Request};

use crate::numbers::{parse_commands, parse_frames, parse_layout};
use crate::parts::{COMMAND, PARAMETERS, read_parts};
use rb_base::NoMemory;
use rb_layout::Layout;
use std::alloc::Global;

/// What the words ask to do with the file that the first of them names.
#[derive(Clone, Copy, Debug, PartialEq, Eq)]
pub enum Request {
    /// To make it a new file of this layout.
    Format(Layout),
    /// To run a script over it.
    Run {
        /// Frames of the cache, 16 to 4,096.
        frames: u32,
    },
    /// To do commands over it that a generator draws, the same ones each time.
    Gen {
        /// How many commands, at most 1,000,000.
        commands: u32,
    },
}

/// What the words ask for: `FILE format tables=N blocks=N segments=N log=N`, `FILE run frames=N` or `FILE gen N`, the
/// numbers in their ranges and in decimal without leading zeros. None where they are spelled otherwise. Err is for want
/// of memory alone.
pub fn parse_words(alloc: Global, words: &[String]) -> Result<Option<Request>, NoMemory>
    ensures found { IfOk result (λ o. IfSome o (λ request. AskFor words.now request)) }
    ensures none { IfOk result (λ o. IfNone o ((request : Request) → ¬ AskFor words.now request)) }
{
    // No request has a word that is empty or begins with a minus, and what `clap` makes of such a word isn't asked.
    if !are_plain(words) {
        return Ok(None);
    }
    let Some(parts) = read_parts(alloc, words)? else {
        return Ok(None);
    };
    let Some(command) = parts.get_str(COMMAND) else {
        return Ok(None);
    };
    let parameters = parts.get_strs(PARAMETERS).unwrap_or(&[]);
    Ok(request_of(command, parameters))
}

// Whether none of the words is empty or begins with a minus.
fn are_plain(words: &[String]) -> bool
    ensures { IsTrue result ↔ ArePlain words.now }
{
    words.iter().all(|word| is_plain(word.as_str()))
}

// Whether a word isn't empty and begins with no minus.
fn is_plain(word: &str) -> bool
    ensures { IsTrue result ↔ IsPlain word.now }
{
    match word.as_bytes() {
        [] => false,
        [first, ..] => *first != b'-',
    }
}

// What a command and its parameters ask for.
fn request_of(command: &str, parameters: &[&str]) -> Option<Request>
    ensures found { IfSome result (λ request. SpellRequest (command.now ∷ referred parameters.now) request) }
    ensures none { IfNone result ((request : Request)
        → ¬ SpellRequest (command.now ∷ referred parameters.now) request) }
{
    if command == "format" {
        let layout = parse_layout(parameters)?;
        return Some(Request::Format(layout));
    }
    if command == "run" {
        let frames = parse_frames(parameters)?;
        return Some(Request::Run { frames });
    }
    if command == "gen" {
        let commands = parse_commands(parameters)?;
        return Some(Request::Gen { commands });
    }
    None
}
