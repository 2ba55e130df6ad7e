//! The parameters of each command, as numbers in their ranges. `parse_words` calls them.
ghost use Rattle.std.specs.Prelude.{◌≡◌, ◌≢◌, ℕ, ◌<◌, ◌≤◌, ◌^◌, ◌++◌, ◌∷◌, []};
ghost use Rattle.std.specs.Prelude.{IfSome, IfNone};
ghost use Rattle.std.specs.Fmt.{decimal};
ghost use Rattle.rb_layout.specs.declared.layout.Layout.{Layout};
ghost use Rattle.rb_words.specs.Words.{layout_words, frames_words};
ghost use Rattle.rb_words.specs.Parts.{referred};

use rb_base::parse_decimal;
use rb_layout::Layout;

const FEWEST_FRAMES: u32 = 16;

const MOST_FRAMES: u32 = 4096;

const MOST_COMMANDS: u32 = 1_000_000;

/// The layout that the words behind `format` spell.
pub(crate) fn parse_layout(parameters: &[&str]) -> Option<Layout>
    ensures found { IfSome result (λ l. referred parameters.now ≡ layout_words l) }
    ensures none { IfNone result ((l : Layout) → referred parameters.now ≢ layout_words l) }
{
    let [tables, blocks, segments, log] = parameters else {
        return None;
    };
    let tables = short_number(tables, "tables=")?;
    let blocks = number(blocks, "blocks=")?;
    let segments = short_number(segments, "segments=")?;
    let log = number(log, "log=")?;
    Layout::new(tables, blocks, segments, log)
}

/// The number of frames that the words behind `run` spell.
pub(crate) fn parse_frames(parameters: &[&str]) -> Option<u32>
    ensures found { IfSome result (λ n. (16 ≤ n) × (n ≤ 4096) × (referred parameters.now ≡ frames_words n)) }
    ensures none { IfNone result ((n : ℕ) → 16 ≤ n → n ≤ 4096
        → referred parameters.now ≢ frames_words n) }
{
    let [frames] = parameters else {
        return None;
    };
    let frames = number(frames, "frames=")?;
    if frames < FEWEST_FRAMES || frames > MOST_FRAMES {
        return None;
    }
    Some(frames)
}

/// The number of commands that the words behind `gen` spell.
pub(crate) fn parse_commands(parameters: &[&str]) -> Option<u32>
    ensures found { IfSome result (λ n. (n ≤ 1000000) × (referred parameters.now ≡ decimal n ∷ [])) }
    ensures none { IfNone result ((n : ℕ) → n ≤ 1000000 → referred parameters.now ≢ decimal n ∷ []) }
{
    let [commands] = parameters else {
        return None;
    };
    let commands = number(commands, "")?;
    if commands > MOST_COMMANDS {
        return None;
    }
    Some(commands)
}

// The number behind a name, where it is one of 16 bits.
fn short_number(word: &str, name: &str) -> Option<u16>
    ensures found { IfSome result (λ n. word.now ≡ name.now ++ decimal n) }
    ensures none { IfNone result ((n : ℕ) → n < 2 ^ 16 → word.now ≢ name.now ++ decimal n) }
{
    let number = number_of(word, name)?;
    u16::try_from(number).ok()
}

// The number behind a name, where it is one of 32 bits.
fn number(word: &str, name: &str) -> Option<u32>
    ensures found { IfSome result (λ n. word.now ≡ name.now ++ decimal n) }
    ensures none { IfNone result ((n : ℕ) → n < 2 ^ 32 → word.now ≢ name.now ++ decimal n) }
{
    let number = number_of(word, name)?;
    u32::try_from(number).ok()
}

// The number behind a name, where it is one of 64 bits.
fn number_of(word: &str, name: &str) -> Option<u64>
    ensures found { IfSome result (λ n. word.now ≡ name.now ++ decimal n) }
    ensures none { IfNone result ((n : ℕ) → n < 2 ^ 64 → word.now ≢ name.now ++ decimal n) }
{
    let Some(digits) = word.as_bytes().strip_prefix(name.as_bytes()) else {
        return None;
    };
    parse_decimal(digits)
}
