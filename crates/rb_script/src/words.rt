//! The words of a line, from the left. The readers of the commands call it.
ghost use Rattle.std.specs.Prelude.{ℕ, List, ◌≡◌, ◌≢◌, ◌∷◌, ◌++◌, ◌<◌, ◌≤◌, ◌^◌};
ghost use Rattle.std.specs.Prelude.{IsTrue, IfSome, IfNone, ◌&&◌, nat_le, ◌↔◌, codes, true};
ghost use Rattle.std.specs.List.{list_all};
ghost use Rattle.std.specs.Fmt.{decimal};
ghost use Rattle.rb_model.specs.NameTest.{is_name};
ghost use Rattle.rb_model.specs.Names.{name_text};
ghost use Rattle.rb_model.specs.Lines.{is_value, mode_text};
ghost use Rattle.rb_model.specs.declared.mode.Mode as modes;
ghost use Rattle.rb_script.specs.Words.{is_word};

use rb_base::parse_decimal;
use rb_model::{Mode, Name};

/// What stands before and after the first space.
pub fn split(text: &[u8]) -> Option<(&[u8], &[u8])>
    ensures found { IfSome result (λ p. (text.now ≡ p.0.now ++ 32 ∷ p.1.now) × IsTrue (is_word p.0.now)) }
    ensures none { IfNone result (IsTrue (is_word text.now)) }
{
    for (at, byte) in text.iter().enumerate() {
        if *byte == b' ' {
            return Some((&text[..at], &text[at + 1..]));
        }
    }
    None
}

/// The number of a session or a table, below 2^16, that the text spells.
pub fn id_of(text: &[u8]) -> Option<u16>
    ensures found { IfSome result (λ n. text.now ≡ decimal n) }
    ensures none { IfNone result ((n : ℕ) → n < 2 ^ 16 → text.now ≢ decimal n) }
{
    let number = parse_decimal(text)?;
    u16::try_from(number).ok()
}

fn is_count(number: u64) -> bool
    ensures { IsTrue result ↔ (1 ≤ number) × (number ≤ 1000000) }
{
    (1..=1_000_000).contains(&number)
}

/// The number of rows to fetch or of changes to sweep, 1 to 1,000,000, that the text spells.
pub fn count_of(text: &[u8]) -> Option<u32>
    ensures found { IfSome result (λ n. (text.now ≡ decimal n) × (1 ≤ n) × (n ≤ 1000000)) }
    ensures none { IfNone result ((n : ℕ) → 1 ≤ n → n ≤ 1000000 → text.now ≢ decimal n) }
{
    let number = parse_decimal(text)?;
    if !is_count(number) {
        return None;
    }
    u32::try_from(number).ok()
}

/// The number of a session or a table in front of a space, and what stands after the space.
pub fn id_and_rest(text: &[u8]) -> Option<(u16, &[u8])>
    ensures found { IfSome result (λ parts. text.now ≡ decimal parts.0 ++ 32 ∷ parts.1.now) }
    ensures range { IfSome result (λ parts. parts.0 < 2 ^ 16) }
    ensures none { IfNone result ((n : ℕ) (rest : List ℕ) → n < 2 ^ 16
        → text.now ≢ decimal n ++ 32 ∷ rest) }
{
    let (front, rest) = split(text)?;
    let id = id_of(front)?;
    Some((id, rest))
}

/// The key, below 2^64, in front of a space, and what stands after the space.
pub fn key_and_rest(text: &[u8]) -> Option<(u64, &[u8])>
    ensures found { IfSome result (λ parts. text.now ≡ decimal parts.0 ++ 32 ∷ parts.1.now) }
    ensures range { IfSome result (λ parts. parts.0 < 2 ^ 64) }
    ensures none { IfNone result ((n : ℕ) (rest : List ℕ) → n < 2 ^ 64
        → text.now ≢ decimal n ++ 32 ∷ rest) }
{
    let (front, rest) = split(text)?;
    let key = parse_decimal(front)?;
    Some((key, rest))
}

/// The name in front of a space, and what stands after the space.
pub fn name_and_rest(text: &[u8]) -> Option<(Name, &[u8])>
    ensures found { IfSome result (λ parts. text.now ≡ name_text parts.0 ++ 32 ∷ parts.1.now) }
    ensures valid { IfSome result (λ parts. IsTrue (is_name (name_text parts.0))) }
    ensures none { IfNone result ((name rest : List ℕ) → IsTrue (is_name name)
        → text.now ≢ name ++ 32 ∷ rest) }
{
    let (front, rest) = split(text)?;
    let name = Name::new(front)?;
    Some((name, rest))
}

/// Whether the word is `later`, with which a commit is made last by a later call.
pub fn is_later(word: &[u8]) -> bool
    ensures { result ≡ true ↔ word.now ≡ codes "later" }
{
    word == b"later".as_slice()
}

/// The mode that the word names.
pub fn mode_of(word: &[u8]) -> Option<Mode>
    ensures found { IfSome result (λ mode. word.now ≡ mode_text mode) }
    ensures none { IfNone result ((mode : modes.Mode) → word.now ≢ mode_text mode) }
{
    if word == b"read-committed".as_slice() {
        return Some(Mode::ReadCommitted);
    }
    if word == b"read-only".as_slice() {
        return Some(Mode::ReadOnly);
    }
    if word == b"serializable".as_slice() {
        return Some(Mode::Serializable);
    }
    None
}

fn is_visible_byte(byte: u8) -> bool
    ensures { result ≡ (nat_le 33 byte && nat_le byte 126) }
{
    matches!(byte, b'!'..=b'~')
}

fn has_visible_bytes(text: &[u8]) -> bool
    ensures { result ≡ list_all (λ b. nat_le 33 b && nat_le b 126) text.now }
{
    text.iter().all(|byte| is_visible_byte(*byte))
}

/// Whether it is one or more visible bytes.
pub fn is_visible(text: &[u8]) -> bool
    ensures { result ≡ is_value text.now }
{
    !text.is_empty() && has_visible_bytes(text)
}
