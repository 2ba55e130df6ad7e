//! Names of savepoints and cursors, tested once. Lines are parsed to them, and sessions keep them.
ghost use Rattle.std.specs.Prelude.{◌≡◌, false, IsTrue, IfSome, IfNone};
ghost use Rattle.std.specs.List.{list_all};
ghost use Rattle.rb_model.specs.NameTest as spec;

use arrayvec::ArrayVec;
use rb_base::array_of;

/// 1 to 16 of `a` to `z`, `0` to `9` and `_`.
#[derive(Debug, Drop)]
pub struct Name {
    text: ArrayVec<u8, 16>,
    ghost valid: { IsTrue (spec.is_name text.items) },
}

fn is_name_byte(byte: u8) -> bool
    ensures { result ≡ spec.is_name_byte byte }
{
    matches!(byte, b'a'..=b'z' | b'0'..=b'9' | b'_')
}

fn has_name_bytes(text: &[u8]) -> bool
    ensures { result ≡ list_all spec.is_name_byte text.now }
{
    text.iter().all(|byte| is_name_byte(*byte))
}

fn is_name(text: &[u8]) -> bool
    ensures { result ≡ spec.is_name text.now }
{
    !text.is_empty() && text.len() <= 16 && has_name_bytes(text)
}

impl Name {
    ghost use Rattle.rb_model.specs.Names.{name_text};

    /// The name of these bytes. None exactly where they are no name.
    pub fn new(text: &[u8]) -> Option<Name>
        ensures found { IfSome result (λ name. (name_text name ≡ text.now)) }
        ensures valid { IfSome result (λ name. IsTrue (spec.is_name text.now)) }
        ensures none { IfNone result (spec.is_name text.now ≡ false) }
    {
        if !is_name(text) {
            return None;
        }
        Some(Name {
            text: array_of(text),
        })
    }

    /// Its bytes.
    pub fn as_bytes(&self) -> &[u8]
        ensures text { result.now ≡ name_text self.now }
        ensures valid { IsTrue (spec.is_name result.now) }
    {
        self.text.as_slice()
    }
}
