//! What a session keeps under a name: its savepoints and its cursors.
ghost use Rattle.std.specs.Prelude.{◌≡◌};
ghost use Rattle.std.specs.List.{position};
ghost use Rattle.std.specs.Str.{bytes_eq};

use arrayvec::ArrayVec;

/// A value under its name.
#[derive(Debug, Default, Drop)]
pub(crate) struct Named<T> {
    pub name: ArrayVec<u8, 16>,
    pub value: T,
}

/// The place of the first value of a name.
pub(crate) fn position_of<T>(values: &[Named<T>], name: &[u8]) -> Option<usize>
    ensures { result ≡ position (λ n. bytes_eq n.name.items name.now) values.now }
{
    values
        .iter()
        .position(|named| named.name.as_slice() == name)
}
