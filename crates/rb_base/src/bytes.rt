//! Bytes in an array of fixed room. Names, values of rows and groups are kept so.
ghost use Rattle.std.specs.Prelude.{◌≡◌, ◌≤◌, length};

use arrayvec::ArrayVec;

/// The bytes in an array that has room for them.
pub fn array_of<const ROOM: usize>(bytes: &[u8]) -> ArrayVec<u8, ROOM>
    requires { length bytes.now ≤ ROOM }
    ensures { result.items ≡ bytes.now }
{
    let mut array = ArrayVec::new();
    if array.try_extend_from_slice(bytes).is_err() {
        unreachable!()
    }
    array
}
