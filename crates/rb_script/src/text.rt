//! The parts of a line of text: words and decimal numbers, put one behind the other. The replies are made of them, and
//! the generator's summary.
ghost use Rattle.std.specs.Prelude.{◌≡◌, ◌++◌, ◌+◌, ◌≤◌, length};
ghost use Rattle.std.specs.Fmt.{decimal};
ghost use Rattle.arrayvec.specs.ArrayVec.{array_vec_len};
ghost use Rattle.rb_model.specs.Calls.{number_text};

use arrayvec::ArrayVec;
use itoa::Buffer;

/// Appends a text that has room.
pub fn put<const SIZE: usize>(text: &[u8], into: &mut ArrayVec<u8, SIZE>)
    requires { array_vec_len into.old + length text.now ≤ SIZE }
    ensures { into.new.items ≡ into.old.items ++ text.now }
{
    let fits = into.try_extend_from_slice(text).is_ok();
    prove!(fits);
}

/// Appends the decimal digits of a number. A single digit, as most sessions have, is put at once.
pub fn put_number<const SIZE: usize>(number: u64, into: &mut ArrayVec<u8, SIZE>)
    requires { array_vec_len into.old + 20 ≤ SIZE }
    ensures items { into.new.items ≡ into.old.items ++ decimal number }
    ensures len { array_vec_len into.new ≤ array_vec_len into.old + 20 }
{
    if number < 10 {
        into.push(b'0' + number as u8);
        return;
    }
    put(Buffer::new().format(number).as_bytes(), into);
}

/// Appends a space and a number.
pub fn put_part<const SIZE: usize>(number: u64, into: &mut ArrayVec<u8, SIZE>)
    requires { array_vec_len into.old + 21 ≤ SIZE }
    ensures items { into.new.items ≡ into.old.items ++ number_text number }
    ensures len { array_vec_len into.new ≤ array_vec_len into.old + 21 }
{
    into.push(b' ');
    put_number(number, into);
}
