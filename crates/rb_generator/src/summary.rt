//! The line that tells of a run of the generator. The shell writes it.
ghost use Rattle.std.specs.Prelude.{◌≡◌, [], ◌++◌, ◌+◌, ◌≤◌, length};
ghost use Rattle.arrayvec.specs.ArrayVec.{array_vec_len};
ghost use Rattle.rb_generator.specs.Summary.{part, summary_text};

use crate::counts::Counts;
use arrayvec::ArrayVec;
use rb_base::Scn;
use rb_script::{put, put_part};

// appends a word of at most 16 bytes and a number
fn put_counted(word: &[u8], number: u64, into: &mut ArrayVec<u8, 512>)
    requires word { length word.now ≤ 16 }
    requires room { array_vec_len into.old + 37 ≤ 512 }
    ensures items { into.new.items ≡ into.old.items ++ part word.now number }
    ensures len { array_vec_len into.new ≤ array_vec_len into.old + 37 }
{
    put(word, into);
    put_part(number, into);
}

/// Writes the line that tells of a run of so many commands, with its LF, into an empty `into`: the counts of their
/// answers, and `now`, the number of the last commit.
pub fn print_summary(commands: u32, counts: &Counts, now: Scn, into: &mut ArrayVec<u8, 512>)
    requires { into.old.items ≡ [] }
    ensures { into.new.items ≡ summary_text commands counts.now now }
{
    put_counted(b"commands", u64::from(commands), into);
    put_counted(b" committed", counts.committed, into);
    put_counted(b" rows", counts.rows, into);
    put_counted(b" waits", counts.waits, into);
    put_counted(b" refused", counts.refused, into);
    put_counted(b" now", now, into);
    into.push(b'\n');
}
