//! The replies to the lines of a script. The shell makes one for each command, and writes its text.
ghost use Rattle.std.specs.Prelude.{◌≡◌, [], ◌∷◌, ◌++◌, ◌+◌, ◌≤◌, codes, length};
ghost use Rattle.rb_model.specs.Calls.{number_text, refusal_text};
ghost use Rattle.rb_model.specs.Lines.{activity_text, caller_text, mode_text, wait_text};
ghost use Rattle.arrayvec.specs.ArrayVec.{array_vec_len};
ghost use Rattle.rb_script.specs.Replies.{text_of_reply, ending, has_no_line, FitsALine};

use crate::text::{put, put_number, put_part};
use arrayvec::ArrayVec;
use rb_model::{Activity, Mode, Refusal, Wait};

/// What a line is answered by.
#[derive(Clone, Copy, Debug)]
pub enum Reply<'a> {
    /// `S ok`, or `ok`.
    Done { s: Option<u16> },
    /// `S committed NUMBER`.
    Committed { s: u16, number: u64 },
    /// `S numbered NUMBER`.
    Numbered { s: u16, number: u64 },
    /// `flushed NUMBER`.
    Flushed { number: u64 },
    /// `swept CHANGES`.
    Swept { changes: u32 },
    /// `S row KEY VALUE`.
    Row { s: u16, key: u64, value: &'a [u8] },
    /// `S end`.
    End { s: u16 },
    /// `S not found`, where a key was read.
    Absent { s: u16 },
    /// `S waits ON`.
    Waits { s: u16, on: u16 },
    /// `S` and the text of the refusal, or that alone.
    Refused { s: Option<u16>, why: Refusal },
    /// `segment SEG writes WRITES lost LOST`.
    Marks { seg: u16, writes: u64, lost: u64 },
    /// `session S changes C cursors N mode M`, and how it waits.
    Shown { session: u16, activity: Activity },
    /// No line: a session has nothing under way.
    Nothing,
    /// `bad line`.
    BadLine,
}

// Puts the session that a reply is to, if there is one, and a space
fn put_caller<const SIZE: usize>(s: Option<u16>, into: &mut ArrayVec<u8, SIZE>)
    requires { array_vec_len into.old + 21 ≤ SIZE }
    ensures items { into.new.items ≡ into.old.items ++ caller_text s }
    ensures len { array_vec_len into.new ≤ array_vec_len into.old + 21 }
{
    if let Some(s) = s {
        put_number(u64::from(s), into);
        into.push(b' ');
    }
}

// Puts a text without a number, to a session or to none
fn put_told<const SIZE: usize>(s: Option<u16>, told: &[u8], into: &mut ArrayVec<u8, SIZE>)
    requires short { length told.now ≤ 9 }
    requires room { array_vec_len into.old + 30 ≤ SIZE }
    ensures items { into.new.items ≡ into.old.items ++ (caller_text s ++ told.now) }
    ensures len { array_vec_len into.new ≤ array_vec_len into.old + 30 }
{
    put_caller(s, into);
    put(told, into);
}

// Puts a word that tells a number, to a session or to none
fn put_numbered<const SIZE: usize>(
    s: Option<u16>,
    word: &[u8],
    number: u64,
    into: &mut ArrayVec<u8, SIZE>,
)
    requires short { length word.now ≤ 9 }
    requires room { array_vec_len into.old + 51 ≤ SIZE }
    ensures items { into.new.items ≡ into.old.items ++ (caller_text s ++ (word.now ++ number_text number)) }
    ensures len { array_vec_len into.new ≤ array_vec_len into.old + 51 }
{
    put_caller(s, into);
    put(word, into);
    put_part(number, into);
}

// Appends the text of a refusal
fn put_refusal<const SIZE: usize>(why: Refusal, into: &mut ArrayVec<u8, SIZE>)
    requires { array_vec_len into.old + 74 ≤ SIZE }
    ensures items { into.new.items ≡ into.old.items ++ refusal_text why }
    ensures len { array_vec_len into.new ≤ array_vec_len into.old + 74 }
{
    put(why.words(), into);
    match why {
        Refusal::Deadlock { on } => put_part(u64::from(on), into),
        Refusal::TooOld { scn, lost } => {
            put_part(scn, into);
            put_part(lost, into);
        }
        Refusal::CantSerialize { scn, by } => {
            put_part(scn, into);
            put_part(by, into);
        }
        Refusal::RollbackFull { seg, since } => {
            put_part(u64::from(seg), into);
            put_part(since, into);
        }
        _ => {}
    }
}

// Appends what a segment tells of itself
fn put_marks<const SIZE: usize>(seg: u16, writes: u64, lost: u64, into: &mut ArrayVec<u8, SIZE>)
    requires { array_vec_len into.old + 82 ≤ SIZE }
    ensures items { into.new.items ≡ into.old.items ++ (codes "segment" ++ number_text seg ++ codes " writes"
        ++ number_text writes ++ codes " lost" ++ number_text lost) }
    ensures len { array_vec_len into.new ≤ array_vec_len into.old + 82 }
{
    put(b"segment", into);
    put_part(u64::from(seg), into);
    put(b" writes", into);
    put_part(writes, into);
    put(b" lost", into);
    put_part(lost, into);
}

// The word of a mode
fn mode_word(mode: Mode) -> &'static [u8]
    ensures word { result.now ≡ mode_text mode }
    ensures short { length result.now ≤ 14 }
{
    match mode {
        Mode::ReadCommitted => b"read-committed",
        Mode::ReadOnly => b"read-only",
        Mode::Serializable => b"serializable",
    }
}

// Appends how a session waits
fn put_wait<const SIZE: usize>(wait: Wait, into: &mut ArrayVec<u8, SIZE>)
    requires { array_vec_len into.old + 27 ≤ SIZE }
    ensures items { into.new.items ≡ into.old.items ++ wait_text wait }
    ensures len { array_vec_len into.new ≤ array_vec_len into.old + 27 }
{
    match wait {
        Wait::Free => {}
        Wait::On { session } => {
            put(b" waits", into);
            put_part(u64::from(session), into);
        }
        Wait::Ready => put(b" ready", into),
    }
}

// Appends what a session has under way, behind its number
fn put_activity<const SIZE: usize>(activity: Activity, into: &mut ArrayVec<u8, SIZE>)
    requires { array_vec_len into.old + 105 ≤ SIZE }
    ensures items { into.new.items ≡ into.old.items ++ activity_text activity }
    ensures len { array_vec_len into.new ≤ array_vec_len into.old + 105 }
{
    put(b" changes", into);
    put_part(u64::from(activity.changes), into);
    put(b" cursors", into);
    put_part(u64::from(activity.cursors), into);
    put(b" mode ", into);
    put(mode_word(activity.mode), into);
    put_wait(activity.wait, into);
}

// Puts all but the LF
fn put_reply<const SIZE: usize>(reply: &Reply<'_>, into: &mut ArrayVec<u8, SIZE>)
    requires fits { FitsALine reply.now }
    requires room { array_vec_len into.old + 511 ≤ SIZE }
    ensures text { into.new.items ++ ending reply.now ≡ into.old.items ++ text_of_reply reply.now }
    ensures len { array_vec_len into.new ≤ array_vec_len into.old + 511 }
{
    match *reply {
        Reply::Done { s } => put_told(s, b"ok", into),
        Reply::Committed { s, number } => put_numbered(Some(s), b"committed", number, into),
        Reply::Numbered { s, number } => put_numbered(Some(s), b"numbered", number, into),
        Reply::Flushed { number } => put_numbered(None, b"flushed", number, into),
        Reply::Swept { changes } => put_numbered(None, b"swept", u64::from(changes), into),
        Reply::Row { s, key, value } => {
            put_numbered(Some(s), b"row", key, into);
            into.push(b' ');
            put(value, into);
        }
        Reply::End { s } => put_told(Some(s), b"end", into),
        Reply::Absent { s } => put_told(Some(s), b"not found", into),
        Reply::Waits { s, on } => put_numbered(Some(s), b"waits", u64::from(on), into),
        Reply::Refused { s, why } => {
            put_caller(s, into);
            put_refusal(why, into);
        }
        Reply::Marks { seg, writes, lost } => put_marks(seg, writes, lost, into),
        Reply::Shown { session, activity } => {
            put_numbered(None, b"session", u64::from(session), into);
            put_activity(activity, into);
        }
        Reply::Nothing => {}
        Reply::BadLine => put(b"bad line", into),
    }
}

// Whether a reply has no line
fn is_nothing(reply: &Reply<'_>) -> bool
    ensures { result ≡ has_no_line reply.now }
{
    matches!(reply, Reply::Nothing)
}

/// Appends the line of the reply, with its LF, which has room for 512 bytes; nothing where the reply has no line. A
/// row's value has at most 80 bytes.
pub fn print<const SIZE: usize>(reply: &Reply<'_>, into: &mut ArrayVec<u8, SIZE>)
    requires fits { FitsALine reply.now }
    requires room { array_vec_len into.old + 512 ≤ SIZE }
    ensures text { into.new.items ≡ into.old.items ++ text_of_reply reply.now }
    ensures len { array_vec_len into.new ≤ array_vec_len into.old + 512 }
{
    put_reply(reply, into);
    if !is_nothing(reply) {
        into.push(b'\n');
    }
}
