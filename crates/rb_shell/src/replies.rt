//! The replies of a line, which wait until it is done and are put in few pieces. `line` tells them.
ghost use Rattle.std.specs.Prelude.{◌≡◌, ◌+◌, ◌≤◌, ◌++◌, ℕ, List, length, [], OnOk, OnErr};
ghost use Rattle.std.specs.Prelude.{IsTrue, ◌↔◌, Option, None, Some, false};
ghost use Rattle.std.specs.Result.{is_err};
ghost use Rattle.arrayvec.specs.ArrayVec.{array_vec_len};
ghost use Rattle.rb_base.specs.Counts.{IsCounted, IsCountedAs, err_is};
ghost use Rattle.rb_lines.specs.Faults.{is_sink};
ghost use Rattle.rb_calls.specs.Fits.{FitsCaller};
ghost use Rattle.rb_model.specs.Answers.{answer_of, write_answer};
ghost use Rattle.rb_model.specs.Lines.{reply_text};
ghost use Rattle.rb_model.specs.Calls.{is_fault};
ghost use Rattle.rb_script.specs.Replies.{text_of_reply, FitsALine};
ghost use Rattle.rb_shell.specs.Steps.{Added, Lost, Told, tells_fault};
ghost use Rattle.rb_stream.specs.StreamModel.{Puts};

use arrayvec::ArrayVec;
use rb_base::Failed;
use rb_calls::{Listener, MOST_READY};
use rb_lines::StepFault;
use rb_model::{Outcome, Refusal, Row, Wrote};
use rb_script::{Reply, print};
use rb_stream::Sink;

/// The most bytes of one reply.
const REPLY_BYTES: usize = 512;

/// The most bytes of a line's own replies that wait.
pub const OWN_BYTES: usize = 65_536;

/// The most bytes of replies that wait. Behind the line's own those to the writes that it has made ready have room, so
/// none of them is sent while they are tried again.
const WAITING_BYTES: usize = 73_728;

const _: () = prove!(OWN_BYTES + MOST_READY * REPLY_BYTES == WAITING_BYTES);

/// What waits to be put: 64 KiB, and sixteen replies.
#[derive(Drop)]
pub struct Waiting {
    pub bytes: ArrayVec<u8, WAITING_BYTES>,
}

impl Waiting {
    /// No reply waits.
    pub fn none() -> Waiting
        ensures { result.bytes.items ≡ [] }
    {
        Waiting {
            bytes: ArrayVec::new(),
        }
    }
}

/// The reply to session `s`, or to none, where that answer has one.
pub fn reply_of(s: Option<u16>, answer: Outcome, row: &Row) -> Reply<'_>
    requires { FitsCaller s answer }
    ensures text { text_of_reply result ≡ reply_text s (answer_of answer row.now) }
    ensures fault { tells_fault result ≡ is_fault (answer_of answer row.now) }
    ensures fits { FitsALine result }
{
    match (answer, s) {
        (Outcome::Done, _) => Reply::Done { s },
        (Outcome::Refused { why }, _) => Reply::Refused { s, why },
        (Outcome::Marked { seg, writes, lost }, None) => Reply::Marks { seg, writes, lost },
        (Outcome::Waits { on }, Some(s)) => Reply::Waits { s, on },
        (Outcome::Committed { number }, Some(s)) => Reply::Committed { s, number },
        (Outcome::Numbered { number }, Some(s)) => Reply::Numbered { s, number },
        (Outcome::Flushed { number }, None) => Reply::Flushed { number },
        (Outcome::Swept { changes }, None) => Reply::Swept { changes },
        (Outcome::Row, Some(s)) => Reply::Row {
            s,
            key: row.key,
            value: row.value.as_slice(),
        },
        (Outcome::End, Some(s)) => Reply::End { s },
        (Outcome::Absent, Some(s)) => Reply::Absent { s },
        (Outcome::Shown { session, activity }, None) => Reply::Shown { session, activity },
        (Outcome::Idle, None) => Reply::Nothing,
        _ => unreachable!(),
    }
}

/// The reply to session `s` of a write that was tried again.
fn reply_to_write(s: u16, outcome: Result<Wrote, Refusal>) -> Reply<'static>
    ensures text { text_of_reply result ≡ reply_text (Some s) (write_answer outcome) }
    ensures fault { tells_fault result ≡ is_fault (write_answer outcome) }
    ensures fits { FitsALine result }
{
    match outcome {
        Ok(Wrote::Done) => Reply::Done { s: Some(s) },
        Ok(Wrote::Waits { on }) => Reply::Waits { s, on },
        Err(why) => Reply::Refused { s: Some(s), why },
    }
}

/// Whether a reply tells of a fault of the disk.
fn is_disk_fault(reply: &Reply<'_>) -> bool
    ensures { result ≡ tells_fault reply.now }
{
    match reply {
        Reply::Refused { s: _, why } => *why == Refusal::DiskFault,
        _ => false,
    }
}

/// Puts what waits, as one piece. Where nothing waits, the sink isn't called.
pub fn send<K: Sink>(waiting: &mut Waiting, sink: &mut K) -> Result<(), Failed>
    ensures sent { K.tells → Puts (K.held sink.old) (K.held sink.new) waiting.old.bytes.items result }
    ensures none { OnOk result (waiting.new.bytes.items ≡ []) }
    ensures idle { waiting.old.bytes.items ≡ [] → (sink.new ≡ sink.old) × (is_err result ≡ false) }
    ensures counted { IsCounted (K.faults sink.old) (K.faults sink.new) result }
{
    if waiting.bytes.is_empty() {
        return Ok(());
    }
    sink.put(waiting.bytes.as_slice())?;
    waiting.bytes.clear();
    Ok(())
}

/// Whether one more reply of the line itself has room.
fn has_room(waiting: &Waiting) -> bool
    ensures { IsTrue result ↔ (array_vec_len waiting.now.bytes + REPLY_BYTES ≤ OWN_BYTES) }
{
    waiting.bytes.len() + REPLY_BYTES <= OWN_BYTES
}

/// Adds the text of a reply to what waits.
fn keep(reply: &Reply<'_>, waiting: &mut Waiting)
    requires fits { FitsALine reply.now }
    requires room { array_vec_len waiting.old.bytes + REPLY_BYTES ≤ WAITING_BYTES }
    ensures items { waiting.new.bytes.items ≡ waiting.old.bytes.items ++ text_of_reply reply.now }
    ensures len { array_vec_len waiting.new.bytes ≤ array_vec_len waiting.old.bytes + REPLY_BYTES }
{
    print(reply, &mut waiting.bytes);
}

/// Adds the text of a reply to what waits, which is sent first where it leaves no room.
fn add<K: Sink>(reply: &Reply<'_>, waiting: &mut Waiting, sink: &mut K) -> Result<(), Failed>
    requires { FitsALine reply.now }
    ensures added { OnOk result (Added (text_of_reply reply.now) K.tells (K.held sink.old) waiting.old.bytes.items
        (K.held sink.new) waiting.new.bytes.items) }
    ensures lost { OnErr result (Lost K.tells (K.held sink.old) waiting.old.bytes.items (K.held sink.new)) }
    ensures room { OnOk result (array_vec_len waiting.new.bytes ≤ OWN_BYTES) }
    ensures first { waiting.old.bytes.items ≡ [] → is_err result ≡ false }
    ensures counted { IsCounted (K.faults sink.old) (K.faults sink.new) result }
{
    if !has_room(waiting) {
        send(waiting, sink)?;
    }
    keep(reply, waiting);
    Ok(())
}

/// Tells a reply of the line itself, and ends the step where it is one of a fault of the disk. The first one of a line
/// has room.
pub fn tell<K: Sink>(
    reply: &Reply<'_>,
    waiting: &mut Waiting,
    sink: &mut K,
) -> Result<(), StepFault>
    requires { FitsALine reply.now }
    ensures told { Told (text_of_reply reply.now) (tells_fault reply.now) K.tells (K.held sink.old)
        waiting.old.bytes.items (K.held sink.new) waiting.new.bytes.items result }
    ensures room { OnOk result (array_vec_len waiting.new.bytes ≤ OWN_BYTES) }
    ensures first { waiting.old.bytes.items ≡ [] → err_is is_sink result ≡ false }
    ensures sink { IsCountedAs (K.faults sink.old) (K.faults sink.new) (err_is is_sink result) }
{
    if add(reply, waiting, sink).is_err() {
        return Err(StepFault::Sink);
    }
    if is_disk_fault(reply) {
        return Err(StepFault::Disk);
    }
    Ok(())
}

/// The replies to writes that are tried again wait too, behind those of the line itself.
impl Listener for Waiting {
    ghost use Rattle.rb_shell.specs.Steps.{HasReply, reply_room};

    ghost room = { reply_room };

    ghost heard = { HasReply };

    fn hear(&mut self, s: u16, outcome: Result<Wrote, Refusal>) {
        keep(&reply_to_write(s, outcome), self);
    }
}
