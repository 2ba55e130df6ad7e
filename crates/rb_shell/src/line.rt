//! `step`: one line through the engine to the sink, and the writes that it has made ready. The run of a script does
//! each line by `do_line`.
ghost use Rattle.std.specs.Prelude.{◌≡◌, ◌++◌, ◌<◌, ◌≤◌, ℕ, false, [], None, Some};
ghost use Rattle.std.specs.Prelude.{IfErr, IfOk, IfSome, OnErr, OnOk};
ghost use Rattle.std.specs.Result.{is_err};
ghost use Rattle.arrayvec.specs.ArrayVec.{array_vec_len};
ghost use Rattle.rb_base.specs.Counts.{IsCounted, IsCountedAs, err_is};
ghost use Rattle.rb_calls.specs.Fits.{FitsCaller};
ghost use Rattle.rb_calls.specs.Since.{IsSince, StandsAs, engine_outside};
ghost use Rattle.rb_engine.specs.Ahead.{IsAhead};
ghost use Rattle.rb_lines.specs.Faults.{IsCountedBeside, is_disk, is_sink};
ghost use Rattle.rb_lines.specs.Ran.{CallsBegun, Did, LineBegun, LineRanAs};
ghost use Rattle.rb_model.specs.Calls as machine;
ghost use Rattle.rb_model.specs.Lines as lines;
ghost use Rattle.rb_model.specs.Lines.{call_of, caller, most_calls};
ghost use Rattle.rb_model.specs.Names.{name_text};
ghost use Rattle.rb_model.specs.Out.{Logged, CommandOut, LineOut, LineSaid};
ghost use Rattle.rb_model.specs.Queue.{first_ready};
ghost use Rattle.rb_script.specs.Commands.{command_of};
ghost use Rattle.rb_shell.specs.Steps.{Calls, IsSkipped, Lost, SaidAs};
ghost use Rattle.rb_rollback.specs.Backs.{SameStore};

use crate::replies::{OWN_BYTES, Waiting, reply_of, send, tell};
use arrayvec::ArrayVec;
use rb_base::Store;
use rb_calls::{answer, answer_ahead, calls_of, goes_on, resume_ready};
use rb_engine::{Ahead, Engine};
use rb_lines::StepFault;
use rb_model::{Name, Outcome, Row};
use rb_script::{Command, Reply, Request, parse};
use rb_stream::Sink;

/// The most bytes of a line, without its LF.
const LINE_BYTES: usize = 512;

/// The line without one CR that ends it.
fn without_return(line: &[u8]) -> &[u8]
    ensures { result.now ≡ lines.without_return line.now }
{
    match line.split_last() {
        Some((last, front)) if *last == b'\r' => front,
        _ => line,
    }
}

/// Whether a line is to be skipped.
fn is_remark(line: &[u8]) -> bool
    ensures { result ≡ lines.is_remark line.now }
{
    match line.first() {
        Some(first) => *first == b'#',
        None => true,
    }
}

/// Makes the k-th call of a command, from 0 on, and tells its answer.
fn call_once<T: Store, K: Sink>(
    engine: &mut Engine<T>,
    command: &Command<'_>,
    k: u32,
    row: &mut Row,
    waiting: &mut Waiting,
    sink: &mut K,
) -> Result<Outcome, StepFault>
    requires { k < most_calls (T.shape_of engine.old.store) (command_of command.now) }
    ensures did { (m : Logged) → StandsAs T.Store engine.old m → m.state.stopped ≡ false
        → Did (StandsAs T.Store) (IsSince T.Store) engine.old engine.new m (λ now. Calls m engine_outside
        (caller (command_of command.now)) (call_of (command_of command.now) k) row.new now K.tells (K.held sink.old)
        waiting.old.bytes.items (K.held sink.new) waiting.new.bytes.items result) }
    ensures room { OnOk result (array_vec_len waiting.new.bytes ≤ OWN_BYTES) }
    ensures first { waiting.old.bytes.items ≡ [] → err_is is_sink result ≡ false }
    ensures same { SameStore T.Store engine.old.store engine.new.store }
    ensures disk { IsCountedBeside (T.faults engine.old.store) (T.faults engine.new.store) (err_is is_disk result)
        (err_is is_sink result) }
    ensures sink { IsCountedAs (K.faults sink.old) (K.faults sink.new) (err_is is_sink result) }
{
    let answer = answer(engine, command, k, row);
    tell(&reply_of(command.session(), answer, row), waiting, sink)?;
    Ok(answer)
}

/// Fetches a row of a cursor as one of many, and tells the answer.
fn fetch_once<T: Store, K: Sink>(
    engine: &mut Engine<T>,
    s: u16,
    name: &Name,
    ahead: &mut Ahead,
    row: &mut Row,
    waiting: &mut Waiting,
    sink: &mut K,
) -> Result<Outcome, StepFault>
    requires ahead { IsAhead T.Store engine.old s (name_text name.now) ahead.old }
    ensures ahead { IsAhead T.Store engine.new s (name_text name.now) ahead.new }
    ensures did { (m : Logged) → StandsAs T.Store engine.old m → m.state.stopped ≡ false
        → Did (StandsAs T.Store) (IsSince T.Store) engine.old engine.new m (λ now. Calls m engine_outside
        (Some s) (machine.Fetch s (name_text name.now)) row.new now K.tells (K.held sink.old)
        waiting.old.bytes.items (K.held sink.new) waiting.new.bytes.items result) }
    ensures fits { IfOk result (FitsCaller (Some s)) }
    ensures room { OnOk result (array_vec_len waiting.new.bytes ≤ OWN_BYTES) }
    ensures first { waiting.old.bytes.items ≡ [] → err_is is_sink result ≡ false }
    ensures same { SameStore T.Store engine.old.store engine.new.store }
    ensures disk { IsCountedBeside (T.faults engine.old.store) (T.faults engine.new.store) (err_is is_disk result)
        (err_is is_sink result) }
    ensures sink { IsCountedAs (K.faults sink.old) (K.faults sink.new) (err_is is_sink result) }
{
    let answer = answer_ahead(engine, s, name, ahead, row);
    tell(&reply_of(Some(s), answer, row), waiting, sink)?;
    Ok(answer)
}

/// Fetches up to `n` rows of a cursor, and tells them. It ends at the first answer that is no row.
fn fetch_rows<T: Store, K: Sink>(
    engine: &mut Engine<T>,
    s: u16,
    name: &Name,
    n: u32,
    waiting: &mut Waiting,
    sink: &mut K,
) -> Result<(), StepFault>
    requires { waiting.old.bytes.items ≡ [] }
    ensures did { (m : Logged) → StandsAs T.Store engine.old m → m.state.stopped ≡ false
        → Did (StandsAs T.Store) (IsSince T.Store) engine.old engine.new m (λ now. SaidAs
        (CommandOut m engine_outside (lines.FetchLine s (name_text name.now) n))
        (CallsBegun m engine_outside (lines.FetchLine s (name_text name.now) n))
        now K.tells (K.held sink.old) (K.held sink.new) waiting.new.bytes.items result) }
    ensures room { OnOk result (array_vec_len waiting.new.bytes ≤ OWN_BYTES) }
    ensures same { SameStore T.Store engine.old.store engine.new.store }
    ensures disk { IsCountedBeside (T.faults engine.old.store) (T.faults engine.new.store) (err_is is_disk result)
        (err_is is_sink result) }
    ensures sink { IsCountedAs (K.faults sink.old) (K.faults sink.new) (err_is is_sink result) }
{
    let mut row = Row {
        key: 0,
        value: ArrayVec::new(),
    };
    let mut ahead = if n > 1 {
        Ahead::of_many()
    } else {
        Ahead::of_one()
    };
    for _k in 0..n {
        let answer = fetch_once(engine, s, name, &mut ahead, &mut row, waiting, sink)?;
        if !goes_on(answer) {
            return Ok(());
        }
    }
    Ok(())
}

/// Makes a command's calls and tells their answers, up to the first after which it doesn't go on.
fn make_calls<T: Store, K: Sink>(
    engine: &mut Engine<T>,
    command: &Command<'_>,
    waiting: &mut Waiting,
    sink: &mut K,
) -> Result<(), StepFault>
    requires { waiting.old.bytes.items ≡ [] }
    ensures did { (m : Logged) → StandsAs T.Store engine.old m → m.state.stopped ≡ false
        → Did (StandsAs T.Store) (IsSince T.Store) engine.old engine.new m (λ now. SaidAs
        (CommandOut m engine_outside (command_of command.now)) (CallsBegun m engine_outside (command_of command.now))
        now K.tells (K.held sink.old) (K.held sink.new) waiting.new.bytes.items result) }
    ensures room { OnOk result (array_vec_len waiting.new.bytes ≤ OWN_BYTES) }
    ensures same { SameStore T.Store engine.old.store engine.new.store }
    ensures disk { IsCountedBeside (T.faults engine.old.store) (T.faults engine.new.store) (err_is is_disk result)
        (err_is is_sink result) }
    ensures sink { IsCountedAs (K.faults sink.old) (K.faults sink.new) (err_is is_sink result) }
{
    let mut row = Row {
        key: 0,
        value: ArrayVec::new(),
    };
    for k in 0..calls_of(command, engine.shape()) {
        let answer = call_once(engine, command, k, &mut row, waiting, sink)?;
        if !goes_on(answer) {
            return Ok(());
        }
    }
    Ok(())
}

/// A command that asks for rows: of which session, of which cursor, and how many at most.
#[derive(Clone, Copy)]
struct RowsAsked<'a> {
    s: u16,
    name: &'a Name,
    n: u32,
}

/// What a command asks for, where it asks for rows.
fn rows_asked<'a>(command: &'a Command<'_>) -> Option<RowsAsked<'a>>
    ensures { IfSome result (λ asked.
        command_of command.now ≡ lines.FetchLine asked.s (name_text asked.name.now) asked.n) }
{
    let Command::Session { s, request } = command else {
        return None;
    };
    match request {
        Request::Fetch { name, n } => Some(RowsAsked { s: *s, name, n: *n }),
        _ => None,
    }
}

/// Does a command: makes its calls and tells their answers.
fn run_command<T: Store, K: Sink>(
    engine: &mut Engine<T>,
    command: &Command<'_>,
    waiting: &mut Waiting,
    sink: &mut K,
) -> Result<(), StepFault>
    requires { waiting.old.bytes.items ≡ [] }
    ensures did { (m : Logged) → StandsAs T.Store engine.old m → m.state.stopped ≡ false
        → Did (StandsAs T.Store) (IsSince T.Store) engine.old engine.new m (λ now. SaidAs
        (CommandOut m engine_outside (command_of command.now)) (CallsBegun m engine_outside (command_of command.now))
        now K.tells (K.held sink.old) (K.held sink.new) waiting.new.bytes.items result) }
    ensures room { OnOk result (array_vec_len waiting.new.bytes ≤ OWN_BYTES) }
    ensures same { SameStore T.Store engine.old.store engine.new.store }
    ensures disk { IsCountedBeside (T.faults engine.old.store) (T.faults engine.new.store) (err_is is_disk result)
        (err_is is_sink result) }
    ensures sink { IsCountedAs (K.faults sink.old) (K.faults sink.new) (err_is is_sink result) }
{
    match rows_asked(command) {
        Some(RowsAsked { s, name, n }) => fetch_rows(engine, s, name, n, waiting, sink),
        None => make_calls(engine, command, waiting, sink),
    }
}

/// Does what one line does itself, and leaves the last of its replies waiting.
fn say_itself<T: Store, K: Sink>(
    engine: &mut Engine<T>,
    line: &[u8],
    waiting: &mut Waiting,
    sink: &mut K,
) -> Result<(), StepFault>
    requires { waiting.old.bytes.items ≡ [] }
    ensures did { (m : Logged) → StandsAs T.Store engine.old m → m.state.stopped ≡ false
        → Did (StandsAs T.Store) (IsSince T.Store) engine.old engine.new m (λ now. SaidAs
        (LineSaid m engine_outside line.now) (LineBegun m engine_outside line.now) now K.tells (K.held sink.old)
        (K.held sink.new) waiting.new.bytes.items result) }
    ensures room { OnOk result (array_vec_len waiting.new.bytes ≤ OWN_BYTES) }
    ensures skipped { IsSkipped line.now → (engine.new ≡ engine.old) × (sink.new ≡ sink.old)
        × (waiting.new.bytes.items ≡ []) × (is_err result ≡ false) }
    ensures same { SameStore T.Store engine.old.store engine.new.store }
    ensures disk { IsCountedBeside (T.faults engine.old.store) (T.faults engine.new.store) (err_is is_disk result)
        (err_is is_sink result) }
    ensures sink { IsCountedAs (K.faults sink.old) (K.faults sink.new) (err_is is_sink result) }
{
    if line.len() > LINE_BYTES {
        return tell(&Reply::BadLine, waiting, sink);
    }
    let text = without_return(line);
    if is_remark(text) {
        return Ok(());
    }
    match parse(text) {
        None => tell(&Reply::BadLine, waiting, sink),
        Some(command) => run_command(engine, &command, waiting, sink),
    }
}

/// Does one line and the writes that it has made ready, and leaves the last of the replies waiting.
fn say_line<T: Store, K: Sink>(
    engine: &mut Engine<T>,
    line: &[u8],
    waiting: &mut Waiting,
    sink: &mut K,
) -> Result<(), StepFault>
    requires { waiting.old.bytes.items ≡ [] }
    ensures did { (m : Logged) → StandsAs T.Store engine.old m → m.state.stopped ≡ false
        → Did (StandsAs T.Store) (IsSince T.Store) engine.old engine.new m (λ now. SaidAs
        (LineOut m engine_outside line.now) (LineBegun m engine_outside line.now) now K.tells (K.held sink.old)
        (K.held sink.new) waiting.new.bytes.items result) }
    ensures skipped { IsSkipped line.now → first_ready engine.old.memory.waits ≡ None
        → (engine.new ≡ engine.old) × (sink.new ≡ sink.old)
        × (waiting.new.bytes.items ≡ []) × (is_err result ≡ false) }
    ensures same { SameStore T.Store engine.old.store engine.new.store }
    ensures disk { IsCountedBeside (T.faults engine.old.store) (T.faults engine.new.store) (err_is is_disk result)
        (err_is is_sink result) }
    ensures sink { IsCountedAs (K.faults sink.old) (K.faults sink.new) (err_is is_sink result) }
{
    say_itself(engine, line, waiting, sink)?;
    match resume_ready(engine, waiting) {
        Ok(()) => Ok(()),
        Err(_) => Err(StepFault::Disk),
    }
}

/// Puts the replies that wait at the end of a line.
fn send_last<K: Sink>(waiting: &mut Waiting, sink: &mut K) -> Result<(), StepFault>
    ensures sent { OnOk result (K.tells → K.held sink.new ≡ K.held sink.old ++ waiting.old.bytes.items) }
    ensures lost { OnErr result (Lost K.tells (K.held sink.old) waiting.old.bytes.items (K.held sink.new)) }
    ensures by_sink { IfErr result (λ fault. fault ≡ StepFault.Sink) }
    ensures idle { waiting.old.bytes.items ≡ [] → (sink.new ≡ sink.old) × (is_err result ≡ false) }
    ensures counted { IsCounted (K.faults sink.old) (K.faults sink.new) result }
{
    match send(waiting, sink) {
        Ok(()) => Ok(()),
        Err(_) => Err(StepFault::Sink),
    }
}

/// Does one line of a script, and puts its replies and those to the writes that it has made ready. What an earlier
/// line that failed left waiting is dropped.
pub fn do_line<T: Store, K: Sink>(
    engine: &mut Engine<T>,
    line: &[u8],
    waiting: &mut Waiting,
    sink: &mut K,
) -> Result<(), StepFault>
    ensures did { (m : Logged) → StandsAs T.Store engine.old m → m.state.stopped ≡ false
        → Did (StandsAs T.Store) (IsSince T.Store) engine.old engine.new m (λ now. LineRanAs engine_outside
        m now line.now K.tells (K.held sink.old) (K.held sink.new) result) }
    ensures skipped { IsSkipped line.now → first_ready engine.old.memory.waits ≡ None
        → (engine.new ≡ engine.old) × (sink.new ≡ sink.old) × (is_err result ≡ false) }
    ensures same { SameStore T.Store engine.old.store engine.new.store }
    ensures disk { IsCountedBeside (T.faults engine.old.store) (T.faults engine.new.store) (err_is is_disk result)
        (err_is is_sink result) }
    ensures sink { IsCountedAs (K.faults sink.old) (K.faults sink.new) (err_is is_sink result) }
{
    waiting.bytes.clear();
    match say_line(engine, line, waiting, sink) {
        Ok(()) => send_last(waiting, sink),
        Err(StepFault::Disk) => {
            send_last(waiting, sink)?;
            Err(StepFault::Disk)
        }
        Err(StepFault::Sink) => Err(StepFault::Sink),
    }
}

/// Does one line of a script, which comes without its LF, and the writes that it has made ready, and puts the replies
/// when all is done. Of a line of more than 512 bytes any 513 or more of its first bytes serve. It is for who has one
/// line: the program does the lines of a script by `do_line`, which has the same clauses.
pub fn step<T: Store, K: Sink>(
    engine: &mut Engine<T>,
    line: &[u8],
    sink: &mut K,
) -> Result<(), StepFault>
    // For every state that the engine stands for: the replies to the line and to the writes that were tried again, and
    // the state after them. At a fault of the disk they end with it. A crash may leave no more than these states.
    ensures did { (m : Logged) → StandsAs T.Store engine.old m → m.state.stopped ≡ false
        → Did (StandsAs T.Store) (IsSince T.Store) engine.old engine.new m (λ now. LineRanAs engine_outside
        m now line.now K.tells (K.held sink.old) (K.held sink.new) result) }
    // A line that is empty or a remark leaves all as it is where no session is ready, and the sink isn't called.
    ensures skipped { IsSkipped line.now → first_ready engine.old.memory.waits ≡ None
        → (engine.new ≡ engine.old) × (sink.new ≡ sink.old) × (is_err result ≡ false) }
    ensures same { SameStore T.Store engine.old.store engine.new.store }
    ensures disk { IsCountedBeside (T.faults engine.old.store) (T.faults engine.new.store) (err_is is_disk result)
        (err_is is_sink result) }
    ensures sink { IsCountedAs (K.faults sink.old) (K.faults sink.new) (err_is is_sink result) }
{
    do_line(engine, line, &mut Waiting::none(), sink)
}
