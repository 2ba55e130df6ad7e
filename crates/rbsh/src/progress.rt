//! `Progress`: how far a long run is, as a line in the terminal that the next one writes over. `main` makes it, and has
//! the sink show it.
use rb_stream::Watcher;
use std::cell::Cell;
use std::io::IsTerminal;
use std::time::{Duration, Instant};

/// How long a run takes, in milliseconds, before its progress is shown.
const QUIET: u64 = 1000;

/// How long a line stands at least, in milliseconds, before the next one is written over it.
const STANDS: u64 = 100;

/// Shows progress on standard error. Where that can't be written to, the run goes on all the same.
#[derive(Drop)]
pub struct Progress<'rt> {
    rt: &'rt HostRuntime,
    // When a line may be written next. There is no such time where nobody would see it, or where no clock tells it.
    next: Cell<Option<Instant>>,
    // Whether a line stands there.
    stands: Cell<bool>,
}

// The time that many milliseconds from now, if a clock tells it.
fn time_after(rt: &HostRuntime, milliseconds: u64) -> Option<Instant> {
    let now = Instant::now(rt).ok()?;
    now.checked_add(Duration::from_millis(milliseconds))
}

fn is_reached(rt: &HostRuntime, time: Instant) -> bool {
    match Instant::now(rt) {
        Ok(now) => now >= time,
        Err(_) => false,
    }
}

impl<'rt> Progress<'rt> {
    /// The progress of a run that begins now. It shows nothing where standard error is no terminal.
    pub fn begin(rt: &'rt HostRuntime) -> Progress<'rt> {
        let next = if rt.stderr().is_terminal() {
            time_after(rt, QUIET)
        } else {
            None
        };
        Progress {
            rt,
            next: Cell::new(next),
            stands: Cell::new(false),
        }
    }

    /// Wipes the line out, if one stands there.
    pub fn wipe(&self) {
        if self.stands.get() {
            let _ = eprint!(self.rt; "{:28}\r", "");
            self.stands.set(false);
        }
    }
}

impl Watcher for Progress<'_> {
    /// Writes the line, unless it is too early for one. A carriage return ends it, so that whatever is written next
    /// stands in its place: it has 28 characters, and the line of counts has more.
    fn see(&self, done: u32, all: u32) {
        let Some(next) = self.next.get() else {
            return;
        };
        if is_reached(self.rt, next) {
            let _ = eprint!(self.rt; "{done:8} of {all} commands\r");
            self.stands.set(true);
            self.next.set(time_after(self.rt, STANDS));
        }
    }
}
