//! The queue itself, and the test whether a wait would close a ring. It is for the engine.
ghost use Rattle.std.specs.Prelude.{◌≡◌, ◌↔◌, ◌<◌, IsTrue, length, []};
ghost use Rattle.rb_model.specs.Calls.{wait_by};
ghost use Rattle.rb_model.specs.Queue as queue;
ghost use Rattle.rb_model.specs.Queue.{Reaches};
ghost use Rattle.rb_waits.specs.Waiters.{waiter_view};
ghost use Rattle.std.specs.Prelude.{map};

use arrayvec::ArrayVec;
use rb_model::Wait;
use std::marker::Model;

/// The most sessions in the queue.
pub const WAITERS: usize = 16;

/// A session in the queue.
#[derive(Clone, Copy, Debug, Default, PartialEq, Eq)]
pub(crate) struct Waiter {
    pub session: u16,
    /// For whom it waits. One that is ready waits for nobody.
    pub on: Option<u16>,
}

/// For whom a session waits.
fn waits_for(waiters: &[Waiter], s: u16) -> Option<u16>
    ensures { result ≡ queue.waits_for s (map waiter_view waiters.now) }
{
    let waiter = waiters.iter().find(|waiter| waiter.session == s)?;
    waiter.on
}

/// How a session waits, by its place.
fn wait_of(waiters: &[Waiter], s: u16) -> Wait
    ensures { result ≡ wait_by (queue.place_of s (map waiter_view waiters.now)) }
{
    let Some(waiter) = waiters.iter().find(|waiter| waiter.session == s) else {
        return Wait::Free;
    };
    match waiter.on {
        Some(session) => Wait::On { session },
        None => Wait::Ready,
    }
}

/// Those that wait for session `u` are ready.
fn free_all(waiters: &mut [Waiter], u: u16)
    ensures { map waiter_view waiters.new ≡ queue.freed_by u (map waiter_view waiters.old) }
{
    for waiter in waiters.iter_mut() {
        if waiter.on == Some(u) {
            waiter.on = None;
        }
    }
}

/// Sessions that wait for the end of another one's transaction, or are ready to try their writes again, in order of
/// arrival. (Oracle7 Server Concepts, *Data Concurrency*.)
#[derive(Debug, Drop)]
pub struct Waits {
    queue: ArrayVec<Waiter, WAITERS>,
}

impl Model for Waits {
    ghost use Rattle.std.specs.Prelude.{List, map};
    ghost use Rattle.rb_model.specs.Queue.{Waiter};
    ghost use Rattle.rb_waits.specs.Waiters.{waiter_view};

    ghost Value = { List Waiter };

    ghost view = { λ w. map waiter_view w.queue.items };
}

impl Waits {
    /// An empty queue.
    pub fn new() -> Waits
        ensures { result ≡ [] }
    {
        Waits {
            queue: ArrayVec::new(),
        }
    }

    /// Whether session `s` is in the queue.
    pub fn waits(&self, s: u16) -> bool
        ensures { result ≡ queue.is_queued s self.now }
    {
        self.queue
            .as_slice()
            .iter()
            .any(|waiter| waiter.session == s)
    }

    /// How session `s` waits.
    pub fn wait_of(&self, s: u16) -> Wait
        ensures { result ≡ wait_by (queue.place_of s self.now) }
    {
        wait_of(self.queue.as_slice(), s)
    }

    /// Whether a ring is closed where session `s` waits for `u`: following "waits for" from `u` reaches `s`.
    pub fn would_close(&self, s: u16, u: u16) -> bool
        ensures closes { result ≡ queue.closes self.now s u }
        ensures ring { IsTrue result ↔ Reaches self.now s u }
    {
        let queue = self.queue.as_slice();
        let mut at = u;
        // No way that reaches `s` has more steps than the queue has sessions.
        for _step in 0..queue.len() {
            if at == s {
                return true;
            }
            let Some(on) = waits_for(queue, at) else {
                return false;
            };
            at = on;
        }
        at == s
    }

    /// The ready session that came first. None exactly where none is ready.
    pub fn ready(&self) -> Option<u16>
        ensures { result ≡ queue.first_ready self.now }
    {
        let waiter = self
            .queue
            .as_slice()
            .iter()
            .find(|waiter| waiter.on.is_none())?;
        Some(waiter.session)
    }

    /// Session `s` begins to wait for `on`, behind all others. The queue has room, as it has for each session that
    /// isn't in it (`queue_laws`).
    pub fn wait(&mut self, s: u16, on: u16)
        requires { length self.old < WAITERS }
        ensures { self.new ≡ queue.waiting s on self.old }
    {
        self.queue.push(Waiter {
            session: s,
            on: Some(on),
        });
    }

    /// Session `s` leaves the queue, if it is there.
    pub fn leave(&mut self, s: u16)
        ensures { self.new ≡ queue.left_by s self.old }
    {
        self.queue.retain(|waiter| waiter.session != s);
    }

    /// Who waits for session `u`, whose transaction has ended, is ready.
    pub fn free(&mut self, u: u16)
        ensures { self.new ≡ queue.freed_by u self.old }
    {
        free_all(self.queue.as_mut_slice(), u);
    }
}
