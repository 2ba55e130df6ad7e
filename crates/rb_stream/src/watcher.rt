//! `Watcher`: whom a sink shows how far a long run is. That of the program writes it to a terminal.

/// Whom a sink shows how far a long run is. No clause speaks of what is shown.
pub trait Watcher {
    /// Is told that so many of so many commands are done. How often is up to the run; where that is too often for a
    /// watcher, it leaves some out.
    fn see(&self, done: u32, all: u32);
}

/// A watcher that sees nothing.
#[derive(Clone, Copy)]
pub struct Nobody;

impl Watcher for Nobody {
    fn see(&self, _done: u32, _all: u32) {}
}

impl<P: Watcher> Watcher for &P {
    fn see(&self, done: u32, all: u32) {
        (**self).see(done, all);
    }
}
