//! `Ahead`: what a fetch has seen of the rows that the next ones of its cursor will give. Whoever fetches many rows
//! keeps one between the calls.
ghost use Rattle.std.specs.Prelude.{◌≡◌, None};

use rb_cr::Page;
use std::marker::Model;

/// The rows behind the last one that a cursor gave, as far as one block tells them. It is of use for the next fetch of
/// that cursor, where no other call of the engine is made between.
#[derive(Drop)]
pub struct Ahead {
    // The cursor's place among those of its session.
    pub(crate) place: usize,
    // The home whose block it is.
    pub(crate) home: u32,
    pub(crate) page: Page,
}

impl Model for Ahead {
    ghost use Rattle.rb_engine.specs.Ahead.{RowsAhead};

    ghost Value = { RowsAhead };

    ghost view = { λ a. record { place = a.place; home = a.home; rows = a.page } };
}

impl Ahead {
    /// For a fetch behind which no other is known to follow: it looks for its own row alone.
    pub fn of_one() -> Ahead
        ensures { result.rows ≡ None }
    {
        Ahead {
            place: 0,
            home: 0,
            page: Page::of_one(),
        }
    }

    /// For fetches of many rows.
    pub fn of_many() -> Ahead
        ensures { result.rows ≡ None }
    {
        Ahead {
            place: 0,
            home: 0,
            page: Page::of_many(),
        }
    }
}
