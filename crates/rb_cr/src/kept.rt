//! The rows of the reader's own changes, kept while these are taken back. A rebuild adds to them.
ghost use Rattle.std.specs.Prelude.{◌≡◌, ◌++◌, ◌∷◌, [], ◌<◌, ◌≤◌, true, false, length, IfOk};
ghost use Rattle.rb_cr.specs.Records.{kept_items, row_items};
ghost use Rattle.rb_cr.specs.Rows.{kept_key, kept_row};
ghost use Rattle.law_read.specs.Keeping.{has};

use arrayvec::ArrayVec;
use rb_base::{NoMemory, VALUE_BYTES, array_of};
use std::alloc::Global;
use std::marker::Model;

/// How many rows can be kept: a transaction has so many changes at most.
pub const KEPT_ROWS: usize = 320;

/// A key, and its row or none.
#[derive(Drop)]
pub struct KeptRow {
    /// The key.
    pub key: u64,
    /// Its value, or none where the change took the row away.
    pub row: Option<ArrayVec<u8, VALUE_BYTES>>,
}

/// The bytes of a value, once more.
pub fn copied(value: &ArrayVec<u8, VALUE_BYTES>) -> ArrayVec<u8, VALUE_BYTES>
    ensures { result.items ≡ value.now.items }
{
    array_of(value.as_slice())
}

/// Rows by key, in the order in which they were kept.
#[derive(Drop)]
pub struct KeptRows {
    rows: Vec<KeptRow>,
}

impl Model for KeptRows {
    ghost use Rattle.std.specs.Prelude.{◌≤◌, vec_capacity};
    ghost use Rattle.rb_cr.specs.KeptRows.{kept_of};
    ghost use Rattle.law_read.specs.Keeping.{Kept, kept_room};

    ghost Value = { Kept };

    ghost view = { λ k. kept_of k.rows.items };

    ghost invariant = { λ k. kept_room ≤ vec_capacity k.rows };
}

impl KeptRows {
    /// None is kept. The room for all is taken here; `NoMemory` where there is none.
    pub fn new(alloc: Global) -> Result<KeptRows, NoMemory>
        ensures { IfOk result (λ k. k ≡ []) }
    {
        let Ok(rows) = Vec::with_capacity(alloc, KEPT_ROWS) else {
            return Err(NoMemory);
        };
        Ok(KeptRows { rows })
    }

    /// Forgets them.
    pub fn clear(&mut self)
        ensures { self.new ≡ [] }
    {
        self.rows.clear();
    }

    /// Whether a row of this key is kept.
    pub fn has(&self, key: u64) -> bool
        ensures { result ≡ has self.now key }
    {
        for i in 0..self.rows.len() {
            if self.rows[i].key == key {
                return true;
            }
        }
        false
    }

    /// What is kept of a key: its row, or that it had none.
    pub fn row(&self, key: u64) -> Option<Option<ArrayVec<u8, VALUE_BYTES>>>
        ensures { kept_items result ≡ kept_row self.now key }
    {
        for i in 0..self.rows.len() {
            if self.rows[i].key == key {
                return Some(self.rows[i].row.as_ref().map(copied));
            }
        }
        None
    }

    /// How many are kept.
    pub fn len(&self) -> usize
        ensures { result ≡ length self.now }
    {
        self.rows.len()
    }

    /// The key of the row that was kept as the `i`-th, from 0 on.
    pub fn key(&self, i: usize) -> u64
        requires { i < length self.now }
        ensures { result ≡ kept_key self.now i }
    {
        self.rows[i].key
    }

    /// Keeps one more. False where the room is used up.
    pub fn add(&mut self, key: u64, row: Option<ArrayVec<u8, VALUE_BYTES>>) -> bool
        ensures added { result ≡ true → self.new ≡ self.old ++ (key, row_items row) ∷ [] }
        ensures full { result ≡ false → KEPT_ROWS ≤ length self.old }
    {
        self.rows.push(KeptRow { key, row }).is_ok()
    }
}
