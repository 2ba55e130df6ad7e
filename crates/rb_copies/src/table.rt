//! `Copies`: the kept homes of an engine, of which the one used longest ago gives way. A fetch will ask it before it
//! rebuilds a home. They are the consistent-read copies of a buffer cache, Bridge and others, VLDB 1997.
ghost use Rattle.std.specs.Prelude.{◌≡◌, ◌≢◌, ◌⊎◌, ◌<◌, ◌≤◌, [], ℕ, length, min, take};
ghost use Rattle.std.specs.Prelude.{IfNone, IfOk, IfSome, IsSome, Some, is_some, option_copied};
ghost use Rattle.std.specs.Option.{option_map_or};
ghost use Rattle.rb_copies.specs.Copies.{IsLeast, IsTable, Serves, kept_under, table_of, used, with_copy};
ghost use Rattle.rb_copies.specs.declared.homes.CopyKey.{CopyKey};
ghost use Rattle.rb_copies.specs.declared.homes.KeptHome.{KeptHome};

use crate::homes::{CopyKey, KeptHome};
use lru::LruCache;
use rb_base::{BlockNo, Lsn, NoMemory, Scn};
use std::alloc::Global;
use std::marker::Model;
use std::num::NonZeroUsize;

/// The most homes that an engine keeps.
pub const COPIES: usize = 32;

/// A number of kept homes, each under its block and commit number, the latest used first.
#[derive(Drop)]
pub struct Copies {
    // None where nothing is to be kept.
    table: Option<LruCache<CopyKey, KeptHome>>,
}

impl Model for Copies {
    ghost use Rattle.rb_copies.specs.Caches.{IsCache, table_in};
    ghost use Rattle.rb_copies.specs.Copies.{CopyTable};

    ghost Value = { CopyTable };

    ghost view = { λ a. table_in a.table };

    ghost invariant = { λ a. IsCache a.table };
}

impl Copies {
    /// The table that keeps nothing, and never will.
    pub fn none() -> Copies
        ensures { result ≡ table_of [] 0 }
    {
        Copies { table: None }
    }

    /// A table with room for so many, at least one, that keeps none yet; `NoMemory` where there is no room for it.
    pub fn new(alloc: Global, most: usize) -> Result<Copies, NoMemory>
        requires { 1 ≤ most }
        ensures { IfOk result (λ copies. copies ≡ table_of [] most) }
    {
        let Some(most) = NonZeroUsize::new(most) else {
            unreachable!()
        };
        match LruCache::new(alloc, most) {
            Ok(table) => Ok(Copies { table: Some(table) }),
            Err(_) => Err(NoMemory),
        }
    }

    /// The least commit number, from `scn` on, at which a home of this block is kept that had this log number.
    pub fn least(&self, block: BlockNo, number: Lsn, scn: Scn) -> Option<Scn>
        ensures some { IfSome result (λ m. IsLeast self.now.kept block number scn m) }
        ensures none { IfNone result ((m : ℕ) → Serves self.now.kept block number scn m → ⊥) }
        ensures sound { IsTable self.now }
    {
        let Some(table) = &self.table else {
            return None;
        };
        let mut least = None;
        for (key, home) in table.iter() {
            if key.block == block && home.number == number && scn <= key.scn {
                least = Some(lesser(least, key.scn));
            }
        }
        least
    }

    /// The home that is kept under this key.
    pub fn peek(&self, key: CopyKey) -> Option<&KeptHome>
        ensures copy { option_copied result ≡ kept_under self.now.kept key }
        ensures sound { IsTable self.now }
    {
        let table = self.table.as_ref()?;
        latest(table, key).or_else(|| table.peek(&key))
    }

    /// Makes the home that is kept under this key the latest used, and says whether there is one.
    pub fn touch(&mut self, key: CopyKey) -> bool
        ensures told { result ≡ is_some (kept_under self.old.kept key) }
        ensures used { self.new ≡ used self.old key }
        ensures most { self.new.most ≡ self.old.most }
        ensures same { (k : CopyKey) → kept_under self.new.kept k ≡ kept_under self.old.kept k }
        ensures sound { IsTable self.new }
    {
        match &mut self.table {
            None => false,
            Some(table) => latest(table, key).is_some() || table.promote(&key),
        }
    }

    /// Keeps a home as the latest used, in the place of one under the same key, where there is memory for it. In a full
    /// table the one used longest ago goes for it. Without memory the table stays as it was.
    pub fn keep(&mut self, key: CopyKey, home: KeptHome)
        ensures kept { (self.new ≡ self.old) ⊎ (self.new ≡ with_copy self.old key home) }
        ensures again { IsSome (kept_under self.old.kept key) → self.new ≡ with_copy self.old key home }

        // So the key has the new home, all others were there before, and none goes where there is room.
        ensures own { (self.new ≡ self.old) ⊎ (kept_under self.new.kept key ≡ Some home) }
        ensures others { (k : CopyKey) (copy : KeptHome) → kept_under self.new.kept k ≡ Some copy
            → (kept_under self.old.kept k ≡ Some copy) ⊎ ((k ≡ key) × (copy ≡ home)) }
        ensures room { length self.old.kept < self.old.most → (k : CopyKey) → k ≢ key
            → kept_under self.new.kept k ≡ kept_under self.old.kept k }
        ensures most { self.new.most ≡ self.old.most }
        ensures sound { IsTable self.new }
    {
        if let Some(table) = &mut self.table {
            // Where it fails, the table is as it was, and the home is let go.
            let _ = table.put(key, home);
        }
    }
}

/// The home under this key, where it is the latest used. A scan asks for the same home again at each row, and here that
/// takes no hash of the key.
fn latest(table: &LruCache<CopyKey, KeptHome>, key: CopyKey) -> Option<&KeptHome>
    ensures { option_copied result ≡ kept_under (take 1 table.now.entries) key }
{
    let (first, home) = table.peek_mru()?;
    (key == *first).then_some(home)
}

/// The lesser of a number that was found, if one was, and another one.
fn lesser(found: Option<Scn>, other: Scn) -> Scn
    ensures { result ≡ option_map_or (λ m. min m other) found other }
{
    found.map_or(other, |least| least.min(other))
}
