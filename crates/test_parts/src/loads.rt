//! A small file in memory that counts how often a block of undo is loaded. A build loads one for each record that it
//! takes back, so the tests of builds see by it how many these were.
ghost use Rattle.std.specs.Prelude.{◌≡◌};

use rb_base::{BlockNo, Failed, Group, Lsn, Shape, Store};
use rb_plainstore::PlainStore;
use std::marker::Model;

/// A store of a file with one segment, and how often a block of undo was loaded.
#[derive(Drop)]
pub(crate) struct Loads {
    store: PlainStore,
    undo: u32,
}

impl Model for Loads {
    ghost use Rattle.rb_plainstore.specs.Plain.{PlainState};

    ghost Value = { PlainState };

    ghost view = { λ a. a.store };
}

impl Loads {
    /// The loads of this store from now on.
    pub(crate) fn new(store: PlainStore) -> Loads
        ensures { result ≡ store }
    {
        Loads { store, undo: 0 }
    }

    /// How many they were since this was asked last.
    pub(crate) fn take(&mut self) -> u32
        ensures { self.new ≡ self.old }
    {
        let undo = self.undo;
        self.undo = 0;
        undo
    }
}

impl Store for Loads {
    ghost use Rattle.std.specs.Prelude.{[], false, None};

    ghost tells = { Unit {0} };

    ghost keeps = { ⊥ };

    ghost shape_of = { λ store. store.shape };

    ghost slots = { λ _. None };

    ghost blocks = { λ store. store.blocks };

    ghost pending = { λ _. [] };

    ghost lsn = { λ store. store.lsn };

    ghost loaded = { λ store. store.loaded };

    ghost failed = { λ _. false };

    ghost faults = { λ _. 0 };

    ghost image = { Unit {0} };

    ghost left = { λ _ _. ⊥ };

    ghost moment = { λ _. 0 };

    ghost left_since = { λ _ _ _. ⊥ };

    ghost holds_back = { λ _ _. Unit {0} };

    ghost opens = { λ _ _ _ _ _. ⊥ };

    ghost stable = { λ _ _ _. ⊥ };

    ghost stable_left = { λ store b n i keeps. absurd keeps };

    ghost stable_numbered = { λ store b n keeps. absurd keeps };

    ghost stable_patched = { λ store b n keeps. absurd keeps };

    ghost now_counts = { λ store t i keeps. absurd keeps };

    ghost holds_back_same = { λ store. tt };

    ghost holds_back_joined = { λ a b c first second. tt };

    ghost only_now = { λ store i keeps. absurd keeps };

    fn shape(&self) -> Shape {
        self.store.shape()
    }

    fn load(&mut self, no: BlockNo) -> Result<(), Failed> {
        // The segment's header stands behind the tables, and the blocks of undo behind it.
        if no > self.store.shape().table_blocks() {
            self.undo = self.undo.saturating_add(1);
        }
        self.store.load(no)
    }

    fn block(&self) -> &[u8] {
        self.store.block()
    }

    fn apply(&mut self, group: &Group) -> Result<(), Failed> {
        self.store.apply(group)
    }

    fn flush(&mut self) -> Result<(), Failed> {
        self.store.flush()
    }

    fn checkpoint(&mut self) -> Result<(), Failed> {
        self.store.checkpoint()
    }

    fn logged(&self) -> Lsn {
        self.store.logged()
    }
}
