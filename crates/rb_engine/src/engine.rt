//! `Engine`: the memory of its sessions with the store that keeps their changes. The shell runs lines through it.
ghost use Rattle.std.specs.Prelude.{◌≡◌};
ghost use Rattle.rb_base.specs.Blocks.{IsShape};
ghost use Rattle.rb_engine.specs.Does.{Stands};
ghost use Rattle.rb_model.specs.Rows.{last_scn};
ghost use Rattle.rb_model.specs.State.{State};

use crate::memory::Memory;
use rb_base::{Scn, Shape, Store, Workspace};
use rb_cr::Scratch;
use std::marker::Model;

/// Sixteen sessions over the blocks of a store. A call that answers `DiskFault` stops it for good; then the store is
/// opened again.
#[derive(Drop)]
pub struct Engine<T: Store> {
    pub(crate) memory: Memory,
    pub(crate) scratch: Scratch,
    pub(crate) workspace: Box<Workspace>,
    pub(crate) store: T,
}

impl<T: Store> Model for Engine<T> {
    ghost use Rattle.rb_engine.specs.Does.{EngineView, IsInStep};

    ghost Value = { EngineView T };

    ghost view = { λ e. record { memory = e.memory; store = e.store } };

    ghost invariant = { λ e. IsInStep T.Store e.memory e.store };
}

impl<T: Store> Engine<T> {
    /// The number of the last commit.
    pub fn now(&self) -> Scn
        ensures { (h : State) → Stands T.Store h self.now → result ≡ last_scn h.commits }
    {
        self.memory.scn
    }

    /// The store's shape.
    pub fn shape(&self) -> Shape
        ensures shape { result ≡ T.shape_of self.now.store }
        ensures in_range { IsShape result }
    {
        self.store.shape()
    }

    /// Gives the store back as it is.
    pub fn close(self) -> T
        ensures { result ≡ self.store }
    {
        let Engine {
            memory: _,
            scratch: _,
            workspace: _,
            store,
        } = self;
        store
    }
}
