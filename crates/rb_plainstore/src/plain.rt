//! `PlainStore`: all blocks of a file in memory. Tests of the crates above a store make one, and compare the store over
//! a file with it.
ghost use Rattle.std.specs.Prelude.{◌≡◌, IfOk};
ghost use Rattle.rb_base.specs.Blocks.{IsShape, fresh_blocks as fresh_blocks_of};

use crate::fresh::fresh_blocks;
use crate::patching::patch;
use rb_base::{BlockNo, Failed, Group, Lsn, NoMemory, Shape, Store, UNIT};
use std::alloc::Global;
use std::marker::Model;

/// The blocks of a file in memory, which nothing keeps. All its memory is taken when it is made, and no call of it
/// fails.
#[derive(Drop)]
pub struct PlainStore {
    shape: Shape,
    blocks: Vec<[u8; UNIT]>,
    lsn: Lsn,
    loaded: Option<BlockNo>,
}

impl Model for PlainStore {
    ghost use Rattle.rb_plainstore.specs.Plain.{PlainState, IsPlain};

    ghost Value = { PlainState };

    ghost view = { λ a. record { shape = a.shape; blocks = a.blocks.items; lsn = a.lsn; loaded = a.loaded } };

    ghost invariant = { λ a. IsPlain a.shape a.blocks.items a.loaded };
}

impl PlainStore {
    /// The blocks of a new file, of which none is loaded. It takes 2,048 bytes for each.
    pub fn new(alloc: Global, shape: Shape) -> Result<PlainStore, NoMemory>
        requires { IsShape shape }
        ensures { IfOk result (λ store. store ≡ record {
          shape = shape;
          blocks = fresh_blocks_of shape;
          lsn = 0;
          loaded = None;
        }) }
    {
        Ok(PlainStore {
            shape,
            blocks: fresh_blocks(alloc, shape)?,
            lsn: 0,
            loaded: None,
        })
    }
}

impl Store for PlainStore {
    ghost use Rattle.std.specs.Prelude.{[], false, None};

    ghost tells = { Unit {0} };

    ghost keeps = { ⊥ };

    ghost shape_of = { λ store. store.shape };

    ghost slots = { λ _. None };

    ghost blocks = { λ store. store.blocks };

    ghost pending = { λ _. [] };

    ghost lsn = { λ store. store.lsn };

    ghost loaded = { λ store. store.loaded };

    ghost failed = { λ _. false };

    ghost faults = { λ _. 0 };

    ghost image = { Unit {0} };

    ghost left = { λ _ _. ⊥ };

    ghost moment = { λ _. 0 };

    ghost left_since = { λ _ _ _. ⊥ };

    ghost holds_back = { λ _ _. Unit {0} };

    ghost opens = { λ _ _ _ _ _. ⊥ };

    ghost stable = { λ _ _ _. ⊥ };

    ghost stable_left = { λ store b n i keeps. absurd keeps };

    ghost stable_numbered = { λ store b n keeps. absurd keeps };

    ghost stable_patched = { λ store b n keeps. absurd keeps };

    ghost now_counts = { λ store t i keeps. absurd keeps };

    ghost holds_back_same = { λ store. tt };

    ghost holds_back_joined = { λ a b c first second. tt };

    ghost only_now = { λ store i keeps. absurd keeps };

    fn shape(&self) -> Shape {
        self.shape
    }

    fn load(&mut self, no: BlockNo) -> Result<(), Failed> {
        self.loaded = Some(no);
        Ok(())
    }

    fn block(&self) -> &[u8] {
        let Some(no) = self.loaded else {
            unreachable!()
        };
        &self.blocks[no as usize]
    }

    fn apply(&mut self, group: &Group) -> Result<(), Failed> {
        self.lsn += 1;
        patch(self.blocks.as_mut_slice(), group, self.lsn);
        Ok(())
    }

    fn flush(&mut self) -> Result<(), Failed> {
        Ok(())
    }

    fn checkpoint(&mut self) -> Result<(), Failed> {
        Ok(())
    }

    fn logged(&self) -> Lsn {
        self.lsn
    }
}
