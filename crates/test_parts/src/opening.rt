//! An opening over a store in memory: what is under way is put back, and blocks that aren't in order are refused.
use crate::sound::{SHAPE, patch, running};
use crate::writers::copy_of;
use rb_base::{OpenFault, Store, Workspace};
use rb_plainstore::PlainStore;
use rb_recovery::open_blocks;
use rb_txntable::{ENDED, slot_at};
use std::test::Fail;

/// Opens the blocks of a store. It answers Failed where the store has too many groups.
fn open(store: &mut PlainStore) -> Result<(), OpenFault> {
    if store.logged() > 1_000_000 {
        return Err(OpenFault::Failed);
    }
    open_blocks(store, &mut Workspace::new())
}

// Two groups put back the two changes, and one more ends the slot, 15 of segment 1, whose header is block 43.
#[test]
fn what_runs_is_put_back(rt: HostRuntime) -> Result<(), Fail> {
    let mut store = PlainStore::new(rt.alloc(), SHAPE)?;
    running(&mut store)?;
    assert!(rt; open(&mut store) == Ok(()));
    let header = copy_of(&mut store, 43)?;
    assert!(rt; slot_at(&header, 15).state == ENDED && store.logged() == 20);
    Ok(())
}

#[test]
fn what_is_out_of_order_is_refused(rt: HostRuntime) -> Result<(), Fail> {
    let mut store = PlainStore::new(rt.alloc(), SHAPE)?;
    running(&mut store)?;
    patch(&mut store, 44, 79, 2)?;
    assert!(rt; open(&mut store) == Err(OpenFault::NotAStore));
    Ok(())
}
