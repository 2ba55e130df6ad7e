//! Groups for the tests of stores: the bytes of a new file, a list of groups, and whether two stores read the same.
ghost use Rattle.std.specs.Prelude.{◌≡◌, ◌<◌, ◌≤◌, false, OnOk};

use rb_base::{Failed, Group, NoMemory, Shape, Store};
use rb_layout::Layout;
use rb_memdisk::MemDisk;
use rb_plainstore::PlainStore;
use rb_store::format;
use std::alloc::Global;

/// One table of one block, and one segment: 34 blocks, more than sixteen frames hold.
pub const SHAPE: Shape = Shape {
    tables: 1,
    blocks: 1,
    segments: 1,
};

/// The log slots of the file.
pub const SLOTS: u32 = 64;

/// How many groups the list has: the log goes round twice.
pub const GROUPS: u32 = 152;

/// The bytes of the file.
const FILE: u64 = 227_328;

/// A new file of a layout.
pub fn new_file(alloc: Global, layout: &Layout) -> Result<Vec<u8>, NoMemory> {
    let mut disk = MemDisk::new(alloc, b"", FILE, 20, &[])?;
    let _ = format(&mut disk, layout);
    disk.bytes().to_vec(alloc).map_err(|_| NoMemory)
}

/// Gives a store the group of a step: a byte in each of two blocks.
fn give<S: Store>(store: &mut S, step: u32) -> Result<(), Failed>
    requires going { S.failed store.old ≡ false }
    requires few { step ≤ 1000 }
    ensures going { OnOk result (S.failed store.new ≡ false) }
{
    let count = store.shape().block_count();
    if count == 0 || store.logged() > 1_000_000 {
        return Err(Failed);
    }
    let byte = (step % 256) as u8;
    let mut group = Group::new();
    group.push(step * 7 % count, 32 + step as u16, &[byte]);
    group.push(step * 11 % count, 1040, &[1, byte]);
    store.apply(&group)
}

/// Gives it the groups from one step to before another, with a flush behind each eighth and a checkpoint behind step
/// 20. That frees all slots of a log, as the store itself does at the steps 84 and 147, which find it full.
pub fn give_all<S: Store>(store: &mut S, first: u32, end: u32) -> Result<(), Failed>
    requires going { S.failed store.old ≡ false }
    requires few { end ≤ 1000 }
    ensures going { OnOk result (S.failed store.new ≡ false) }
{
    for step in first..end {
        give(store, step)?;
        if step % 8 == 7 {
            store.flush()?;
        }
        if step == 20 {
            store.checkpoint()?;
        }
    }
    Ok(())
}

/// Whether two stores read the same in each block, and have the same last log number.
pub fn read_the_same<S: Store, T: Store>(one: &mut S, other: &mut T) -> bool
    requires one { S.failed one.old ≡ false }
    requires other { T.failed other.old ≡ false }
{
    if one.logged() != other.logged() {
        return false;
    }
    for no in 0..34 {
        if no >= one.shape().block_count() || no >= other.shape().block_count() {
            return false;
        }
        if one.load(no).is_err() || other.load(no).is_err() {
            return false;
        }
        if one.block() != other.block() {
            return false;
        }
    }
    true
}

/// A store in memory with the first so many groups.
pub fn in_memory(alloc: Global, groups: u32) -> Result<PlainStore, NoMemory>
    requires { groups ≤ 1000 }
{
    let mut plain = PlainStore::new(alloc, SHAPE)?;
    let _ = give_all(&mut plain, 0, groups);
    Ok(plain)
}
