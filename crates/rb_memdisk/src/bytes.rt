//! Bytes in memory that stand for a file: a copy with room to grow, and a write. `MemDisk` is made of them, and so is
//! `MemFile` of rb_memfile.
ghost use Rattle.std.specs.Prelude.{◌≡◌, ◌+◌, ◌≤◌, length, vec_capacity, max, IsOk, IfOk, OnOk};
ghost use Rattle.rb_base.specs.Fields.{overwritten};

use rb_base::NoMemory;
use std::alloc::{AllocError, Global};

/// A copy with room for so many items, which are no fewer than it has. It fails only for want of memory.
pub fn with_room<T: Copy>(alloc: Global, items: &[T], room: usize) -> Result<Vec<T>, NoMemory>
    requires { length items.now ≤ room }
    ensures items { IfOk result (λ v. v.items ≡ items.now) }
    ensures room { IfOk result (λ v. room ≤ vec_capacity v) }
{
    let mut copy = Vec::with_capacity(alloc, room).map_err(|_| NoMemory)?;
    copy.extend_from_slice(items).map_err(|_| NoMemory)?;
    Ok(copy)
}

/// Writes a piece over what is there and past the end. It can fail only where it passes the capacity.
pub fn overwrite(file: &mut Vec<u8>, at: usize, piece: &[u8]) -> Result<(), AllocError>
    requires { at ≤ length file.old.items }
    ensures written { OnOk result (file.new.items ≡ overwritten file.old.items at piece.now) }
    ensures capacity { vec_capacity file.old ≤ vec_capacity file.new }
    ensures succeeds { max (length file.old.items) (at + length piece.now) ≤ vec_capacity file.old → IsOk result }
{
    let inside = piece.len().min(file.len() - at);
    file[at..at + inside].copy_from_slice(&piece[..inside]);
    file.extend_from_slice(&piece[inside..])
}
