//! Writes a cell and the slot entry of its transaction as patches of one block. A write of a row calls it, and what
//! takes one back.
ghost use Rattle.std.specs.Prelude.{◌≡◌, ◌+◌, ◌<◌, ◌≤◌, ◌++◌, length};
ghost use Rattle.rb_base.specs.Groups.{group_length};
ghost use Rattle.rb_cell.specs.Cells.{IsCell};
ghost use Rattle.rb_itl.specs.Entries.{IsEntry};
ghost use Rattle.rb_heap.specs.Homes.{home_patches};

use rb_base::{BlockNo, GROUP_BYTES, GROUP_PATCHES, Group};
use rb_cell::{CELL_BYTES, CELLS, Cell, cell_bytes, cell_place};
use rb_itl::{ENTRIES, ENTRY_BYTES, Entry, entry_bytes, entry_place};

/// Puts two patches at the end of the group, the cell's and then the entry's: the cell goes to place `c`, 0 to 15, and
/// the entry to place `i`, 0 to 7, of block `no`.
pub fn change(group: &mut Group, no: BlockNo, c: u8, cell: &Cell, i: u8, entry: &Entry)
    requires cell_within { c < CELLS }
    requires entry_within { i < ENTRIES }
    requires count { length group.old + 2 ≤ GROUP_PATCHES }
    requires room { group_length group.old + (8 + CELL_BYTES) + (8 + ENTRY_BYTES) ≤ GROUP_BYTES }
    ensures patches { group.new ≡ group.old ++ home_patches no c cell.now i entry.now }
    ensures cell_sound { IsCell cell.now }
    ensures entry_sound { IsEntry entry.now }
{
    group.push(no, cell_place(c) as u16, &cell_bytes(cell));
    group.push(no, entry_place(i) as u16, &entry_bytes(*entry));
}
