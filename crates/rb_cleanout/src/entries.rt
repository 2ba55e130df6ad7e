//! Cleans the slot entries of a block's copy. `clean_copy` calls it; rb_write asks how a transaction stands.
ghost use Rattle.std.specs.Prelude.{◌≡◌, ◌+◌, ◌*◌, ◌<◌, ◌≤◌, true, false, not, [], length};
ghost use Rattle.std.specs.Prelude.{IfOk, MatchOption, OnOk};
ghost use Rattle.std.specs.Result.{is_err};
ghost use Rattle.rb_base.specs.Groups.{group_length};
ghost use Rattle.rb_base.specs.Logs.{Logs};
ghost use Rattle.rb_cleanout.specs.Cleaned.{look_of, Cleans, EntriesCleaned};
ghost use Rattle.rb_heap.specs.Cleaning.{cleaned_entry, has_ended, to_clean, told_entry};
ghost use Rattle.rb_heap.specs.Homes.{home_entry, home_of, with_home_entry};

use rb_base::{BlockNo, Failed, GROUP_BYTES, GROUP_PATCHES, Group, SLOTS, Store, UNIT, Xid, set};
use rb_itl::{BOUND, ENTRIES, ENTRY_BYTES, EXACT, Entry, OPEN, entry, entry_bytes, entry_place};
use rb_txntable::{Look, look};

/// How the transaction stands, by the header of its segment, which is loaded. One of a slot that isn't there counts as
/// running.
pub fn look_up<S: Store>(store: &mut S, xid: Xid) -> Result<Look, Failed>
    requires going { S.failed store.old ≡ false }
    ensures logs { Logs S.Store store.old store.new [] (not (is_err result)) }
    ensures look { S.tells → IfOk result (λ look. look ≡ look_of (S.shape_of store.old) (S.blocks store.old) xid) }
{
    let shape = store.shape();
    if xid.seg >= shape.segments || xid.slot >= SLOTS as u16 {
        return Ok(Look::Active);
    }
    store.load(shape.header_block(xid.seg))?;
    Ok(look(store.block(), xid))
}

/// The entry that tells the outcome of its transaction. None where that runs.
fn told(found: Entry, look: Look) -> Option<Entry>
    ensures { MatchOption result (has_ended look ≡ false)
        (λ told. (has_ended look ≡ true) × (told ≡ told_entry found look)) }
{
    let (kind, number) = match look {
        Look::Active => return None,
        Look::At(number) => (EXACT, number),
        Look::Before(number) => (BOUND, number),
    };
    Some(Entry {
        kind,
        number,
        ..found
    })
}

/// Cleans entry `i`, 0 to 7, of the copy where its transaction has ended, and answers whether it was so.
fn clean_entry<S: Store>(
    store: &mut S,
    no: BlockNo,
    copy: &mut [u8],
    group: &mut Group,
    i: u8,
) -> Result<bool, Failed>
    requires going { S.failed store.old ≡ false }
    requires block { length copy.old ≡ UNIT }
    requires place { i < ENTRIES }
    requires count { length group.old < GROUP_PATCHES }
    requires room { group_length group.old + (8 + ENTRY_BYTES) ≤ GROUP_BYTES }
    ensures logs { Logs S.Store store.old store.new [] (not (is_err result)) }
    ensures length { length copy.new ≡ UNIT }
    ensures made { Cleans no copy.old copy.new group.old group.new 1 (8 + ENTRY_BYTES) }
    ensures told { S.tells → IfOk result (λ cleaned. cleaned
        ≡ to_clean (look_of (S.shape_of store.old) (S.blocks store.old)) (home_entry (home_of copy.old) i)) }
    ensures cleaned { S.tells → OnOk result (home_of copy.new ≡ with_home_entry (home_of copy.old) i
        (cleaned_entry (look_of (S.shape_of store.old) (S.blocks store.old)) (home_entry (home_of copy.old) i))) }
{
    let found = entry(copy, i);
    if found.kind != OPEN {
        return Ok(false);
    }
    let look = look_up(store, found.xid)?;
    let Some(cleaned) = told(found, look) else {
        return Ok(false);
    };
    set(copy, no, group, entry_place(i), &entry_bytes(cleaned));
    Ok(true)
}

/// Cleans each entry of the copy whose transaction has ended. True for each that was cleaned.
pub fn clean_entries<S: Store>(
    store: &mut S,
    no: BlockNo,
    copy: &mut [u8],
    group: &mut Group,
) -> Result<[bool; ENTRIES as usize], Failed>
    requires going { S.failed store.old ≡ false }
    requires block { length copy.old ≡ UNIT }
    requires count { length group.old + ENTRIES ≤ GROUP_PATCHES }
    requires room { group_length group.old + ENTRIES * (8 + ENTRY_BYTES) ≤ GROUP_BYTES }
    ensures logs { Logs S.Store store.old store.new [] (not (is_err result)) }
    ensures length { length copy.new ≡ UNIT }
    ensures made { Cleans no copy.old copy.new group.old group.new ENTRIES (ENTRIES * (8 + ENTRY_BYTES)) }
    ensures many { IfOk result (λ cleaned. length cleaned ≡ ENTRIES) }
    ensures cleaned { S.tells → IfOk result (λ cleaned. EntriesCleaned
        (look_of (S.shape_of store.old) (S.blocks store.old)) ENTRIES (home_of copy.old) (home_of copy.new) cleaned) }
{
    let mut cleaned = [false; ENTRIES as usize];
    for i in 0..ENTRIES {
        cleaned[i as usize] = clean_entry(store, no, copy, group, i)?;
    }
    Ok(cleaned)
}
