//! A cursor's next row, by the homes of its table in scan order, each cleaned and rebuilt as it was at the cursor's
//! snapshot. `fetch` calls it, and `get` for a home alone.
ghost use Rattle.std.specs.Prelude.{◌≡◌, ◌⊎◌, ◌<◌, ◌≤◌, ◌%◌, ◌*◌, ℕ, List, length};
ghost use Rattle.std.specs.Prelude.{true, false, not};
ghost use Rattle.std.specs.Prelude.{None, Some, Ok, IfOk, IfErr, IfSome, if◌then◌else◌, ◌==◌, is_some};
ghost use Rattle.rb_base.specs.Groups.{Patch};
ghost use Rattle.rb_base.specs.Logs.{Logs};
ghost use Rattle.rb_base.specs.declared.ids.Xid.{Xid};
ghost use Rattle.rb_base.specs.declared.sizes.TheConstants.{WORN};
ghost use Rattle.rb_cr.specs.Faults.{is_failed};
ghost use Rattle.rb_engine.specs.Ahead.{IsAheadOf, behind_key};
ghost use Rattle.rb_engine.specs.Cleaning.{Cleans, IsClean, IsHere, MustIn, ReadIn, Serves};
ghost use Rattle.rb_engine.specs.Scanning.{Begins, Finds, HasKey, HasNext, HasNone, IsBehind};
ghost use Rattle.rb_model.specs.Next.{is_after};
ghost use Rattle.rb_model.specs.State.{State};
ghost use Rattle.law_copies.specs.Copies.{CopiesStand};
ghost use Rattle.law_sessions.specs.Scan.{IsAskedKey};
ghost use Rattle.law_sessions.specs.Views.{home_in};
ghost use Rattle.rb_sessions.specs.declared.cursor.Cursor.{Cursor};

use crate::ahead::Ahead;
use rb_base::{Failed, Store, Workspace};
use rb_copies::Copies;
use rb_cr::{CrFault, Scratch, Snapshot, Wanted, next_at, next_on_page, next_told};
use rb_model::{Fetched, Row};
use rb_sessions::Cursor;
use rb_steps::clean_step;

/// Whether no multiple of the number of homes parts the range: then its keys are of the homes from that of its least
/// key to that of its greatest one. Else the range goes round.
fn is_in_one_round(cursor: &Cursor, blocks: u32) -> bool
    requires { 0 < blocks }
    ensures low { result ≡ true → (k : ℕ) → cursor.now.lo ≤ k → k ≤ cursor.now.hi
        → cursor.now.lo % blocks ≤ k % blocks }
    ensures high { result ≡ true → (k : ℕ) → cursor.now.lo ≤ k → k ≤ cursor.now.hi
        → k % blocks ≤ cursor.now.hi % blocks }
{
    let blocks = u64::from(blocks);
    // A range of so many keys goes round: no quotient is needed for that.
    if cursor.hi.saturating_sub(cursor.lo) >= blocks {
        return false;
    }
    cursor.lo / blocks == cursor.hi / blocks
}

/// The home of a key, of so many.
pub fn home_of(key: u64, blocks: u32) -> u32
    requires { 0 < blocks }
    ensures home { result ≡ key % blocks }
    ensures within { result < blocks }
{
    (key % u64::from(blocks)) as u32
}

/// The first home that may have a row behind the last one: that of its key. At first it is that of the range's least
/// key, or the first of all where the range goes round.
fn first_home(cursor: &Cursor, blocks: u32) -> u32
    requires { 0 < blocks }
    ensures within { result < blocks }
    ensures skips { (g k : ℕ) → g < result
        → IsAskedKey blocks cursor.now.lo cursor.now.hi cursor.now.last g k → ⊥ }
    ensures last { (last : ℕ) → cursor.now.last ≡ Some last → result ≡ last % blocks }
{
    let key = match cursor.last {
        Some(last) => last,
        None if is_in_one_round(cursor, blocks) => cursor.lo,
        None => 0,
    };
    home_of(key, blocks)
}

/// The home from which on none has a key of the range.
fn end_home(cursor: &Cursor, blocks: u32) -> u32
    requires { 0 < blocks }
    ensures within { result ≤ blocks }
    ensures none { (g k : ℕ) → result ≤ g → g < blocks → k % blocks ≡ g
        → cursor.now.lo ≤ k → k ≤ cursor.now.hi → ⊥ }
{
    if !is_in_one_round(cursor, blocks) {
        return blocks;
    }
    home_of(cursor.hi, blocks) + 1
}

/// The least key behind which home `g` of so many is asked: the last one in its own home, and none in a later one.
fn after_in(cursor: &Cursor, first: u32, g: u32) -> Option<u64>
    ensures { result ≡ (if g == first then cursor.now.last else None) }
{
    if g == first { cursor.last } else { None }
}

/// Whether some key of the range may be of home `g`.
fn is_asked(cursor: &Cursor, blocks: u32, g: u32) -> bool
    requires some { 0 < blocks }
    requires there { g < blocks }
    ensures none { result ≡ false → (k : ℕ) → k % blocks ≡ g
        → cursor.now.lo ≤ k → k ≤ cursor.now.hi → ⊥ }
    ensures some { result ≡ true → HasKey blocks cursor.now.lo cursor.now.hi g }
{
    if cursor.lo > cursor.hi {
        return false;
    }
    let blocks = u64::from(blocks);
    let low = cursor.lo % blocks;
    let home = u64::from(g);
    // How far behind the least key the home's first one is.
    let ahead = if low <= home {
        home - low
    } else {
        home + blocks - low
    };
    ahead <= cursor.hi - cursor.lo
}

/// Puts the next row of home `g` into `row`, where it has one. Where the block tells by itself that the snapshot sees
/// each of its changes it is read as it stands: it has nothing to clean then. Else the home is cleaned first, unless
/// the log is worn out, so that what is known of its transactions now is still known when their undo is gone; then it
/// is rebuilt with the help of the homes that are kept. Of a block that tells, and of a kept home, the rows behind are
/// known ahead then, where many are asked for.
pub fn next_in<S: Store>(
    store: &mut S,
    workspace: &mut Workspace,
    scratch: &mut Scratch,
    copies: &mut Copies,
    cursor: &Cursor,
    g: u32,
    first: u32,
    ahead: &mut Ahead,
    row: &mut Row,
) -> Result<bool, CrFault>
    requires going { S.failed store.old ≡ false }
    requires table { (1 ≤ cursor.now.table) × (cursor.now.table ≤ (S.shape_of store.old).tables) }
    requires there { g < (S.shape_of store.old).blocks }
    requires begins { Begins (S.shape_of store.old).blocks first g cursor.now.last }
    ensures told { S.tells → (h : State) (xids : List Xid) → Serves S.Store h xids cursor.now store.old
        → CopiesStand h xids (S.blocks store.old) copies.old.kept
        → IfOk result (λ found.
        (found ≡ true → HasNext h xids (S.blocks store.old) cursor.now g row.new)
        × (found ≡ false → HasNone h xids (S.blocks store.old) cursor.now g)) }
    ensures old { S.tells → (h : State) (xids : List Xid) → Serves S.Store h xids cursor.now store.old
        → CopiesStand h xids (S.blocks store.old) copies.old.kept
        → IfErr result (λ fault. HasKey h.shape.blocks cursor.now.lo cursor.now.hi g
        × IsBehind h xids (S.blocks store.old) cursor.now g fault) }
    ensures cleans { S.tells → (h : State) (xids : List Xid) → Serves S.Store h xids cursor.now store.old
        → Cleans S.Store h xids (IsHere h.shape cursor.now g) (IsHere h.shape cursor.now g) 1 store.old store.new
        (not (is_failed result)) }
    ensures copies { S.tells → (h : State) (xids : List Xid) → Serves S.Store h xids cursor.now store.old
        → CopiesStand h xids (S.blocks store.old) copies.old.kept → is_failed result ≡ false
        → CopiesStand h xids (S.blocks store.new) copies.new.kept }
    ensures kept { IfOk result (λ found. found ≡ false → row.new ≡ row.old) }
    ensures same { IfErr result (λ fault. row.new ≡ row.old) }
    ensures logs { (groups : List (List Patch))
        × Logs S.Store store.old store.new groups (not (is_failed result)) × (length groups ≤ 1) }
    ensures young { is_failed result ≡ false
        → (S.lsn store.new ≤ WORN) ⊎ (S.lsn store.new ≡ S.lsn store.old) }
    ensures ahead { IfOk result (λ found. found ≡ true
        → IsAheadOf S.Store (behind_key row.new.key cursor.now) copies.new.kept store.new ahead.new) }
    ensures nothing { (result ≡ Ok true → ⊥) → ahead.new.rows ≡ None }
{
    ahead.page.clear();
    let blocks = store.shape().blocks;
    if !is_asked(cursor, blocks, g) {
        return Ok(false);
    }
    let block = (u32::from(cursor.table) - 1) * blocks + g;
    let snapshot = Snapshot {
        scn: cursor.scn,
        own: cursor.own,
        upto: cursor.upto,
    };
    let wanted = Wanted {
        after: after_in(cursor, first, g),
        lo: cursor.lo,
        hi: cursor.hi,
    };
    match next_told(store, block, &snapshot, wanted, &mut ahead.page, row) {
        Ok(Some(found)) => {
            ahead.home = g;
            return Ok(found);
        }
        Ok(None) => {}
        Err(Failed) => return Err(CrFault::Failed),
    }
    if clean_step(store, block, workspace).is_err() {
        return Err(CrFault::Failed);
    }
    ahead.home = g;
    let page = &mut ahead.page;
    next_at(store, block, &snapshot, wanted, scratch, copies, page, row)
}

/// Gives the next row of the home in which a cursor's last one was, from what is known ahead: false where the home has
/// none behind it, and None where nothing is known of the home. The store isn't called but for the block that it loaded
/// last.
fn next_ahead<S: Store>(
    store: &S,
    copies: &Copies,
    ahead: &mut Ahead,
    home: u32,
    row: &mut Row,
) -> Option<bool>
    requires loaded { IfSome ahead.old.rows (λ page. page.kept ≡ None → is_some (S.loaded store.now) ≡ true) }
    ensures given { S.tells → (m : Cursor) (h : State) (xids : List Xid)
        → IsAheadOf S.Store m copies.now.kept store.now ahead.old → Serves S.Store h xids m store.now
        → CopiesStand h xids (S.blocks store.now) copies.now.kept
        → Begins h.shape.blocks home home m.last → home < h.shape.blocks
        → result ≡ Some true → HasNext h xids (S.blocks store.now) m home row.new }
    ensures none { S.tells → (m : Cursor) (h : State) (xids : List Xid)
        → IsAheadOf S.Store m copies.now.kept store.now ahead.old → Serves S.Store h xids m store.now
        → CopiesStand h xids (S.blocks store.now) copies.now.kept
        → Begins h.shape.blocks home home m.last → home < h.shape.blocks
        → result ≡ Some false → HasNone h xids (S.blocks store.now) m home }
    ensures clean { S.tells → (m : Cursor) (h : State) (xids : List Xid)
        → IsAheadOf S.Store m copies.now.kept store.now ahead.old → Serves S.Store h xids m store.now
        → home < h.shape.blocks → is_some result ≡ true → S.lsn store.now < WORN
        → IsClean h.shape (S.blocks store.now) (S.blocks store.now) (home_in h.shape m.table home) }
    ensures ahead { (m : Cursor) → IsAheadOf S.Store m copies.now.kept store.now ahead.old → result ≡ Some true
        → IsAheadOf S.Store (behind_key row.new.key m) copies.now.kept store.now ahead.new }
    ensures nothing { (result ≡ Some true → ⊥) → (ahead.new.rows ≡ None) × (row.new ≡ row.old) }
{
    if ahead.home != home {
        ahead.page.clear();
        return None;
    }
    next_on_page(store, copies, &mut ahead.page, row)
}

/// Puts the cursor's next row into `row`, where there is one. The homes are read from that of the last row on, up to
/// the one that has the next row, and no other. Each that is read is cleaned, by a group that waits, as long as
/// the log isn't worn out.
pub fn next_row<S: Store>(
    store: &mut S,
    workspace: &mut Workspace,
    scratch: &mut Scratch,
    copies: &mut Copies,
    cursor: &Cursor,
    ahead: &mut Ahead,
    row: &mut Row,
) -> Result<Fetched, CrFault>
    requires going { S.failed store.old ≡ false }
    requires table { (1 ≤ cursor.now.table) × (cursor.now.table ≤ (S.shape_of store.old).tables) }
    requires ahead { IsAheadOf S.Store cursor.now copies.old.kept store.old ahead.old }
    ensures found { S.tells → (h : State) (xids : List Xid) → Serves S.Store h xids cursor.now store.old
        → CopiesStand h xids (S.blocks store.old) copies.old.kept
        → Finds h xids (S.blocks store.old) cursor.now result row.new }
    ensures cleans { S.tells → (h : State) (xids : List Xid) → Serves S.Store h xids cursor.now store.old
        → CopiesStand h xids (S.blocks store.old) copies.old.kept
        → Cleans S.Store h xids (ReadIn h xids (S.blocks store.old) cursor.now)
        (MustIn h xids (S.blocks store.old) cursor.now result) h.shape.blocks store.old store.new
        (not (is_failed result)) }
    ensures copies { S.tells → (h : State) (xids : List Xid) → Serves S.Store h xids cursor.now store.old
        → CopiesStand h xids (S.blocks store.old) copies.old.kept → is_failed result ≡ false
        → CopiesStand h xids (S.blocks store.new) copies.new.kept }
    ensures kept { IfOk result (λ f. f ≡ Fetched.End → row.new ≡ row.old) }
    ensures same { IfErr result (λ fault. row.new ≡ row.old) }
    ensures logs { (groups : List (List Patch)) × Logs S.Store store.old store.new groups (not (is_failed result)) }
    ensures young { is_failed result ≡ false
        → (S.lsn store.new ≤ WORN) ⊎ (S.lsn store.new ≡ S.lsn store.old) }
    ensures ahead { IfOk result (λ f. f ≡ Fetched.Row
        → IsAheadOf S.Store (behind_key row.new.key cursor.now) copies.new.kept store.new ahead.new) }
    ensures nothing { (result ≡ Ok Fetched.Row → ⊥) → ahead.new.rows ≡ None }
{
    let blocks = store.shape().blocks;
    let first = first_home(cursor, blocks);
    let from = match next_ahead(store, copies, ahead, first, row) {
        Some(true) => return Ok(Fetched::Row),
        Some(false) => first + 1,
        None => first,
    };
    let end = end_home(cursor, blocks);
    for g in from..end {
        match next_in(
            store, workspace, scratch, copies, cursor, g, first, ahead, row,
        ) {
            Err(fault) => return Err(fault),
            Ok(true) => return Ok(Fetched::Row),
            Ok(false) => {}
        }
    }
    Ok(Fetched::End)
}
