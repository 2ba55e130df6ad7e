//! Which changes of a home a snapshot sees: the entries that stand above it, and the one with the greatest number. A
//! read asks whether it sees them all, and a rebuild which one it takes back next.
ghost use Rattle.std.specs.Prelude.{[], ◌≡◌, ◌≢◌, ◌<◌, ◌≤◌, ℕ, true, false, not, length, IfOk};
ghost use Rattle.std.specs.Result.{is_err};
ghost use Rattle.rb_base.specs.Blocks.{shape_blocks};
ghost use Rattle.rb_base.specs.Logs.{Logs};
ghost use Rattle.rb_base.specs.declared.ids.Xid.{Xid};
ghost use Rattle.rb_base.specs.declared.shape.Shape.{Shape};
ghost use Rattle.rb_cr.specs.Copies.{IsQuiet};
ghost use Rattle.rb_cr.specs.Reads.{Reads};
ghost use Rattle.rb_cr.specs.Scratches.{scratch_home};
ghost use Rattle.rb_cr.specs.Visible.{StandsAbove, LookStandsAbove, IsTop, IsTopWithin};
ghost use Rattle.rb_heap.specs.Cleaning.{cleaned_home};
ghost use Rattle.rb_heap.specs.Homes.{home_of};
ghost use Rattle.law_read.specs.Heights.{AtMost};
ghost use Rattle.law_blocks.specs.Says.{walk_entry, walk_home};
ghost use Rattle.rb_txntable.specs.declared.looks.Look.{Look};
ghost use Rattle.rb_txntable.specs.declared.looks.Look.TheVariants.{Before};
ghost use Rattle.law_home.specs.Walk.{Env, entry_at};

use crate::scratch::Scratch;
use crate::segments::Segments;
use rb_base::{BlockNo, Failed, Scn, Store, UNIT, Xid};
use rb_itl::{BOUND, ENTRIES, EXACT, Entry, OPEN, entry};
use rb_txntable::Look;

/// The entry with the greatest number above a snapshot.
#[derive(Clone, Copy)]
pub struct HighestEntry {
    /// The entry, 0 to 7.
    pub entry: usize,
    /// Its number: the snapshot's where none is above it.
    pub number: Scn,
}

/// What stands above a snapshot in a home.
#[derive(Clone, Copy)]
pub enum Top {
    /// The entry with the greatest number.
    At(HighestEntry),
    /// A transaction of this segment is above it by a bound, or goes on.
    Over {
        /// The segment.
        seg: u16,
    },
}

/// The number of a transaction that committed at this one or at one before: the snapshot's where it doesn't stand above
/// that.
fn bound_above(bound: Scn, scn: Scn) -> Option<Scn>
    ensures { LookStandsAbove scn (Before bound) result }
{
    if bound <= scn { Some(scn) } else { None }
}

/// The number of an open entry's transaction.
fn open_above<S: Segments>(segments: &mut S, xid: Xid, scn: Scn) -> Result<Option<Scn>, Failed>
    requires { S.ready segments.old }
    ensures told { S.tells → IfOk result (LookStandsAbove scn ((S.says segments.old).env.look xid)) }
    ensures reads { Reads S.Segments segments.old segments.new (not (is_err result)) }
{
    match segments.look(xid)? {
        Look::Active => Ok(None),
        Look::At(number) => Ok(Some(number.max(scn))),
        Look::Before(bound) => Ok(bound_above(bound, scn)),
    }
}

/// The number by which an entry stands above a snapshot: the snapshot's where it doesn't, and none where it goes on or
/// is above it by a bound.
fn number_above<S: Segments>(
    segments: &mut S,
    entry: &Entry,
    scn: Scn,
) -> Result<Option<Scn>, Failed>
    requires { S.ready segments.old }
    ensures told { S.tells → IfOk result (λ number.
        StandsAbove (S.says segments.old).env scn (walk_entry (S.says segments.old).shape entry.now) number) }
    ensures reads { Reads S.Segments segments.old segments.new (not (is_err result)) }
{
    match entry.kind {
        OPEN => open_above(segments, entry.xid, scn),
        EXACT => Ok(Some(entry.number.max(scn))),
        BOUND => Ok(bound_above(entry.number, scn)),
        _ => Ok(Some(scn)),
    }
}

/// The entry with the greatest number above a snapshot, or one that is over it.
pub(crate) fn greatest<S: Segments>(
    segments: &mut S,
    scratch: &Scratch,
    scn: Scn,
) -> Result<Top, Failed>
    requires { S.ready segments.old }
    ensures told { S.tells → IfOk result (λ top.
        IsTop (S.says segments.old).env scn (scratch_home (S.says segments.old).shape scratch.now) top) }
    ensures within { IfOk result (λ top. IsTopWithin top) }
    ensures reads { Reads S.Segments segments.old segments.new (not (is_err result)) }
{
    let mut top = HighestEntry {
        entry: 0,
        number: scn,
    };
    for i in 0..scratch.entries.len() {
        let entry = scratch.entries[i];
        let Some(above) = number_above(segments, &entry, scn)? else {
            return Ok(Top::Over { seg: entry.xid.seg });
        };
        if top.number < above {
            top = HighestEntry {
                entry: i,
                number: above,
            };
        }
    }
    Ok(Top::At(top))
}

/// Whether no entry of a home is above a snapshot. Its rows are then those at the snapshot as they stand, and nothing
/// is to be taken back.
fn is_home_visible<S: Segments>(
    segments: &mut S,
    scratch: &Scratch,
    scn: Scn,
) -> Result<bool, Failed>
    requires { S.ready segments.old }
    ensures told { S.tells → IfOk result (λ quiet. quiet ≡ true → (j : ℕ)
        → AtMost (S.says segments.old).env scn scn
        (entry_at (scratch_home (S.says segments.old).shape scratch.now) j)) }
    ensures busy { S.tells → IfOk result (λ quiet. quiet ≡ false → ((j : ℕ)
        → AtMost (S.says segments.old).env scn scn
        (entry_at (scratch_home (S.says segments.old).shape scratch.now) j)) → ⊥) }
    ensures reads { Reads S.Segments segments.old segments.new (not (is_err result)) }
{
    match greatest(segments, scratch, scn)? {
        Top::At(top) => Ok(top.number <= scn),
        Top::Over { .. } => Ok(false),
    }
}

/// Whether an entry says by itself that it isn't above a snapshot, however its transaction stands. It isn't Open then.
fn is_told_visible(entry: &Entry, scn: Scn) -> bool
    ensures most { result ≡ true → (shape : Shape) (env : Env) → AtMost env scn scn (walk_entry shape entry.now) }
    ensures closed { result ≡ true → entry.now.kind ≢ OPEN }
{
    entry.kind != OPEN && entry.number <= scn
}

/// Whether each entry of a block of rows says so. Most blocks are found quiet by that, and no header is looked at. Then
/// there is nothing to clean either.
pub(crate) fn all_told_visible(block: &[u8], scn: Scn) -> bool
    requires { length block.now ≡ UNIT }
    ensures most { result ≡ true → (shape : Shape) (env : Env) (b j : ℕ)
        → AtMost env scn scn (entry_at (walk_home shape b (home_of block.now)) j) }
    ensures clean { result ≡ true → (look : Xid → Look)
        → cleaned_home look (home_of block.now) ≡ home_of block.now }
{
    for i in 0..ENTRIES {
        if !is_told_visible(&entry(block, i), scn) {
            return false;
        }
    }
    true
}

/// Whether an entry says by itself that it is above a snapshot, however its transaction stands.
fn is_told_hidden(entry: &Entry, scn: Scn) -> bool
    ensures { result ≡ true → (s : Shape) (env : Env) → AtMost env scn scn (walk_entry s entry.now) → ⊥ }
{
    (entry.kind == EXACT || entry.kind == BOUND) && entry.number > scn
}

/// Whether some entry of a block of rows says so. Most blocks that were changed behind the snapshot have an entry with
/// that commit's number, and no header is looked at.
fn any_told_hidden(block: &[u8], scn: Scn) -> bool
    requires { length block.now ≡ UNIT }
    ensures { result ≡ true → (shape : Shape) (env : Env) (b : ℕ) → ((j : ℕ)
        → AtMost env scn scn (entry_at (walk_home shape b (home_of block.now)) j)) → ⊥ }
{
    for index in 0..ENTRIES {
        if is_told_hidden(&entry(block, index), scn) {
            return true;
        }
    }
    false
}

/// Whether no entry of a block's home is above a snapshot. Its entries alone are read for that, and how their
/// transactions stand where one is Open and no other is told to be above. Only then are they decoded into the scratch:
/// a scan asks this for each row of a block that has an Open entry, or one above.
pub(crate) fn changes_visible<S: Store>(
    store: &mut S,
    block: BlockNo,
    scn: Scn,
    scratch: &mut Scratch,
) -> Result<bool, Failed>
    requires going { S.failed store.old ≡ false }
    requires there { block < shape_blocks (S.shape_of store.old) }
    ensures told { S.tells → IfOk result (λ plain. plain ≡ true
        → IsQuiet (S.shape_of store.old) (S.blocks store.old) block scn) }
    ensures busy { S.tells → IfOk result (λ plain. plain ≡ false
        → IsQuiet (S.shape_of store.old) (S.blocks store.old) block scn → ⊥) }
    ensures logs { Logs S.Store store.old store.new [] (not (is_err result)) }
{
    store.load(block)?;
    if all_told_visible(store.block(), scn) {
        return Ok(true);
    }
    if any_told_hidden(store.block(), scn) {
        return Ok(false);
    }
    scratch.decode_entries(store.block());
    is_home_visible(store, scratch, scn)
}
