//! A small file in memory whose rows are changed by the lines of a script: `insert S T K V` and so on, and `commit S`,
//! which takes the next number. The tests of writes, of what is read of them, of put backs and of openings make their
//! blocks by it.
ghost use Rattle.std.specs.Prelude.{IsTrue, ◌≡◌, ◌<◌, false, OnOk};
ghost use Rattle.std.specs.List.{AllByRecursion};
ghost use Rattle.rb_base.specs.Blocks.{IsShape};

use crate::segment::live_of;
use rb_base::{
    BlockNo, Failed, Group, NoMemory, SLOTS, Scn, Shape, Store, UNIT, VALUE_BYTES, Workspace, Xid,
};
use rb_model::Op;
use rb_plainstore::PlainStore;
use rb_script::{Command, Request, parse};
use rb_segment::commit;
use rb_write::{Ask, AttemptFault, attempt};
use std::alloc::Global;

/// A table of two blocks, 0 of the even keys and 1 of the odd ones, and a segment: its header, 2, and undo blocks 3 to
/// 34.
pub(crate) const SHAPE: Shape = Shape {
    tables: 1,
    blocks: 2,
    segments: 1,
};

/// Whether each patch is of a block below that number.
fn are_below(group: &Group, blocks: u32) -> bool
    ensures { IsTrue result → AllByRecursion (λ p. p.block < blocks) group.now }
{
    for i in 0..group.patches() {
        if group.patch_block(i) >= blocks {
            return false;
        }
    }
    true
}

/// A copy of a block of the file.
pub(crate) fn copy_of<S: Store>(store: &mut S, no: BlockNo) -> Result<[u8; UNIT], Failed>
    requires { S.failed store.old ≡ false }
    ensures { OnOk result (S.failed store.new ≡ false) }
{
    if no >= store.shape().block_count() {
        return Err(Failed);
    }
    store.load(no)?;
    let mut copy = [0; UNIT];
    copy.copy_from_slice(store.block());
    Ok(copy)
}

/// Applies the group.
pub(crate) fn apply<S: Store>(store: &mut S, group: &Group) -> Result<(), Failed>
    requires { S.failed store.old ≡ false }
{
    let within = are_below(group, store.shape().block_count());
    if !within || group.patches() == 0 || store.logged() > 1_000_000 {
        return Err(Failed);
    }
    store.apply(group)
}

/// A file, the latest transactions of the sessions 1 to 3 with whether they run, and the number of the last commit.
/// Session 0 never writes.
#[derive(Drop)]
pub(crate) struct Writers {
    pub(crate) store: PlainStore,
    pub(crate) ids: [Option<Xid>; 4],
    runs: [bool; 4],
    last: Scn,
}

impl Writers {
    /// A new file.
    pub(crate) fn new(alloc: Global, shape: Shape) -> Result<Writers, NoMemory>
        requires { IsShape shape }
    {
        Ok(Writers {
            store: PlainStore::new(alloc, shape)?,
            ids: [None; 4],
            runs: [false; 4],
            last: 0,
        })
    }

    /// The latest transaction of a session.
    pub(crate) fn id(&self, s: u16) -> Option<Xid> {
        match self.ids.get(s as usize) {
            Some(id) => *id,
            None => None,
        }
    }

    /// Makes a write of a session, by its transaction or by one that begins. None holds the row as it is.
    pub(crate) fn write(
        &mut self,
        s: u16,
        table: u16,
        key: u64,
        op: Option<Op<'_>>,
    ) -> Result<Xid, AttemptFault> {
        let shape = self.store.shape();
        if s >= 4 || table == 0 || table > shape.tables {
            return Err(AttemptFault::Failed);
        }
        if let Some(Op::Insert(value) | Op::Update(value) | Op::Put(value)) = op {
            if value.len() > VALUE_BYTES {
                return Err(AttemptFault::Failed);
            }
        }
        let own = if self.runs[s as usize] {
            self.id(s)
        } else {
            None
        };
        if let Some(xid) = own {
            if xid.seg >= shape.segments || xid.slot as usize >= SLOTS {
                return Err(AttemptFault::Failed);
            }
        }
        let ask = Ask {
            own,
            table,
            key,
            op,
        };
        let xid = attempt(&mut self.store, &ask, &mut Workspace::new())?;
        self.ids[s as usize] = Some(xid);
        self.runs[s as usize] = true;
        Ok(xid)
    }

    /// Commits a session's transaction in segment 0 at the next number, by one group.
    pub(crate) fn commit(&mut self, s: u16) -> Result<Xid, AttemptFault> {
        let shape = self.store.shape();
        let Some(xid) = self.id(s) else {
            return Err(AttemptFault::Failed);
        };
        self.last = self.last.saturating_add(1);
        let Ok(mut header) = copy_of(&mut self.store, shape.header_block(0)) else {
            return Err(AttemptFault::Failed);
        };
        let mut group = Group::new();
        match live_of(&header, xid) {
            Some(live) if live > 0 => commit(&mut header, &shape, xid, self.last, &mut group),
            _ => return Err(AttemptFault::Failed),
        }
        if apply(&mut self.store, &group).is_err() {
            return Err(AttemptFault::Failed);
        }
        if let Some(run) = self.runs.get_mut(s as usize) {
            *run = false;
        }
        Ok(xid)
    }

    /// Does a line, and answers its transaction.
    pub(crate) fn line(&mut self, line: &[u8]) -> Result<Xid, AttemptFault> {
        let Some(Command::Session { s, request }) = parse(line) else {
            return Err(AttemptFault::Failed);
        };
        match request {
            Request::Write { t, k, op } => self.write(s, t, k, Some(op)),
            Request::Lock { t, k } => self.write(s, t, k, None),
            Request::Commit => self.commit(s),
            _ => Err(AttemptFault::Failed),
        }
    }

    /// Does the lines of a text, each with its LF. Answers whether all were done.
    pub(crate) fn lines(&mut self, text: &[u8]) -> bool {
        for line in text.split(|byte| *byte == b'\n') {
            if !line.is_empty() && self.line(line).is_err() {
                return false;
            }
        }
        true
    }
}
