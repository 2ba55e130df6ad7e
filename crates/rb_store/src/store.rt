//! `LogStore`: the blocks of a file, which stand at home there, through a cache of some frames. The shell opens it, and
//! the engine runs over it.
ghost use Rattle.std.specs.Prelude.{◌≡◌, ◌≢◌, ◌≤◌, ◌<◌, ◌+◌, ◌-◌, ◌^◌, ◌++◌};
ghost use Rattle.std.specs.Prelude.{◌∷◌, ℕ, List, length, false, [], IfOk, IfErr, OnOk, is_err};
ghost use Rattle.rb_base.specs.Blocks.{after_group, AreWithin};
ghost use Rattle.rb_base.specs.Counts.{IsCounted, IsCountedAs, is_failed};
ghost use Rattle.rb_control.specs.Heads.{head_of};
ghost use Rattle.rb_disk.specs.DiskModel.{Only};
ghost use Rattle.rb_layout.specs.Regions.{shape_of};
ghost use Rattle.rb_layout.specs.declared.layout.Layout.{Layout};
ghost use Rattle.rb_store.specs.Meaning.{OpensAt};
ghost use Rattle.rb_store.specs.Openings.{LeftAlone};
ghost use Rattle.rb_store.specs.StoreStates.{HeldBack, IsStable, LeavesGiven, SettlesGiven, blocks_in};

use crate::cached_file::CachedFile;
use crate::patching::patch_all;
use crate::store_open::{Opened, open_file};
use rb_base::{BlockNo, Failed, Group, Lsn, OpenFault, Shape, Store};
use rb_disk::Disk;
use std::alloc::Global;
use std::marker::Model;

/// The blocks of a file at home, its log and its twin area, with as many blocks in memory as the cache has frames. What
/// changes a block is in the log before the block goes home, also where it isn't committed yet.
#[derive(Drop)]
pub struct LogStore<D: Disk> {
    pub(crate) cache: CachedFile,
    pub(crate) lsn: Lsn,
    pub(crate) loaded: Option<BlockNo>,
    pub(crate) failed: bool,
    // How often a load or a group had to make the groups that waited last, up to 2^64 - 1.
    pub(crate) forced: u64,
    pub(crate) disk: D,
}

/// How often calls had to make what waited last, once the log had so many groups before one call more and so many
/// behind it.
fn more_forced(forced: u64, before: u32, after: u32) -> u64
    ensures same { before ≡ after → result ≡ forced }
    ensures more { before ≢ after → forced < 2 ^ 64 - 1 → forced < result }
    ensures no_less { forced ≤ result }
{
    if before == after {
        forced
    } else {
        forced.saturating_add(1)
    }
}

impl<D: Disk> Model for LogStore<D> {
    ghost use Rattle.std.specs.Prelude.{◌≡◌, false};
    ghost use Rattle.rb_store.specs.StoreStates.{StoreState, IsQuietAt};
    ghost use Rattle.rb_store.specs.CachedFiles.{IsStoreMemory};

    ghost Value = { StoreState D };

    ghost view = { λ s. record {
      layout = s.cache.layout;
      head = s.cache.head;
      used = s.cache.used;
      pending = s.cache.pending;
      frames = s.cache.frames;
      held = s.cache.held;
      number = s.lsn;
      loaded = s.loaded;
      failed = s.failed;
      forced = s.forced;
      disk = s.disk;
    } };

    ghost invariant = { λ s. IsStoreMemory s.cache s.lsn s.loaded s.failed
        × (D.tells → s.failed ≡ false → IsQuietAt s.cache.layout s.cache.head s.cache.used s.lsn s.cache.held
        (D.content s.disk) (D.image s.disk)) };
}

impl<D: Disk> LogStore<D> {
    /// Opens the store of a disk through so many frames, 16 to 4,096. It begins with a sync, reads where the log
    /// begins, brings a batch home that a crash left, and rolls the groups of the log forward. Whatever it answers,
    /// the file means what it did, at each moment. An Err gives the disk back: NotAStore where the file opens to
    /// nothing, or its log begins with a number above 2^61, and Failed where a call of the disk failed.
    pub fn open(alloc: Global, disk: D, frames: u32) -> Result<LogStore<D>, (OpenFault, D)>
        requires some { 16 ≤ frames }
        requires few { frames ≤ 4096 }
        ensures found { D.tells
            → IfOk result (λ s. OpensAt s.layout (D.content disk) (blocks_in D.Disk s) s.number) }
        ensures stable { D.tells → IfOk result (λ s. IsStable D.Disk s (blocks_in D.Disk s) s.number) }
        ensures pending { IfOk result (λ s. s.pending ≡ []) }
        ensures going { IfOk result (λ s. s.failed ≡ false) }
        ensures few { IfOk result (λ s. s.number < 2 ^ 61 + 4096) }
        ensures small { D.tells → IfOk result (λ s. (head_of (D.content disk)).number ≤ 2 ^ 61) }
        ensures none { D.tells → IfErr result (λ r. r.0 ≡ OpenFault.NotAStore
            → (l : Layout) (b : List (List ℕ)) (n : ℕ) → OpensAt l (D.content disk) b n
            → 2 ^ 61 < (head_of (D.content disk)).number) }
        ensures counted_ok { IfOk result (λ s. D.faults s.disk ≡ D.faults disk) }
        ensures counted_err { IfErr result (λ r. IsCountedAs (D.faults disk) (D.faults r.1) (is_failed r.0)) }
        ensures kept_ok { D.tells → IfOk result (λ s. LeftAlone D.Disk disk s.disk) }
        ensures kept_err { D.tells → IfErr result (λ r. LeftAlone D.Disk disk r.1) }
        ensures only_ok { D.tells → IfOk result (λ s. Only (D.content s.disk) (D.image s.disk)) }
    {
        let mut disk = disk;
        match open_file(alloc, &mut disk, frames) {
            Ok(opened) => {
                let Opened { file, last } = opened;
                Ok(LogStore {
                    cache: file,
                    lsn: last,
                    loaded: None,
                    failed: false,
                    forced: 0,
                    disk,
                })
            }
            Err(fault) => Err((fault, disk)),
        }
    }

    // Takes a group into the log, which has room for it, and patches its blocks.
    fn take_group(&mut self, group: &Group) -> Result<(), Failed>
        requires going { self.old.failed ≡ false }
        requires some { 0 < length group.now }
        requires within { AreWithin (shape_of self.old.layout) group.now }
        requires room { self.old.used + length self.old.pending + 1 < self.old.layout.log }
        requires few { self.old.number < 2 ^ 62 }
        ensures layout { self.new.layout ≡ self.old.layout }
        ensures lsn { OnOk result (self.new.number ≡ self.old.number + 1) }
        ensures blocks { D.tells → OnOk result (blocks_in D.Disk self.new
            ≡ after_group (self.old.number + 1) group.now (blocks_in D.Disk self.old)) }
        ensures holds_back { OnOk result (HeldBack self.old self.new) }
        ensures settles { D.tells → OnOk result (SettlesGiven D.Disk self.old self.new
            (self.old.pending ++ group.now ∷ [])) }
        ensures any_moment { D.tells → LeavesGiven D.Disk self.old self.new (self.old.pending ++ group.now ∷ []) }
        ensures failed { self.new.failed ≡ is_err result }
        ensures counted { IsCounted (D.faults self.old.disk) (D.faults self.new.disk) result }
    {
        // For the proof: the count's contract says that it is a group.
        let _count = group.patches();
        self.loaded = None;
        self.lsn += 1;
        let used = self.cache.used();
        self.cache.append(group);
        match patch_all(&mut self.cache, &mut self.disk, group, self.lsn) {
            Ok(()) => {
                let used_now = self.cache.used();
                self.forced = more_forced(self.forced, used, used_now);
                Ok(())
            }
            Err(fault) => {
                self.failed = true;
                Err(fault)
            }
        }
    }

    /// Gives the disk back as it is.
    pub fn close(self) -> D
        ensures { result ≡ self.disk }
    {
        let LogStore {
            cache: _,
            lsn: _,
            loaded: _,
            failed: _,
            forced: _,
            disk,
        } = self;
        disk
    }
}

impl<D: Disk> Store for LogStore<D> {
    ghost use Rattle.std.specs.Prelude.{Some, ℕ, List};
    ghost use Rattle.rb_layout.specs.Regions.{shape_of as layout_shape};
    ghost use Rattle.rb_store.specs.StoreLaws.{stable_left as left_opens, held_back_same, held_back_joined};
    ghost use Rattle.rb_store.specs.Meaning.{Opens};

    ghost tells = { D.tells };

    ghost keeps = { D.tells };

    ghost shape_of = { λ s. layout_shape s.layout };

    ghost slots = { λ s. Some s.layout.log };

    ghost blocks = { λ s. blocks_in D.Disk s };

    ghost pending = { λ s. s.pending };

    ghost lsn = { λ s. s.number };

    ghost loaded = { λ s. s.loaded };

    ghost failed = { λ s. s.failed };

    ghost faults = { λ s. D.faults s.disk };

    ghost image = { List ℕ };

    ghost left = { λ s c. D.image s.disk c };

    ghost moment = { λ s. D.moment s.disk };

    ghost left_since = { λ s t c. D.image_since s.disk t c };

    ghost holds_back = { λ a b. HeldBack a b };

    ghost opens = { Opens };

    ghost stable = { λ s b n. IsStable D.Disk s b n };

    ghost stable_left = { λ s b n i told stands here. left_opens i stands here };

    ghost stable_numbered = { λ s b n told stands. stands.numbered };

    ghost stable_patched = { λ s b n told stands. stands.reads };

    ghost now_counts = { λ s t i told le here. D.now_counts s.disk t i told le here };

    ghost holds_back_same = { λ s. held_back_same s };

    ghost holds_back_joined = { λ a b c first second. held_back_joined a b c first second };

    ghost only_now = { λ s i told left. D.only_now s.disk i told left };

    fn shape(&self) -> Shape {
        self.cache.layout().shape()
    }

    fn load(&mut self, no: BlockNo) -> Result<(), Failed> {
        if self.loaded == Some(no) {
            return Ok(());
        }
        self.loaded = None;
        let used = self.cache.used();
        match self.cache.get(&mut self.disk, no) {
            Ok(()) => {
                self.loaded = Some(no);
                let used_now = self.cache.used();
                self.forced = more_forced(self.forced, used, used_now);
                Ok(())
            }
            Err(fault) => {
                self.failed = true;
                Err(fault)
            }
        }
    }

    fn block(&self) -> &[u8] {
        self.cache.front()
    }

    fn apply(&mut self, group: &Group) -> Result<(), Failed> {
        self.make_room()?;
        self.take_group(group)
    }

    fn flush(&mut self) -> Result<(), Failed> {
        match self.cache.flush(&mut self.disk) {
            Ok(()) => Ok(()),
            Err(fault) => {
                self.loaded = None;
                self.failed = true;
                Err(fault)
            }
        }
    }

    fn checkpoint(&mut self) -> Result<(), Failed>
        requires going { self.old.failed ≡ false }
        ensures flushed { D.tells → OnOk result (self.new.pending ≡ []) }
        ensures no_groups { OnOk result (self.new.used ≡ 0) }
        ensures settles { D.tells → OnOk result (SettlesGiven D.Disk self.old self.new self.old.pending) }
        ensures any_moment { D.tells → LeavesGiven D.Disk self.old self.new self.old.pending }
        ensures shape { layout_shape self.new.layout ≡ layout_shape self.old.layout }
        ensures slots { Some self.new.layout.log ≡ Some self.old.layout.log }
        ensures lsn { self.new.number ≡ self.old.number }
        ensures blocks { D.tells → OnOk result (blocks_in D.Disk self.new ≡ blocks_in D.Disk self.old) }
        ensures failed { self.new.failed ≡ is_err result }
        ensures counted { IsCounted (D.faults self.old.disk) (D.faults self.new.disk) result }
    {
        self.clear_log()
    }

    fn logged(&self) -> Lsn {
        self.lsn
    }
}
