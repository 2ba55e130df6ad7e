//! Each call that may answer that memory ran out, where there is enough of it: it answers Ok, and what it made is used.
use crate::doubles::{FORMAT_SMALL, FRAMES, formatted};
use crate::stories::image;
use rb_base::{Shape, Store};
use rb_engine::Engine;
use rb_layout::{Head, Layout};
use rb_log::Log;
use rb_memdisk::{MemDisk, Pick};
use rb_model::{Op, Wrote};
use rb_plainstore::PlainStore;
use rb_store::LogStore;
use rb_stream::{MemSink, MemSource, Sink, Source};
use std::alloc::Global;
use std::test::Fail;

const SHAPE: Shape = Shape {
    tables: 1,
    blocks: 1,
    segments: 1,
};

#[test]
fn streams_are_made(rt: HostRuntime) -> Result<(), Fail> {
    let mut source = MemSource::new(rt.alloc(), b"commit 1\n", &[])?;
    let mut buffer = [0; 16];
    assert!(rt; source.take(&mut buffer) == Ok(9));
    assert!(rt; &buffer[..9] == b"commit 1\n".as_slice());
    let mut sink = MemSink::new(rt.alloc(), 100, &[])?;
    assert!(rt; sink.put(b"1 ok\n") == Ok(()));
    assert!(rt; sink.bytes() == b"1 ok\n".as_slice());
    Ok(())
}

/// Whether an engine over a new store makes a row, and commits it as the first one.
fn commits_a_row<S: Store>(engine: &mut Engine<S>) -> bool {
    engine.write(1, 1, 1, Op::Insert(b"a")) == Ok(Wrote::Done) && engine.commit(1) == Ok(Some(1))
}

#[test]
fn stores_and_engines_are_made(rt: HostRuntime) -> Result<(), Fail> {
    let plain = PlainStore::new(rt.alloc(), SHAPE)?;
    assert!(rt; plain.logged() == 0);
    let Ok(mut engine) = Engine::open(rt.alloc(), plain) else {
        return Err(Fail::new("no engine"));
    };
    assert!(rt; commits_a_row(&mut engine));
    Ok(())
}

/// Whether an empty log is opened over the disk of a new file of 64 slots.
fn opens_a_log(alloc: Global, disk: &mut MemDisk) -> bool {
    let Some(layout) = Layout::new(1, 1, 1, 64) else {
        return false;
    };
    let head = Head { slot: 0, number: 1 };
    match Log::open(alloc, disk, &layout, head) {
        Ok(log) => log.used() == 0 && log.pending() == 0 && log.room(),
        Err(_) => false,
    }
}

#[test]
fn files_are_made(rt: HostRuntime) -> Result<(), Fail> {
    let file = formatted(rt.alloc(), FORMAT_SMALL)?;
    let room = file.len() as u64 + 10_000;
    let mut disk = MemDisk::new(rt.alloc(), &file, room, 100, &[])?;
    assert!(rt; disk.bytes() == file.as_slice());
    let same = image(rt.alloc(), &disk, 0, Pick::New)?;
    assert!(rt; same.as_slice() == file.as_slice());
    assert!(rt; opens_a_log(rt.alloc(), &mut disk));
    let Ok(store) = LogStore::open(rt.alloc(), disk, FRAMES) else {
        return Err(Fail::new("no store"));
    };
    assert!(rt; store.logged() == 0);
    let Ok(mut engine) = Engine::open(rt.alloc(), store) else {
        return Err(Fail::new("no engine"));
    };
    assert!(rt; commits_a_row(&mut engine));
    Ok(())
}
