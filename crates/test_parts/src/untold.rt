//! A disk in memory of which a caller has nothing to prove. The tests of the twin area and of the control copies write
//! to it, and stop it.
ghost use Rattle.std.specs.Prelude.{[]};
ghost use Rattle.rb_base.specs.Counts.{IsCounted};

use rb_base::Failed;
use rb_disk::Disk;
use rb_memdisk::MemDisk;
use std::alloc::Global;
use std::test::Fail;

/// A memory disk that tells nothing of its bytes. A call that doesn't lie within them fails.
#[derive(Drop)]
pub(crate) struct Untold {
    pub(crate) disk: MemDisk,
    faults: u64,
}

impl Untold {
    fn counted(&mut self, answer: Result<(), Failed>) -> Result<(), Failed>
        ensures { IsCounted self.old.faults self.new.faults result }
    {
        if answer.is_err() {
            self.faults = self.faults.saturating_add(1);
            return Err(Failed);
        }
        Ok(())
    }
}

impl Disk for Untold {
    ghost tells = { ⊥ };

    ghost content = { λ disk. [] };

    ghost image = { λ disk c. ⊥ };

    ghost moment = { λ disk. 0 };

    ghost image_since = { λ disk t c. ⊥ };

    ghost faults = { λ disk. disk.faults };

    ghost reads_an_image = { λ disk told. absurd told };

    ghost now_counts = { λ disk t c told le here. absurd told };

    ghost only_now = { λ disk c told since. absurd told };

    fn len(&mut self) -> Result<u64, Failed> {
        Ok(self.disk.bytes().len() as u64)
    }

    fn read_at(&mut self, at: u64, into: &mut [u8]) -> Result<(), Failed> {
        let length = self.disk.bytes().len() as u64;
        if at > length || into.len() as u64 > length - at {
            return self.counted(Err(Failed));
        }
        let answer = self.disk.read_at(at, into);
        self.counted(answer)
    }

    fn write_at(&mut self, at: u64, bytes: &[u8]) -> Result<(), Failed> {
        if at > self.disk.bytes().len() as u64 {
            return self.counted(Err(Failed));
        }
        let answer = self.disk.write_at(at, bytes);
        self.counted(answer)
    }

    fn sync(&mut self) -> Result<(), Failed> {
        let answer = self.disk.sync();
        self.counted(answer)
    }
}

/// A disk of these bytes that fails at those calls.
pub(crate) fn disk_of(alloc: Global, bytes: &[u8], failing: &[u64]) -> Result<Untold, Fail> {
    let room = (bytes.len() as u64).saturating_add(65_536);
    let disk = MemDisk::new(alloc, bytes, room, 40, failing)?;
    Ok(Untold { disk, faults: 0 })
}
