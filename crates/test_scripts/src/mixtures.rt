//! Images that a crash may leave which mix what the picks leave: of the units that wait for a sync some are as they are
//! read, some as they were synced last, and some hold other bytes.
use crate::doubles::Ended;
use crate::stories::{Story, image, is_kept, owed, shown};
use rb_base::NoMemory;
use rb_memdisk::{MemDisk, Pick};
use std::alloc::Global;
use std::process::Abort;
use std::test::Fail;

// What a mixture has whole from one of its picks: a log slot, a header of the twin area, an image or a block.
const UNIT: usize = 2_048;

/// What a crash may leave that did with some units what New does, with some what Old does, and filled some.
#[derive(Drop)]
pub struct Mixture {
    pub image: Vec<u8>,
    // Whether of the units that the three leave each otherwise one is as New, one as Old, and one filled.
    has_read: bool,
    has_synced: bool,
    has_filled: bool,
}

impl Mixture {
    /// Whether it tells the three apart: of the units that they leave each otherwise, one at least is as each of them.
    pub fn has_all(&self) -> bool {
        self.has_read && self.has_synced && self.has_filled
    }

    // Adds a unit as a pick leaves it: New as it is read, Old as it was synced, and else filled.
    fn add(
        &mut self,
        pick: Pick,
        read: &[u8],
        synced: &[u8],
        filled: &[u8],
    ) -> Result<(), NoMemory> {
        let differ = read != synced && read != filled && synced != filled;
        let unit = match pick {
            Pick::New => read,
            Pick::Old => synced,
            Pick::Fill(_) => filled,
        };
        self.has_read |= differ && pick == Pick::New;
        self.has_synced |= differ && pick == Pick::Old;
        self.has_filled |= differ && matches!(pick, Pick::Fill(_));
        self.image.extend_from_slice(unit).map_err(|_| NoMemory)
    }
}

/// By which seeds what is left behind a call is mixed: by all three behind each third, by one behind the others.
pub fn seeds_behind(call: u64) -> &'static [usize] {
    match call % 3 {
        0 => &[0, 1, 2],
        1 => &[1],
        _ => &[2],
    }
}

// By which pick a mixture has a unit: by another for each of the seeds 0, 1 and 2. Units side by side have each of the
// nine pairs of picks somewhere. By (unit + seed) % 3 a run of slots would never have two in a row that were written,
// nor two that weren't.
fn pick_of(unit: usize, seed: usize) -> Pick {
    let turn = (unit / 2).saturating_add(unit / 3).saturating_add(seed);
    match turn % 3 {
        0 => Pick::New,
        1 => Pick::Old,
        _ => Pick::Fill(1),
    }
}

// Takes each unit from one of three images. These are as long as each other, as no run makes its file longer; else the
// mixture would end behind the last unit of the shortest.
fn mix(
    alloc: Global,
    read: &[u8],
    synced: &[u8],
    filled: &[u8],
    seed: usize,
) -> Result<Mixture, NoMemory> {
    let mut mixture = Mixture {
        image: Vec::new(alloc),
        has_read: false,
        has_synced: false,
        has_filled: false,
    };
    let units = read
        .chunks(UNIT)
        .zip(synced.chunks(UNIT))
        .zip(filled.chunks(UNIT));
    for (unit, ((read, synced), filled)) in units.enumerate() {
        mixture.add(pick_of(unit, seed), read, synced, filled)?;
    }
    Ok(mixture)
}

/// What a crash after the last call of a disk may leave that mixes New, Old and Fill(1), by a seed. None where that is
/// what one of them leaves, as where nothing or one unit alone waits for a sync.
pub fn mixed_now(alloc: Global, disk: &MemDisk, seed: usize) -> Result<Option<Mixture>, NoMemory> {
    let read = disk.bytes();
    let synced = image(alloc, disk, disk.calls(), Pick::Old)?;
    let filled = image(alloc, disk, disk.calls(), Pick::Fill(1))?;
    let mixture = mix(alloc, read, &synced, &filled, seed)?;
    let mixed = mixture.image.as_slice();
    let is_mixed = mixed != read && mixed != synced.as_slice() && mixed != filled.as_slice();
    Ok(is_mixed.then_some(mixture))
}

/// Adds a mixture of what a crash after the last call of a disk may leave, if there is one, by a seed that later calls
/// change.
pub fn add_mixed(alloc: Global, disk: &MemDisk, images: &mut Vec<Vec<u8>>) -> Result<(), NoMemory> {
    let seed = (disk.calls() % 3) as usize;
    if let Some(mixture) = mixed_now(alloc, disk, seed)? {
        images.push(mixture.image).map_err(|_| NoMemory)?;
    }
    Ok(())
}

/// Checks what a crash after the last call of a run may leave that mixes picks, by these seeds. Answers whether one of
/// the mixtures tells the three picks apart.
pub fn check_mixed(
    rt: &impl Abort,
    alloc: Global,
    story: &Story,
    end: &Ended,
    seeds: &[usize],
) -> Result<bool, NoMemory> {
    let call = end.disk.calls();
    let owed = owed(story, end);
    let mut has_all = false;
    for seed in seeds {
        if let Some(mixture) = mixed_now(alloc, &end.disk, *seed)? {
            let found = shown(alloc, story, &mixture.image)?;
            assert!(rt;
                is_kept(found, owed),
                "{call}, mixed by {seed}: {found:?} of {owed}"
            );
            has_all |= mixture.has_all();
        }
    }
    Ok(has_all)
}

// Whether an image has as many units as bytes are given, and each is full of its byte.
fn is_by_units(image: &[u8], bytes: &[u8]) -> bool {
    image.len() / UNIT == bytes.len()
        && image.chunks(UNIT).zip(bytes).all(|(unit, byte)| unit.len() == UNIT
            && unit.iter().all(|found| found == byte))
}

// Seven units of a byte.
fn units_of(alloc: Global, byte: u8) -> Result<Vec<u8>, NoMemory> {
    vec![in alloc; byte; 14_336].map_err(|_| NoMemory)
}

// Seven units are read as 2 and were synced as 0, and 1 fills them.
#[test]
fn units_are_mixed(rt: HostRuntime) -> Result<(), Fail> {
    let read = units_of(rt.alloc(), 2)?;
    let synced = units_of(rt.alloc(), 0)?;
    let filled = units_of(rt.alloc(), 1)?;
    let rows: [(usize, [u8; 7]); 3] = [
        (0, [2, 2, 0, 1, 2, 2, 1]),
        (1, [0, 0, 1, 2, 0, 0, 2]),
        (2, [1, 1, 2, 0, 1, 1, 0]),
    ];
    for (seed, bytes) in rows {
        let mixture = mix(rt.alloc(), &read, &synced, &filled, seed)?;
        assert!(rt; is_by_units(&mixture.image, &bytes), "seed {seed}");
        assert!(rt; mixture.has_all(), "seed {seed}");
    }
    Ok(())
}

// Where no write waits for a sync, there is nothing to mix.
#[test]
fn nothing_is_mixed(rt: HostRuntime) -> Result<(), Fail> {
    let disk = MemDisk::new(rt.alloc(), b"synced", 6, 0, &[])?;
    for seed in 0..3 {
        assert!(rt;
            mixed_now(rt.alloc(), &disk, seed)?.is_none(),
            "seed {seed}"
        );
    }
    Ok(())
}
