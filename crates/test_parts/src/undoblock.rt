//! An undo record by its bytes, worked by hand.
use crate::patches::are_patches;
use rb_base::{Group, Uba};
use rb_undoblock::{PUT, UndoRecord, undo_at, undo_bytes, undo_place};

/// The third change of the seventh transaction in table slot 4: row 0x0102 of table 2 was given a value.
const CHANGE: UndoRecord = UndoRecord {
    wrap: 7,
    key: 0x0102,
    number: 3,
    home: 0x0a0b_0c0d,
    table: 2,
    slot: 4,
    kind: PUT,
    entry: 5,
    cell: 6,
    previous: Uba {
        block: 15,
        rec: 8,
        ord: 9,
    },
    entry_before: [0x11; 48],
    cell_before: [0x22; 92],
};

const CHANGE_BYTES: [u8; 48] = [
    0, 0, 0, 0, 0, 0, 0, 7, // wrap
    0, 0, 0, 0, 0, 0, 1, 2, // key
    0, 0, 0, 3, 10, 11, 12, 13, // number, heap block
    0, 2, 4, 1, 5, 6, 0, 0, // table, slot, kind, entry, cell
    0, 0, 0, 15, 0, 8, 0, 0, // undo block, record
    0, 0, 0, 0, 0, 0, 0, 9, // extent's number
];

#[test]
fn worked_record(rt: HostRuntime) {
    let mut bytes = [0; 192];
    bytes[..48].copy_from_slice(&CHANGE_BYTES);
    bytes[48..96].copy_from_slice(&[0x11; 48]);
    bytes[96..188].copy_from_slice(&[0x22; 92]);
    let mut group = Group::new();
    group.push(12, undo_place(4) as u16, &undo_bytes(CHANGE));
    assert!(rt; are_patches(&group, &[(12, 800, &bytes)]));
    // The bytes that have no meaning aren't looked at.
    bytes[30] = 9;
    bytes[191] = 9;
    let mut block = [9; 2048];
    block[800..992].copy_from_slice(&bytes);
    assert!(rt; undo_at(&block, 4) == CHANGE);
}
