//! Where the parts of a file lie, and the numbers that its first unit keeps.
use rb_layout::Layout;

// One table of one block, one segment, 1,024 log slots.
#[test]
fn parts_of_a_file(rt: HostRuntime) {
    let layout = Layout::new(1, 1, 1, 1024).unwrap();
    let mut front = [7; 25];
    layout.put_identity(&mut front);
    assert!(rt; front == *b"RBS7FILE\0\0\0\x01\0\x01\0\x01\0\0\0\x01\0\0\x04\0\x07");
    assert!(rt; layout.length() == 2_193_408);
    assert!(rt; layout.log_at(1023) == 1027 * 2048);
    assert!(rt; layout.twin_at(8) == 1036 * 2048);
    assert!(rt; layout.block_at(33) == 1070 * 2048);
}
