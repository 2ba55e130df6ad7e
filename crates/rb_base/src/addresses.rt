//! Reads and writes the address of an undo record in the bytes of a block. Slot entries, table slots and undo records
//! have such addresses.
ghost use Rattle.std.specs.Prelude.{◌≡◌, ◌+◌, ◌≤◌, length};
ghost use Rattle.rb_base.specs.Addresses.{uba_at, uba_bytes};
ghost use Rattle.rb_base.specs.Fields.{overwritten};

use crate::fields::{put_u16, put_u32, put_u64, u16_at, u32_at, u64_at};
use crate::ids::Uba;

/// The address in the 16 bytes from `at`, which lie within `bytes`.
pub fn uba_at(bytes: &[u8], at: usize) -> Uba
    requires { at + 16 ≤ length bytes.now }
    ensures { result ≡ uba_at bytes.now at }
{
    Uba {
        block: u32_at(bytes, at),
        rec: u16_at(bytes, at + 4),
        ord: u64_at(bytes, at + 8),
    }
}

/// The bytes of an address. The two that have no meaning are 0.
fn bytes_of(uba: Uba) -> [u8; 16]
    ensures { result ≡ uba_bytes uba }
{
    let mut bytes = [0; 16];
    put_u32(&mut bytes, 0, uba.block);
    put_u16(&mut bytes, 4, uba.rec);
    put_u64(&mut bytes, 8, uba.ord);
    bytes
}

/// Writes an address into the 16 bytes from `at`, and nothing else.
pub fn put_uba(bytes: &mut [u8], at: usize, uba: Uba)
    requires { at + 16 ≤ length bytes.old }
    ensures { bytes.new ≡ overwritten bytes.old at (uba_bytes uba) }
{
    bytes[at..at + 16].copy_from_slice(&bytes_of(uba));
}
