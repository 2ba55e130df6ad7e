//! Readers and writers of the big-endian fields of a unit. The identity, log slots, groups and
//! blocks are built of them.
ghost use Rattle.std.specs.Prelude.{◌≡◌, ◌+◌, ◌≤◌, length};
ghost use Rattle.rb_base.specs.Fields.{number_at, with_number};

use byteorder::{BigEndian, ByteOrder};

/// The number in the two bytes from `at`, which lie within `bytes`.
pub fn u16_at(bytes: &[u8], at: usize) -> u16
    requires { at + 2 ≤ length bytes.now }
    ensures { result ≡ number_at bytes.now at 2 }
{
    BigEndian::read_u16(&bytes[at..])
}

/// The number in the four bytes from `at`, which lie within `bytes`.
pub fn u32_at(bytes: &[u8], at: usize) -> u32
    requires { at + 4 ≤ length bytes.now }
    ensures { result ≡ number_at bytes.now at 4 }
{
    BigEndian::read_u32(&bytes[at..])
}

/// The number in the eight bytes from `at`, which lie within `bytes`.
pub fn u64_at(bytes: &[u8], at: usize) -> u64
    requires { at + 8 ≤ length bytes.now }
    ensures { result ≡ number_at bytes.now at 8 }
{
    BigEndian::read_u64(&bytes[at..])
}

/// Writes a number into the two bytes from `at`, and nothing else.
pub fn put_u16(bytes: &mut [u8], at: usize, value: u16)
    requires { at + 2 ≤ length bytes.old }
    ensures { bytes.new ≡ with_number bytes.old at 2 value }
{
    BigEndian::write_u16(&mut bytes[at..at + 2], value);
}

/// Writes a number into the four bytes from `at`, and nothing else.
pub fn put_u32(bytes: &mut [u8], at: usize, value: u32)
    requires { at + 4 ≤ length bytes.old }
    ensures { bytes.new ≡ with_number bytes.old at 4 value }
{
    BigEndian::write_u32(&mut bytes[at..at + 4], value);
}

/// Writes a number into the eight bytes from `at`, and nothing else.
pub fn put_u64(bytes: &mut [u8], at: usize, value: u64)
    requires { at + 8 ≤ length bytes.old }
    ensures { bytes.new ≡ with_number bytes.old at 8 value }
{
    BigEndian::write_u64(&mut bytes[at..at + 8], value);
}
