// Numbers among bytes.
ghost use Rattle.std.specs.Prelude.{◌≡◌, ◌+◌, ◌≤◌, ◌^◌, ◌<◌, length};
ghost use Rattle.o2_ondisk.specs.Number.{number_at, big_number_at};

use byteorder::{BigEndian, ByteOrder, LittleEndian};

/// The number of one byte at `at`.
#[tactic(auto, unfolding(crate::specs::Number::number_at))]
pub fn u8_at(bytes: &[u8], at: usize) -> u8
    requires { at + 1 ≤ length bytes.now }
    ensures { result ≡ number_at at 1 bytes.now }
{
    bytes[at]
}

/// The number of two bytes at `at`, a `__le16`.
#[tactic(auto, unfolding(crate::specs::Number::number_at))]
pub fn u16_at(bytes: &[u8], at: usize) -> u16
    requires { at + 2 ≤ length bytes.now }
    ensures { result ≡ number_at at 2 bytes.now }
{
    LittleEndian::read_u16(&bytes[at..])
}

/// The number of four bytes at `at`, a `__le32`.
#[tactic(auto, unfolding(crate::specs::Number::number_at))]
pub fn u32_at(bytes: &[u8], at: usize) -> u32
    requires { at + 4 ≤ length bytes.now }
    ensures { result ≡ number_at at 4 bytes.now }
{
    LittleEndian::read_u32(&bytes[at..])
}

/// The number of eight bytes at `at`, a `__le64`.
#[tactic(auto, unfolding(crate::specs::Number::number_at))]
pub fn u64_at(bytes: &[u8], at: usize) -> u64
    requires { at + 8 ≤ length bytes.now }
    ensures { result ≡ number_at at 8 bytes.now }
{
    LittleEndian::read_u64(&bytes[at..])
}

/// The number of two bytes at `at`, a `__be16`.
#[tactic(auto, unfolding(crate::specs::Number::big_number_at))]
pub fn big_u16_at(bytes: &[u8], at: usize) -> u16
    requires { at + 2 ≤ length bytes.now }
    ensures { result ≡ big_number_at at 2 bytes.now }
{
    BigEndian::read_u16(&bytes[at..])
}

/// The number of four bytes at `at`, a `__be32`.
#[tactic(auto, unfolding(crate::specs::Number::big_number_at))]
pub fn big_u32_at(bytes: &[u8], at: usize) -> u32
    requires { at + 4 ≤ length bytes.now }
    ensures { result ≡ big_number_at at 4 bytes.now }
{
    BigEndian::read_u32(&bytes[at..])
}

/// The number of eight bytes at `at`, a `__be64`.
#[tactic(auto, unfolding(crate::specs::Number::big_number_at))]
pub fn big_u64_at(bytes: &[u8], at: usize) -> u64
    requires { at + 8 ≤ length bytes.now }
    ensures { result ≡ big_number_at at 8 bytes.now }
{
    BigEndian::read_u64(&bytes[at..])
}

/// The same number in the type that a table of fields takes.
pub fn wide8(value: u8) -> u64
    ensures same { result ≡ value }
    ensures fits { value < 256 ^ 1 }
{
    u64::from(value)
}

/// The same number in the type that a table of fields takes.
pub fn wide16(value: u16) -> u64
    ensures same { result ≡ value }
    ensures fits { value < 256 ^ 2 }
{
    u64::from(value)
}

/// The same number in the type that a table of fields takes.
pub fn wide32(value: u32) -> u64
    ensures same { result ≡ value }
    ensures fits { value < 256 ^ 4 }
{
    u64::from(value)
}

/// The same number in the type that a table of fields takes.
pub fn wide64(value: u64) -> u64
    ensures same { result ≡ value }
    ensures fits { value < 256 ^ 8 }
{
    value
}
