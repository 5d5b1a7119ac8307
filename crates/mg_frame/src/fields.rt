//! Readers and writers of a record's fields. A reader takes the field at an offset and answers `None` exactly where too few
//! bytes are left; a writer appends the field.

ghost use Rattle.std.specs.Prelude.{◌≡◌, ◌++◌, ◌<◌, ◌≤◌, ◌^◌, length, take, drop, OnOk, OnErr};
ghost use Rattle.std.specs.Option.{option_copied};
ghost use Rattle.mg_frame.specs.BigEndian.{big_endian, big_endian_value, front_number, counted, front_bytes, front_list};

use std::alloc::AllocError;

/// The number that the first four bytes spell.
pub(crate) fn front_u32(bytes: &[u8]) -> u32
    requires { 4 ≤ length bytes.now }
    ensures { result ≡ big_endian_value (take 4 bytes.now) }
{
    u32::from_be_bytes(*bytes.first_chunk().unwrap())
}

/// The number that the first eight bytes spell.
pub(crate) fn front_u64(bytes: &[u8]) -> u64
    requires { 8 ≤ length bytes.now }
    ensures { result ≡ big_endian_value (take 8 bytes.now) }
{
    u64::from_be_bytes(*bytes.first_chunk().unwrap())
}

/// The byte at `at`.
pub fn get_u8(bytes: &[u8], at: usize) -> Option<u8>
    requires { at ≤ length bytes.now }
    ensures { result ≡ front_number 1 (drop at bytes.now) }
{
    let field = bytes[at..].first_chunk()?;
    Some(u8::from_be_bytes(*field))
}

/// The number in the two bytes at `at`, the highest first.
pub fn get_u16(bytes: &[u8], at: usize) -> Option<u16>
    requires { at ≤ length bytes.now }
    ensures { result ≡ front_number 2 (drop at bytes.now) }
{
    let field = bytes[at..].first_chunk()?;
    Some(u16::from_be_bytes(*field))
}

/// The number in the four bytes at `at`, the highest first.
pub fn get_u32(bytes: &[u8], at: usize) -> Option<u32>
    requires { at ≤ length bytes.now }
    ensures { result ≡ front_number 4 (drop at bytes.now) }
{
    let field = bytes[at..].first_chunk()?;
    Some(u32::from_be_bytes(*field))
}

/// The number in the eight bytes at `at`, the highest first.
pub fn get_u64(bytes: &[u8], at: usize) -> Option<u64>
    requires { at ≤ length bytes.now }
    ensures { result ≡ front_number 8 (drop at bytes.now) }
{
    let field = bytes[at..].first_chunk()?;
    Some(u64::from_be_bytes(*field))
}

fn front_bytes(bytes: &[u8], count: usize) -> Option<&[u8]>
    ensures { option_copied result ≡ front_bytes count bytes.now }
{
    bytes.get(..count)
}

/// The byte list that stands after its count, which is the byte at `at`. It is not copied.
pub fn get_short(bytes: &[u8], at: usize) -> Option<&[u8]>
    requires { at ≤ length bytes.now }
    ensures { option_copied result ≡ front_list 1 (drop at bytes.now) }
{
    let count = get_u8(bytes, at)?;
    front_bytes(&bytes[at + 1..], usize::from(count))
}

/// The byte list that stands after its count, which is the number in the four bytes at `at`. It is not copied.
pub fn get_long(bytes: &[u8], at: usize) -> Option<&[u8]>
    requires { at ≤ length bytes.now }
    ensures { option_copied result ≡ front_list 4 (drop at bytes.now) }
{
    let count = get_u32(bytes, at)?;
    front_bytes(&bytes[at + 4..], count as usize)
}

/// Appends the byte.
#[tactic(auto, unfolding(crate::specs::BigEndian::big_endian))]
pub fn put_u8(value: u8, out: &mut Vec<u8>) -> Result<(), AllocError>
    ensures ok { OnOk result (out.new.items ≡ out.old.items ++ big_endian 1 value) }
    ensures err { OnErr result (out.new.items ≡ out.old.items) }
{
    out.extend_from_slice(&value.to_be_bytes())
}

/// Appends the number in two bytes, the highest first.
#[tactic(auto, unfolding(crate::specs::BigEndian::big_endian))]
pub fn put_u16(value: u16, out: &mut Vec<u8>) -> Result<(), AllocError>
    ensures ok { OnOk result (out.new.items ≡ out.old.items ++ big_endian 2 value) }
    ensures err { OnErr result (out.new.items ≡ out.old.items) }
{
    out.extend_from_slice(&value.to_be_bytes())
}

/// Appends the number in four bytes, the highest first.
#[tactic(auto, unfolding(crate::specs::BigEndian::big_endian))]
pub fn put_u32(value: u32, out: &mut Vec<u8>) -> Result<(), AllocError>
    ensures ok { OnOk result (out.new.items ≡ out.old.items ++ big_endian 4 value) }
    ensures err { OnErr result (out.new.items ≡ out.old.items) }
{
    out.extend_from_slice(&value.to_be_bytes())
}

/// Appends the number in eight bytes, the highest first.
#[tactic(auto, unfolding(crate::specs::BigEndian::big_endian))]
pub fn put_u64(value: u64, out: &mut Vec<u8>) -> Result<(), AllocError>
    ensures ok { OnOk result (out.new.items ≡ out.old.items ++ big_endian 8 value) }
    ensures err { OnErr result (out.new.items ≡ out.old.items) }
{
    out.extend_from_slice(&value.to_be_bytes())
}

/// Appends both lists, or nothing.
fn append_both(first: &[u8], second: &[u8], out: &mut Vec<u8>) -> Result<(), AllocError>
    ensures ok { OnOk result (out.new.items ≡ out.old.items ++ (first.now ++ second.now)) }
    ensures err { OnErr result (out.new.items ≡ out.old.items) }
{
    out.reserve(first.len() + second.len())?;
    out.extend_from_slice(first)?;
    out.extend_from_slice(second)
}

/// Appends a byte list after its count of one byte.
#[tactic(auto, unfolding(crate::specs::BigEndian::big_endian, crate::specs::BigEndian::counted))]
pub fn put_short(list: &[u8], out: &mut Vec<u8>) -> Result<(), AllocError>
    requires { length list.now ≤ 255 }
    ensures ok { OnOk result (out.new.items ≡ out.old.items ++ counted 1 list.now) }
    ensures err { OnErr result (out.new.items ≡ out.old.items) }
{
    append_both(&(list.len() as u8).to_be_bytes(), list, out)
}

/// Appends a byte list after its count of four bytes.
#[tactic(auto, unfolding(crate::specs::BigEndian::big_endian, crate::specs::BigEndian::counted))]
pub fn put_long(list: &[u8], out: &mut Vec<u8>) -> Result<(), AllocError>
    requires { length list.now < 2 ^ 32 }
    ensures ok { OnOk result (out.new.items ≡ out.old.items ++ counted 4 list.now) }
    ensures err { OnErr result (out.new.items ≡ out.old.items) }
{
    append_both(&(list.len() as u32).to_be_bytes(), list, out)
}
