//! Fields in a row at the end of bytes that have room for them. All numbers of the format are
//! little-endian.
ghost use Rattle.std.specs.Prelude.{◌≡◌, ◌≤◌, ◌+◌, ◌++◌, length, replicate, vec_len, vec_capacity};
ghost use Rattle.byteorder.specs.Endian.{little_bytes};

/// Appends bytes.
pub(crate) fn append(out: &mut Vec<u8>, bytes: &[u8])
    requires room { vec_len out.old + length bytes.now ≤ vec_capacity out.old }
    ensures items { out.new.items ≡ out.old.items ++ bytes.now }
    ensures len { vec_len out.new ≡ vec_len out.old + length bytes.now }
    ensures capacity { vec_capacity out.old ≤ vec_capacity out.new }
{
    let _ = out.extend_from_slice(bytes);
}

/// Appends a number of 8 bits.
pub(crate) fn append_u8(out: &mut Vec<u8>, field: u8)
    requires room { vec_len out.old + 1 ≤ vec_capacity out.old }
    ensures items { out.new.items ≡ out.old.items ++ little_bytes 1 field }
    ensures len { vec_len out.new ≡ vec_len out.old + 1 }
    ensures capacity { vec_capacity out.old ≤ vec_capacity out.new }
{
    append(out, &field.to_le_bytes());
}

/// Appends a number of 16 bits.
pub(crate) fn append_u16(out: &mut Vec<u8>, field: u16)
    requires room { vec_len out.old + 2 ≤ vec_capacity out.old }
    ensures items { out.new.items ≡ out.old.items ++ little_bytes 2 field }
    ensures len { vec_len out.new ≡ vec_len out.old + 2 }
    ensures capacity { vec_capacity out.old ≤ vec_capacity out.new }
{
    append(out, &field.to_le_bytes());
}

/// Appends a number of 32 bits.
pub(crate) fn append_u32(out: &mut Vec<u8>, field: u32)
    requires room { vec_len out.old + 4 ≤ vec_capacity out.old }
    ensures items { out.new.items ≡ out.old.items ++ little_bytes 4 field }
    ensures len { vec_len out.new ≡ vec_len out.old + 4 }
    ensures capacity { vec_capacity out.old ≤ vec_capacity out.new }
{
    append(out, &field.to_le_bytes());
}

/// Appends a number of 64 bits.
pub(crate) fn append_u64(out: &mut Vec<u8>, field: u64)
    requires room { vec_len out.old + 8 ≤ vec_capacity out.old }
    ensures items { out.new.items ≡ out.old.items ++ little_bytes 8 field }
    ensures len { vec_len out.new ≡ vec_len out.old + 8 }
    ensures capacity { vec_capacity out.old ≤ vec_capacity out.new }
{
    append(out, &field.to_le_bytes());
}
