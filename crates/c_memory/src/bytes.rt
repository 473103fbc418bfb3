//! Numbers of 1, 2 or 4 bytes in a region, little endian.

ghost use Rattle.std.specs.Prelude.{◌≡◌, ◌+◌, ◌^◌, ◌<◌, ◌≤◌, length, IsTrue};
ghost use Rattle.ns_types.specs.Memory.{byte_at, half_at, word_at, number_at, put_byte, put_half, put_word, put_number};
ghost use Rattle.c_memory.specs.Writes.{is_size};
ghost use Rattle.c_memory.specs.Zeros.{zeroed};

#[tactic(auto, unfolding(ns_types::specs::Memory::byte_at))]
fn get_byte(bytes: &[u8], o: usize) -> u32
    requires { o + 1 ≤ length bytes.now }
    ensures { result ≡ byte_at bytes.now o }
{
    bytes[o] as u32
}

#[tactic(auto, unfolding(ns_types::specs::Memory::half_at))]
fn get_half(bytes: &[u8], o: usize) -> u32
    requires { o + 2 ≤ length bytes.now }
    ensures { result ≡ half_at bytes.now o }
{
    bytes[o] as u32 + 0x100 * bytes[o + 1] as u32
}

/// The word at a place.
#[tactic(auto, unfolding(ns_types::specs::Memory::word_at))]
pub fn word_at(bytes: &[u8], o: usize) -> u32
    requires { o + 4 ≤ length bytes.now }
    ensures { result ≡ word_at bytes.now o }
{
    bytes[o] as u32
        + 0x100 * bytes[o + 1] as u32
        + 0x1_0000 * bytes[o + 2] as u32
        + 0x100_0000 * bytes[o + 3] as u32
}

/// The number of `size` bytes at a place.
pub fn get_number(bytes: &[u8], o: usize, size: u8) -> u32
    requires size { IsTrue (is_size size) }
    requires within { o + size ≤ length bytes.now }
    ensures { result ≡ number_at size bytes.now o }
{
    match size {
        4 => word_at(bytes, o),
        2 => get_half(bytes, o),
        _ => get_byte(bytes, o),
    }
}

#[tactic(auto, unfolding(ns_types::specs::Memory::put_byte))]
fn set_byte(bytes: &mut [u8], o: usize, v: u32)
    requires { o + 1 ≤ length bytes.old }
    ensures { bytes.new ≡ put_byte bytes.old o v }
{
    bytes[o] = (v % 0x100) as u8;
}

#[tactic(auto, unfolding(ns_types::specs::Memory::put_half))]
fn set_half(bytes: &mut [u8], o: usize, v: u32)
    requires { o + 2 ≤ length bytes.old }
    ensures { bytes.new ≡ put_half bytes.old o v }
{
    bytes[o] = (v % 0x100) as u8;
    bytes[o + 1] = (v / 0x100 % 0x100) as u8;
}

#[tactic(auto, unfolding(ns_types::specs::Memory::put_word))]
fn set_word(bytes: &mut [u8], o: usize, v: u32)
    requires { o + 4 ≤ length bytes.old }
    ensures { bytes.new ≡ put_word bytes.old o v }
{
    bytes[o] = (v % 0x100) as u8;
    bytes[o + 1] = (v / 0x100 % 0x100) as u8;
    bytes[o + 2] = (v / 0x1_0000 % 0x100) as u8;
    bytes[o + 3] = (v / 0x100_0000 % 0x100) as u8;
}

/// Writes the low `size` bytes of a number at a place.
pub fn set_number(bytes: &mut [u8], o: usize, size: u8, v: u32)
    requires size { IsTrue (is_size size) }
    requires within { o + size ≤ length bytes.old }
    ensures { bytes.new ≡ put_number size bytes.old o v }
{
    match size {
        4 => set_word(bytes, o, v),
        2 => set_half(bytes, o, v),
        _ => set_byte(bytes, o, v),
    }
}

/// Writes n zeros from a place on, as far as there are bytes.
pub fn zero(bytes: &mut [u8], at: usize, n: u32)
    requires { at < 2 ^ 32 }
    ensures { bytes.new ≡ zeroed at n bytes.old }
{
    let mut i = at;
    let mut left = n;
    while left > 0 {
        if i < bytes.len() {
            bytes[i] = 0;
        }
        i += 1;
        left -= 1;
    }
}
