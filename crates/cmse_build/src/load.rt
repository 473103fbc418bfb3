//! Reading an image.
ghost use Rattle.std.specs.Prelude.{◌≡◌, ◌+◌, ◌-◌, ◌<◌, ◌≤◌, ◌^◌, ◌++◌, [], ◌∷◌, length, slice_get, nat_le, if◌then◌else◌, All, OnOk, IfOk};
ghost use Rattle.std.specs.List.{fold, list_any};
ghost use Rattle.cm_base.specs.declared.regions.TheConstants.{SECURE_ROM, NSC};
ghost use Rattle.elf32.specs.Constants.{PROGRAM_HEADER_SIZE};
ghost use Rattle.elf32.specs.Fields.{field16, field32};
ghost use Rattle.cmse_build.specs.Reading.{Gives, GivesOrNoMemory, Leaves, test, is, is_count, word, half, field_at, identification_of, header_of, meets, has_place, is_loaded, segment_of, segment_test, Fits, with_segment, with_segments, with_bytes, zeros, rom_size, rom_of, is_entry, rom_of_image};

use cm_base::{Bytes, List, NSC, NoMemory, SECURE_ROM};
use elf32::{
    EF_ARM_EABI_VER5, ELF_MAGIC, ELFCLASS32, ELFDATA2LSB, EM_ARM, ET_EXEC, EV_CURRENT, HEADER_SIZE,
    PROGRAM_HEADER_SIZE, PT_LOAD, get16, get32,
};
use std::alloc::Global;
use thiserror::Error;
use v8m_core::Image;

/// Why an image wasn't read.
#[derive(Clone, Copy, Debug, PartialEq, Eq, Error)]
pub enum ImageFault {
    /// The offset of the first field that is unfit or cut.
    #[error("the image is bad at {0}")]
    BadImage(u32),
    #[error("no memory")]
    NoMemory,
}

impl From<NoMemory> for ImageFault {
    ghost use Rattle.std.specs.Prelude.{◌≡◌};
    ghost use Rattle.cmse_build.specs.declared.load.ImageFault.TheVariants as fault;

    ghost from_gives = { λ _ e. e ≡ fault.NoMemory };

    fn from(_e: NoMemory) -> ImageFault {
        ImageFault::NoMemory
    }
}

/// What a program header loads: `size` bytes from the address `at`, of which the first `filled` stand in the file from
/// `from` on.
#[derive(Clone, Copy)]
struct Segment {
    at: u32,
    size: u32,
    from: u32,
    filled: u32,
}

/// The size of the Secure ROM and its Non-secure callable region.
const ROM_SIZE: usize = (NSC.to - SECURE_ROM.from) as usize;

/// The top byte of e_flags.
const ABI_VERSION: u8 = (EF_ARM_EABI_VER5 >> 24) as u8;

/// How far one program header stands behind another.
const ONE_HEADER: u32 = PROGRAM_HEADER_SIZE as u32;

/// Where the fields of the file header begin.
const HEADER_FIELDS: [u32; 18] = [
    0, 4, 5, 6, 7, 16, 18, 20, 24, 28, 32, 36, 40, 42, 44, 46, 48, 50,
];

/// The last of these starts that isn't above n, or 0.
fn last_start(starts: &[u32], n: u64) -> u32
    ensures { result ≡ fold (λ best at. if nat_le at n then at else best) 0 starts.now }
{
    let mut best = 0;
    for at in starts {
        if u64::from(*at) <= n {
            best = *at;
        }
    }
    best
}

/// Where the field of the file header that byte n stands in begins.
#[tactic(auto, unfolding(crate::specs::Reading::field_at))]
fn field_at(n: u64) -> u32
    ensures { result ≡ field_at n }
{
    last_start(&HEADER_FIELDS, n)
}

fn test(ok: bool, at: u32) -> Result<(), u32>
    ensures { Gives (λ _. tt) result (test ok at) }
{
    if ok { Ok(()) } else { Err(at) }
}

fn is8(bytes: &[u8], at: usize, n: u8) -> bool
    ensures { result ≡ is (slice_get bytes.now at) n }
{
    match bytes.get(at) {
        None => false,
        Some(x) => *x == n,
    }
}

fn is16(bytes: &[u8], at: u32, n: u16) -> bool
    ensures { result ≡ is (field16 bytes.now at) n }
{
    match get16(bytes, at) {
        None => false,
        Some(x) => x == n,
    }
}

fn is32(bytes: &[u8], at: u32, n: u32) -> bool
    ensures { result ≡ is (field32 bytes.now at) n }
{
    match get32(bytes, at) {
        None => false,
        Some(x) => x == n,
    }
}

fn is_count(bytes: &[u8]) -> bool
    ensures { result ≡ is_count (field16 bytes.now 44) }
{
    match get16(bytes, 44) {
        None => false,
        Some(n) => 1 <= n && n <= 16,
    }
}

fn half(bytes: &[u8], at: u32) -> u16
    ensures { result ≡ half bytes.now at }
{
    get16(bytes, at).unwrap_or(0)
}

fn word(bytes: &[u8], at: u32) -> u32
    ensures { result ≡ word bytes.now at }
{
    get32(bytes, at).unwrap_or(0)
}

#[tactic(auto, unfolding(crate::specs::Reading::identification_of))]
fn test_identification(bytes: &[u8]) -> Result<(), u32>
    ensures { Gives (λ _. tt) result (identification_of bytes.now) }
{
    test(
        HEADER_SIZE as usize <= bytes.len(),
        field_at(bytes.len() as u64),
    )?;
    test(is32(bytes, 0, ELF_MAGIC), 0)?;
    test(is8(bytes, 4, ELFCLASS32), 4)?;
    test(is8(bytes, 5, ELFDATA2LSB), 5)?;
    test(is8(bytes, 6, EV_CURRENT as u8), 6)
}

#[tactic(auto, unfolding(crate::specs::Reading::header_of))]
fn test_header(bytes: &[u8]) -> Result<(), u32>
    ensures { Gives (λ _. tt) result (header_of bytes.now) }
{
    test(is16(bytes, 16, ET_EXEC), 16)?;
    test(is16(bytes, 18, EM_ARM), 18)?;
    test(is32(bytes, 20, EV_CURRENT), 20)?;
    test(is8(bytes, 39, ABI_VERSION), 36)?;
    test(is16(bytes, 42, PROGRAM_HEADER_SIZE), 42)?;
    test(is_count(bytes), 44)
}

/// Whether two segments have a byte in common: an empty one has none.
fn meets(s: &Segment, t: &Segment) -> bool
    ensures { result ≡ meets s.now t.now }
{
    u64::from(s.at) < u64::from(t.at) + u64::from(t.size)
        && u64::from(t.at) < u64::from(s.at) + u64::from(s.size)
        && 0 < s.size
        && 0 < t.size
}

fn meets_any(s: &Segment, earlier: &[Segment]) -> bool
    ensures { result ≡ list_any (meets s.now) earlier.now }
{
    for t in earlier {
        if meets(s, t) {
            return true;
        }
    }
    false
}

/// Whether a program header has bytes to load.
fn is_loaded(bytes: &[u8], at: u32) -> bool
    requires { at + PROGRAM_HEADER_SIZE < 2 ^ 32 }
    ensures { result ≡ is_loaded bytes.now at }
{
    word(bytes, at) == PT_LOAD && word(bytes, at + 16) != 0
}

fn segment_of(bytes: &[u8], at: u32) -> Segment
    requires { at + PROGRAM_HEADER_SIZE < 2 ^ 32 }
    ensures { result ≡ segment_of bytes.now at }
{
    Segment {
        at: word(bytes, at + 12),
        size: word(bytes, at + 20),
        from: word(bytes, at + 4),
        filled: word(bytes, at + 16),
    }
}

/// Whether a segment lies in the Secure ROM and its Non-secure callable region, and meets no earlier one.
fn has_place(s: &Segment, earlier: &[Segment]) -> bool
    ensures { result ≡ has_place s.now earlier.now }
{
    SECURE_ROM.from <= s.at
        && u64::from(s.at) + u64::from(s.size) <= u64::from(NSC.to)
        && !meets_any(s, earlier)
}

#[tactic(auto, unfolding(crate::specs::Reading::segment_test))]
fn test_segment(bytes: &[u8], at: u32, earlier: &[Segment], s: &Segment) -> Result<(), u32>
    requires { at + PROGRAM_HEADER_SIZE < 2 ^ 32 }
    ensures value { Gives (λ _. tt) result (segment_test bytes.now at earlier.now s.now) }
    ensures fits { OnOk result (Fits (length bytes.now) s.now) }
{
    let in_file = u64::from(s.from) + u64::from(s.filled) <= bytes.len() as u64;
    test(in_file, at + 16)?;
    test(has_place(s, earlier), at + 12)?;
    test(s.filled <= s.size, at + 20)
}

/// Adds the segment of the program header at an offset, if it has one.
#[tactic(auto, unfolding(crate::specs::Reading::with_segment))]
fn add_segment(bytes: &[u8], at: u32, segments: &mut List<Segment>) -> Result<(), ImageFault>
    requires { length bytes.now < 2 ^ 32 }
    ensures value { Leaves result segments.new (with_segment bytes.now at segments.old) }
    ensures fits { All (Fits (length bytes.now)) segments.old
        → OnOk result (All (Fits (length bytes.now)) segments.new) }
    ensures whole { OnOk result (at + PROGRAM_HEADER_SIZE ≤ length bytes.now) }
{
    let size = bytes.len() as u32;
    let cut = at + 4 * (size.saturating_sub(at) / 4);
    test(
        u64::from(at) + u64::from(ONE_HEADER) <= u64::from(size),
        cut,
    )
    .map_err(ImageFault::BadImage)?;
    if !is_loaded(bytes, at) {
        return Ok(());
    }
    let segment = segment_of(bytes, at);
    test_segment(bytes, at, segments.as_slice(), &segment).map_err(ImageFault::BadImage)?;
    segments.push(segment)?;
    Ok(())
}

/// The segments of all program headers.
fn segments_of(alloc: Global, bytes: &[u8]) -> Result<List<Segment>, ImageFault>
    requires { length bytes.now < 2 ^ 32 }
    ensures value { GivesOrNoMemory (λ x. x) result
        (with_segments bytes.now (half bytes.now 44) (word bytes.now 28) []) }
    ensures fits { IfOk result (All (Fits (length bytes.now))) }
{
    let mut segments = List::new(alloc);
    let mut at = word(bytes, 28);
    for _i in 0..half(bytes, 44) {
        add_segment(bytes, at, &mut segments)?;
        at += ONE_HEADER;
    }
    Ok(segments)
}

/// Puts bytes over those at a place.
fn put_bytes(rom: &mut [u8], at: usize, bytes: &[u8])
    requires { at + length bytes.now ≤ length rom.old }
    ensures { rom.new ≡ with_bytes rom.old at bytes.now }
{
    rom[at..at + bytes.len()].copy_from_slice(bytes);
}

/// The size of the Secure ROM and its Non-secure callable region.
#[tactic(auto, unfolding(crate::specs::Reading::rom_size))]
fn rom_size() -> usize
    ensures value { result ≡ rom_size }
    ensures is { result ≡ NSC.to - SECURE_ROM.from }
{
    ROM_SIZE
}

#[tactic(auto, unfolding(crate::specs::Reading::zeros))]
fn zeros(alloc: Global, n: usize) -> Result<Vec<u8>, NoMemory>
    ensures value { IfOk result (λ v. v.items ≡ zeros n) }
    ensures len { IfOk result (λ v. length v.items ≡ n) }
{
    Ok(vec![in alloc; 0u8; n]?)
}

/// The ROM of these segments.
#[tactic(auto, unfolding(crate::specs::Reading::rom_of))]
fn rom_of(alloc: Global, bytes: &[u8], segments: &[Segment]) -> Result<Bytes, NoMemory>
    requires { All (Fits (length bytes.now)) segments.now }
    ensures value { IfOk result (λ rom. rom ≡ rom_of bytes.now segments.now) }
    ensures whole { IfOk result (λ rom. length rom ≡ NSC.to - SECURE_ROM.from) }
{
    let mut rom = zeros(alloc, rom_size())?;
    for s in segments {
        let from = s.from as usize;
        let filled = &bytes[from..from + s.filled as usize];
        put_bytes(
            rom.as_mut_slice(),
            (s.at - SECURE_ROM.from) as usize,
            filled,
        );
    }
    Ok(Bytes::from_vec(rom))
}

/// Whether the reset address with bit 0 set is the second word of the ROM, which has bit 0 set.
fn is_entry(entry: u32, reset: u32) -> bool
    ensures { result ≡ is_entry entry reset }
{
    entry / 2 == reset / 2 && reset % 2 == 1
}

/// The image of a file: the ROM that its program headers load, or the offset of the first fault.
#[tactic(auto, unfolding(crate::specs::Reading::rom_of_image))]
pub fn load_image(alloc: Global, bytes: &[u8]) -> Result<Image, ImageFault>
    requires { length bytes.now < 2 ^ 32 }
    ensures value { GivesOrNoMemory (λ image. image.rom) result (rom_of_image bytes.now) }
    ensures whole { IfOk result (λ image. length image.rom ≡ NSC.to - SECURE_ROM.from) }
{
    test_identification(bytes).map_err(ImageFault::BadImage)?;
    test_header(bytes).map_err(ImageFault::BadImage)?;
    let segments = segments_of(alloc, bytes)?;
    let rom = rom_of(alloc, bytes, segments.as_slice())?;
    let agrees = is_entry(word(bytes, 24), word(rom.as_slice(), 4));
    test(agrees, 24).map_err(ImageFault::BadImage)?;
    Ok(Image { rom })
}
