//! Expected values from the ELF formats (System V ABI, Object Files; ECM0359818, Import library).

ghost use Rattle.std.specs.Prelude.{◌≡◌, ◌≤◌, true, length, IfOk};
ghost use Rattle.cmse_build.specs.Constant.{is_entry_name};

use cm_base::{Bytes, List, NoMemory, Text};
use cmse_build::{Gate, ImageFault, load_image, read_constant, write_image};
use elf32::get32;
use import_lib::write_implib;
use ns_types::{Veneer, Veneers};
use std::alloc::Global;
use std::test::Fail;
use v8m_core::Image;

const SOURCE: &[u8] = b"int __attribute__((cmse_nonsecure_entry)) answer(void) { return 42; }";

/// The name of the one entry.
fn answer(alloc: Global) -> Result<Text, NoMemory>
    ensures { IfOk result (λ name. is_entry_name name ≡ true) }
{
    match read_constant(SOURCE) {
        Some((name, _n)) => Text::from_slice(alloc, name),
        None => Err(NoMemory),
    }
}

/// The library of one entry `answer`.
pub fn library(alloc: Global) -> Result<Bytes, NoMemory> {
    let veneer = Veneer {
        name: answer(alloc)?,
        address: 0x103F_F000,
    };
    let mut list = List::new(alloc);
    list.push(veneer)?;
    write_implib(alloc, &Veneers { list })
}

/// The first of these offsets at which a file has another word than the one beside it.
fn other_at(file: &[u8], words: &[(u32, u32)]) -> Option<u32> {
    for (at, word) in words {
        if get32(file, *at) != Some(*word) {
            return Some(*at);
        }
    }
    None
}

/// Whether a file has so many bytes, and these words.
fn is_file(file: &[u8], size: usize, words: &[(u32, u32)]) -> bool {
    file.len() == size && other_at(file, words).is_none()
}

/// The words of the library, by their offsets: all but the string tables.
const LIBRARY: &[(u32, u32)] = &[
    (0, 0x464C_457F),
    (4, 0x0001_0101),
    (8, 0),
    (12, 0),
    (16, 0x0028_0001),
    (20, 1),
    (24, 0),
    (28, 0),
    (32, 120),
    (36, 0x0500_0000),
    (40, 52),
    (44, 0x0028_0000),
    (48, 0x0003_0004),
    (52, 0),
    (56, 0),
    (60, 0),
    (64, 0),
    (68, 1),
    (72, 0x103F_F001),
    (76, 8),
    (80, 0xFFF1_0012),
    (84, 0x736E_6100),
    (88, 0x0072_6577),
    (116, 0x0000_6261),
    (120, 0),
    (124, 0),
    (128, 0),
    (132, 0),
    (136, 0),
    (140, 0),
    (144, 0),
    (148, 0),
    (152, 0),
    (156, 0),
    (160, 1),
    (164, 2),
    (168, 0),
    (172, 0),
    (176, 52),
    (180, 32),
    (184, 2),
    (188, 1),
    (192, 4),
    (196, 16),
    (200, 9),
    (204, 3),
    (208, 0),
    (212, 0),
    (216, 84),
    (220, 8),
    (224, 0),
    (228, 0),
    (232, 1),
    (236, 0),
    (240, 17),
    (244, 3),
    (248, 0),
    (252, 0),
    (256, 92),
    (260, 27),
    (264, 0),
    (268, 0),
    (272, 1),
    (276, 0),
];

/// Whether the library has its size and its words.
fn is_library(alloc: Global) -> bool {
    match library(alloc) {
        Ok(file) => is_file(file.as_slice(), 280, LIBRARY),
        Err(_memory) => false,
    }
}

#[test]
fn library_of_one_entry(rt: HostRuntime) -> Result<(), Fail> {
    assert!(rt; is_library(rt.alloc()));
    Ok(())
}

const SMALL_ROM: [u8; 8] = [0xF8, 0x7F, 1, 0x30, 0x41, 0, 0, 0x10];

fn gateways(alloc: Global) -> Result<Bytes, NoMemory>
    ensures { IfOk result (λ bytes. length bytes ≡ 4096) }
{
    Ok(Bytes::from_vec(vec![in alloc; 0x7Fu8; 4096]?))
}

/// The image of a ROM with one entry `answer`.
fn image_of(alloc: Global, rom: &[u8]) -> Result<Bytes, NoMemory>
    requires { length rom.now ≤ 100 }
{
    let gate = Gate {
        name: answer(alloc)?,
        address: 0x103F_F000,
        code: 0x1000_00D0,
    };
    let mut gates = List::new(alloc);
    gates.push(gate)?;
    let gateways = gateways(alloc)?;
    write_image(
        alloc,
        0x1000_0041,
        rom,
        gateways.as_slice(),
        gates.as_slice(),
    )
}

fn image(alloc: Global) -> Result<Bytes, NoMemory> {
    image_of(alloc, &SMALL_ROM)
}

/// Words of the image, by their offsets.
const IMAGE: &[(u32, u32)] = &[
    (0, 0x464C_457F),
    (4, 0x0001_0101),
    (16, 0x0028_0002),
    (20, 1),
    (24, 0x1000_0041),
    (28, 52),
    (32, 4324),
    (36, 0x0500_0000),
    (40, 0x0020_0034),
    (44, 0x0028_0002),
    (48, 0x0003_0004),
    (52, 1),
    (56, 116),
    (60, 0x1000_0000),
    (64, 0x1000_0000),
    (68, 8),
    (72, 8),
    (76, 5),
    (80, 4),
    (84, 1),
    (88, 124),
    (92, 0x103F_F000),
    (96, 0x103F_F000),
    (100, 4096),
    (104, 4096),
    (108, 5),
    (112, 4),
    (116, 0x3001_7FF8),
    (120, 0x1000_0041),
    (124, 0x7F7F_7F7F),
    (4216, 0x7F7F_7F7F),
    (4220, 0),
    (4236, 1),
    (4240, 0x103F_F001),
    (4244, 0),
    (4248, 0xFFF1_0012),
    (4252, 8),
    (4256, 0x1000_00D1),
    (4260, 0),
    (4264, 0xFFF1_0012),
    (4268, 0x736E_6100),
    (4276, 0x6361_5F5F),
    (4292, 0),
    (4364, 1),
    (4368, 2),
    (4380, 4220),
    (4384, 48),
    (4420, 4268),
    (4424, 25),
    (4460, 4296),
];

/// Whether the image of a ROM has this size and these words.
fn is_image(alloc: Global, rom: &[u8], size: usize, words: &[(u32, u32)]) -> bool
    requires { length rom.now ≤ 100 }
{
    match image_of(alloc, rom) {
        Ok(file) => is_file(file.as_slice(), size, words),
        Err(_memory) => false,
    }
}

#[test]
fn image_of_one_entry(rt: HostRuntime) -> Result<(), Fail> {
    assert!(rt; is_image(rt.alloc(), &SMALL_ROM, 4484, IMAGE));
    Ok(())
}

/// Words of the image of a ROM of ten bytes: zero bytes lead to the second segment.
const PADDED: &[(u32, u32)] = &[
    (56, 116),
    (68, 10),
    (88, 128),
    (100, 4096),
    (124, 0x0000_0201),
    (128, 0x7F7F_7F7F),
    (4220, 0x7F7F_7F7F),
    (4224, 0),
];

#[test]
fn second_segment_is_aligned(rt: HostRuntime) -> Result<(), Fail> {
    let rom = [0xF8, 0x7F, 1, 0x30, 0x41, 0, 0, 0x10, 1, 2];
    assert!(rt; is_image(rt.alloc(), &rom, 4488, PADDED));
    Ok(())
}

/// Reads a file that is small enough to be an image.
fn load(alloc: Global, file: &[u8]) -> Result<Image, ImageFault> {
    if file.len() > 10_000 {
        return Err(ImageFault::BadImage(u32::MAX));
    }
    load_image(alloc, file)
}

/// Words of the ROM that the image gives, by their offsets.
const ROM: &[(u32, u32)] = &[
    (0, 0x3001_7FF8),
    (4, 0x1000_0041),
    (8, 0),
    (0x3F_EFFC, 0),
    (0x3F_F000, 0x7F7F_7F7F),
    (0x3F_FFFC, 0x7F7F_7F7F),
];

/// Whether a file is an image of this ROM.
fn is_rom(alloc: Global, file: &[u8]) -> bool {
    match load(alloc, file) {
        Ok(image) => is_file(image.rom.as_slice(), 0x40_0000, ROM),
        Err(_fault) => false,
    }
}

fn reads_back(alloc: Global) -> bool {
    match image(alloc) {
        Ok(file) => is_rom(alloc, file.as_slice()),
        Err(_memory) => false,
    }
}

#[test]
fn image_reads_back(rt: HostRuntime) -> Result<(), Fail> {
    assert!(rt; reads_back(rt.alloc()));
    Ok(())
}

/// Where a file is bad, or None where it is an image.
fn fault_of(alloc: Global, file: &[u8]) -> Option<ImageFault> {
    match load(alloc, file) {
        Ok(_) => None,
        Err(fault) => Some(fault),
    }
}

/// Where the image is bad with this byte at an offset, or None where it is an image.
fn fault_with(alloc: Global, at: usize, byte: u8) -> Option<ImageFault> {
    let Ok(mut file) = image(alloc) else {
        return Some(ImageFault::NoMemory);
    };
    if at < file.len() {
        file.set(at, byte);
    }
    fault_of(alloc, file.as_slice())
}

fn is_bad(alloc: Global, at: usize, byte: u8, fault: u32) -> bool {
    fault_with(alloc, at, byte) == Some(ImageFault::BadImage(fault))
}

fn is_read(alloc: Global, at: usize, byte: u8) -> bool {
    fault_with(alloc, at, byte).is_none()
}

/// A segment below the ROM, one larger than its room, one past the file, and one behind the ROM are among the changes.
#[test]
fn changed_image(rt: HostRuntime) -> Result<(), Fail> {
    let alloc = rt.alloc();
    assert!(rt; is_bad(alloc, 0, 0x7E, 0));
    assert!(rt; is_bad(alloc, 3, 0x47, 0));
    assert!(rt; is_bad(alloc, 4, 2, 4));
    assert!(rt; is_bad(alloc, 5, 2, 5));
    assert!(rt; is_bad(alloc, 6, 0, 6));
    assert!(rt; is_read(alloc, 7, 9));
    assert!(rt; is_bad(alloc, 16, 1, 16));
    assert!(rt; is_bad(alloc, 18, 41, 18));
    assert!(rt; is_bad(alloc, 20, 2, 20));
    assert!(rt; is_read(alloc, 24, 0x40));
    assert!(rt; is_bad(alloc, 24, 0x43, 24));
    assert!(rt; is_bad(alloc, 39, 4, 36));
    assert!(rt; is_bad(alloc, 42, 33, 42));
    assert!(rt; is_bad(alloc, 44, 0, 44));
    assert!(rt; is_bad(alloc, 44, 17, 44));
    assert!(rt; is_bad(alloc, 67, 0x0F, 64));
    assert!(rt; is_bad(alloc, 68, 9, 72));
    assert!(rt; is_bad(alloc, 70, 1, 68));
    assert!(rt; is_bad(alloc, 99, 0x11, 96));
    assert!(rt; is_bad(alloc, 120, 0x40, 24));
    Ok(())
}

/// Makes the second segment empty, and puts it inside the first.
fn put_empty(file: &mut Bytes) {
    if file.len() > 105 {
        file.set(96, 4);
        file.set(97, 0);
        file.set(98, 0);
        file.set(105, 0);
    }
}

/// Where the image with such a segment is bad.
fn fault_of_empty(alloc: Global) -> Option<ImageFault> {
    let Ok(mut file) = image(alloc) else {
        return Some(ImageFault::NoMemory);
    };
    put_empty(&mut file);
    fault_of(alloc, file.as_slice())
}

#[test]
fn empty_segment_meets_nothing(rt: HostRuntime) -> Result<(), Fail> {
    assert_eq!(rt; fault_of_empty(rt.alloc()), Some(ImageFault::BadImage(104)));
    Ok(())
}

/// Whether the first `len` bytes of the image are bad at this offset.
fn is_cut(alloc: Global, len: usize, at: u32) -> bool {
    let Ok(mut file) = image(alloc) else {
        return false;
    };
    file.truncate(len);
    fault_of(alloc, file.as_slice()) == Some(ImageFault::BadImage(at))
}

#[test]
fn cut_image(rt: HostRuntime) -> Result<(), Fail> {
    let alloc = rt.alloc();
    assert!(rt; is_cut(alloc, 0, 0));
    assert!(rt; is_cut(alloc, 3, 0));
    assert!(rt; is_cut(alloc, 17, 16));
    assert!(rt; is_cut(alloc, 51, 50));
    assert!(rt; is_cut(alloc, 83, 80));
    assert!(rt; is_cut(alloc, 100, 68));
    Ok(())
}

/// Whether a source is that of an entry of this name that returns `n`.
fn is_constant(text: &str, name: &str, n: u32) -> bool {
    read_constant(text.as_bytes()) == Some((name.as_bytes(), n))
}

#[test]
fn constants(rt: HostRuntime) {
    assert!(rt;
        is_constant(
            "int __attribute__((cmse_nonsecure_entry)) answer(void) { return 42; }",
            "answer",
            42
        )
    );
    assert!(rt;
        is_constant(
            "int __attribute__((cmse_nonsecure_entry)) answer(void) { return 42; }\n",
            "answer",
            42
        )
    );
    assert!(rt;
        is_constant(
            "int __attribute__((cmse_nonsecure_entry)) _(void) { return 0; }",
            "_",
            0
        )
    );
    assert!(rt;
        is_constant(
            "int __attribute__((cmse_nonsecure_entry)) If9(void) { return 2147483647; }",
            "If9",
            2_147_483_647
        )
    );
    assert!(rt;
        is_constant(
            "int __attribute__((cmse_nonsecure_entry)) cmse(void) { return 10; }",
            "cmse",
            10
        )
    );
    assert!(rt;
        is_constant(
            "int __attribute__((cmse_nonsecure_entry)) abcdefghijklmnopqrstuvwxyz01234(void) { return 7; }",
            "abcdefghijklmnopqrstuvwxyz01234",
            7
        )
    );
}

fn is_other(text: &str) -> bool {
    read_constant(text.as_bytes()).is_none()
}

#[test]
fn other_sources(rt: HostRuntime) {
    assert!(rt; is_other(""));
    assert!(rt; is_other("int __attribute__((cmse_nonsecure_entry)) answer(void) { return 042; }"));
    assert!(rt; is_other("int __attribute__((cmse_nonsecure_entry)) answer(void) { return 00; }"));
    assert!(rt;
        is_other("int __attribute__((cmse_nonsecure_entry)) answer(void) { return 2147483648; }")
    );
    assert!(rt;
        is_other("int __attribute__((cmse_nonsecure_entry)) answer(void) { return 4294967296; }")
    );
    assert!(rt; is_other("int __attribute__((cmse_nonsecure_entry)) answer(void) { return ; }"));
    assert!(rt; is_other("int __attribute__((cmse_nonsecure_entry)) answer(void) { return -1; }"));
    assert!(rt; is_other("int __attribute__((cmse_nonsecure_entry)) answer(void) { return 42u; }"));
    assert!(rt;
        is_other("int __attribute__((cmse_nonsecure_entry)) answer(void) { return 42; }\n\n")
    );
    assert!(rt; is_other("int __attribute__((cmse_nonsecure_entry)) answer(void) { return 42; } "));
    assert!(rt; is_other("int __attribute__((cmse_nonsecure_entry)) answer(void) { return\t42; }"));
    assert!(rt; is_other("int  __attribute__((cmse_nonsecure_entry)) answer(void) { return 42; }"));
    assert!(rt; is_other("int __attribute__((cmse_nonsecure_entry)) answer() { return 42; }"));
    assert!(rt; is_other("int __attribute__((cmse_nonsecure_entry)) (void) { return 42; }"));
    assert!(rt; is_other("int __attribute__((cmse_nonsecure_entry)) 9a(void) { return 42; }"));
    assert!(rt;
        is_other(
            "int __attribute__((cmse_nonsecure_entry)) abcdefghijklmnopqrstuvwxyz012345(void) { return 7; }"
        )
    );
    assert!(rt; is_other("int __attribute__((cmse_nonsecure_entry)) if(void) { return 42; }"));
    assert!(rt; is_other("int __attribute__((cmse_nonsecure_entry)) _Bool(void) { return 42; }"));
    assert!(rt; is_other("int __attribute__((cmse_nonsecure_entry)) double(void) { return 42; }"));
    assert!(rt; is_other("int __attribute__((cmse_nonsecure_entry)) cmse_x(void) { return 42; }"));
    assert!(rt;
        is_other("int __attribute__((cmse_nonsecure_entry)) __acle_se_x(void) { return 42; }")
    );
}
