use asm_fix::{Asm, fix};
use cm_base::NoMemory;
use v8m_isa::Instr;

// The bytes are those that GNU as makes of the same lines; GNU objdump reads them back with these targets: from 4 to 16, from 10
// to 0, from 20 to 0, from 24 to 16, and from 28 to 32.
#[test]
#[tactic(auto, unfolding(v8m_isa::specs::Table::in_range_of, v8m_isa::specs::Table::size_of))]
fn labels_ahead_and_back(rt: HostRuntime) -> Result<(), NoMemory> {
    let asm = [
        Asm::Label(7),
        Asm::Op(Instr::Movw { d: 0, i: 1 }),
        Asm::JumpIf { cond: 0, to: 9 },
        Asm::Op(Instr::Mov { d: 1, m: 0 }),
        Asm::Jump { to: 7 },
        Asm::Op(Instr::Nop),
        Asm::Label(9),
        Asm::Op(Instr::Cmp { n: 0, m: 1 }),
        Asm::JumpIf { cond: 11, to: 7 },
        Asm::Jump { to: 9 },
        Asm::Jump { to: 3 },
        Asm::Label(3),
    ];
    let bytes = fix(rt.alloc(), &asm)?;
    let wanted = [
        0x40, 0xF2, 0x01, 0x00, 0x00, 0xF0, 0x04, 0x80, 0x01, 0x46, 0xFF, 0xF7, 0xF9, 0xBF, 0x00,
        0xBF, 0xB0, 0xEB, 0x01, 0x0F, 0xFF, 0xF6, 0xF4, 0xAF, 0xFF, 0xF7, 0xFA, 0xBF, 0x00, 0xF0,
        0x00, 0xB8,
    ];
    assert!(rt; bytes.as_slice() == wanted.as_slice());
    Ok(())
}
