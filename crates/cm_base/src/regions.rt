/// A region of the address space: the bytes from `from` up to, not including, `to`.
#[derive(Clone, Copy, Debug, PartialEq, Eq)]
pub struct Row {
    pub from: u32,
    pub to: u32,
}

/// The regions: 0 Non-secure ROM, 1 Non-secure RAM, 2 Secure ROM, 3 Non-secure callable,
/// 4 Secure data, 5 Secure control. Secure code reads all of them, and writes 1, 4 and 5.
#[derive(Clone, Copy, Debug, PartialEq, Eq)]
pub struct Regions {
    pub rows: [Row; 6],
}

/// Non-secure ROM.
pub const NS_ROM: Row = Row {
    from: 0x0000_0000,
    to: 0x0004_0000,
};

/// Non-secure RAM.
pub const NS_RAM: Row = Row {
    from: 0x2000_0000,
    to: 0x2002_0000,
};

/// Secure ROM. It begins with the vector table: the initial stack pointer, then where the start code stands.
pub const SECURE_ROM: Row = Row {
    from: 0x1000_0000,
    to: 0x103F_F000,
};

/// The Non-secure callable region, of Secure gateway veneers. Secure ROM ends where it begins.
pub const NSC: Row = Row {
    from: 0x103F_F000,
    to: 0x1040_0000,
};

/// Secure data: the data stack, then the program's objects.
pub const SECURE_DATA: Row = Row {
    from: 0x3000_0000,
    to: 0x3001_0000,
};

/// Secure control: the main stack, the process stack, and one word behind them. Secure data ends where it begins.
pub const SECURE_CONTROL: Row = Row {
    from: 0x3001_0000,
    to: 0x3001_A000,
};

/// The regions of the device.
pub const PLATFORM: Regions = Regions {
    rows: [NS_ROM, NS_RAM, SECURE_ROM, NSC, SECURE_DATA, SECURE_CONTROL],
};

/// Where the two seal words of the main stack stand, which is where its stack pointer begins. Its limit is the start of
/// Secure control.
pub const MAIN_SEAL: u32 = 0x3001_7FF8;

/// The limit of the process stack, where the main stack's bytes end.
pub const PROCESS_LIMIT: u32 = 0x3001_8000;

/// Where the two seal words of the process stack stand, which is where its stack pointer begins.
pub const PROCESS_SEAL: u32 = 0x3001_8FF8;

/// The address of the word that holds the data stack's pointer.
pub const DATA_POINTER: u32 = 0x3001_9000;

/// What seals a stack: no value that a function return or an exception return takes for its own (DDI0553, stack
/// sealing).
pub const SEAL_WORD: u32 = 0xFEF5_EDA5;
