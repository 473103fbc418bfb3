//! The state of the machine but for memory (DDI0553, Registers).

ghost use Rattle.std.specs.Prelude.{◌≡◌, ◌<◌};
ghost use Rattle.ns_types.specs.State.{get_of, set_of};

use cm_base::Stop;

/// Who runs.
#[derive(Clone, Copy, Debug, PartialEq, Eq)]
pub enum Side {
    Secure,
    NonSecure,
    Stopped(Stop),
}

/// r0 to r12, the Secure main stack pointer and LR.
#[derive(Clone, Copy, Debug, PartialEq, Eq)]
pub struct Regs {
    pub r0: u32,
    pub r1: u32,
    pub r2: u32,
    pub r3: u32,
    pub r4: u32,
    pub r5: u32,
    pub r6: u32,
    pub r7: u32,
    pub r8: u32,
    pub r9: u32,
    pub r10: u32,
    pub r11: u32,
    pub r12: u32,
    pub sp: u32,
    pub lr: u32,
}

/// All of the machine's state but memory.
#[derive(Clone, Copy, Debug, PartialEq, Eq)]
pub struct Cpu {
    pub side: Side,
    pub regs: Regs,
    pub pc: u32,
    /// The flags: N 16, Z 8, C 4, V 2, Q 1.
    pub nzcvq: u8,
    /// The Secure process stack pointer.
    pub psp: u32,
    pub msplim: u32,
    pub psplim: u32,
    pub msp_ns: u32,
    pub psp_ns: u32,
}

impl Regs {
    /// Register n, 13 being SP and 14 LR.
    pub fn get(&self, n: u32) -> u32
        requires { n < 15 }
        ensures { result ≡ get_of self.now n }
    {
        match n {
            0 => self.r0,
            1 => self.r1,
            2 => self.r2,
            3 => self.r3,
            4 => self.r4,
            5 => self.r5,
            6 => self.r6,
            7 => self.r7,
            8 => self.r8,
            9 => self.r9,
            10 => self.r10,
            11 => self.r11,
            12 => self.r12,
            13 => self.sp,
            _ => self.lr,
        }
    }

    /// Writes register n, 13 being SP and 14 LR.
    pub fn set(&mut self, n: u32, v: u32)
        requires { n < 15 }
        ensures { self.new ≡ set_of self.old n v }
    {
        match n {
            0 => self.r0 = v,
            1 => self.r1 = v,
            2 => self.r2 = v,
            3 => self.r3 = v,
            4 => self.r4 = v,
            5 => self.r5 = v,
            6 => self.r6 = v,
            7 => self.r7 = v,
            8 => self.r8 = v,
            9 => self.r9 = v,
            10 => self.r10 = v,
            11 => self.r11 = v,
            12 => self.r12 = v,
            13 => self.sp = v,
            _ => self.lr = v,
        }
    }
}
