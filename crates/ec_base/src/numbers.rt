// The numbers of faults and limits, by which they are ordered.
ghost use Rattle.std.specs.Prelude.{◌≡◌};
ghost use Rattle.ec_base.specs.Numbers as numbers;

use crate::fault::{FaultKind, LimitKind};

impl FaultKind {
    /// The number, as 7 of `F7`.
    pub fn number(self) -> u32
        ensures { result ≡ numbers.fault_number self }
    {
        match self {
            FaultKind::F1 => 1,
            FaultKind::F2 => 2,
            FaultKind::F3 => 3,
            FaultKind::F4 => 4,
            FaultKind::F5 => 5,
            FaultKind::F6 => 6,
            FaultKind::F7 => 7,
            FaultKind::F8 => 8,
            FaultKind::F9 => 9,
            FaultKind::F10 => 10,
            FaultKind::F11 => 11,
            FaultKind::F12 => 12,
            FaultKind::F13 => 13,
            FaultKind::F14 => 14,
            FaultKind::F15 => 15,
            FaultKind::F16 => 16,
            FaultKind::F17 => 17,
            FaultKind::F18 => 18,
            FaultKind::F19 => 19,
            FaultKind::F20 => 20,
            FaultKind::F21 => 21,
            FaultKind::F22 => 22,
            FaultKind::F23 => 23,
            FaultKind::F24 => 24,
            FaultKind::F25 => 25,
            FaultKind::F26 => 26,
            FaultKind::F27 => 27,
            FaultKind::F28 => 28,
            FaultKind::F29 => 29,
            FaultKind::F30 => 30,
            FaultKind::F31 => 31,
            FaultKind::F32 => 32,
        }
    }
}

impl LimitKind {
    /// The number, as 6 of `L6`.
    pub fn number(self) -> u32
        ensures { result ≡ numbers.limit_number self }
    {
        match self {
            LimitKind::L1 => 1,
            LimitKind::L2 => 2,
            LimitKind::L3 => 3,
            LimitKind::L4 => 4,
            LimitKind::L5 => 5,
            LimitKind::L6 => 6,
            LimitKind::L7 => 7,
            LimitKind::L8 => 8,
            LimitKind::L9 => 9,
            LimitKind::L10 => 10,
            LimitKind::L11 => 11,
        }
    }
}
