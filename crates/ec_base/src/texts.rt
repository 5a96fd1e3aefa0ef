ghost use Rattle.std.specs.Prelude.{◌≡◌};
ghost use Rattle.ec_base.specs.Texts.{fault_text, limit_text, trap_text};

use crate::fault::{FaultKind, LimitKind};
use crate::stop::Trap;

impl FaultKind {
    /// The number and the name, as `F7 syntax`.
    pub fn text(self) -> &'static str
        ensures { result.now ≡ fault_text self }
    {
        match self {
            FaultKind::F1 => "F1 unclosed comment",
            FaultKind::F2 => "F2 unclosed quote",
            FaultKind::F3 => "F3 unclosed statement",
            FaultKind::F4 => "F4 bad byte",
            FaultKind::F5 => "F5 bad number",
            FaultKind::F6 => "F6 bad escape",
            FaultKind::F7 => "F7 syntax",
            FaultKind::F8 => "F8 statement form",
            FaultKind::F9 => "F9 left-out form",
            FaultKind::F10 => "F10 redeclared",
            FaultKind::F11 => "F11 undeclared",
            FaultKind::F12 => "F12 reserved name",
            FaultKind::F13 => "F13 VARCHAR length",
            FaultKind::F14 => "F14 types",
            FaultKind::F15 => "F15 no place",
            FaultKind::F16 => "F16 call",
            FaultKind::F17 => "F17 format",
            FaultKind::F18 => "F18 jump",
            FaultKind::F19 => "F19 constant",
            FaultKind::F20 => "F20 no main",
            FaultKind::F21 => "F21 no host",
            FaultKind::F22 => "F22 host type",
            FaultKind::F23 => "F23 indicator",
            FaultKind::F24 => "F24 array input",
            FaultKind::F25 => "F25 struct shapes",
            FaultKind::F26 => "F26 unknown cursor",
            FaultKind::F27 => "F27 cursor twice",
            FaultKind::F28 => "F28 cursor host",
            FaultKind::F29 => "F29 directive place",
            FaultKind::F30 => "F30 handler",
            FaultKind::F31 => "F31 unknown part",
            FaultKind::F32 => "F32 unbalanced condition",
        }
    }
}

impl LimitKind {
    /// The number, as `L6`.
    pub fn text(self) -> &'static str
        ensures { result.now ≡ limit_text self }
    {
        match self {
            LimitKind::L1 => "L1",
            LimitKind::L2 => "L2",
            LimitKind::L3 => "L3",
            LimitKind::L4 => "L4",
            LimitKind::L5 => "L5",
            LimitKind::L6 => "L6",
            LimitKind::L7 => "L7",
            LimitKind::L8 => "L8",
            LimitKind::L9 => "L9",
            LimitKind::L10 => "L10",
            LimitKind::L11 => "L11",
        }
    }
}

impl Trap {
    /// The name, as `Outside`.
    pub fn text(self) -> &'static str
        ensures { result.now ≡ trap_text self }
    {
        match self {
            Trap::Outside => "Outside",
            Trap::Dead => "Dead",
            Trap::Null => "Null",
            Trap::Unset => "Unset",
            Trap::Overflow => "Overflow",
            Trap::Shift => "Shift",
            Trap::Zero => "Zero",
            Trap::NoValue => "NoValue",
            Trap::BadLen => "BadLen",
            Trap::Spent => "Spent",
        }
    }
}
