//! Sets of event bits, as epoll_ctl(2) has them.
ghost use Rattle.std.specs.Prelude.{⊤, [], ◌∷◌, codes};

use bitflags::{Flag, Flags, bitflag_items};

/// A set of event bits and modes. Every bit is kept, the ones without a name too.
#[derive(Clone, Copy, Debug, Default, PartialEq, Eq)]
pub struct Mask(pub u32);

bitflag_items! {
    impl Mask: u32 {
        const IN = 0x001;
        const PRI = 0x002;
        const OUT = 0x004;
        const ERR = 0x008;
        const HUP = 0x010;
        const RDHUP = 0x2000;
        const EXCLUSIVE = 268_435_456;
        const WAKEUP = 536_870_912;
        const ONESHOT = 1_073_741_824;
        const ET = 2_147_483_648;
    }
}

impl Flags for Mask {
    type Bits = u32;

    ghost exact = { ⊤ };

    ghost table = { (codes "IN", 1) ∷ (codes "PRI", 2) ∷ (codes "OUT", 4) ∷ (codes "ERR", 8) ∷
        (codes "HUP", 16) ∷ (codes "RDHUP", 8192) ∷ (codes "EXCLUSIVE", 268435456) ∷
        (codes "WAKEUP", 536870912) ∷ (codes "ONESHOT", 1073741824) ∷ (codes "ET", 2147483648) ∷ [] };

    ghost set_of = { λ mask. mask.0 };

    fn flags<'a>() -> &'a [Flag<Mask>] {
        Mask::FLAGS
    }

    fn bits(&self) -> u32 {
        self.0
    }

    fn from_bits_retain(bits: u32) -> Mask {
        Mask(bits)
    }
}
