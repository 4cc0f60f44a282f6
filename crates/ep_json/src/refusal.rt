//! Why there is no value.
use json::Invalid;
use std::alloc::{AllocError, AllocFailed};

/// Why there is no value.
#[derive(Clone, Copy, Drop)]
pub(crate) enum Refusal {
    /// The tokens are no JSON.
    NoJson,
    /// There is no memory for it.
    Memory,
}

impl From<Invalid> for Refusal {
    ghost use Rattle.std.specs.Prelude.{◌≡◌};
    ghost use Rattle.ep_json.specs.declared.refusal.Refusal.TheVariants.{NoJson};

    ghost from_gives = { λ _ refusal. refusal ≡ NoJson };

    fn from(_invalid: Invalid) -> Refusal {
        Refusal::NoJson
    }
}

impl From<AllocError> for Refusal {
    ghost use Rattle.std.specs.Prelude.{◌≡◌};
    ghost use Rattle.ep_json.specs.declared.refusal.Refusal.TheVariants.{Memory};

    ghost from_gives = { λ _ refusal. refusal ≡ Memory };

    fn from(_refused: AllocError) -> Refusal {
        Refusal::Memory
    }
}

impl<T: Drop> From<AllocFailed<T>> for Refusal {
    ghost use Rattle.std.specs.Prelude.{◌≡◌};
    ghost use Rattle.ep_json.specs.declared.refusal.Refusal.TheVariants.{Memory};

    ghost from_gives = { λ _ refusal. refusal ≡ Memory };

    fn from(_refused: AllocFailed<T>) -> Refusal {
        Refusal::Memory
    }
}
