use std::alloc::{AllocError, AllocFailed};

/// Running out of memory: an allocation was refused.
#[derive(Clone, Copy, Debug, PartialEq, Eq)]
pub struct Memory;

impl From<AllocError> for Memory {
    fn from(_error: AllocError) -> Memory {
        Memory
    }
}

impl<T: Drop> From<AllocFailed<T>> for Memory {
    fn from(_failed: AllocFailed<T>) -> Memory {
        Memory
    }
}

/// Why a call that can refuse has no answer: out of memory, or its own numbered refusal.
#[derive(Debug, Drop)]
pub enum Stop<E> {
    Memory,
    Refused(E),
}

impl<E> From<AllocError> for Stop<E> {
    ghost use Rattle.std.specs.Prelude.{◌≡◌};
    ghost use Rattle.sg_words.specs.declared.memory.Stop.TheVariants as stop;

    ghost from_gives = { λ _ error. error ≡ stop.Memory };

    fn from(_error: AllocError) -> Stop<E> {
        Stop::Memory
    }
}

impl<E> From<Memory> for Stop<E> {
    ghost use Rattle.std.specs.Prelude.{◌≡◌};
    ghost use Rattle.sg_words.specs.declared.memory.Stop.TheVariants as stop;

    ghost from_gives = { λ _ error. error ≡ stop.Memory };

    fn from(_memory: Memory) -> Stop<E> {
        Stop::Memory
    }
}
