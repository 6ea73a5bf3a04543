//! Why a core and its log were not passed.

ghost use Rattle.std.specs.Prelude.{◌≡◌};
ghost use Rattle.leak_streams.specs.declared.fault.ReadFault.TheVariants.{NoMemory as ForWantOfMemory};
ghost use Rattle.leak_passing.specs.declared.fault.RestFault.TheVariants.{Read};

use leak_streams::ReadFault;
use std::alloc::AllocError;
use thiserror::Error;

/// Why a core and its log were not passed.
#[derive(Clone, Copy, Debug, PartialEq, Eq, Error)]
pub enum PassingFault {
    /// The core was not read to its end, or there was no memory for what is kept of it. The log was read whole, or not
    /// at all.
    #[error("core: {0}")]
    Core(ReadFault),
    /// The log was not read to its end. The core was read whole, or some of it.
    #[error("log: {0}")]
    Log(ReadFault),
    /// Both were read to their ends, and there was no memory for what is kept of the core.
    #[error("out of memory")]
    NoMemory,
}

/// Why nothing is kept of a core that was begun.
#[derive(Clone, Copy)]
pub(crate) enum RestFault {
    /// It was not read to its end, or there was no memory for what is kept of it.
    Read(ReadFault),
    /// It was read to its end, and there was no memory for what is kept of it.
    Short,
}

impl From<AllocError> for RestFault {
    ghost from_gives = { λ _ e. e ≡ Read ForWantOfMemory };

    fn from(_e: AllocError) -> RestFault {
        RestFault::Read(ReadFault::NoMemory)
    }
}

impl From<ReadFault> for RestFault {
    ghost from_gives = { λ f e. e ≡ Read f };

    fn from(fault: ReadFault) -> RestFault {
        RestFault::Read(fault)
    }
}
