//! What ends a run early.

ghost use Rattle.std.specs.Prelude.{◌≡◌};
ghost use Rattle.cbor.specs.declared.fault.Fault.TheVariants.{Memory};
ghost use Rattle.cbor.specs.Topics.{fault_text};

use std::alloc::AllocError;

/// What ends a run early.
#[derive(Clone, Copy)]
pub enum Fault {
    /// The input could not be read.
    Input,
    /// A file could not be opened.
    Unopened,
    /// An answer could not be written.
    Output,
    /// An allocation for a line, for the list to sort or for the dump of bytes failed.
    Memory,
}

impl From<AllocError> for Fault {
    ghost from_gives = { λ _ fault. fault ≡ Memory };

    fn from(_: AllocError) -> Fault {
        Fault::Memory
    }
}

impl Fault {
    /// The line that names it.
    pub fn message(self) -> &'static str
        ensures { result.now ≡ fault_text self }
    {
        match self {
            Fault::Input => "input failed\n",
            Fault::Unopened => "cannot be opened\n",
            Fault::Output => "output failed\n",
            Fault::Memory => "memory\n",
        }
    }
}
