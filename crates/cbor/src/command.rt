//! What the program is asked to do.

ghost use Rattle.std.specs.Prelude.{◌≡◌};
ghost use Rattle.cbor.specs.Ends.{tells_devices};
ghost use Rattle.cbor.specs.Words.{takes_files};

use crate::reading::{Reading, Showing};
use ciborium_value::KeyOrder;

/// What the program is asked to do.
#[derive(Clone, Copy)]
pub enum Command {
    /// To answer each line of the input, which is read in this way.
    Answer(Reading),
    /// To sort the lines of the input in this order.
    Sort(KeyOrder),
    /// To show each item of the input, which is a sequence as bytes (RFC 8742), in this way and
    /// within this many levels.
    Show(Showing, usize),
    /// To show each item of the input, which is a sequence as bytes (RFC 8742), by the notation of
    /// its very heads.
    ShowExactly,
    /// To dump the input, which is one item as bytes.
    Dump,
    /// To write the encodings of the values that the lines of the input denote, within this many
    /// levels, as bytes (RFC 8742).
    Encode(usize),
    /// To print something about the program itself.
    Tell(Topic),
}

impl Command {
    /// Whether files may be named behind its words.
    pub fn takes_files(self) -> bool
        ensures { result ≡ takes_files self }
    {
        match self {
            Command::Show(..) | Command::Dump => true,
            Command::ShowExactly => true,
            Command::Answer(_) | Command::Sort(_) | Command::Tell(_) => false,
            Command::Encode(_) => false,
        }
    }

    /// Whether a fault of a device has a status of its own. `read`, `sort` and `seq` over lines
    /// give it the status of what is refused.
    pub fn tells_devices(self) -> bool
        ensures { result ≡ tells_devices self }
    {
        match self {
            Command::Answer(Reading::Item(..) | Reading::Sequence) => false,
            Command::Sort(_) | Command::Tell(_) => false,
            Command::Answer(_) | Command::Show(..) | Command::Dump => true,
            Command::ShowExactly | Command::Encode(_) => true,
        }
    }
}

/// What the program prints about itself.
#[derive(Clone, Copy)]
pub enum Topic {
    /// The commands, with an example each.
    Help,
    /// The version.
    Version,
}
