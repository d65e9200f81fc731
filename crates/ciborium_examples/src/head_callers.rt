//! Callers of the lowest layer, each with a decoder or an encoder of its own, and a contract.
ghost use Rattle.std.specs.Prelude.{[], ◌∷◌, List, OnOk, ℕ};
ghost use Rattle.std.specs.Io.KnownBytes.{Appends, Consumes};
ghost use Rattle.ciborium.specs.ReaderSteps.{IsHeadTaken};

use ciborium::ll::{Access, Buffered, Decoder, Encoder, Error, Header, Plain};
use std::io::{self, BufRead, Read, Write};

/// The first head, whose bytes are taken as `A` says. A local decoder leaves to its caller what it
/// did not read.
///
/// # Errors
///
/// Those of `pull`.
pub fn first_head_by<R, A: Access<R>>(reader: &mut R) -> Result<Header, Error<io::Error>>
    ensures { (b : List ℕ) ×
        Consumes (A.remaining reader.old) (A.remaining reader.new) b × IsHeadTaken b 0 result }
{
    let mut decoder = Decoder::<R, A>::begin(reader, 0);
    decoder.pull()
}

/// The first head of any reader.
///
/// # Errors
///
/// Those of `pull`.
pub fn first_head<R: Read>(reader: &mut R) -> Result<Header, Error<io::Error>>
    ensures { (b : List ℕ) ×
        Consumes (R.remaining reader.old) (R.remaining reader.new) b × IsHeadTaken b 0 result }
{
    first_head_by::<R, Plain>(reader)
}

/// The first head of a reader with a buffer, in which it is read.
///
/// # Errors
///
/// Those of `pull`.
pub fn first_held_head<R: BufRead>(reader: &mut R) -> Result<Header, Error<io::Error>>
    ensures { (b : List ℕ) ×
        Consumes (R.remaining reader.old) (R.remaining reader.new) b × IsHeadTaken b 0 result }
{
    first_head_by::<R, Buffered>(reader)
}

/// Writes the text "a" in an open array, by an encoder of its own: the contract says what its
/// writer then holds.
///
/// # Errors
///
/// That of the writer.
#[tactic(auto, unfolding(ciborium_ll::specs::Head::shortest_head))]
pub fn write_array<W: Write>(writer: &mut W) -> io::Result<()>
    ensures { OnOk result
        (Appends (W.contents writer.old) (W.contents writer.new) (0x9f ∷ 0x61 ∷ 0x61 ∷ 0xff ∷ [])) }
{
    let mut encoder = Encoder::new(writer);
    encoder.push(Header::Array(None))?;
    encoder.push(Header::Text(Some(1)))?;
    encoder.write_all(b"a")?;
    encoder.push(Header::Break)
}
