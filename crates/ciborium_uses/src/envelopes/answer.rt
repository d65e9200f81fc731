//! What the program prints of an envelope.

use super::labels::read_header;
use super::{
    Envelope, Wrapping, algorithm, header_bytes, read_envelope, read_wrapped, signed_bytes,
    through_memory, to_be_signed, write_again,
};
use ciborium::ser;
use ciborium::value::{ByteBuf, Value};
use std::alloc::Global;
use std::io::{self, Write};

/// Prints what a message in hex says and what its signature signs, or why it is refused: of an
/// `envelope`, or of one that is `wrapped` in any of its tags, and then in which; writes such a one
/// `again`, of what was read; or says what is read of it once it was `kept` in memory. Of a header
/// and a payload in hex it prints what is `to-be-signed`.
pub fn answer<W: Write>(alloc: Global, mode: &str, rest: &str, output: &mut W) -> io::Result<()> {
    if mode == "to-be-signed" {
        let (header, payload) = rest.split_once(' ').unwrap_or((rest, ""));
        return prepare(alloc, header, payload, output);
    }
    let bytes = match hex::decode(alloc, rest) {
        Ok(bytes) => bytes,
        Err(error) => return writeln!(output, "refused: {error}"),
    };
    if mode == "envelope" {
        return match read_envelope(alloc, &bytes) {
            Ok(envelope) => show(alloc, &envelope, output),
            Err(error) => writeln!(output, "refused: {error}"),
        };
    }
    if mode == "again" {
        return match write_again(alloc, &bytes) {
            Ok(bytes) => writeln!(output, "written: {}", hex::encode(alloc, bytes)?),
            Err(error) => writeln!(output, "refused: {error}"),
        };
    }
    let (wrapping, envelope) = match read_wrapped(alloc, &bytes) {
        Ok(read) => read,
        Err(error) => return writeln!(output, "refused: {error}"),
    };
    if mode != "kept" {
        return show_wrapped(alloc, wrapping, &envelope, output);
    }
    match through_memory(alloc, wrapping, &envelope) {
        Ok((wrapping, envelope)) => show_wrapped(alloc, wrapping, &envelope, output),
        Err(error) => writeln!(output, "refused: {error}"),
    }
}

// Prints the bytes of a protected header, and those to be signed of it and a payload.
fn prepare<W: Write>(alloc: Global, header: &str, payload: &str, output: &mut W) -> io::Result<()> {
    let (Ok(header), Ok(payload)) = (hex::decode(alloc, header), hex::decode(alloc, payload)) else {
        return writeln!(output, "refused: not in hex");
    };
    let header = match read_header(alloc, &header) {
        Ok(labels) => labels.map,
        Err(error) => return writeln!(output, "refused: {error}"),
    };
    match prepared(alloc, &header, &ByteBuf(payload)) {
        Ok((protected, bytes)) => {
            writeln!(output, "protected: h'{}'", hex::encode(alloc, protected.0)?)?;
            writeln!(output, "to be signed: {}", hex::encode(alloc, bytes)?)
        }
        Err(error) => writeln!(output, "refused: {error}"),
    }
}

// The bytes of a header, and those to be signed of it and a payload, without more.
fn prepared(
    alloc: Global,
    header: &Value,
    payload: &ByteBuf,
) -> Result<(ByteBuf, Vec<u8>), ser::Error<io::Error>> {
    let protected = header_bytes(alloc, header)?;
    let external = ByteBuf(Vec::new(alloc));
    let bytes = to_be_signed(alloc, &protected, header, &external, payload)?;
    Ok((protected, bytes))
}

// Prints the tags, and what stands under them.
fn show_wrapped<W: Write>(
    alloc: Global,
    wrapping: Wrapping,
    envelope: &Envelope,
    output: &mut W,
) -> io::Result<()> {
    writeln!(output, "tags: {wrapping}")?;
    show(alloc, envelope, output)
}

// Prints the algorithm, the claims, and the signed bytes.
fn show<W: Write>(alloc: Global, envelope: &Envelope, output: &mut W) -> io::Result<()> {
    match algorithm(envelope) {
        Some(algorithm) if *algorithm == Value::from(-7i8) => writeln!(output, "algorithm: ES256")?,
        Some(algorithm) => writeln!(output, "algorithm: {algorithm}")?,
        None => writeln!(output, "algorithm: none")?,
    }
    writeln!(output, "claims: {}", envelope.claims.every)?;
    let external = ByteBuf(Vec::new(alloc));
    match signed_bytes(alloc, envelope, &external) {
        Ok(bytes) => writeln!(output, "signed: {}", hex::encode(alloc, bytes)?),
        Err(error) => writeln!(output, "refused: {error}"),
    }
}
