//! Why reading or writing was refused, as a text.

use ciborium::value::{self, Kind};
use ciborium::{de, ser};
use std::alloc::{AllocError, Global};
use std::io::{self, ErrorKind};

/// Why bytes were refused.
///
/// # Errors
///
/// `AllocError` where an allocation fails for the text.
pub fn describe_read(alloc: Global, error: de::Error<io::Error>) -> Result<String, AllocError> {
    match error {
        de::Error::Io(e) => String::from_str(alloc, name_io(e.kind())),
        de::Error::Syntax(offset) => format!(in alloc; "syntax {offset}"),
        de::Error::Semantic(Some(offset), kind) => {
            format!(in alloc; "semantic {offset} {}", name_kind(kind))
        }
        de::Error::Semantic(None, kind) => format!(in alloc; "semantic - {}", name_kind(kind)),
        de::Error::RecursionLimitExceeded => String::from_str(alloc, "nesting"),
        de::Error::TooLong => String::from_str(alloc, "toolong"),
        de::Error::Memory => String::from_str(alloc, "memory"),
    }
}

/// Why a value was refused.
///
/// # Errors
///
/// `AllocError` where an allocation fails for the text.
pub fn describe_tree(alloc: Global, error: value::Error) -> Result<String, AllocError> {
    match error {
        value::Error::Custom(kind) => format!(in alloc; "custom {}", name_kind(kind)),
        value::Error::Memory => String::from_str(alloc, "memory"),
    }
}

/// Why a value was not written.
///
/// # Errors
///
/// `AllocError` where an allocation fails for the text.
pub fn describe_write(alloc: Global, error: ser::Error<io::Error>) -> Result<String, AllocError> {
    match error {
        ser::Error::Io(e) => String::from_str(alloc, name_io(e.kind())),
        ser::Error::Value(kind) => format!(in alloc; "value {}", name_kind(kind)),
        ser::Error::Memory => String::from_str(alloc, "memory"),
    }
}

/// The name of an error of a device; `io` alone is that of bytes that end.
pub fn name_io(kind: ErrorKind) -> &'static str {
    match kind {
        ErrorKind::UnexpectedEof => "io",
        ErrorKind::Interrupted => "io interrupted",
        ErrorKind::WouldBlock => "io wouldblock",
        ErrorKind::ConnectionReset => "io connectionreset",
        ErrorKind::BrokenPipe => "io brokenpipe",
        ErrorKind::WriteZero => "io writezero",
        _ => "io other",
    }
}

// The name of a kind in lower case.
fn name_kind(kind: Kind) -> &'static str {
    match kind {
        Kind::Float => "float",
        Kind::Simple => "simple",
        Kind::Break => "break",
        Kind::TooLarge => "toolarge",
        Kind::Integer => "integer",
        Kind::Bool => "bool",
        Kind::Unit => "unit",
        Kind::Text => "text",
        Kind::Char => "char",
        Kind::Bytes => "bytes",
        Kind::Array => "array",
        Kind::Map => "map",
        Kind::Name => "name",
        Kind::Variant => "variant",
        Kind::Range => "range",
        Kind::Tag => "tag",
        Kind::Length => "length",
        Kind::Other => "other",
        Kind::NotShortest => "notshortest",
        Kind::Open => "open",
        Kind::NotFolded => "notfolded",
        Kind::KeyOrder => "keyorder",
        Kind::DuplicateKey => "duplicatekey",
        Kind::UnknownField => "unknownfield",
        Kind::TrailingData => "trailingdata",
        Kind::NotDeterministic => "notdeterministic",
    }
}
