//! Why a line is no item, and its text.

ghost use Rattle.std.specs.Prelude.{◌≡◌, ◌⊎◌, ◌+◌, ◌<◌, IfNone, IfSome, Some};
ghost use Rattle.ciborium_ll.specs.declared.kind.Kind.TheVariants.{DuplicateKey, TooLarge};
ghost use Rattle.ciborium_ll.specs.Bytes.{greatest_offset};
ghost use Rattle.cbor.specs.Answer.{refusal_behind, refusal_offset, refusal_word, refused_text};
ghost use Rattle.cbor.specs.Answer.{wants_memory};
ghost use Rattle.cbor.specs.Forms.{formless_text};
ghost use Rattle.cbor.specs.Line.{kind_text};
ghost use Rattle.cbor.specs.declared.answer.LineRefusal.TheVariants.{Memory};

use ciborium_value::Kind;
use std::alloc::AllocError;
use std::fmt;

/// Why a line is no item.
#[derive(Clone, Copy)]
pub enum LineRefusal {
    /// The line is not an even number of hex digits.
    Hex,
    /// This many bytes follow the item at the front.
    Trailing(usize),
    /// The bytes end inside an item.
    Io,
    /// What stands at this offset is not well-formed.
    Syntax(usize),
    /// The item at this offset has no meaning, for this reason.
    Semantic(usize, Kind),
    /// An array, a map or a tag nests deeper than the limit.
    Nesting,
    /// The item would pass the greatest offset.
    TooLong,
    /// An allocation failed, and the line may be an item.
    Memory,
}

impl LineRefusal {
    /// Whether an allocation failed.
    pub fn is_memory(&self) -> bool
        ensures { result ≡ wants_memory self.now }
    {
        matches!(self, LineRefusal::Memory)
    }

    /// This refusal of an item behind `skipped` bytes, with its offset counted from the first of
    /// them. There is none where that would pass `usize::MAX`.
    pub fn behind(self, skipped: usize) -> Option<LineRefusal>
        ensures moved { IfSome result (λ refusal. refusal ≡ refusal_behind skipped self) }
        ensures none { IfNone result (greatest_offset < skipped + refusal_offset self) }
    {
        match self {
            LineRefusal::Syntax(at) => Some(LineRefusal::Syntax(skipped.checked_add(at)?)),
            LineRefusal::Semantic(at, kind) => {
                Some(LineRefusal::Semantic(skipped.checked_add(at)?, kind))
            }
            other => Some(other),
        }
    }

    // What it prints first, and alone where it has no number.
    fn word(&self) -> &'static str
        ensures { result.now ≡ refusal_word self.now }
    {
        match self {
            LineRefusal::Hex => "hex",
            LineRefusal::Trailing(_) => "trailing",
            LineRefusal::Io => "io",
            LineRefusal::Syntax(_) => "syntax",
            LineRefusal::Semantic(_, _) => "semantic",
            LineRefusal::Nesting => "nesting",
            LineRefusal::TooLong => "toolong",
            LineRefusal::Memory => "memory",
        }
    }
}

// Why an item has no meaning, in a word. No other kind comes of reading a value.
fn kind_word(kind: Kind) -> &'static str
    ensures { result.now ≡ kind_text kind }
{
    match kind {
        Kind::Float => "float",
        Kind::Simple => "simple",
        Kind::Break => "break",
        Kind::TooLarge => "toolarge",
        Kind::NotShortest => "notshortest",
        Kind::Open => "open",
        Kind::NotFolded => "notfolded",
        Kind::KeyOrder => "keyorder",
        _ => "other",
    }
}

impl From<AllocError> for LineRefusal {
    ghost from_gives = { λ _ refusal. refusal ≡ Memory };

    fn from(_: AllocError) -> LineRefusal {
        LineRefusal::Memory
    }
}

impl fmt::Display for LineRefusal {
    ghost output = { λ refusal. Some (refused_text refusal) };

    fn fmt<W: fmt::Write>(&self, f: &mut fmt::Formatter<W>) -> fmt::Result {
        match self {
            LineRefusal::Trailing(count) => write!(f, "trailing {count}"),
            LineRefusal::Syntax(offset) => write!(f, "syntax {offset}"),
            LineRefusal::Semantic(offset, kind) => {
                write!(f, "semantic {offset} {}", kind_word(*kind))
            }
            _ => f.write_str(self.word()),
        }
    }
}

/// Why a value has no deterministic form, in a word.
pub fn name_want(kind: Kind) -> &'static [u8]
    requires { (kind ≡ DuplicateKey) ⊎ (kind ≡ TooLarge) }
    ensures { result.now ≡ formless_text kind }
{
    match kind {
        Kind::DuplicateKey => b"duplicate",
        Kind::TooLarge => b"toolarge",
        _ => unreachable!(),
    }
}
