//! How values are shown.

ghost use Rattle.std.specs.Prelude.{◌≡◌, ◌⊎◌, ◌++◌, IfErr, IfOk, OnOk};
ghost use Rattle.ciborium_value.specs.Given.{gives, refuses};
ghost use Rattle.ciborium_value.specs.View.{tree_of};
ghost use Rattle.ciborium_ll.specs.declared.kind.Kind.TheVariants.{DuplicateKey, TooLarge};
ghost use Rattle.cbor.specs.Shown.{notation_text, shown_spelling, shown_text};
ghost use Rattle.cbor.specs.Shown.{shown_tree};

use crate::items::push_encoding;
use crate::reading::{Layout, Showing, Spelling};
use ciborium_value::{Kind, Value};
use std::alloc::AllocError;
use std::io::Write;

/// Which spellings an item may have that is shown so.
pub fn shown_spelling(showing: Showing) -> Spelling
    ensures { result ≡ shown_spelling showing }
{
    match showing {
        Showing::Encoding(spelling) => spelling,
        Showing::Notation(_) | Showing::Form(_) => Spelling::Any,
    }
}

/// Makes a value the one by which it is shown: its deterministic form, where that is wanted, and
/// else itself.
///
/// # Errors
///
/// `DuplicateKey` or `TooLarge`, where it has no such form.
pub fn make_shown(value: &mut Value, showing: Showing) -> Result<(), Kind>
    ensures form { IfOk result (λ _.
        shown_tree showing (tree_of value.old) ≡ gives (tree_of value.new)) }
    ensures formless { IfErr result (λ kind.
        shown_tree showing (tree_of value.old) ≡ refuses kind) }
    ensures kinds { IfErr result (λ kind. (kind ≡ DuplicateKey) ⊎ (kind ≡ TooLarge)) }
{
    match showing {
        Showing::Encoding(_) | Showing::Notation(_) => Ok(()),
        Showing::Form(order) => value.make_deterministic(order),
    }
}

/// Appends a value to a text in the way in which it is shown. `buffer` is for its encoding,
/// to be used again.
///
/// # Errors
///
/// `AllocError` where an allocation fails.
pub fn push_shown(
    value: &Value,
    showing: Showing,
    buffer: &mut Vec<u8>,
    text: &mut Vec<u8>,
) -> Result<(), AllocError>
    ensures { OnOk result
        (text.new.items ≡ text.old.items ++ shown_text showing (tree_of value.now)) }
{
    match showing {
        Showing::Encoding(_) | Showing::Form(_) => push_encoding(value, buffer, text),
        Showing::Notation(layout) => push_notation(value, layout, text),
    }
}

/// Appends the diagnostic notation of a value to a text (RFC 8949, section 8).
///
/// # Errors
///
/// `AllocError` where an allocation fails.
pub fn push_notation(value: &Value, layout: Layout, text: &mut Vec<u8>) -> Result<(), AllocError>
    ensures { OnOk result
        (text.new.items ≡ text.old.items ++ notation_text layout (tree_of value.now)) }
{
    let written = match layout {
        Layout::OneLine => write!(text, "{value}"),
        Layout::Indented => write!(text, "{value:#}"),
    };
    if written.is_err() {
        return Err(AllocError);
    }
    Ok(())
}
