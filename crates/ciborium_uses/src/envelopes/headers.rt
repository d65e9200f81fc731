//! What holds of the two headers of a message together, and of the labels that are critical.

ghost use Rattle.std.specs.Prelude.{◌≡◌, IfErr, IfOk, Some, is_none, is_ok};
ghost use Rattle.ciborium.specs.ValueLists.{trees_of};
ghost use Rattle.ciborium.specs.View.{tree_of};
ghost use Rattle.ciborium_uses.specs.Envelopes.{AreHeaders, are_apart, are_critical, entries_of};
ghost use Rattle.ciborium_uses.specs.Envelopes.{entry_trees, is_crit, is_understood, value_at};

use super::error::EnvelopeError;
use super::labels::{Labels, has_label, value_of};
use ciborium::value::Value;

// The label of the parameter `crit` (RFC 9052, section 3.1).
const CRIT: u8 = 2;

/// Tests the headers: no label stands in both, and the critical ones, which only the protected
/// header may name, stand there and are understood.
///
/// # Errors
///
/// `CriticalUnprotected` where the unprotected header names critical labels, `Both` where a label
/// stands in both headers, `CriticalShape` where the critical labels are no array of at least one,
/// `CriticalMissing` where one of them is not there, `Critical` where one is not understood, and
/// `Memory` in place of an error that names a label.
pub fn check_headers(header: &Labels, unprotected: &Labels) -> Result<(), EnvelopeError>
    requires header { entry_trees header.now.by_label ≡ entries_of (tree_of header.now.map) }
    requires unprotected { entry_trees unprotected.now.by_label
        ≡ entries_of (tree_of unprotected.now.map) }
    ensures ok { IfOk result
        (λ u. AreHeaders (tree_of header.now.map) (tree_of unprotected.now.map)) }
    ensures refused { IfErr result
        (λ e. ¬ AreHeaders (tree_of header.now.map) (tree_of unprotected.now.map)) }
{
    if value_of(&unprotected.map, CRIT).is_some() {
        return Err(EnvelopeError::CriticalUnprotected);
    }
    if let Some(label) = shared_label(header, unprotected) {
        return Err(refusal_of(label, Reason::Both));
    }
    check_crit(header)
}

// A label that stands in both headers.
fn shared_label<'a>(header: &'a Labels, unprotected: &Labels) -> Option<&'a Value>
    ensures { is_none result
        ≡ are_apart (entry_trees header.now.by_label) (entry_trees unprotected.now.by_label) }
{
    for (label, _) in &header.by_label {
        if has_label(unprotected, label) {
            return Some(label);
        }
    }
    None
}

// Tests the critical labels, if the protected header names some.
fn check_crit(header: &Labels) -> Result<(), EnvelopeError>
    ensures { is_ok result
        ≡ is_crit (entry_trees header.now.by_label) (value_at 2 (tree_of header.now.map)) }
{
    match value_of(&header.map, CRIT) {
        Some(crit) => check_named(header, crit),
        None => Ok(()),
    }
}

// Tests what names the critical labels.
fn check_named(header: &Labels, crit: &Value) -> Result<(), EnvelopeError>
    ensures { is_ok result ≡ is_crit (entry_trees header.now.by_label) (Some (tree_of crit.now)) }
{
    let Some(labels) = crit.as_array() else {
        return Err(EnvelopeError::CriticalShape);
    };
    if labels.is_empty() {
        return Err(EnvelopeError::CriticalShape);
    }
    check_labels(header, labels)
}

// Tests these critical labels.
fn check_labels(header: &Labels, labels: &[Value]) -> Result<(), EnvelopeError>
    ensures { is_ok result ≡ are_critical (entry_trees header.now.by_label) (trees_of labels.now) }
{
    for label in labels {
        if !has_label(header, label) {
            return Err(refusal_of(label, Reason::Missing));
        }
        if !is_understood(label) {
            return Err(refusal_of(label, Reason::Unknown));
        }
    }
    Ok(())
}

// Whether a label is that of a common parameter.
fn is_understood(label: &Value) -> bool
    ensures { result ≡ is_understood (tree_of label.now) }
{
    match label {
        Value::Integer(number) => {
            let number = i128::from(*number);
            1 <= number && number <= 7
        }
        _ => false,
    }
}

// What is wrong with a label.
#[derive(Clone, Copy)]
enum Reason {
    Both,
    Missing,
    Unknown,
}

// The refusal that names a label.
fn refusal_of(label: &Value, reason: Reason) -> EnvelopeError {
    let Ok(label) = label.clone() else {
        return EnvelopeError::Memory;
    };
    match reason {
        Reason::Both => EnvelopeError::Both(label),
        Reason::Missing => EnvelopeError::CriticalMissing(label),
        Reason::Unknown => EnvelopeError::Critical(label),
    }
}
