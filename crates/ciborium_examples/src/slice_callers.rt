//! Callers that have all of their bytes in memory, each with a contract of its own.
ghost use Rattle.std.specs.Prelude.{◌≡◌, ◌++◌, IfErr, IfOk, IfSome, IsFalse, IsTrue, List, Some, ℕ};
ghost use Rattle.std.specs.Prelude.{string_bytes};
ghost use Rattle.ciborium.specs.Item as item;
ghost use Rattle.ciborium.specs.Item.{Item};
ghost use Rattle.ciborium.specs.ItemSequences.{IsSequence};
ghost use Rattle.ciborium.specs.Meaning.{meaning};
ghost use Rattle.ciborium.specs.SliceAnswers.{GivesAll, IsAllTaken};
ghost use Rattle.ciborium.specs.View.{result_map, tree_of};
ghost use Rattle.ciborium.specs.Spelling.{IsReadAs, any};
ghost use Rattle.ciborium.specs.Spells.{Spells};
ghost use Rattle.ciborium.specs.Given.{gives, outcome};
ghost use Rattle.ciborium.specs.Tree.{Tree};
ghost use Rattle.ciborium.specs.declared.de.error.Error.TheVariants.{Memory};

use crate::own_types::Message;
use ciborium::de::{self, Deserialize};
use ciborium::{Value, from_buf_reader, from_buf_reader_next, from_slice};
use std::alloc::{AllocError, Global};
use std::io;

/// Loads a value that all of the bytes are. Bytes that are one good item within 256 levels are
/// never refused but for want of memory.
pub fn load_value(alloc: Global, bytes: &[u8]) -> Result<Value, de::Error<io::Error>>
    ensures ok { IfOk result (λ v. IsReadAs any bytes.now 0 (Some 256) (tree_of v)) }
    ensures refused { IfErr result
        (λ e. (t : Tree) → IsReadAs any bytes.now 0 (Some 256) t → e ≡ Memory) }
{
    from_slice(alloc, bytes)
}

/// Whether all of the bytes are one good item within 256 levels.
pub fn is_item(alloc: Global, bytes: &[u8]) -> Result<bool, AllocError>
    ensures yes { IfOk result
        (λ yes. IsTrue yes → (t : Tree) × IsReadAs any bytes.now 0 (Some 256) t) }
    ensures no { IfOk result
        (λ yes. IsFalse yes → (t : Tree) → ¬ IsReadAs any bytes.now 0 (Some 256) t) }
{
    let Err(error) = load_value(alloc, bytes) else {
        return Ok(true);
    };
    match error {
        de::Error::Memory => Err(AllocError),
        _ => Ok(false),
    }
}

/// Loads a pair that all of the bytes are: they spell an item that gives just the number and the
/// text.
pub fn load_pair(alloc: Global, bytes: &[u8]) -> Result<(u8, String), de::Error<io::Error>>
    ensures { IfOk result (λ pair. (i : Item) × Spells bytes.now i ×
        (outcome (Some 256) (⟦<(u8, String) as Deserialize>⟧.reading.taken i)
        ≡ gives (pair.0, string_bytes pair.1))) }
{
    from_slice(alloc, bytes)
}

/// Loads a message that all of the bytes are, by the names of its fields. Bytes that give a message
/// are never refused but for want of memory.
pub fn load_message(alloc: Global, bytes: &[u8]) -> Result<Message, de::Error<io::Error>>
    ensures ok { IsAllTaken 256 ⟦<Message as Deserialize>⟧.reading.taken bytes.now
        (result_map (λ m. (m.version, (string_bytes m.body, tt))) result) }
    ensures exact { GivesAll 256 ⟦<Message as Deserialize>⟧.reading.taken bytes.now
        (result_map (λ m. (m.version, (string_bytes m.body, tt))) result) }
{
    from_slice(alloc, bytes)
}

/// The value at the front of the bytes, and what follows it.
pub fn split_value(alloc: Global, bytes: &[u8]) -> Option<(Value, &[u8])>
    ensures { IfSome result (λ parts. (s : List ℕ) × (bytes.now ≡ s ++ parts.1.now) ×
        IsReadAs any s 0 (Some 256) (tree_of parts.0)) }
{
    let mut rest = bytes;
    let value = from_buf_reader(alloc, &mut rest).ok()?;
    Some((value, rest))
}

/// The two values that all of the bytes are, one after the other (RFC 8742, section 2).
pub fn both_values(alloc: Global, bytes: &[u8]) -> Option<(Value, Value)>
    ensures { IfSome result (λ pair. (i : Item) × (j : Item) ×
        IsSequence bytes.now (item.item i (item.item j item.no_items)) ×
        (meaning i ≡ Some (tree_of pair.0)) × (meaning j ≡ Some (tree_of pair.1))) }
{
    let mut rest = bytes;
    let Ok(Some(first)) = from_buf_reader_next::<Value, _>(alloc, &mut rest) else {
        return None;
    };
    let Ok(Some(second)) = from_buf_reader_next::<Value, _>(alloc, &mut rest) else {
        return None;
    };
    let Ok(None) = from_buf_reader_next::<Value, _>(alloc, &mut rest) else {
        return None;
    };
    Some((first, second))
}
