//! A caller that frames items, one behind the other, as they come over a connection.
ghost use Rattle.std.specs.Prelude.{◌≡◌, ◌++◌, ◌<◌, IfErr, IfNone, IfOk, IfSome, List, length, ℕ};
ghost use Rattle.ciborium.specs.ItemLengths.{IsNoItem};
ghost use Rattle.ciborium.specs.Levels.{AreItem};

use ciborium::ll::{NoItem, item_len};

/// The first item of what was received, and what follows it, or `None` where the item is not all
/// there.
///
/// # Errors
///
/// Those of `NoItem` but `Incomplete`: no item stands at the front, whatever is received, or it
/// nests deeper than 256 levels.
pub fn split_item(received: &[u8]) -> Result<Option<(&[u8], &[u8])>, NoItem>
    ensures whole { IfOk result (λ o. IfSome o (λ parts. AreItem parts.0.now ×
        (received.now ≡ parts.0.now ++ parts.1.now))) }
    ensures more { IfOk result (λ o. IfNone o
        ((t : List ℕ) × (0 < length t) × AreItem (received.now ++ t))) }
    ensures refused { IfErr result (λ e. IsNoItem received.now e) }
{
    match item_len(received) {
        Ok(length) => Ok(Some((&received[..length], &received[length..]))),
        Err(NoItem::Incomplete) => Ok(None),
        Err(refusal) => Err(refusal),
    }
}
