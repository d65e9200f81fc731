//! The four parts of a signed message.

ghost use Rattle.std.specs.Prelude.{◌≡◌, IfNone, IfSome, List, ℕ};
ghost use Rattle.ciborium.specs.Tree.{Tree};
ghost use Rattle.ciborium.specs.View.{tree_of};
ghost use Rattle.ciborium_uses.specs.Envelopes.{message_tree};

use ciborium::Value;

/// The parts of a signed message (RFC 9052, section 4.2).
#[derive(Debug, Drop)]
pub struct Message {
    pub protected: Vec<u8>,
    pub unprotected: Value,
    pub payload: Vec<u8>,
    pub signature: Vec<u8>,
}

/// The parts of a message, if the value is one: an array of just four.
pub fn split(message: Value) -> Option<Message>
    ensures some { IfSome result (λ m. tree_of message ≡ message_tree m.protected.items
        (tree_of m.unprotected) m.payload.items m.signature.items) }
    ensures none { IfNone result ((p : List ℕ) (u : Tree) (c s : List ℕ) →
        ¬ (tree_of message ≡ message_tree p u c s)) }
{
    let mut parts = message.into_array().ok()?.into_iter();
    let protected = parts.next()?.into_bytes().ok()?;
    let unprotected = parts.next()?;
    let payload = parts.next()?.into_bytes().ok()?;
    let signature = parts.next()?.into_bytes().ok()?;
    match parts.next() {
        Some(_) => None,
        None => Some(Message {
            protected,
            unprotected,
            payload,
            signature,
        }),
    }
}
