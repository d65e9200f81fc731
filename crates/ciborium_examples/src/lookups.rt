//! Callers that look into a value, and change it there, with contracts.

ghost use Rattle.std.specs.Prelude.{◌≡◌, pos, List, ℕ, IfNone, IfSome, OnSome, Some};
ghost use Rattle.std.specs.Prelude.{option_and_then};
ghost use Rattle.std.specs.Bool.{OnFalse, OnTrue};
ghost use Rattle.ciborium.specs.Labels.{numbered};
ghost use Rattle.ciborium.specs.Lookups.{tree_at, tree_under, unsigned_of};
ghost use Rattle.ciborium.specs.Tree.{integer, null, text};
ghost use Rattle.ciborium.specs.View.{tree_of};

use ciborium::Value;

/// The audience that the claims of a token name: the text under the label 3.
pub fn audience(claims: &Value) -> Option<&str>
    ensures some { IfSome result (λ t.
        tree_under (numbered (pos 3)) (tree_of claims.now) ≡ Some (text t.now)) }
    ensures none { IfNone result ((b : List ℕ) →
        ¬ (tree_under (numbered (pos 3)) (tree_of claims.now) ≡ Some (text b))) }
{
    claims.get(3)?.as_text()
}

/// The number under the label 7 of an array's third item.
pub fn seventh_of_third(value: &Value) -> Option<u64>
    ensures { result ≡ option_and_then unsigned_of
        (option_and_then (tree_under (numbered (pos 7))) (tree_at 2 (tree_of value.now))) }
{
    value.at(2)?.get(7)?.as_u64()
}

/// Moves the time at which the claims of a token expire, under the label 4, where they name one:
/// then the answer is true, and the audience is as it was.
pub fn renew(claims: &mut Value, time: u64) -> bool
    ensures renewed { OnTrue result
        (tree_under (numbered (pos 4)) (tree_of claims.new) ≡ Some (integer (pos time))) }
    ensures audience { tree_under (numbered (pos 3)) (tree_of claims.new) ≡
        tree_under (numbered (pos 3)) (tree_of claims.old) }
    ensures unchanged { OnFalse result (claims.new ≡ claims.old) }
{
    claims.replace(4, Value::from(time)).is_ok()
}

/// Takes the payload out of a signed message, an array's third item (RFC 9052, section 4.2), and
/// leaves null in its place, as where the payload is sent apart (section 4.1).
pub fn detach(message: &mut Value) -> Option<Value>
    ensures payload { IfSome result (λ v. tree_at 2 (tree_of message.old) ≡ Some (tree_of v)) }
    ensures detached { OnSome result (tree_at 2 (tree_of message.new) ≡ Some null) }
    ensures unchanged { IfNone result (message.new ≡ message.old) }
{
    message.replace_at(2, Value::Null).ok()
}
