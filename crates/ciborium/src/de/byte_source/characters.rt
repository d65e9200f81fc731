//! Characters.

ghost use Rattle.std.specs.Prelude.{◌≡◌, ◌⊎◌, IfErr, IfOk, IsUtf8, List, Ok, OnOk};
ghost use Rattle.std.specs.Prelude.{Option, Some, chars, false, ℕ};
ghost use Rattle.ciborium_value.specs.Sources.{IsFaultOf, IsGrantedFault};
ghost use Rattle.ciborium_value.specs.Given.{lone_character, settled};
ghost use Rattle.ciborium.specs.Errors.{fault_of};

use crate::de::error::{BareReadError, Error};
use ciborium_value::Kind;
use std::str;

/// How many bytes a character takes in UTF-8, at most.
pub(crate) const GREATEST_CHARACTER_SIZE: usize = 4;

/// The one character of the payload of a text at this offset.
pub(crate) fn only_character(payload: &[u8], offset: usize) -> Result<char, BareReadError>
    ensures utf8 { OnOk result (IsUtf8 payload.now) }
    ensures ok { IfOk result (λ c. lone_character (chars payload.now) ≡ Ok c) }
    ensures refused { IfErr result (λ e.
        (left : Option (List ℕ)) (end : ℕ) → IsUtf8 payload.now →
        IsFaultOf end (fault_of left e) (settled (lone_character (chars payload.now)))) }
    ensures memory { IfErr result (λ e. (left : Option (List ℕ)) →
        IsGrantedFault (fault_of left e) false) }
    ensures at { IfErr result (λ e.
        (e ≡ Error.Syntax offset) ⊎ (e ≡ Error.Semantic (Some offset) Kind.Char)) }
{
    match str::from_utf8(payload) {
        Ok(text) => {
            let mut characters = text.chars();
            match characters.next() {
                Some(first) => match characters.next() {
                    Some(_) => Err(Error::Semantic(Some(offset), Kind::Char)),
                    None => Ok(first),
                },
                None => Err(Error::Semantic(Some(offset), Kind::Char)),
            }
        }
        Err(_) => Err(Error::Syntax(offset)),
    }
}
