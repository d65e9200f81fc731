//! The spellings that a value is read by: what each of them refuses.

ghost use Rattle.std.specs.Prelude.{◌≡◌, IsFalse, IsTrue, MatchOption};
ghost use Rattle.ciborium_value.specs.inner.Stack.{frames_of};
ghost use Rattle.ciborium.specs.Spelling as spellings;
ghost use Rattle.ciborium_value.specs.Spelling.{IsUnwanted};
ghost use Rattle.ciborium.specs.inner.Rules.{HasKeyOutOfOrder, HasKeyInOrder, head_fault};

use ciborium_ll::Header;
use ciborium_value::Kind;
use ciborium_value::stack::Stack;

/// The rules of a spelling.
pub(crate) trait Rules {
    // What is accepted as a tree, and what refuses.
    ghost spelling: { spellings.Spelling };

    /// Why a head of `size` bytes is not accepted.
    fn find_head_fault(header: Header, size: usize) -> Option<Kind>
        ensures { result ≡ head_fault spelling header size };

    /// Whether a bignum of these bytes is not accepted: it has another spelling.
    fn refuses_bignum(payload: &[u8]) -> bool
        ensures yes { IsTrue result → IsUnwanted spelling payload.now }
        ensures no { IsFalse result → ¬ IsUnwanted spelling payload.now };

    /// The offset of the key that waits for its value, where it is out of order. Its last byte
    /// stands before offset `end`.
    fn find_disorder(stack: &Stack, end: usize) -> Option<usize>
        ensures { MatchOption result (HasKeyInOrder spelling (frames_of stack.now))
            (λ at. HasKeyOutOfOrder spelling (frames_of stack.now) end at) };
}

/// Every width and form of a head, indefinite lengths, and keys in any order (RFC 8949, section 3).
pub(crate) struct AnySpelling;

impl Rules for AnySpelling {
    ghost spelling = { spellings.any };

    #[inline(always)]
    fn find_head_fault(_header: Header, _size: usize) -> Option<Kind> {
        None
    }

    #[inline(always)]
    fn refuses_bignum(_payload: &[u8]) -> bool {
        false
    }

    #[inline(always)]
    fn find_disorder(_stack: &Stack, _end: usize) -> Option<usize> {
        None
    }
}
