//! Lines on `cbor!`: trees that are written out, and what they write.

use crate::fronts::encode_to_hex;
use crate::refusals::describe_tree;
use ciborium::cbor;
use ciborium::value::{self, ByteBuf, Value};
use std::alloc::{AllocError, Global};

// Answers the one of these trees whose text this is, if there is one.
macro_rules! find_tree {
    ($alloc:expr, $text:expr, $(($($tree:tt)+))+) => {{
        $(if $text == stringify!($($tree)+) {
            return Some(cbor!($alloc, $($tree)+));
        })+
        None
    }};
}

// A tree as `cbor!` answers it, if there is one of that text.
type Made = Option<Result<Value, value::Error>>;

/// What the literal of this text writes, or none where there is none below. `bytes` stands in it
/// for a byte string of 1 and 2.
///
/// # Errors
///
/// `AllocError` where an allocation fails for the answer.
pub fn write_literal(alloc: Global, text: &str) -> Result<Option<String>, AllocError> {
    let bytes = ByteBuf(vec![in alloc; 1u8, 2]?);
    match find_literal(alloc, text, &bytes) {
        Some(Ok(tree)) => Ok(Some(encode_to_hex(alloc, &tree)?)),
        Some(Err(error)) => Ok(Some(describe_tree(alloc, error)?)),
        None => Ok(None),
    }
}

// The first of these answers that is one.
macro_rules! first_made {
    ($($made:expr,)+) => {{
        $(if let Some(made) = $made {
            return Some(made);
        })+
        None
    }};
}

fn find_literal(alloc: Global, text: &str, bytes: &ByteBuf) -> Made {
    first_made!(
        with_null(alloc, text),
        nested_null(alloc, text),
        with_true(alloc, text),
        with_false(alloc, text),
        with_positive(alloc, text),
        with_negative(alloc, text),
        with_text(alloc, text),
        nested_text(alloc, text),
        with_bytes(alloc, text, bytes),
        with_empty_list(alloc, text),
        with_list(alloc, text),
        with_empty_map(alloc, text),
        with_map(alloc, text),
        with_expressions(alloc, text),
        with_all(alloc, text, bytes),
        between_others(alloc, text),
    )
}

// Null alone, and as an item, a key and a value.
fn with_null(alloc: Global, text: &str) -> Made {
    find_tree!(alloc, text,
        (null) ([null]) ([null, 1]) ([1, null]) ({null => 1}) ({1 => null})
    )
}

// The same in lists and maps that stand in these.
fn nested_null(alloc: Global, text: &str) -> Made {
    find_tree!(alloc, text,
        ([[null]]) ([{null => 1}]) ([{1 => null}]) ({[null] => 1}) ({1 => [null]})
        ({{null => 1} => 1}) ({{1 => null} => 1}) ({1 => {null => 1}}) ({1 => {1 => null}})
    )
}

// The same of other parts.
fn with_true(alloc: Global, text: &str) -> Made {
    find_tree!(alloc, text,
        (true) ([true]) ([true, 1]) ([1, true]) ({true => 1}) ({1 => true})
    )
}

fn with_false(alloc: Global, text: &str) -> Made {
    find_tree!(alloc, text,
        (false) ([false]) ([false, 1]) ([1, false]) ({false => 1}) ({1 => false})
    )
}

fn with_positive(alloc: Global, text: &str) -> Made {
    find_tree!(alloc, text,
        (1000000) ([1000000]) ([1000000, 1]) ([1, 1000000]) ({1000000 => 1}) ({1 => 1000000})
    )
}

fn with_negative(alloc: Global, text: &str) -> Made {
    find_tree!(alloc, text,
        (-500) ([-500]) ([-500, 1]) ([1, -500]) ({-500 => 1}) ({1 => -500})
    )
}

fn with_text(alloc: Global, text: &str) -> Made {
    find_tree!(alloc, text,
        ("text") (["text"]) (["text", 1]) ([1, "text"]) ({"text" => 1}) ({1 => "text"})
    )
}

fn nested_text(alloc: Global, text: &str) -> Made {
    find_tree!(alloc, text,
        ([["text"]]) ([{"text" => 1}]) ([{1 => "text"}]) ({["text"] => 1}) ({1 => ["text"]})
        ({{"text" => 1} => 1}) ({{1 => "text"} => 1}) ({1 => {"text" => 1}}) ({1 => {1 => "text"}})
    )
}

fn with_bytes(alloc: Global, text: &str, bytes: &ByteBuf) -> Made {
    find_tree!(alloc, text,
        (bytes) ([bytes]) ([bytes, 1]) ([1, bytes]) ({bytes => 1}) ({1 => bytes})
    )
}

fn with_empty_list(alloc: Global, text: &str) -> Made {
    find_tree!(alloc, text,
        ([]) ([[]]) ([[], 1]) ([1, []]) ({[] => 1}) ({1 => []})
    )
}

fn with_list(alloc: Global, text: &str) -> Made {
    find_tree!(alloc, text,
        ([2, 3]) ([[2, 3]]) ([[2, 3], 1]) ([1, [2, 3]]) ({[2, 3] => 1}) ({1 => [2, 3]})
    )
}

fn with_empty_map(alloc: Global, text: &str) -> Made {
    find_tree!(alloc, text,
        ({}) ([{}]) ([{}, 1]) ([1, {}]) ({{} => 1}) ({1 => {}})
    )
}

fn with_map(alloc: Global, text: &str) -> Made {
    find_tree!(alloc, text,
        ({2 => 3}) ([{2 => 3}]) ([{2 => 3}, 1]) ([1, {2 => 3}]) ({{2 => 3} => 1}) ({1 => {2 => 3}})
    )
}

// Expressions of more than one word, keys that stand twice, and commas behind the last part.
fn with_expressions(alloc: Global, text: &str) -> Made {
    find_tree!(alloc, text,
        (1 + 1)
        ([1 + 1, 2 - 3])
        ({1 + 1 => 2 - 3})
        ((1, "a"))
        ([(1, "a"), 2])
        ({2 => 1, 1 => 2})
        ({1 => 2, 1 => 3})
        ([1, null,])
        ([[], {},])
        ({1 => null,})
        ({[] => {},})
    )
}

// Parts of every kind in a row.
fn with_all(alloc: Global, text: &str, bytes: &ByteBuf) -> Made {
    find_tree!(alloc, text,
        ([null, true, false, 1000000, -500, "text", bytes, [], [2, 3], {}, {2 => 3}])
        ({null => true, false => 1000000, -500 => "text", bytes => [], [2, 3] => {}, {2 => 3} => 1})
        ({{2 => 3} => {}, [2, 3] => [], bytes => "text", -500 => 1000000, false => true, null => 1})
    )
}

// Parts of each kind behind others and before others.
fn between_others(alloc: Global, text: &str) -> Made {
    find_tree!(alloc, text,
        ([0, null, [1], {2 => 3}, 4 + 1, 5])
        ({0 => 1, 2 => null, 3 => [4], 5 => {6 => 7}, 8 => 9 + 1, null => 11, [12] => 13})
        ({0 => 1, {2 => 3} => 4, [5] => 6, null => 7, 8 => null, 9 => 10})
    )
}
