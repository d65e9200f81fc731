//! The two orders of values by their encodings: the canonical one, the shorter encoding first (RFC
//! 8949, section 4.2.3), and the bytewise one (section 4.2.1).
//!
//! Bytewise, a comparison walks over both trees side by side, head against head and payload against
//! payload, up to the first that differ: no encoding is a strict prefix of another. In the
//! canonical order the sizes come first, and such a walk follows only where these are equal.
//! `cmp_value` measures both values whole. `cmp_keys` counts only until it knows which is the
//! shorter, so that its work stays within a constant factor of the shorter size. No bytes are made,
//! and nothing is allocated.

ghost use Rattle.std.specs.Prelude.{◌≡◌, ◌+◌, ◌-◌, ◌*◌, ◌^◌, ◌<◌, ◌≤◌, IfSome, length, vec_len};
ghost use Rattle.std.specs.declared.cmp.Ordering.TheVariants.{Equal};
ghost use Rattle.std.specs.Option.{SomeIff};
ghost use Rattle.std.specs.Ordering.{nat_cmp};
ghost use Rattle.ciborium_ll.specs.Bytes.{AreBytes};
ghost use Rattle.ciborium_value.specs.Canonical.{bytewise_order, canonical_order, key_order};
ghost use Rattle.ciborium_value.specs.Counts.{node_count, tree_pairs_node_count, trees_node_count};
ghost use Rattle.ciborium_value.specs.inner.EncodedLists.{encodings, pair_encodings};
ghost use Rattle.ciborium_value.specs.Encoding.{encoded_size, encoding};
ghost use Rattle.ciborium_value.specs.inner.TreeHeads.{argument_of, head_order, tree_major};
ghost use Rattle.ciborium_value.specs.ProperTrees.{AreProperTreePairs, AreProperTrees};
ghost use Rattle.ciborium_value.specs.ProperTrees.{IsProperTree};
ghost use Rattle.ciborium_value.specs.inner.SideBySide.{Decides, payload_order};
ghost use Rattle.ciborium_value.specs.Tree.{integer};
ghost use Rattle.ciborium_value.specs.ValueLists.{tree_pairs_of, trees_of};
ghost use Rattle.ciborium_value.specs.View.{tree_of};
ghost use Rattle.ciborium_value.specs.Visits.{AddsAtMost, AddsVisits, both_node_count, saturated};

use crate::key_order::KeyOrder;
use crate::tree::Value;
use ciborium_ll::{Integer, head_size, simple};
use std::cmp::Ordering;

/// The canonical order of two values, which is that of their encodings: the shorter first, and of
/// two of equal length the bytewise lower one (RFC 8949, section 4.2.3). It measures both whole,
/// which `cmp_keys` does not. It takes no memory.
pub fn cmp_value(left: &Value, right: &Value) -> Ordering
    ensures order { result ≡ canonical_order (tree_of left.now) (tree_of right.now) }
    ensures equal { result ≡ Equal → tree_of left.now ≡ tree_of right.now }
    ensures left_proper { IsProperTree (tree_of left.now) }
    ensures right_proper { IsProperTree (tree_of right.now) }
{
    cmp_value_counted(left, right).0
}

/// The canonical order of two values as `cmp_value` finds it, and how many visits that took,
/// counted up to `u64::MAX`. A visit is one entry of the walk at one node of one value.
pub fn cmp_value_counted(left: &Value, right: &Value) -> (Ordering, u64)
    ensures order { result.0 ≡ canonical_order (tree_of left.now) (tree_of right.now) }
    ensures equal { result.0 ≡ Equal → tree_of left.now ≡ tree_of right.now }
    ensures at_least_once { saturated (both_node_count (tree_of left.now) (tree_of right.now))
        ≤ result.1 }
    ensures at_most_twice { result.1 ≤
        saturated (2 * both_node_count (tree_of left.now) (tree_of right.now)) }
    ensures twice_where_equal { tree_of left.now ≡ tree_of right.now →
        result.1 ≡ saturated (2 * both_node_count (tree_of left.now) (tree_of right.now)) }
    ensures left_proper { IsProperTree (tree_of left.now) }
    ensures right_proper { IsProperTree (tree_of right.now) }
{
    let mut visits = Visits { count: 0 };
    let left_size = measure(left, &mut visits);
    let right_size = measure(right, &mut visits);
    let order = match left_size.cmp(&right_size) {
        Ordering::Equal => compare(left, right, &mut visits),
        order => order,
    };
    (order, visits.count)
}

/// The bytewise order of two values: that of the first byte in which their encodings differ (RFC
/// 8949, section 4.2.1). It takes no memory.
pub fn cmp_bytewise(left: &Value, right: &Value) -> Ordering
    ensures order { result ≡ bytewise_order (tree_of left.now) (tree_of right.now) }
    ensures equal { result ≡ Equal → tree_of left.now ≡ tree_of right.now }
{
    cmp_bytewise_counted(left, right).0
}

/// The bytewise order of two values as `cmp_bytewise` finds it, and how many visits that took,
/// counted up to `u64::MAX`. A visit is one entry of the walk at one node of one value.
pub fn cmp_bytewise_counted(left: &Value, right: &Value) -> (Ordering, u64)
    ensures order { result.0 ≡ bytewise_order (tree_of left.now) (tree_of right.now) }
    ensures equal { result.0 ≡ Equal → tree_of left.now ≡ tree_of right.now }
    ensures at_most_once { result.1 ≤
        saturated (both_node_count (tree_of left.now) (tree_of right.now)) }
    ensures once_where_equal { tree_of left.now ≡ tree_of right.now →
        result.1 ≡ saturated (both_node_count (tree_of left.now) (tree_of right.now)) }
{
    let mut visits = Visits { count: 0 };
    let order = compare(left, right, &mut visits);
    (order, visits.count)
}

/// The order of two values by the named order, that of `cmp_value` or `cmp_bytewise`. Its work is
/// within a constant factor of the shorter encoding. It takes no memory.
pub fn cmp_keys(order: KeyOrder, left: &Value, right: &Value) -> Ordering
    ensures order { result ≡ key_order order (tree_of left.now) (tree_of right.now) }
    ensures equal { result ≡ Equal → tree_of left.now ≡ tree_of right.now }
{
    match order {
        KeyOrder::LengthFirst => cmp_length_first(left, right),
        KeyOrder::Bytewise => cmp_bytewise(left, right),
    }
}

/// How many bytes the encoding of a value has, counted up to `u64::MAX`. It takes no memory.
pub fn encoded_size(value: &Value) -> u64
    ensures size { result ≡ encoded_size (tree_of value.now) }
    ensures proper { IsProperTree (tree_of value.now) }
{
    measure(value, &mut Visits { count: 0 })
}

// ---- heads

// How many nodes a walk has visited, counted up to `u64::MAX`.
#[derive(Drop)]
struct Visits {
    count: u64,
    ghost in_range: { count < 2 ^ 64 },
}

// The shortest head of a value.
#[derive(Clone, Copy)]
struct Head {
    major: u8,
    argument: u64,
}

// Visits a value: counts the visit, and answers the head.
#[inline(always)]
fn visit(value: &Value, visits: &mut Visits) -> Head
    ensures visits { AddsVisits 1 visits.old.count visits.new.count }
    ensures major { result.major ≡ tree_major (tree_of value.now) }
    ensures argument { result.argument ≡ argument_of (tree_of value.now) }
    ensures fits { argument_of (tree_of value.now) < 2 ^ 64 }
{
    visits.count = visits.count.saturating_add(1);
    head_of(value)
}

// The head of a value.
#[inline(always)]
fn head_of(value: &Value) -> Head
    ensures major { result.major ≡ tree_major (tree_of value.now) }
    ensures argument { result.argument ≡ argument_of (tree_of value.now) }
    ensures fits { argument_of (tree_of value.now) < 2 ^ 64 }
{
    match value {
        Value::Integer(number) => integer_head(*number),
        Value::Bytes(bytes) => Head {
            major: 2,
            argument: bytes.len() as u64,
        },
        Value::Text(text) => Head {
            major: 3,
            argument: text.len() as u64,
        },
        Value::Array(items) => Head {
            major: 4,
            argument: items.len() as u64,
        },
        Value::Map(pairs) => Head {
            major: 5,
            argument: pairs.len() as u64,
        },
        Value::Tag(tag, _) => Head {
            major: 6,
            argument: *tag,
        },
        Value::Bool(false) => Head {
            major: 7,
            argument: simple::FALSE as u64,
        },
        Value::Bool(true) => Head {
            major: 7,
            argument: simple::TRUE as u64,
        },
        Value::Null => Head {
            major: 7,
            argument: simple::NULL as u64,
        },
    }
}

// The head that is all of a number.
#[inline(always)]
fn integer_head(number: Integer) -> Head
    ensures major { result.major ≡ tree_major (integer number) }
    ensures argument { result.argument ≡ argument_of (integer number) }
{
    let (negative, argument) = number.head();
    Head {
        major: if negative { 1 } else { 0 },
        argument,
    }
}

// The order of the heads of two values, both of which it visits: that of their bytes.
#[inline(always)]
fn compare_heads(left: &Value, right: &Value, visits: &mut Visits) -> Ordering
    ensures order { result ≡ head_order (tree_of left.now) (tree_of right.now) }
    ensures left_fits { argument_of (tree_of left.now) < 2 ^ 64 }
    ensures right_fits { argument_of (tree_of right.now) < 2 ^ 64 }
    ensures visits { AddsVisits 2 visits.old.count visits.new.count }
{
    let left = visit(left, visits);
    let right = visit(right, visits);
    left.major
        .cmp(&right.major)
        .then(left.argument.cmp(&right.argument))
}

// ---- sizes

// The size of a value's encoding, counted up to `u64::MAX`.
#[cycle(measure)]
fn measure(value: &Value, visits: &mut Visits) -> u64
    ensures size { result ≡ encoded_size (tree_of value.now) }
    ensures visits { AddsVisits (node_count (tree_of value.now)) visits.old.count visits.new.count }
    ensures proper { IsProperTree (tree_of value.now) }
{
    let head = head_size(visit(value, visits).argument);
    match value {
        Value::Integer(_) | Value::Bool(_) | Value::Null => head,
        Value::Bytes(bytes) => head.saturating_add(payload_size(bytes)),
        Value::Text(text) => head.saturating_add(payload_size(text.as_bytes())),
        Value::Tag(_, content) => head.saturating_add(measure(content, visits)),
        Value::Array(items) => head.saturating_add(measure_items(items, visits)),
        Value::Map(pairs) => head.saturating_add(measure_pairs(pairs, visits)),
    }
}

// The size of the encodings of values.
#[cycle(measure)]
fn measure_items(items: &Vec<Value>, visits: &mut Visits) -> u64
    ensures size { result ≡ saturated (length (encodings items.now.items)) }
    ensures visits { AddsVisits (trees_node_count (trees_of items.now.items))
        visits.old.count visits.new.count }
    ensures proper { AreProperTrees (trees_of items.now.items) }
{
    let mut size: u64 = 0;
    for item in items {
        size = size.saturating_add(measure(item, visits));
    }
    size
}

// The size of the encodings of pairs.
#[cycle(measure)]
fn measure_pairs(pairs: &Vec<(Value, Value)>, visits: &mut Visits) -> u64
    ensures size { result ≡ saturated (length (pair_encodings pairs.now.items)) }
    ensures visits { AddsVisits (tree_pairs_node_count (tree_pairs_of pairs.now.items))
        visits.old.count visits.new.count }
    ensures proper { AreProperTreePairs (tree_pairs_of pairs.now.items) }
{
    let mut size: u64 = 0;
    for pair in pairs {
        size = size.saturating_add(measure(&pair.0, visits));
        size = size.saturating_add(measure(&pair.1, visits));
    }
    size
}

// The size of a payload.
#[inline(always)]
fn payload_size(payload: &[u8]) -> u64
    ensures size { result ≡ length payload.now }
    ensures bytes { AreBytes payload.now }
{
    payload.len() as u64
}

// ---- the shorter of two

// The order of two payloads behind heads of one major type: the shorter first.
#[inline(always)]
fn cmp_payloads(left: &[u8], right: &[u8]) -> Ordering
    ensures { result ≡ payload_order left.now right.now }
{
    match left.len().cmp(&right.len()) {
        Ordering::Equal => left.cmp(right),
        order => order,
    }
}

// The canonical order of two texts, or of two byte strings.
#[inline(always)]
fn cmp_strings(left: &Value, right: &Value) -> Option<Ordering>
    ensures order { IfSome result (λ order.
        order ≡ canonical_order (tree_of left.now) (tree_of right.now)) }
    ensures equal { IfSome result (λ order.
        order ≡ Equal → tree_of left.now ≡ tree_of right.now) }
{
    match (left, right) {
        (Value::Text(left), Value::Text(right)) => {
            Some(cmp_payloads(left.as_bytes(), right.as_bytes()))
        }
        (Value::Bytes(left), Value::Bytes(right)) => Some(cmp_payloads(left, right)),
        _ => None,
    }
}

// The canonical order of two values.
fn cmp_length_first(left: &Value, right: &Value) -> Ordering
    ensures order { result ≡ canonical_order (tree_of left.now) (tree_of right.now) }
    ensures equal { result ≡ Equal → tree_of left.now ≡ tree_of right.now }
{
    if let Some(order) = cmp_strings(left, right) {
        return order;
    }
    match cmp_sizes(left, right) {
        Ordering::Equal => cmp_bytewise(left, right),
        order => order,
    }
}

// The last room: an encoding that does not fit in it has the greatest size that is counted.
const LAST_ROOM: u64 = u64::MAX - 1;

// The order of the sizes of two values' encodings. It tries rooms, each four times the one before,
// until one of the encodings fits. Where both do, the shorter leaves more.
fn cmp_sizes(left: &Value, right: &Value) -> Ordering
    ensures { let left_size = encoded_size (tree_of left.now) in
        let right_size = encoded_size (tree_of right.now) in result ≡ nat_cmp left_size right_size }
{
    let mut room = 64;
    'rooms: loop {
        match (spend(left, room), spend(right, room)) {
            (Some(by_left), Some(by_right)) => return by_right.cmp(&by_left),
            (Some(_), None) => return Ordering::Less,
            (None, Some(_)) => return Ordering::Greater,
            (None, None) => {}
        }
        if room == LAST_ROOM {
            return Ordering::Equal;
        }
        room = room.saturating_mul(4).min(LAST_ROOM);
    }
}

// What the encoding of a value leaves of a room, if it fits. Where it does not, the walk ends as
// soon as the room is used up.
#[cycle(spend)]
fn spend(value: &Value, room: u64) -> Option<u64>
    ensures { let size = length (encoding (tree_of value.now)) in
        SomeIff result (size ≤ room) (room - size) }
{
    let room = room.checked_sub(head_size(head_of(value).argument))?;
    match value {
        Value::Integer(_) | Value::Bool(_) | Value::Null => Some(room),
        Value::Bytes(bytes) => room.checked_sub(payload_size(bytes)),
        Value::Text(text) => room.checked_sub(payload_size(text.as_bytes())),
        Value::Tag(_, content) => spend(content, room),
        Value::Array(items) => spend_items(items, room),
        Value::Map(pairs) => spend_pairs(pairs, room),
    }
}

// What the encodings of values leave of a room, if they fit.
#[cycle(spend)]
fn spend_items(items: &Vec<Value>, room: u64) -> Option<u64>
    ensures { let size = length (encodings items.now.items) in
        SomeIff result (size ≤ room) (room - size) }
{
    let mut left = room;
    for item in items {
        left = spend(item, left)?;
    }
    Some(left)
}

// What the encodings of pairs leave of a room, if they fit.
#[cycle(spend)]
fn spend_pairs(pairs: &Vec<(Value, Value)>, room: u64) -> Option<u64>
    ensures { let size = length (pair_encodings pairs.now.items) in
        SomeIff result (size ≤ room) (room - size) }
{
    let mut left = room;
    for pair in pairs {
        left = spend(&pair.0, left)?;
        left = spend(&pair.1, left)?;
    }
    Some(left)
}

// ---- the first bytes that differ

// The order of the encodings of two values, bytewise. What stands behind them counts only where
// they are equal, and then the values are.
#[cycle(compare)]
fn compare(left: &Value, right: &Value, visits: &mut Visits) -> Ordering
    ensures decides { Decides result (encoding (tree_of left.now)) (encoding (tree_of right.now)) }
    ensures equal { result ≡ Equal → tree_of left.now ≡ tree_of right.now }
    ensures visits { AddsAtMost (both_node_count (tree_of left.now) (tree_of right.now)) result
        visits.old.count visits.new.count }
{
    let order = compare_heads(left, right, visits);
    if order.is_ne() {
        return order;
    }
    match (left, right) {
        (Value::Bytes(left), Value::Bytes(right)) => left.cmp(right),
        (Value::Text(left), Value::Text(right)) => left.cmp(right),
        (Value::Tag(_, left), Value::Tag(_, right)) => compare(left, right, visits),
        (Value::Array(left), Value::Array(right)) => compare_items(left, right, visits),
        (Value::Map(left), Value::Map(right)) => compare_pairs(left, right, visits),
        _ => Ordering::Equal,
    }
}

// The order of the encodings of as many values, bytewise.
#[cycle(compare)]
fn compare_items(left: &Vec<Value>, right: &Vec<Value>, visits: &mut Visits) -> Ordering
    requires as_many { vec_len left.now ≡ vec_len right.now }
    ensures decides { Decides result (encodings left.now.items) (encodings right.now.items) }
    ensures equal { result ≡ Equal → trees_of left.now.items ≡ trees_of right.now.items }
    ensures visits { AddsAtMost
        (trees_node_count (trees_of left.now.items) + trees_node_count (trees_of right.now.items))
        result visits.old.count visits.new.count }
{
    for (index, item) in left.iter().enumerate() {
        let order = compare(item, &right[index], visits);
        if order.is_ne() {
            return order;
        }
    }
    Ordering::Equal
}

// The order of the encodings of as many pairs, bytewise.
#[cycle(compare)]
fn compare_pairs(
    left: &Vec<(Value, Value)>,
    right: &Vec<(Value, Value)>,
    visits: &mut Visits,
) -> Ordering
    requires as_many { vec_len left.now ≡ vec_len right.now }
    ensures decides { Decides result
        (pair_encodings left.now.items) (pair_encodings right.now.items) }
    ensures equal { result ≡ Equal → tree_pairs_of left.now.items ≡ tree_pairs_of right.now.items }
    ensures visits { AddsAtMost
        (tree_pairs_node_count (tree_pairs_of left.now.items)
        + tree_pairs_node_count (tree_pairs_of right.now.items))
        result visits.old.count visits.new.count }
{
    for (index, pair) in left.iter().enumerate() {
        let other = &right[index];
        let keys = compare(&pair.0, &other.0, visits);
        if keys.is_ne() {
            return keys;
        }
        let values = compare(&pair.1, &other.1, visits);
        if values.is_ne() {
            return values;
        }
    }
    Ordering::Equal
}
