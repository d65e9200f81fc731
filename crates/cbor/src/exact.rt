//! Diagnostic notation that shows the very heads of an item.

ghost use Rattle.std.specs.Prelude.{◌≡◌, ◌≤◌, ◌+◌, ◌==◌, ◌++◌, ◌∷◌, [], IfErr, IfOk, List, ℕ, OnOk};
ghost use Rattle.std.specs.Prelude.{codes, decimal, drop, if◌then◌else◌, length, suc, None, Some};
ghost use Rattle.hex.specs.Hex.{encode_lower};
ghost use Rattle.ciborium_ll.specs.Header.{SpellsHeader};
ghost use Rattle.ciborium_ll.specs.ItemHeads.{HasRead, IsHeadRead, levels_of};
ghost use Rattle.ciborium_ll.specs.Levels.{IsPayloadOf, incomplete};
ghost use Rattle.ciborium_ll.specs.Strings.{string_header};
ghost use Rattle.ciborium_ll.specs.declared.header.Header.TheVariants.{Break, Tag};
ghost use Rattle.ciborium_ll.specs.declared.levels.Level.{Level};
ghost use Rattle.ciborium_ll.specs.declared.levels.Level.TheVariants.{Items};
ghost use Rattle.cbor.specs.Exact.{AreOpenChunks, Explains, IsLeaf, closing, opening};
ghost use Rattle.cbor.specs.Exact.{IsExactAnswer, IsExactly, IsFrontPushed, IsItemPushed, IsPushed};
ghost use Rattle.cbor.specs.Exact.{IsBegun, IsStringExactly, chunk_level, empty_text, head_bytes};
ghost use Rattle.cbor.specs.Exact.{lead, mark, part_count, parts_header, simple_text, spaced};
ghost use Rattle.cbor.specs.declared.exact.Unshown.TheVariants.{Memory};

use crate::digits::{push_digits, push_number};
use crate::dumping::{push_quoted, push_reason, push_trailing};
use ciborium_ll::{Header, ItemHead, ItemHeads, NoItem, StringType};
use std::alloc::{AllocError, Global};

/// Why an item is not shown.
#[derive(Clone, Copy)]
pub enum Unshown {
    /// None stands at the front.
    NoItem(NoItem),
    /// An allocation failed.
    Memory,
}

impl From<AllocError> for Unshown {
    ghost from_gives = { λ _ unshown. unshown ≡ Memory };

    fn from(_: AllocError) -> Unshown {
        Unshown::Memory
    }
}

/// Makes `text` the diagnostic notation of these bytes exactly as their heads stand (RFC 8949,
/// sections 8 and 8.1), and says whether they are one item.
///
/// Numbers are decimal, byte strings base16, as `h'0aff'`, and texts stand in quotation marks. A
/// tag is its number before its content in parentheses, arrays and maps are those of JSON, simple
/// values `simple(99)` where they have no name, and floats their raw bytes, as `float'3c00'`. An
/// underscore behind the opening bracket says that a length is indefinite, as in `[_ 1, 2]` and
/// `(_ "a", "b")`, and `''_` or `""_` is such a string of no parts. Where a head is not the
/// shortest, an underscore and a digit i say that its additional information is 24 + i, as in
/// `1_1`, `"a"_0`, `[_0 1]` and `1_1(0)`. Where the bytes are no item, the text says why:
/// `trailing` and the number of bytes that follow an item, `incomplete`, `malformed at` or `too
/// deep at` and an offset.
///
/// # Errors
///
/// `AllocError` where an allocation fails.
pub fn write_exact(alloc: Global, bytes: &[u8], text: &mut Vec<u8>) -> Result<bool, AllocError>
    ensures { IfOk result (λ is_item. IsExactAnswer bytes.now is_item text.new.items) }
{
    text.clear();
    match push_exact(alloc, bytes, text) {
        Ok(0) => Ok(true),
        Ok(count) => {
            text.clear();
            push_trailing(count, text)?;
            Ok(false)
        }
        Err(Unshown::NoItem(reason)) => {
            text.clear();
            push_reason(reason, text)?;
            Ok(false)
        }
        Err(Unshown::Memory) => Err(AllocError),
    }
}

/// Appends the notation of the item at the front of these bytes to a text, as `write_exact` has it,
/// and says how many bytes follow the item.
///
/// # Errors
///
/// `NoItem` where none stands there, `Memory` where an allocation fails.
pub fn push_exact(alloc: Global, bytes: &[u8], text: &mut Vec<u8>) -> Result<usize, Unshown>
    ensures shown { IfOk result (λ count.
        IsFrontPushed bytes.now count text.old.items text.new.items) }
    ensures unshown { IfErr result (λ unshown. Explains bytes.now unshown) }
{
    let mut heads = ItemHeads::new(bytes);
    push_next(alloc, &mut heads, text)?;
    Ok(heads.rest().len())
}

// The next head, inside an item.
fn next_head<'b>(heads: &mut ItemHeads<'b>) -> Result<ItemHead<'b>, Unshown>
    requires read { HasRead heads.old }
    requires inside { ¬ (levels_of heads.old ≡ []) }
    ensures read { IfOk result (λ head.
        HasRead heads.new × IsHeadRead heads.old heads.new head) }
    ensures unshown { IfErr result (λ unshown. Explains heads.old.bytes.now unshown) }
{
    match heads.next() {
        Ok(Some(head)) => Ok(head),
        Ok(None) => unreachable!(),
        Err(reason) => Err(Unshown::NoItem(reason)),
    }
}

// Appends the next item, of which one is due here at least.
#[cycle(push_item)]
fn push_next(alloc: Global, heads: &mut ItemHeads, text: &mut Vec<u8>) -> Result<(), Unshown>
    requires read { HasRead heads.old }
    requires due { (n : ℕ) × (around : List Level)
        × (levels_of heads.old ≡ Items (suc n) ∷ around) }
    ensures shown { OnOk result
        (IsPushed IsExactly heads.old heads.new text.old.items text.new.items) }
    ensures left { OnOk result ((n : ℕ) (around : List Level) →
        levels_of heads.old ≡ Items (suc n) ∷ around →
        levels_of heads.new ≡ incomplete (Items n ∷ around)) }
    ensures unshown { IfErr result (λ unshown. Explains heads.old.bytes.now unshown) }
{
    let head = next_head(heads)?;
    push_item(alloc, &head, heads, text)
}

// Appends the item whose head was read.
#[cycle(push_item)]
fn push_item(
    alloc: Global,
    head: &ItemHead,
    heads: &mut ItemHeads,
    text: &mut Vec<u8>,
) -> Result<(), Unshown>
    requires spelled { SpellsHeader head.now.bytes.now head.now.header }
    requires payload { IsPayloadOf head.now.header head.now.payload.now }
    requires item { ¬ (head.now.header ≡ Break) }
    requires read { HasRead heads.old }
    requires due { (around : List Level) × IsBegun head.now.header heads.old around }
    ensures shown { OnOk result
        (IsItemPushed head.now heads.old heads.new text.old.items text.new.items) }
    ensures left { OnOk result ((around : List Level) →
        IsBegun head.now.header heads.old around → levels_of heads.new ≡ incomplete around) }
    ensures unshown { IfErr result (λ unshown. Explains heads.old.bytes.now unshown) }
{
    match head.header {
        Header::Bytes(None) => push_chunks(alloc, StringType::Bytes, heads, text),
        Header::Text(None) => push_chunks(alloc, StringType::Text, heads, text),
        Header::Array(Some(n)) => push_parts(alloc, false, n, head, heads, text),
        Header::Array(None) => push_open_parts(alloc, false, head, heads, text),
        Header::Map(Some(n)) => push_parts(alloc, true, n, head, heads, text),
        Header::Map(None) => push_open_parts(alloc, true, head, heads, text),
        Header::Tag(n) => push_tag(alloc, n, head, heads, text),
        _ => Ok(push_leaf(alloc, head, text)?),
    }
}

// Appends an item that no other is part of.
fn push_leaf(alloc: Global, head: &ItemHead, text: &mut Vec<u8>) -> Result<(), AllocError>
    requires spelled { SpellsHeader head.now.bytes.now head.now.header }
    requires payload { IsPayloadOf head.now.header head.now.payload.now }
    requires leaf { IsLeaf head.now.header }
    ensures { OnOk result ((t : List ℕ) × IsExactly (head_bytes head.now) t
        × (text.new.items ≡ text.old.items ++ t)) }
{
    match head.header {
        Header::Positive(n) => push_unsigned(n, head.bytes.len(), text),
        Header::Negative(n) => push_negative(n, head.bytes.len(), text),
        Header::Bytes(_) => push_string(alloc, StringType::Bytes, head, text),
        Header::Text(_) => push_string(alloc, StringType::Text, head, text),
        Header::Simple(n) => push_simple(n, text),
        Header::Float(_) => push_float(head.bytes, text),
        _ => unreachable!(),
    }
}

// Appends a tag with its content.
#[cycle(push_item)]
fn push_tag(
    alloc: Global,
    tag: u64,
    head: &ItemHead,
    heads: &mut ItemHeads,
    text: &mut Vec<u8>,
) -> Result<(), Unshown>
    requires spelled { SpellsHeader head.now.bytes.now (Tag tag) }
    requires payload { head.now.payload.now ≡ [] }
    requires read { HasRead heads.old }
    requires due { (around : List Level) × IsBegun (Tag tag) heads.old around }
    ensures shown { OnOk result
        (IsItemPushed head.now heads.old heads.new text.old.items text.new.items) }
    ensures left { OnOk result ((around : List Level) →
        IsBegun (Tag tag) heads.old around → levels_of heads.new ≡ incomplete around) }
    ensures unshown { IfErr result (λ unshown. Explains heads.old.bytes.now unshown) }
{
    push_unsigned(tag, head.bytes.len(), text)?;
    text.extend_from_slice(b"(")?;
    push_next(alloc, heads, text)?;
    text.extend_from_slice(b")")?;
    Ok(())
}

// Appends an array or a map of so many items or pairs.
#[cycle(push_item)]
fn push_parts(
    alloc: Global,
    is_map: bool,
    count: usize,
    head: &ItemHead,
    heads: &mut ItemHeads,
    text: &mut Vec<u8>,
) -> Result<(), Unshown>
    requires spelled { SpellsHeader head.now.bytes.now (parts_header is_map (Some count)) }
    requires payload { head.now.payload.now ≡ [] }
    requires read { HasRead heads.old }
    requires due { (around : List Level)
        × IsBegun (parts_header is_map (Some count)) heads.old around }
    ensures shown { OnOk result
        (IsItemPushed head.now heads.old heads.new text.old.items text.new.items) }
    ensures left { OnOk result ((around : List Level) →
        IsBegun (parts_header is_map (Some count)) heads.old around →
        levels_of heads.new ≡ incomplete around) }
    ensures unshown { IfErr result (λ unshown. Explains heads.old.bytes.now unshown) }
{
    push_opening(is_map, head.bytes.len(), count, text)?;
    let total = part_count(is_map, count);
    'parts: for place in 0..total {
        text.extend_from_slice(lead(is_map, place))?;
        push_next(alloc, heads, text)?;
    }
    text.extend_from_slice(closing(is_map))?;
    Ok(())
}

// Appends an array or a map of items before a break.
#[cycle(push_item)]
fn push_open_parts(
    alloc: Global,
    is_map: bool,
    head: &ItemHead,
    heads: &mut ItemHeads,
    text: &mut Vec<u8>,
) -> Result<(), Unshown>
    requires spelled { SpellsHeader head.now.bytes.now (parts_header is_map None) }
    requires payload { head.now.payload.now ≡ [] }
    requires read { HasRead heads.old }
    requires due { (around : List Level) × IsBegun (parts_header is_map None) heads.old around }
    ensures shown { OnOk result
        (IsItemPushed head.now heads.old heads.new text.old.items text.new.items) }
    ensures left { OnOk result ((around : List Level) →
        IsBegun (parts_header is_map None) heads.old around →
        levels_of heads.new ≡ incomplete around) }
    ensures unshown { IfErr result (λ unshown. Explains heads.old.bytes.now unshown) }
{
    text.extend_from_slice(opening(is_map))?;
    text.extend_from_slice(b"_ ")?;
    'parts: for place in 0..u128::MAX {
        let head = next_head(heads)?;
        if let Header::Break = head.header {
            text.extend_from_slice(closing(is_map))?;
            return Ok(());
        }
        text.extend_from_slice(lead(is_map, place))?;
        push_item(alloc, &head, heads, text)?;
    }
    unreachable!()
}

// Appends the parts of a text or a byte string before a break.
fn push_chunks(
    alloc: Global,
    string: StringType,
    heads: &mut ItemHeads,
    text: &mut Vec<u8>,
) -> Result<(), Unshown>
    requires read { HasRead heads.old }
    requires due { (around : List Level) × (levels_of heads.old ≡ chunk_level string ∷ around) }
    ensures shown { OnOk result
        (IsPushed (AreOpenChunks string) heads.old heads.new text.old.items
        text.new.items) }
    ensures left { OnOk result ((around : List Level) →
        levels_of heads.old ≡ chunk_level string ∷ around →
        levels_of heads.new ≡ incomplete around) }
    ensures unshown { IfErr result (λ unshown. Explains heads.old.bytes.now unshown) }
{
    'chunks: for place in 0..u128::MAX {
        let head = next_head(heads)?;
        if let Header::Break = head.header {
            text.extend_from_slice(chunks_end(string, place))?;
            return Ok(());
        }
        text.extend_from_slice(chunk_lead(place))?;
        push_string(alloc, string, &head, text)?;
    }
    unreachable!()
}

// Appends a definite string, which is a text or a byte string.
fn push_string(
    alloc: Global,
    string: StringType,
    head: &ItemHead,
    text: &mut Vec<u8>,
) -> Result<(), AllocError>
    requires spelled { SpellsHeader head.now.bytes.now head.now.header }
    requires payload { IsPayloadOf head.now.header head.now.payload.now }
    requires string { (n : ℕ) × (head.now.header ≡ string_header string n) }
    ensures { OnOk result ((t : List ℕ) × IsStringExactly string (head_bytes head.now) t
        × (text.new.items ≡ text.old.items ++ t)) }
{
    match string {
        StringType::Bytes => push_bytes(b"h'", head.payload, text)?,
        StringType::Text => push_quoted(alloc, head.payload, text)?,
    }
    text.extend_from_slice(mark(head.bytes.len(), head.payload.len() as u64))
}

// Appends bytes in base16 behind a prefix, and a quotation mark.
fn push_bytes(prefix: &[u8], bytes: &[u8], text: &mut Vec<u8>) -> Result<(), AllocError>
    ensures { OnOk result
        (text.new.items ≡ text.old.items ++ (prefix.now ++ (encode_lower bytes.now ++ codes "'"))) }
{
    text.extend_from_slice(prefix)?;
    push_digits(bytes, text)?;
    text.extend_from_slice(b"'")
}

// Appends a number and the mark of its head, which has so many bytes.
fn push_unsigned(number: u64, size: usize, text: &mut Vec<u8>) -> Result<(), AllocError>
    ensures { OnOk result
        (text.new.items ≡ text.old.items ++ (decimal number ++ mark size number)) }
{
    push_number(b"", u128::from(number), text)?;
    text.extend_from_slice(mark(size, number))
}

// Appends the number -1 - n and the mark of its head, which has so many bytes.
fn push_negative(n: u64, size: usize, text: &mut Vec<u8>) -> Result<(), AllocError>
    ensures { OnOk result
        (text.new.items ≡ text.old.items ++ (codes "-" ++ (decimal (n + 1) ++ mark size n))) }
{
    push_number(b"-", u128::from(n) + 1, text)?;
    text.extend_from_slice(mark(size, n))
}

// Appends an opening bracket, and the mark of a head that has so many bytes and this count.
fn push_opening(
    is_map: bool,
    size: usize,
    count: usize,
    text: &mut Vec<u8>,
) -> Result<(), AllocError>
    ensures { OnOk result
        (text.new.items ≡ text.old.items ++ (opening is_map ++ spaced (mark size count))) }
{
    text.extend_from_slice(opening(is_map))?;
    let mark = mark(size, count as u64);
    text.extend_from_slice(mark)?;
    if !mark.is_empty() {
        text.extend_from_slice(b" ")?;
    }
    Ok(())
}

// Appends a simple value.
fn push_simple(n: u8, text: &mut Vec<u8>) -> Result<(), AllocError>
    ensures { OnOk result (text.new.items ≡ text.old.items ++ simple_text n) }
{
    let end: &[u8] = match n {
        20 => b"false",
        21 => b"true",
        22 => b"null",
        23 => b"undefined",
        _ => {
            push_number(b"simple(", u128::from(n), text)?;
            b")"
        }
    };
    text.extend_from_slice(end)
}

// Appends a float by the bytes behind its initial one.
fn push_float(head: &[u8], text: &mut Vec<u8>) -> Result<(), AllocError>
    requires { 1 ≤ length head.now }
    ensures { OnOk result (text.new.items ≡ text.old.items
        ++ (codes "float'" ++ (encode_lower (drop 1 head.now) ++ codes "'"))) }
{
    push_bytes(b"float'", &head[1..], text)
}

// The bracket before the parts of an array or a map.
fn opening(is_map: bool) -> &'static [u8]
    ensures { result.now ≡ opening is_map }
{
    if is_map { b"{" } else { b"[" }
}

// The bracket behind them.
fn closing(is_map: bool) -> &'static [u8]
    ensures { result.now ≡ closing is_map }
{
    if is_map { b"}" } else { b"]" }
}

// How many parts so many items or pairs are.
fn part_count(is_map: bool, count: usize) -> u128
    ensures { result ≡ part_count is_map count }
{
    let count = count as u128;
    if is_map { 2 * count } else { count }
}

// What stands before a part that n others precede.
fn lead(is_map: bool, n: u128) -> &'static [u8]
    ensures { result.now ≡ lead is_map n }
{
    if n == 0 {
        b""
    } else if is_map && n % 2 == 1 {
        b": "
    } else {
        b", "
    }
}

// The mark of a head of so many bytes.
fn mark(size: usize, argument: u64) -> &'static [u8]
    ensures { result.now ≡ mark size argument }
{
    match size {
        2 if argument < 24 => b"_0",
        3 if argument < 1 << 8 => b"_1",
        5 if argument < 1 << 16 => b"_2",
        9 if argument < 1 << 32 => b"_3",
        _ => b"",
    }
}

// What stands before a part of an open string that n others precede.
fn chunk_lead(n: u128) -> &'static [u8]
    ensures { result.now ≡ (if n == 0 then codes "(_ " else codes ", ") }
{
    if n == 0 { b"(_ " } else { b", " }
}

// What stands behind n parts of an open string.
fn chunks_end(string: StringType, n: u128) -> &'static [u8]
    ensures { result.now ≡ (if n == 0 then empty_text string else codes ")") }
{
    match string {
        _ if n > 0 => b")",
        StringType::Bytes => b"''_",
        StringType::Text => b"\"\"_",
    }
}

#[cfg(test)]
mod tests;
