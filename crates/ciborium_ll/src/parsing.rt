//! From the bytes of a head to the head.

ghost use Rattle.std.specs.Prelude.{◌≡◌, ◌+◌, ◌*◌, ◌/◌, ◌%◌, ◌<◌, ◌≤◌, ◌∷◌, List, [], length};
ghost use Rattle.std.specs.Prelude.{slice_range};
ghost use Rattle.ciborium_ll.specs.Head.{Width, argument_bytes, capacity, information};
ghost use Rattle.ciborium_ll.specs.ReaderSteps.{IsParsed};
ghost use Rattle.ciborium_ll.specs.Refusal.{argument_length};

use crate::header::Header;

// The argument of a head.
#[inline(always)]
fn argument_of(info: u8, bytes: &[u8]) -> u64
    requires below { info < 28 }
    requires whole { length bytes.now ≡ argument_length info }
    ensures { (w : Width) × (result < capacity w) × (info ≡ information w result) ×
        (bytes.now ≡ argument_bytes w result) }
{
    match info {
        24 => u64::from(bytes[0]),
        25 => u64::from(u16::from_be_bytes([bytes[0], bytes[1]])),
        26 => u64::from(u32::from_be_bytes([bytes[0], bytes[1], bytes[2], bytes[3]])),
        27 => u64::from_be_bytes([
            bytes[0], bytes[1], bytes[2], bytes[3], bytes[4], bytes[5], bytes[6], bytes[7],
        ]),
        _ => u64::from(info),
    }
}

// By how many bits the eight bytes behind an initial byte are shifted, so that the argument is
// left: by the additional information, from 24 to 27.
const SHIFTS: [u32; 4] = [56, 48, 32, 0];

// The argument behind the initial byte of a head that stands at the front of what is held. The
// width of the argument takes no jump, which would often be foretold wrongly.
#[inline(always)]
fn shifted_argument(info: u8, held: &[u8]) -> u64
    requires at_least { 24 ≤ info }
    requires below { info < 28 }
    requires long { 9 ≤ length held.now }
    ensures { (w : Width) × (result < capacity w) × (info ≡ information w result) ×
        (slice_range held.now 1 (1 + argument_length info) ≡ argument_bytes w result) }
{
    let number = u64::from_be_bytes([
        held[1], held[2], held[3], held[4], held[5], held[6], held[7], held[8],
    ]);
    number >> SHIFTS[(info % 4) as usize]
}

// The argument of a head that stands near the end of what is held. Out of line: it is seldom
// called.
#[inline(never)]
fn argument_apart(info: u8, bytes: &[u8]) -> u64
    requires below { info < 28 }
    requires whole { length bytes.now ≡ argument_length info }
    ensures { (w : Width) × (result < capacity w) × (info ≡ information w result) ×
        (bytes.now ≡ argument_bytes w result) }
{
    argument_of(info, bytes)
}

// The argument of a head that stands at the front of what is held, with these bytes.
#[inline(always)]
fn held_argument(info: u8, held: &[u8], bytes: &[u8]) -> u64
    requires below { info < 28 }
    requires whole { length bytes.now ≡ argument_length info }
    requires bytes { bytes.now ≡ slice_range held.now 1 (1 + argument_length info) }
    ensures { (w : Width) × (result < capacity w) × (info ≡ information w result) ×
        (bytes.now ≡ argument_bytes w result) }
{
    if info < 24 {
        return u64::from(info);
    }
    if held.len() < 9 {
        return argument_apart(info, bytes);
    }
    shifted_argument(info, held)
}

// The head of an initial byte that no argument follows.
#[inline(always)]
fn without_argument(first: u8) -> Option<Header>
    requires { 28 ≤ first % 32 }
    ensures { IsParsed (first ∷ []) result }
{
    match first {
        0x5f => Some(Header::Bytes(None)),
        0x7f => Some(Header::Text(None)),
        0x9f => Some(Header::Array(None)),
        0xbf => Some(Header::Map(None)),
        0xff => Some(Header::Break),
        _ => None,
    }
}

// The simple value or float.
#[inline(always)]
fn simple_or_float(info: u8, bytes: &[u8]) -> Option<Header>
    requires below { info < 28 }
    requires whole { length bytes.now ≡ argument_length info }
    ensures { IsParsed ((224 + info) ∷ bytes.now) result }
{
    match info {
        24 => {
            let number = bytes[0];
            if number < 32 {
                None
            } else {
                Some(Header::Simple(number))
            }
        }
        25 => Some(Header::Float(2)),
        26 => Some(Header::Float(4)),
        27 => Some(Header::Float(8)),
        _ => Some(Header::Simple(info)),
    }
}

// The head of an initial byte and this argument.
#[inline(always)]
fn with_argument(first: u8, n: u64, bytes: &[u8]) -> Option<Header>
    requires below { first % 32 < 28 }
    requires argument { (w : Width) × (n < capacity w) × (first % 32 ≡ information w n) ×
        (bytes.now ≡ argument_bytes w n) }
    ensures { IsParsed (first ∷ bytes.now) result }
{
    match first / 32 {
        0 => Some(Header::Positive(n)),
        1 => Some(Header::Negative(n)),
        2 => Some(Header::Bytes(Some(n as usize))),
        3 => Some(Header::Text(Some(n as usize))),
        4 => Some(Header::Array(Some(n as usize))),
        5 => Some(Header::Map(Some(n as usize))),
        6 => Some(Header::Tag(n)),
        _ => simple_or_float(first % 32, bytes),
    }
}

// The head that an initial byte and the bytes behind it spell, or none where they are ill-formed.
#[inline(always)]
pub(crate) fn parse_head(first: u8, bytes: &[u8]) -> Option<Header>
    requires { length bytes.now ≡ argument_length (first % 32) }
    ensures { IsParsed (first ∷ bytes.now) result }
{
    let info = first % 32;
    if info >= 28 {
        return without_argument(first);
    }
    let n = argument_of(info, bytes);
    with_argument(first, n, bytes)
}

// The same of a head at the front of what is held.
#[inline(always)]
pub(crate) fn parse_held(first: u8, held: &[u8], bytes: &[u8]) -> Option<Header>
    requires whole { length bytes.now ≡ argument_length (first % 32) }
    requires bytes { bytes.now ≡ slice_range held.now 1 (1 + argument_length (first % 32)) }
    ensures { IsParsed (first ∷ bytes.now) result }
{
    let info = first % 32;
    if info >= 28 {
        return without_argument(first);
    }
    let n = held_argument(info, held, bytes);
    with_argument(first, n, bytes)
}
