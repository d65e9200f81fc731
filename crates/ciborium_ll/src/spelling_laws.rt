//! What holds of heads, headers and spellings (their well-formed encodings), whatever the code:
//! each law is the contract of a function that does nothing.

ghost use Rattle.ciborium_ll.specs.laws.HeaderLaws.{HeaderBytesSpell, OneHeader, OneHeaderAtFront};
ghost use Rattle.ciborium_ll.specs.laws.HeaderLaws.{NoOtherSpellingIsAsShort, NoSpellingIsShorter};
ghost use Rattle.ciborium_ll.specs.laws.SpellingLaws.{NoOtherIsAsShort, NoneIsShorter};
ghost use Rattle.ciborium_ll.specs.laws.SpellingLaws.{ShortestIsHead};
ghost use Rattle.ciborium_ll.specs.laws.SpellingLaws.{NoneBeginsAnother, OneAtFront, OneItem};

/// No spelling of an item is a strict prefix of a spelling of any item, and no bytes spell two
/// items (RFC 8949, section 3).
pub fn unique_spelling()
    ensures prefix_free { NoneBeginsAnother }
    ensures one_item { OneItem }
    ensures at_front { OneAtFront }
{}

/// The shortest head of a major type with an argument is one of the heads that spell the two, none
/// of these is shorter, and no other is as short (RFC 8949, section 4.1).
pub fn shortest_head()
    ensures is_head { ShortestIsHead }
    ensures none_shorter { NoneIsShorter }
    ensures no_other { NoOtherIsAsShort }
{}

/// No bytes spell two headers, and no spelling of a header is a strict prefix of a spelling of any
/// header (RFC 8949, section 3).
pub fn one_header()
    ensures one { OneHeader }
    ensures at_front { OneHeaderAtFront }
{}

/// What is written for a header spells it, no spelling of it is shorter, and no other is as short
/// (RFC 8949, section 4.1).
pub fn header_bytes_spell()
    ensures spelled { HeaderBytesSpell }
    ensures none_shorter { NoSpellingIsShorter }
    ensures no_other { NoOtherSpellingIsAsShort }
{}
