//! What holds of the answers to lines, whatever the code: the law is the contract of a function
//! that does nothing.

ghost use Rattle.cbor.specs.Laws.{DumpKeepsBytes, DumpKeepsHex, OneDumpOfItem};
ghost use Rattle.cbor.specs.Laws.{IsAnswered, IsFormAnswered, IsNotationAnswered};
ghost use Rattle.cbor.specs.Laws.{IsSequenceAnswered, ItemIsAnswered, OneAnswerToLine};
ghost use Rattle.cbor.specs.Laws.{OneFormAnswer, OneNotationAnswer, OneSequenceAnswer};
ghost use Rattle.cbor.specs.Laws.{RefusalIsAnswered, RefusedMeansNothing};

/// Each line has an answer, within any number of levels, and one answer alone, whether items may be
/// spelled in any way, or in the deterministic one alone, by either order of keys. The answer to a
/// line that means a tree is the tree's text, and the answer to a line that is refused is the
/// refusal's. No line that is refused means a tree.
pub fn line_answer()
    ensures answered { IsAnswered }
    ensures one { OneAnswerToLine }
    ensures item { ItemIsAnswered }
    ensures refusal { RefusalIsAnswered }
    ensures nothing { RefusedMeansNothing }
{}

/// Each line that is read as a sequence (RFC 8742) has an answer, within any number of levels for
/// each item, and one answer alone.
pub fn sequence_answer()
    ensures answered { IsSequenceAnswered }
    ensures one { OneSequenceAnswer }
{}

/// Each line has an answer by the deterministic form of its item (RFC 8949, section 4.2), by either
/// order of keys and within any number of levels, and one answer alone.
pub fn form_answer()
    ensures answered { IsFormAnswered }
    ensures one { OneFormAnswer }
{}

/// Each line has an answer by the diagnostic notation of its item (RFC 8949, section 8), in either
/// layout and within any number of levels, and one answer alone.
pub fn notation_answer()
    ensures answered { IsNotationAnswered }
    ensures one { OneNotationAnswer }
{}

/// The lines of a dump leave no byte out: the bytes of its heads and payloads, and what is left
/// behind them, are the bytes that are dumped, and the hex columns of the dump of an item, joined,
/// are the item's hex. An item has one dump.
pub fn dump_columns()
    ensures bytes { DumpKeepsBytes }
    ensures hex { DumpKeepsHex }
    ensures one { OneDumpOfItem }
{}
