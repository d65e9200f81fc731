//! What holds of values and their encodings, whatever the code: each law is the contract of a
//! function that does nothing.

ghost use Rattle.ciborium_value.specs.laws.Examples.{WorkedExamples};
ghost use Rattle.ciborium_value.specs.laws.FoldingLaws.{EncodingIsGood, FoldsOnce, MeaningNests};
ghost use Rattle.ciborium_value.specs.laws.FormLaws.{AcceptedWhereOwnForm, AlikeHaveOneForm};
ghost use Rattle.ciborium_value.specs.laws.FormLaws.{FormOrRefused, RefusedByDuplicates};
ghost use Rattle.ciborium_value.specs.laws.FormLaws.{FormIsAlike, FormIsItsOwn, FormIsProper};
ghost use Rattle.ciborium_value.specs.laws.FormLaws.{OneFormWhereAlike};
ghost use Rattle.ciborium_value.specs.laws.RefusalLaws.{DeterministicReading, GoodOrRefused};
ghost use Rattle.ciborium_value.specs.laws.RefusalLaws.{NeverBoth, OneReading};
ghost use Rattle.ciborium_value.specs.laws.RefusalLaws.{OneRefusal, RefusalKinds};
ghost use Rattle.ciborium_value.specs.laws.NotationLaws.{OneTreeIsDenoted, PrintedAlikeIsEqual};
ghost use Rattle.ciborium_value.specs.laws.NotationLaws.{PrintedIsDenoted};
ghost use Rattle.ciborium_value.specs.Number.{BytesHoldNumber, NoLeadingZeros};
ghost use Rattle.ciborium_value.specs.laws.NumberItems.{NumberTreeIsItem};
ghost use Rattle.ciborium_value.specs.laws.OrderLaws.{EqualAsTrees, EqualityIsEquivalence};
ghost use Rattle.ciborium_value.specs.laws.OrderLaws.{IntegersAsTrees, OrderedAsTrees};
ghost use Rattle.ciborium_value.specs.laws.OrderLaws.{PartlyOrderedAsTrees, TiedWhereEqual};
ghost use Rattle.ciborium_value.specs.laws.OrderLaws.{ValuesAreOrdered};
ghost use Rattle.ciborium_value.specs.WrittenItems.{TreeIsWrittenAsItself, WrittenSpells};
ghost use Rattle.ciborium_value.specs.WrittenItems.{WrittenTreeFolds, WrittenTreeIsProper};

/// In every spelling, all bytes, at every offset and under every limit of levels, either begin with
/// what is read as a tree or are refused, never both; and there is one tree alone, of the same
/// bytes, or one refusal alone, of one of eight kinds where it names one (RFC 8949, sections 4.2
/// and 5.3). What is read in a deterministic spelling is the deterministic encoding of a tree that
/// a program can hold.
pub fn good_or_refused()
    ensures one_of { GoodOrRefused }
    ensures never_both { NeverBoth }
    ensures one_refusal { OneRefusal }
    ensures kinds { RefusalKinds }
    ensures one_reading { OneReading }
    ensures deterministic { DeterministicReading }
{}

/// What an item means nests no deeper than the item, and folding twice is folding once. So a tree
/// that a program can hold, and that folds, is read back as the folded tree, within the levels that
/// the tree takes (RFC 8949, section 3.4.3).
pub fn meaning_of_written_is_folded()
    ensures nests { MeaningNests }
    ensures once { FoldsOnce }
    ensures read_back { EncodingIsGood }
{}

/// What the definitions say of a few bytes and trees of RFC 8949.
pub fn worked_examples()
    ensures { WorkedExamples }
{}

/// The `==` of `Value` is equality of content, and its `cmp` is the order by variant and then by
/// content: a total order, in which only equal values compare as equal.
pub fn order_of_values()
    ensures equal { EqualAsTrees }
    ensures equivalence { EqualityIsEquivalence }
    ensures ordered { OrderedAsTrees }
    ensures partly_ordered { PartlyOrderedAsTrees }
    ensures total { ValuesAreOrdered }
    ensures tied { TiedWhereEqual }
{}

/// The bytes of a bignum that is made from a number hold that number, and none of them is a leading
/// zero (RFC 8949, section 3.4.3). The tree of a number has the item that typed writing writes for
/// the number.
pub fn bytes_of_bignums()
    ensures number { BytesHoldNumber }
    ensures shortest { NoLeadingZeros }
    ensures item { NumberTreeIsItem }
{}

/// The canonical order of two numbers, which `Integer::canonical_cmp` returns, is the canonical
/// order of them as trees (RFC 8949, section 4.2.3; RFC 7049, section 3.9).
pub fn order_of_integers()
    ensures { IntegersAsTrees }
{}

/// The bytes of every item that typed writing writes spell it, and it means the folding of its
/// tree. So what was written is read back as the folding of what `Value::serialized` makes, which
/// of a `Value` makes the same value.
pub fn written_reads_back()
    ensures spells { WrittenSpells }
    ensures folds { WrittenTreeFolds }
    ensures itself { TreeIsWrittenAsItself }
    ensures proper { WrittenTreeIsProper }
{}

/// The deterministic form of a tree, by either order of keys, folds its bignums and sorts the pairs
/// of each of its maps by the forms of their keys (RFC 8949, sections 3.4.3 and 4.2). It is its own
/// form. The encoding of a tree that a program can hold is accepted by a deterministic reader just
/// where the tree is its own form, nests within the levels that are left, and the encoding ends
/// within the greatest offset. Trees that are equal but for the order of pairs and for folding have
/// the same form, if one of them has one, and trees that have the same form are equal but for
/// these, as a tree is to its form. A program can hold the form if it can hold the tree. A tree is
/// refused a form for equal keys or for a bignum that is too large, and for equal keys alone where
/// its bignums have a meaning.
pub fn deterministic_forms()
    ensures own { FormIsItsOwn }
    ensures accepted { AcceptedWhereOwnForm }
    ensures one_form { AlikeHaveOneForm }
    ensures alike { OneFormWhereAlike }
    ensures itself { FormIsAlike }
    ensures proper { FormIsProper }
    ensures refused { RefusedByDuplicates }
    ensures reasons { FormOrRefused }
{}

/// What is printed of a value, on one line or indented, denotes it, and a text denotes one value at
/// most (RFC 8949, section 8). So what is printed is read by `Value::from_notation` as the value
/// that was printed, and values that print alike are equal.
pub fn printed_is_denoted()
    ensures denoted { PrintedIsDenoted }
    ensures one { OneTreeIsDenoted }
    ensures alike { PrintedAlikeIsEqual }
{}
