//! What values are read from.

ghost use Rattle.std.specs.Prelude.{◌≡◌, ◌+◌, ◌<◌, ◌≤◌, IfErr, IfOk, List, MatchBool, OnErr};
ghost use Rattle.std.specs.Prelude.{OnOk, Option, Result, false, string_bytes, ℕ};
ghost use Rattle.ciborium_value.specs.Ahead.{Ahead, Rest};
ghost use Rattle.ciborium_value.specs.Nesting.{Limit};
ghost use Rattle.ciborium_value.specs.Places.{ContainerType, a_map, an_array};
ghost use Rattle.ciborium_value.specs.Sources.{Completes, Enters, EntersMap, Fault, GivesBack};
ghost use Rattle.ciborium_value.specs.Sources.{GoesOn, Holds, IsGrantedFault, Leaves, OwesLess};
ghost use Rattle.ciborium_value.specs.Sources.{OwesNothing, RefusesAhead, RefusesNext};
ghost use Rattle.ciborium_value.specs.Sources.{RefusesToTell, TakesNothing, TakesOneItem};
ghost use Rattle.ciborium_value.specs.Sources.{TakesOnly, TakesTo, Tells, of_kind, of_memory};
ghost use Rattle.ciborium_value.specs.View.{result_map, tree_of};
ghost use Rattle.ciborium_value.specs.Given.{given_boolean, given_bytes, given_character};
ghost use Rattle.ciborium_value.specs.Given.{given_integer, given_name, given_outer_tag};
ghost use Rattle.ciborium_value.specs.Labels.{label_place};
ghost use Rattle.ciborium_value.specs.Given.{is_null, given_pairs, given_seq, given_skip};
ghost use Rattle.ciborium_value.specs.Given.{given_text, given_unit, given_value, given_variant};
ghost use Rattle.ciborium_value.specs.Tree.{Tree};

use crate::labels::Labels;
use crate::tree::Value;
use ciborium_ll::Kind;
use std::alloc::Global;

/// Where an item is read from, part by part: from bytes, or from a tree.
///
/// A source stands before one item. Each call takes what its comment says, or is refused: with a
/// kind where another item stands there, for nesting where a container is entered and no level is
/// left, and over bytes also where no item stands there or the reader fails. Calls that skip tags
/// skip any number of them, which takes no levels (RFC 8949, section 3.4). A refused call has taken
/// a prefix of what was unread and nothing else, and no more is left to read than before.
pub trait Source {
    /// Why a call is refused.
    type Error: Drop;

    /// What is left of a container that is being read.
    type Seq: Drop;

    /// The level that a tag or a variant took, to be given back after its content.
    type Level: Drop;

    // The levels that are left, and what the source stands before.
    ghost stands_before: { Self → Limit → Ahead → Type 0 };

    // The levels to give back behind the container, and what is left of it.
    ghost seq_stands: { Self.Seq → Limit → Rest → Type 0 };

    // The levels to give back behind the content of a tag or a variant, and what follows it.
    ghost level_stands: { Self.Level → Limit → Rest → Type 0 };

    // How much can still be read, at most: an item that is read lowers it.
    ghost left: { Self → ℕ };

    ghost seq_left: { Self.Seq → ℕ };

    ghost level_left: { Self.Level → ℕ };

    // These bytes are unread, where they are known.
    ghost is_unread: { Self → List ℕ → Type 0 };

    // The first bytes began with a container, which is read up to the second.
    ghost owes: { Self.Seq → ContainerType → List ℕ → List ℕ → Type 0 };

    // Since the first state just unread bytes were taken, a prefix of those that were there.
    ghost has_taken: { Self → Self → Type 0 };

    // What a call of `value` did and answered.
    ghost reads: { Self → Self → Result Tree Self.Error → Type 0 };

    // Why it refused, in the state that the refused call left.
    ghost cause: { Self → Self.Error → Fault };

    // The offset of what it stands before.
    ghost offset_ahead: { Self → Option ℕ };

    /// A number: whether it is negative, and the n of the number n or -1 - n. Skips tags other than
    /// 2 and 3. Takes an integer, or tag 2 or 3 over a byte string, of definite or indefinite
    /// length, that has at most 16 bytes after its leading zeros (sections 3.1 and 3.4.3). A longer
    /// one is refused as `TooLarge`, another item under the tag as `Bytes`, any other as `Integer`.
    fn integer(&mut self) -> Result<(bool, u128), Self::Error>
        ensures takes { TakesOneItem stands_before is_unread has_taken left cause self.old self.new
            given_integer (λ v. v) result }
        ensures memory { IfErr result (λ e. IsGrantedFault (cause self.new e) false) };

    /// False or true (section 3.3). Skips tags; another item is refused as `Bool`.
    fn boolean(&mut self) -> Result<bool, Self::Error>
        ensures takes { TakesOneItem stands_before is_unread has_taken left cause self.old self.new
            given_boolean (λ v. v) result }
        ensures memory { IfErr result (λ e. IsGrantedFault (cause self.new e) false) };

    /// Null or undefined (section 3.3). Skips tags; another item is refused as `Unit`.
    fn unit(&mut self) -> Result<(), Self::Error>
        ensures takes { TakesOneItem stands_before is_unread has_taken left cause self.old self.new
            given_unit (λ v. v) result }
        ensures memory { IfErr result (λ e. IsGrantedFault (cause self.new e) false) };

    /// The one character of a definite text. Skips tags; another item is refused as `Char`.
    fn character(&mut self) -> Result<char, Self::Error>
        ensures takes { TakesOneItem stands_before is_unread has_taken left cause self.old self.new
            given_character (λ v. v) result }
        ensures memory { IfErr result (λ e. IsGrantedFault (cause self.new e) false) };

    /// A text, of definite or indefinite length (section 3.1). Skips tags; another item is refused
    /// as `Text`.
    fn text(&mut self, alloc: Global) -> Result<String, Self::Error>
        ensures takes { TakesOneItem stands_before is_unread has_taken left cause self.old self.new
            given_text string_bytes result };

    /// The bytes of a byte string, of definite or indefinite length (section 3.1); or those of an
    /// array, which takes a level, of numbers from 0 to 255, each as `integer` reads it: a number
    /// out of this range is refused as `Range`. Skips tags; another item is refused as `Bytes`.
    fn bytes(&mut self, alloc: Global) -> Result<Vec<u8>, Self::Error>
        ensures takes { TakesOneItem stands_before is_unread has_taken left cause self.old self.new
            given_bytes (λ v. v.items) result };

    /// A name: a text, or a byte string that is UTF-8 once its chunks are joined, either of
    /// definite or indefinite length (section 3.1). Skips tags; another item is refused as `Name`.
    fn name(&mut self, alloc: Global) -> Result<String, Self::Error>
        ensures takes { TakesOneItem stands_before is_unread has_taken left cause self.old self.new
            given_name string_bytes result };

    /// The place among these labels of a key: of an integer, or tag 2 or 3, as a number that
    /// `integer` reads; of a string, or any other tag, as a name that `name` reads; of another item
    /// as neither, and that is passed over as `skip` does it. Memory is allocated for a name only
    /// where it is of indefinite length, a byte string, or long.
    fn label<N: Labels>(&mut self, alloc: Global, labels: &N) -> Result<N::Place, Self::Error>
        ensures takes { TakesOneItem stands_before is_unread has_taken left cause self.old self.new
            (label_place (N.place_of labels.now)) (λ v. v) result };

    /// Whether the item ahead is null or undefined, without a tag. It is not taken.
    fn null_ahead(&mut self) -> Result<bool, Self::Error>
        ensures ok { IfOk result (λ b. Tells stands_before is_null self.old self.new b) }
        ensures refused { IfErr result
            (λ e. RefusesToTell stands_before self.old (cause self.new e)) }
        ensures memory { IfErr result (λ e. IsGrantedFault (cause self.new e) false) }
        ensures took { OnOk result (TakesNothing is_unread self.old self.new) }
        ensures only { TakesOnly has_taken self.old self.new }
        ensures less { OnOk result (left self.new ≤ left self.old) }
        ensures no_more { OnErr result (left self.new ≤ left self.old) };

    /// The tag of the item ahead, if it has one (section 3.4), even that of a bignum; the source
    /// then stands before the content of the tag. With or without a tag this always uses one
    /// level, which `end_tag` gives back.
    fn begin_tag(&mut self) -> Result<(Option<u64>, Self::Level), Self::Error>
        ensures ok { IfOk result (λ p. Holds stands_before level_stands self.old self.new
            given_outer_tag p.0 p.1) }
        ensures refused { IfErr result
            (λ e. RefusesAhead stands_before self.old given_outer_tag (cause self.new e)) }
        ensures memory { IfErr result (λ e. IsGrantedFault (cause self.new e) false) }
        ensures took { OnOk result (TakesTo is_unread self.old self.new Completes) }
        ensures only { TakesOnly has_taken self.old self.new }
        ensures less { IfOk result (λ p. left self.new + level_left p.1 ≤ left self.old) }
        ensures no_more { OnErr result (left self.new ≤ left self.old) };

    /// Gives the level of a tag back, once its content has been read.
    fn end_tag(&mut self, level: Self::Level)
        ensures ok { GivesBack stands_before level_stands self.old self.new level }
        ensures took { TakesNothing is_unread self.old self.new }
        ensures only { TakesOnly has_taken self.old self.new }
        ensures less { left self.new ≤ left self.old + level_left level };

    /// The name of a variant: a text, of definite or indefinite length, after which a null stands
    /// ahead as the data; or the key, as `name` reads it, of a definite map of one pair, whose
    /// value is then ahead. Always uses one level, which `end_variant` gives back. Skips tags;
    /// another item is refused as `Variant`.
    fn begin_variant(&mut self, alloc: Global) -> Result<(String, Self::Level), Self::Error>
        ensures ok { IfOk result (λ p. Holds stands_before level_stands self.old self.new
            given_variant (string_bytes p.0) p.1) }
        ensures refused { IfErr result
            (λ e. RefusesAhead stands_before self.old given_variant (cause self.new e)) }
        ensures took { OnOk result (TakesTo is_unread self.old self.new Completes) }
        ensures only { TakesOnly has_taken self.old self.new }
        ensures less { IfOk result (λ p. left self.new + level_left p.1 ≤ left self.old) }
        ensures no_more { OnErr result (left self.new ≤ left self.old) };

    /// Gives the level of a variant back, once its data has been read.
    fn end_variant(&mut self, level: Self::Level)
        ensures ok { GivesBack stands_before level_stands self.old self.new level }
        ensures took { TakesNothing is_unread self.old self.new }
        ensures only { TakesOnly has_taken self.old self.new }
        ensures less { left self.new ≤ left self.old + level_left level };

    /// Enters an array, which takes a level; or a byte string, which takes none, and whose bytes
    /// are then its items, as integers. Skips tags; another item is refused as `Array`.
    fn begin_seq(&mut self, alloc: Global) -> Result<Self::Seq, Self::Error>
        ensures ok { IfOk result (λ q. Enters stands_before seq_stands self.old self.new q) }
        ensures refused { IfErr result
            (λ e. RefusesAhead stands_before self.old given_seq (cause self.new e)) }
        ensures took { IfOk result (λ q. TakesTo is_unread self.old self.new (owes q an_array)) }
        ensures only { TakesOnly has_taken self.old self.new }
        ensures less { IfOk result (λ q. left self.new + seq_left q < left self.old) }
        ensures no_more { OnErr result (left self.new ≤ left self.old) };

    /// Enters a map, which takes a level. Skips tags; another item is refused as `Map`.
    fn begin_map(&mut self) -> Result<Self::Seq, Self::Error>
        ensures ok { IfOk result (λ q. EntersMap stands_before seq_stands self.old self.new q) }
        ensures refused { IfErr result
            (λ e. RefusesAhead stands_before self.old given_pairs (cause self.new e)) }
        ensures memory { IfErr result (λ e. IsGrantedFault (cause self.new e) false) }
        ensures took { IfOk result (λ q. TakesTo is_unread self.old self.new (owes q a_map)) }
        ensures only { TakesOnly has_taken self.old self.new }
        ensures less { IfOk result (λ q. left self.new + seq_left q < left self.old) }
        ensures no_more { OnErr result (left self.new ≤ left self.old) };

    /// Whether a further item, or a further key, is ahead. A map's value is read right after its
    /// key. At `false` the container is left: its break is taken and its level given back.
    fn next(&mut self, seq: &mut Self::Seq) -> Result<bool, Self::Error>
        ensures ok { IfOk result (λ b. MatchBool b
            (GoesOn stands_before seq_stands self.old self.new seq.old seq.new)
            (Leaves stands_before seq_stands self.old self.new seq.old)) }
        ensures refused { IfErr result
            (λ e. RefusesNext stands_before seq_stands self.old seq.old (cause self.new e)) }
        ensures memory { IfErr result (λ e. IsGrantedFault (cause self.new e) false) }
        ensures took { IfOk result (λ b. MatchBool b
            (TakesTo is_unread self.old self.new (OwesLess owes seq.old seq.new))
            (TakesTo is_unread self.old self.new (OwesNothing owes seq.old))) }
        ensures only { TakesOnly has_taken self.old self.new }
        ensures less { OnOk result
            (left self.new + seq_left seq.new ≤ left self.old + seq_left seq.old) }
        ensures no_more { OnErr result
            (left self.new + seq_left seq.new ≤ left self.old + seq_left seq.old) };

    /// The item ahead, of any type, as a `Value`: its meaning, with bignums folded (section 3.4.3).
    fn value(&mut self, alloc: Global) -> Result<Value, Self::Error>
        ensures takes { TakesOneItem stands_before is_unread has_taken left cause self.old self.new
            given_value tree_of result }
        ensures reads { reads self.old self.new (result_map tree_of result) };

    /// Passes over the item ahead, of any kind, also one that no `Value` holds, as a float. Nothing
    /// is made of it: memory is allocated only for the levels around a place in it. It takes the
    /// levels that `value` takes.
    fn skip(&mut self, alloc: Global) -> Result<(), Self::Error>
        ensures takes { TakesOneItem stands_before is_unread has_taken left cause self.old self.new
            given_skip (λ v. v) result };

    /// The error with which an implementation of `Deserialize` refuses an item.
    fn refuse(&self, kind: Kind) -> Self::Error
        ensures { cause self.now result ≡ of_kind kind };

    /// The offset at which the item ahead begins, its tags included, counted from the first byte
    /// that was read; nothing where the source has no bytes.
    fn offset(&self) -> Option<usize>
        ensures { result ≡ offset_ahead self.now };

    /// The same as `refuse`, of the item at an offset that was told before it was read.
    fn refuse_at(&self, offset: Option<usize>, kind: Kind) -> Self::Error
        ensures { cause self.now result ≡ of_kind kind };

    /// The error of an implementation of `Deserialize` in which an allocation failed.
    fn memory(&self) -> Self::Error
        ensures { cause self.now result ≡ of_memory };
}
