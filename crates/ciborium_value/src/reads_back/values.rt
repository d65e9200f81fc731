//! Values.

ghost use Rattle.std.specs.Prelude.{◌≡◌, Some};
ghost use Rattle.ciborium_value.specs.Encoding.{item_of};
ghost use Rattle.ciborium_value.specs.Folded.{folded};
ghost use Rattle.ciborium_value.specs.Nesting.{nesting};
ghost use Rattle.ciborium_value.specs.lemmas.ReadsBackValues.{met-tree, value-back};
ghost use Rattle.ciborium_value.specs.View.{tree_of};

use super::ReadsBack;
use crate::tree::Value;

/// For a value in which folding changes nothing: no tag 2 or 3 in it stands over a byte string that
/// is read as an integer, or as a bignum without its leading zeros (RFC 8949, section 3.4.3). What
/// was read is such a value unless a tag 2 or 3 stood over a byte string of indefinite length. It
/// takes as many levels as it nests.
impl ReadsBack for Value {
    ghost is_valid = { λ v. folded (tree_of v) ≡ Some (tree_of v) };

    ghost levels = { λ v. nesting (item_of (tree_of v)) };

    ghost reads_back = { λ way plain v valid.
        value-back (tree_of v) (met-tree way plain (tree_of v)) valid };
}
