//! Values in the order of their encodings: the canonical order, the shorter encoding first (RFC
//! 8949, section 4.2.3; RFC 7049, section 3.9), or the bytewise one (section 4.2.1).

ghost use Rattle.std.specs.Prelude.{◌≡◌, ◌↔◌, IsTrue, refl, Ok, Some};
ghost use Rattle.std.specs.Cmp.{partial_equiv_from_equiv, partial_order_from_agreeing_total};
ghost use Rattle.std.specs.Coded.{codes};
ghost use Rattle.std.specs.Ordering.{as_partial_cmp};
ghost use Rattle.ciborium_value.specs.Canonical.{canonical_order, key_order};
ghost use Rattle.ciborium_value.specs.Derived.{value_eq};
ghost use Rattle.ciborium_value.specs.Encoding.{encoded_size, item_of};
ghost use Rattle.ciborium_value.specs.Folded.{folded};
ghost use Rattle.ciborium_value.specs.Nesting.{nesting};
ghost use Rattle.ciborium_value.specs.ProperTrees.{IsProperTree};
ghost use Rattle.ciborium_value.specs.Sinks.{named_value};
ghost use Rattle.ciborium_value.specs.Readings.{whole_by};
ghost use Rattle.ciborium_value.specs.lemmas.ReadsBackValues.{met-tree, value-back};
ghost use Rattle.ciborium_value.specs.Tree.{Tree};
ghost use Rattle.ciborium_value.specs.View.{tree_of};
ghost use Rattle.ciborium_value.specs.WrittenContents.{from_content};
ghost use Rattle.ciborium_value.specs.contracts.tree.Value as value_row;
ghost use Rattle.ciborium_value.specs.declared.tree.Value as values;
ghost use Rattle.ciborium_value.proofs.Orders.Derived.{value_eq_equivalence};
ghost use Rattle.ciborium_value.specs.OrderedValues.{ordered_tree_cmp, ordered_value_cmp};
ghost use Rattle.ciborium_value.specs.OrderedValues.{ordered_value_cmp-trees};
ghost use Rattle.ciborium_value.proofs.Orders.TotalOrders.{ordered_value_cmp_total};
ghost use Rattle.ciborium_value.proofs.Orders.TotalOrders.{ordered_value_matches_eq};

pub use crate::value::encoding_order::{Bytewise, EncodingOrder, LengthFirst};
pub use ciborium_value::KeyOrder;
pub use ciborium_value::canonical::{
    cmp_bytewise, cmp_bytewise_counted, cmp_keys, cmp_value, cmp_value_counted, encoded_size,
};
use ciborium_value::{Deserialize, Key, ReadsBack, Serialize, Sink, Source, Value, WritesContent};
use std::alloc::{AllocError, Global};
use std::cmp::Ordering;
use std::marker::{Model, PhantomData};

/// A value with the size of its encoding, measured once: for values that are compared often, as in
/// sorting.
#[derive(Debug, Drop)]
pub struct MeasuredValue {
    value: Value,
    size: u64,
}

impl Model for MeasuredValue {
    ghost Value = { values.Value };

    ghost view = { λ m. m.value };

    ghost invariant = { λ m.
        (m.size ≡ encoded_size (tree_of m.value)) × IsProperTree (tree_of m.value) };

    ghost coded = { Prim.hlevel (codes, value_row.the_row.coded) };
}

impl MeasuredValue {
    /// Measures the value, and holds it. It takes no memory.
    pub fn new(value: Value) -> MeasuredValue
        ensures same { result ≡ value }
    {
        let size = encoded_size(&value);
        MeasuredValue { value, size }
    }

    /// The value.
    pub fn into_value(self) -> Value
        ensures same { result ≡ self }
    {
        self.value
    }
}

/// The canonical order of two values, as `cmp_value` finds it, by their measured sizes: it walks
/// over the values only where these are equal. It takes no memory.
pub fn cmp_measured(left: &MeasuredValue, right: &MeasuredValue) -> Ordering
    ensures order { result ≡ canonical_order (tree_of left.now) (tree_of right.now) }
    ensures left_proper { IsProperTree (tree_of left.now) }
    ensures right_proper { IsProperTree (tree_of right.now) }
{
    match left.size.cmp(&right.size) {
        Ordering::Equal => cmp_bytewise(&left.value, &right.value),
        order => order,
    }
}

/// A value whose order is that of its encoding, as for a map key: the order that `O` names. Two are
/// equal where their contents are.
#[derive(Debug, Drop)]
pub struct OrderedValue<O> {
    value: Value,
    order: PhantomData<O>,
}

/// A value in the canonical order, that of `cmp_value`.
pub type CanonicalValue = OrderedValue<LengthFirst>;

/// A value in the bytewise order, that of `cmp_bytewise`.
pub type BytewiseValue = OrderedValue<Bytewise>;

impl<O> Model for OrderedValue<O> {
    ghost Value = { values.Value };

    ghost view = { λ c. c.value };

    ghost inverse = { λ v. record { value = v; order = record {} } };

    ghost coded = { Prim.hlevel (codes, value_row.the_row.coded) };
}

/// The same value.
impl<O> From<Value> for OrderedValue<O> {
    ghost from_gives = { λ v o. o ≡ v };

    fn from(value: Value) -> OrderedValue<O> {
        OrderedValue {
            value,
            order: PhantomData,
        }
    }
}

/// The same value.
impl<O> From<OrderedValue<O>> for Value {
    ghost from_gives = { λ o v. v ≡ o };

    fn from(ordered: OrderedValue<O>) -> Value {
        ordered.value
    }
}

/// A copy of equal content, or the error where an allocation failed.
impl<O> Clone for OrderedValue<O> {
    ghost is_clone = { λ v w. tree_of w ≡ tree_of v };

    fn clone(&self) -> Result<OrderedValue<O>, AllocError> {
        Ok(OrderedValue::from(self.value.clone()?))
    }
}

/// The definite item of the value, with no bignum folded. Nothing is allocated.
impl<O> Serialize for OrderedValue<O> {
    ghost written = { named_value };

    ghost takes_memory = { ⊥ };

    fn serialize<S: Sink>(&self, sink: &mut S) -> Result<(), S::Error> {
        self.value.serialize(sink)
    }
}

/// The item ahead, of any type, as `Value` reads it.
impl<O: EncodingOrder> Deserialize for OrderedValue<O> {
    ghost Content = { Tree };

    ghost reading = { whole_by (ordered_tree_cmp O.order) tree_of };

    fn deserialize<S: Source>(alloc: Global, source: &mut S) -> Result<OrderedValue<O>, S::Error> {
        let value = source.value(alloc)?;
        Ok(OrderedValue::from(value))
    }
}

/// For a value in which folding changes nothing, as for `Value`.
impl<O: EncodingOrder> ReadsBack for OrderedValue<O> {
    ghost is_valid = { λ c. folded (tree_of c) ≡ Some (tree_of c) };

    ghost levels = { λ c. nesting (item_of (tree_of c)) };

    ghost reads_back = { λ way plain c valid.
        value-back (tree_of c) (met-tree way plain (tree_of c)) valid };
}

impl<O: EncodingOrder> WritesContent for OrderedValue<O> {
    ghost writes_content = { from_content (λ t. Ok (item_of t)) _ };
}

impl<O: EncodingOrder> Key for OrderedValue<O> {
    ghost orders = { ordered_value_cmp-trees O.order };
}

/// Equality of content.
impl<O> PartialEq for OrderedValue<O> {
    ghost eq = { value_eq };

    ghost laws = { partial_equiv_from_equiv value_eq_equivalence };

    fn eq(&self, other: &OrderedValue<O>) -> bool
        ensures gives { result ≡ value_eq self.now other.now }
        ensures same { IsTrue result ↔ (tree_of self.now ≡ tree_of other.now) }
    {
        self.value == other.value
    }
}

impl<O> Eq for OrderedValue<O> {
    ghost laws = { value_eq_equivalence };
}

/// The order that `O` names.
impl<O: EncodingOrder> PartialOrd for OrderedValue<O> {
    ghost partial_cmp = { as_partial_cmp (ordered_value_cmp O.order) };

    ghost laws = { partial_order_from_agreeing_total (ordered_value_cmp O.order)
        (ordered_value_cmp_total O.order) (λ v w. refl) (ordered_value_matches_eq O.order) };

    fn partial_cmp(&self, other: &OrderedValue<O>) -> Option<Ordering>
        ensures gives { result ≡ Some (ordered_value_cmp O.order self.now other.now) }
        ensures order { result ≡ Some (key_order O.order (tree_of self.now) (tree_of other.now)) }
    {
        Some(self.cmp(other))
    }
}

/// The order that `O` names.
impl<O: EncodingOrder> Ord for OrderedValue<O> {
    ghost cmp = { ordered_value_cmp O.order };

    ghost total = { ordered_value_cmp_total O.order };

    ghost matches_partial_cmp = { λ v w. refl };

    ghost matches_eq = { ordered_value_matches_eq O.order };

    fn cmp(&self, other: &OrderedValue<O>) -> Ordering
        ensures gives { result ≡ ordered_value_cmp O.order self.now other.now }
        ensures order { result ≡ key_order O.order (tree_of self.now) (tree_of other.now) }
    {
        cmp_keys(O::order(), &self.value, &other.value)
    }
}
