//! A type that holds itself. It is read as a `Value`, of which it is made.
ghost use Rattle.std.specs.Prelude.{◌≡◌, ◌⊎◌, IfErr, IfOk, Ok, false, map, true};
ghost use Rattle.ciborium.specs.Encoding.{item_of};
ghost use Rattle.ciborium.specs.Nesting.{nesting};
ghost use Rattle.ciborium.specs.Readings.{such_that};
ghost use Rattle.ciborium.specs.ReadsBack.{by_form};
ghost use Rattle.ciborium.specs.Tree as trees;
ghost use Rattle.ciborium.specs.ValueLists.{trees_of};
ghost use Rattle.ciborium.specs.View.{tree_of};
ghost use Rattle.ciborium.specs.WrittenContents.{from_content};
ghost use Rattle.ciborium_ll.specs.declared.kind.Kind.TheVariants.{Other};
ghost use Rattle.ciborium_value.specs.declared.error.Error.TheVariants.{Custom, Memory};
ghost use Rattle.ciborium_examples.specs.NumberTrees.{are_number_trees, is_number_tree};
ghost use Rattle.ciborium_examples.specs.NumberTrees.{number_tree-back, shape_of};

use ciborium::de::{Deserialize, Source};
use ciborium::laws::{FormReadsBack, ReadsBack, WritesContent};
use ciborium::ser::{Serialize, Sink};
use ciborium::value::{Error, Kind, Value};
use std::alloc::Global;
use std::convert::TryFrom;

/// A number, or a list of such trees.
#[derive(Debug, Drop, PartialEq)]
pub enum NumberTree {
    Leaf(u8),
    Node(Vec<NumberTree>),
}

impl Serialize for NumberTree {
    ghost written = { λ t. Ok (item_of (shape_of t)) };

    ghost takes_memory = { ⊥ };

    fn serialize<S: Sink>(&self, sink: &mut S) -> Result<(), S::Error> {
        match self {
            NumberTree::Leaf(number) => number.serialize(sink),
            NumberTree::Node(parts) => parts.serialize(sink),
        }
    }
}

impl Deserialize for NumberTree {
    ghost Content = { trees.Tree };

    ghost reading = { such_that shape_of ⟦<Value as Deserialize>⟧.reading is_number_tree Other };

    fn deserialize<S: Source>(alloc: Global, source: &mut S) -> Result<NumberTree, S::Error> {
        let value = Value::deserialize(alloc, source)?;
        match grow(alloc, &value) {
            Ok(tree) => Ok(tree),
            Err(Error::Custom(kind)) => Err(source.refuse(kind)),
            Err(Error::Memory) => Err(source.memory()),
        }
    }
}

// It takes as many levels as it nests.
impl ReadsBack for NumberTree {
    ghost is_valid = { λ t. is_number_tree (shape_of t) ≡ true };

    ghost levels = { λ t. nesting (item_of (shape_of t)) };

    ghost reads_back = { λ way plain t valid. number_tree-back way (shape_of t) valid };
}

// It has no map and no bignum, so it is its own form.
impl FormReadsBack for NumberTree {
    ghost form_reads_back = { λ order t valid.
        number_tree-back (by_form order) (shape_of t) valid };
}

impl WritesContent for NumberTree {
    ghost writes_content = { from_content (λ t. Ok (item_of t)) _ };
}

// The tree that this value is; any other value is refused as `Other`.
#[cycle(grow)]
fn grow(alloc: Global, value: &Value) -> Result<NumberTree, Error>
    ensures ok { IfOk result (λ t. (is_number_tree (tree_of value.now) ≡ true)
        × (shape_of t ≡ tree_of value.now)) }
    ensures refused { IfErr result (λ e. (e ≡ Memory)
        ⊎ ((e ≡ Custom Other) × (is_number_tree (tree_of value.now) ≡ false))) }
{
    match value {
        Value::Integer(number) => match u8::try_from(*number) {
            Ok(number) => Ok(NumberTree::Leaf(number)),
            Err(_) => Err(Error::Custom(Kind::Other)),
        },
        Value::Array(values) => {
            let parts = grow_each(alloc, values)?;
            Ok(NumberTree::Node(parts))
        }
        _ => Err(Error::Custom(Kind::Other)),
    }
}

// The trees that these values are.
#[cycle(grow)]
fn grow_each(alloc: Global, values: &Vec<Value>) -> Result<Vec<NumberTree>, Error>
    ensures ok { IfOk result (λ ts. (are_number_trees (trees_of values.now.items) ≡ true)
        × (map shape_of ts.items ≡ map tree_of values.now.items)) }
    ensures refused { IfErr result (λ e. (e ≡ Memory)
        ⊎ ((e ≡ Custom Other) × (are_number_trees (trees_of values.now.items) ≡ false))) }
{
    let mut trees = Vec::new(alloc);
    for value in values {
        let tree = grow(alloc, value)?;
        match trees.push(tree) {
            Ok(()) => {}
            Err(_) => return Err(Error::Memory),
        }
    }
    Ok(trees)
}
