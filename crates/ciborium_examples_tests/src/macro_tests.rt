//! Trees as literals, as a user writes them, each with the tree that it is.
ghost use Rattle.std.specs.Prelude.{◌≡◌, ◌⊎◌, IfErr, IfOk, IsErr, codes, negsuc, pos, true};
ghost use Rattle.ciborium.specs.Tree as tree;
ghost use Rattle.ciborium.specs.View.{tree_of};
ghost use Rattle.ciborium_ll.specs.declared.kind.Kind.TheVariants.{Other};
ghost use Rattle.ciborium_value.specs.declared.error.Error.TheVariants.{Custom, Memory};

use crate::expectations::{expect, expect_written, is_error_of};
use ciborium::cbor;
use ciborium::literals::map_of_two;
use ciborium::value::{ByteBuf, Error, Kind, Value};
use ciborium_examples::own_types::Even;
use std::alloc::Global;
use std::test::Fail;

/// A map of two texts.
pub fn fun_and_amount(alloc: Global) -> Result<Value, Error>
    ensures ok { IfOk result (λ v. tree_of v ≡ tree.map
        (tree.tree_pair (tree.text (codes "Fun")) (tree.boolean true)
        (tree.tree_pair (tree.text (codes "Amt")) (tree.integer (negsuc 1))
        tree.no_tree_pairs))) }
    ensures err { IfErr result (λ e. e ≡ Memory) }
{
    cbor!(alloc, {"Fun" => true, "Amt" => -2})
}

/// A list as a key.
pub fn list_as_key(alloc: Global) -> Result<Value, Error>
    ensures ok { IfOk result (λ v. tree_of v ≡ tree.map (tree.tree_pair
        (tree.array (tree.tree (tree.integer (pos 1)) (tree.tree (tree.integer (pos 2))
        tree.no_trees))) tree.null tree.no_tree_pairs)) }
    ensures err { IfErr result (λ e. e ≡ Memory) }
{
    cbor!(alloc, {[1, 2] => null,})
}

/// A key twice.
pub fn a_key_twice(alloc: Global) -> Result<Value, Error>
    ensures ok { IfOk result (λ v. tree_of v ≡ tree.map
        (tree.tree_pair (tree.integer (pos 1)) (tree.integer (pos 2))
        (tree.tree_pair (tree.integer (pos 1)) (tree.integer (pos 3)) tree.no_tree_pairs))) }
    ensures err { IfErr result (λ e. e ≡ Memory) }
{
    cbor!(alloc, {1 => 2, 1 => 3})
}

/// No item.
pub fn no_item(alloc: Global) -> Result<Value, Error>
    ensures ok { IfOk result (λ v. tree_of v ≡ tree.array tree.no_trees) }
    ensures err { IfErr result (λ e. e ≡ Memory) }
{
    cbor!(alloc, [])
}

/// An odd number has no item, and so a list with it has none.
pub fn odd_in_a_list(alloc: Global) -> Result<Value, Error>
    ensures err { IsErr result }
    ensures kind { IfErr result (λ e. (e ≡ Custom Other) ⊎ (e ≡ Memory)) }
{
    cbor!(alloc, [Even(3)])
}

/// A map inside a list inside a map.
pub fn three_deep(alloc: Global) -> Result<Value, Error>
    ensures ok { IfOk result (λ v. tree_of v ≡ tree.map (tree.tree_pair (tree.text (codes "a"))
        (tree.array (tree.tree (tree.integer (pos 1)) (tree.tree (tree.integer (pos 2)) (tree.tree
        (tree.map (tree.tree_pair (tree.integer (pos 6)) (tree.integer (pos 0))
        (tree.tree_pair (tree.integer (pos 7)) (tree.text (codes "here")) tree.no_tree_pairs)))
        tree.no_trees)))) tree.no_tree_pairs)) }
    ensures err { IfErr result (λ e. e ≡ Memory) }
{
    cbor!(alloc, {"a" => [1, 2, {6 => 0, 7 => "here"}]})
}

/// Parameters as items.
pub fn number_and_flag(alloc: Global, number: u64, flag: bool) -> Result<Value, Error>
    ensures ok { IfOk result (λ v. tree_of v ≡ tree.map (tree.tree_pair (tree.text (codes "a"))
        (tree.array (tree.tree (tree.integer (pos number)) (tree.tree (tree.boolean flag)
        tree.no_trees))) tree.no_tree_pairs)) }
    ensures err { IfErr result (λ e. e ≡ Memory) }
{
    cbor!(alloc, {"a" => [number, flag]})
}

/// An odd number has no item, and so neither have the maps and lists around it.
pub fn odd_far_inside(alloc: Global) -> Result<Value, Error>
    ensures err { IsErr result }
    ensures kind { IfErr result (λ e. (e ≡ Custom Other) ⊎ (e ≡ Memory)) }
{
    cbor!(alloc, {"a" => [1, {2 => Even(3), "b" => [null]}]})
}

// References and copies of every type, in maps and lists and as keys.
fn of_variables(
    alloc: Global,
    name: &str,
    text: &String,
    bytes: &ByteBuf,
    numbers: &Vec<u8>,
    number: u64,
    flag: bool,
    none: Option<u8>,
) -> Result<Value, Error> {
    cbor!(alloc, {
        "name" => name,
        "text" => text,
        number => {flag => [none, {"in" => [name, [text, [bytes, numbers]]]}]},
        [name, 1] => [[], {}, null],
        {1 => "x"} => "end",
    })
}

fn twenty_pairs(alloc: Global) -> Result<Value, Error> {
    cbor!(alloc, {
        "a" => 1, "b" => 2, "c" => 3, "d" => 4, "e" => 5, "f" => 6, "g" => 7, "h" => 8, "i" => 9,
        "j" => "ten", "k" => 11, "l" => 12, "m" => 13, "n" => 14, "o" => 15, "p" => "q",
        "r" => "s", "t" => true, "u" => null, "v" => [],
    })
}

// The names that the macro itself gives to locals stand for the caller's in its parts, and an
// early return is the caller's own.
fn of_own_names(outer: Global, items: u8, pairs: &str, alloc: Option<u8>) -> Result<Value, Error> {
    let made: Result<u8, Error> = Ok(4);
    cbor!(outer, [items, {pairs => items}, [pairs, alloc], items / 2, made?])
}

#[test]
fn literals_are_written(rt: HostRuntime) -> Result<(), Fail> {
    let alloc = rt.alloc();
    expect_written(alloc, fun_and_amount(alloc), "a26346756ef563416d7421")?;
    expect_written(alloc, list_as_key(alloc), "a1820102f6")?;
    expect_written(alloc, a_key_twice(alloc), "a201020103")?;
    expect_written(alloc, no_item(alloc), "80")?;
    expect_written(alloc, map_of_two(alloc, &1, &2, &1, &3), "a201020103")?;
    let odd = odd_in_a_list(alloc);
    expect(
        is_error_of(odd, Error::Custom(Kind::Other)),
        "an odd number",
    )?;
    let far = odd_far_inside(alloc);
    expect(
        is_error_of(far, Error::Custom(Kind::Other)),
        "an odd number far inside",
    )?;
    check_parts(alloc)
}

#[test]
fn nested_literals_are_written(rt: HostRuntime) -> Result<(), Fail> {
    let alloc = rt.alloc();
    expect_written(alloc, three_deep(alloc), "a16161830102a20600076468657265")?;
    expect_written(
        alloc,
        number_and_flag(alloc, 500, false),
        "a16161821901f4f4",
    )?;
    let text = String::from_str(alloc, "t")?;
    let bytes = ByteBuf(vec![in alloc; 1u8, 2]?);
    let numbers = vec![in alloc; 7u8, 8]?;
    expect_written(
        alloc,
        of_variables(alloc, "n", &text, &bytes, &numbers, 300, true, None),
        concat!(
            "a5646e616d65616e6474657874617419012ca1f582f6a162696e82616e826174",
            "8242010282070882616e018380a0f6a101617863656e64",
        ),
    )?;
    expect_written(
        alloc,
        twenty_pairs(alloc),
        concat!(
            "b4616101616202616303616404616505616606616707616808616909",
            "616a6374656e616b0b616c0c616d0d616e0e616f0f6170617161726173",
            "6174f56175f6617680",
        ),
    )?;
    expect_written(
        alloc,
        of_own_names(alloc, 3, "p", None),
        "8503a1617003826170f60104",
    )
}

// Parts of every form.
fn check_parts(alloc: Global) -> Result<(), Fail> {
    expect_written(alloc, cbor!(alloc, null), "f6")?;
    expect_written(alloc, cbor!(alloc, 1 + 1), "02")?;
    expect_written(alloc, cbor!(alloc, {}), "a0")?;
    expect_written(
        alloc,
        cbor!(alloc, [null, [], {}, "a", (1, 2),]),
        "85f680a06161820102",
    )?;
    expect_written(
        alloc,
        cbor!(alloc, {null => [1], {} => {}, 1 => 2}),
        "a3f68101a0a00102",
    )
}
