//! What a `Value` is and holds. None of these calls takes memory.

ghost use Rattle.std.specs.Prelude.{◌≡◌, ◌↔◌, IsTrue, IfSome, IfNone, IfOk, IfErr, MatchOption};
ghost use Rattle.std.specs.Prelude.{OnErr, string_bytes};
ghost use Rattle.std.specs.Borrow.{LendsIf, sem};
ghost use Rattle.std.specs.Box.{box_follows};
ghost use Rattle.std.specs.contracts.alloc.Global as global;
ghost use Rattle.std.specs.contracts.impls.GlobalAllocator.TheImpl.{ghosts};
ghost use Rattle.ciborium_value.specs.LentParts.{LendsTag};
ghost use Rattle.ciborium_value.specs.Rows.{array_row, bytes_row, map_row, text_row};
ghost use Rattle.ciborium_value.specs.Tree as trees;
ghost use Rattle.ciborium_value.specs.TreeVariants.{IsArrayTree, IsBoolTree, IsBytesTree};
ghost use Rattle.ciborium_value.specs.TreeVariants.{IsIntegerTree, IsMapTree, IsTagTree};
ghost use Rattle.ciborium_value.specs.TreeVariants.{IsTextTree};
ghost use Rattle.ciborium_value.specs.Variants.{IsArray, IsBool, IsBytes, IsInteger, IsMap};
ghost use Rattle.ciborium_value.specs.Variants.{IsTag, IsTagOf, IsText, IsTextOf};
ghost use Rattle.ciborium_value.specs.ValueLists.{tree_pairs_of, trees_of};
ghost use Rattle.ciborium_value.specs.View.{tree_of};
ghost use Rattle.ciborium_value.specs.contracts.tree.Value.{the_row};
ghost use Rattle.ciborium_value.specs.declared.tree.Value as value;

use crate::tree::Value;
use ciborium_ll::Integer;

impl Value {
    /// Whether the value is an integer.
    pub fn is_integer(&self) -> bool
        ensures value { IsTrue result ↔ IsInteger self.now }
        ensures tree { IsTrue result ↔ IsIntegerTree (tree_of self.now) }
    {
        matches!(self, Value::Integer(_))
    }

    /// The number of that variant, else `None`.
    pub fn as_integer(&self) -> Option<Integer>
        ensures some { IfSome result (λ z. self.now ≡ value.Integer z) }
        ensures none { IfNone result (¬ IsInteger self.now) }
        ensures tree { MatchOption result (¬ IsIntegerTree (tree_of self.now))
            (λ z. tree_of self.now ≡ trees.integer z) }
    {
        match self {
            Value::Integer(number) => Some(*number),
            _ => None,
        }
    }

    /// The number of that variant, else the value itself as the error.
    pub fn into_integer(self) -> Result<Integer, Value>
        ensures ok { IfOk result (λ z. self ≡ value.Integer z) }
        ensures err { IfErr result (λ v. (v ≡ self) × ¬ IsInteger self) }
        ensures ok_tree { IfOk result (λ z. tree_of self ≡ trees.integer z) }
        ensures err_tree { OnErr result (¬ IsIntegerTree (tree_of self)) }
    {
        match self {
            Value::Integer(number) => Ok(number),
            value => Err(value),
        }
    }

    /// Whether the value is a byte string.
    pub fn is_bytes(&self) -> bool
        ensures value { IsTrue result ↔ IsBytes self.now }
        ensures tree { IsTrue result ↔ IsBytesTree (tree_of self.now) }
    {
        matches!(self, Value::Bytes(_))
    }

    /// The bytes of that variant, else `None`.
    pub fn as_bytes(&self) -> Option<&Vec<u8>>
        ensures some { IfSome result (λ b. self.now ≡ value.Bytes b.now) }
        ensures none { IfNone result (¬ IsBytes self.now) }
        ensures tree { MatchOption result (¬ IsBytesTree (tree_of self.now))
            (λ b. tree_of self.now ≡ trees.bytes b.now.items) }
    {
        match self {
            Value::Bytes(bytes) => Some(bytes),
            _ => None,
        }
    }

    /// The bytes of that variant, else `None`. What is written through the reference is the
    /// content afterwards, and the variant stays.
    pub fn as_bytes_mut(&mut self) -> Option<&mut Vec<u8>>
        ensures* writes_back { sem 𝓛
            (LendsIf the_row bytes_row self.entry result value.Bytes self.old) }
        ensures some { IfSome result (λ b. self.old ≡ value.Bytes b.now) }
        ensures none { IfNone result (¬ IsBytes self.old) }
        ensures tree { MatchOption result (¬ IsBytesTree (tree_of self.old))
            (λ b. tree_of self.old ≡ trees.bytes b.now.items) }
    {
        if let Value::Bytes(bytes) = self {
            Some(bytes)
        } else {
            None
        }
    }

    /// The bytes of that variant, else the value itself as the error.
    pub fn into_bytes(self) -> Result<Vec<u8>, Value>
        ensures ok { IfOk result (λ b. self ≡ value.Bytes b) }
        ensures err { IfErr result (λ v. (v ≡ self) × ¬ IsBytes self) }
        ensures ok_tree { IfOk result (λ b. tree_of self ≡ trees.bytes b.items) }
        ensures err_tree { OnErr result (¬ IsBytesTree (tree_of self)) }
    {
        match self {
            Value::Bytes(bytes) => Ok(bytes),
            value => Err(value),
        }
    }

    /// Whether the value is a text.
    pub fn is_text(&self) -> bool
        ensures value { IsTrue result ↔ IsText self.now }
        ensures tree { IsTrue result ↔ IsTextTree (tree_of self.now) }
    {
        matches!(self, Value::Text(_))
    }

    /// The text of that variant, else `None`.
    pub fn as_text(&self) -> Option<&str>
        ensures some { IfSome result (λ t. IsTextOf self.now t.now) }
        ensures none { IfNone result (¬ IsText self.now) }
        ensures tree { MatchOption result (¬ IsTextTree (tree_of self.now))
            (λ t. tree_of self.now ≡ trees.text t.now) }
    {
        match self {
            Value::Text(text) => Some(text),
            _ => None,
        }
    }

    /// The text of that variant, else `None`. What is written through the reference is the
    /// content afterwards, and the variant stays.
    pub fn as_text_mut(&mut self) -> Option<&mut String>
        ensures* writes_back { sem 𝓛
            (LendsIf the_row text_row self.entry result value.Text self.old) }
        ensures some { IfSome result (λ t. self.old ≡ value.Text t.now) }
        ensures none { IfNone result (¬ IsText self.old) }
        ensures tree { MatchOption result (¬ IsTextTree (tree_of self.old))
            (λ t. tree_of self.old ≡ trees.text (string_bytes t.now)) }
    {
        if let Value::Text(text) = self {
            Some(text)
        } else {
            None
        }
    }

    /// The text of that variant, else the value itself as the error.
    pub fn into_text(self) -> Result<String, Value>
        ensures ok { IfOk result (λ t. self ≡ value.Text t) }
        ensures err { IfErr result (λ v. (v ≡ self) × ¬ IsText self) }
        ensures ok_tree { IfOk result (λ t. tree_of self ≡ trees.text (string_bytes t)) }
        ensures err_tree { OnErr result (¬ IsTextTree (tree_of self)) }
    {
        match self {
            Value::Text(text) => Ok(text),
            value => Err(value),
        }
    }

    /// Whether the value is false or true.
    pub fn is_bool(&self) -> bool
        ensures value { IsTrue result ↔ IsBool self.now }
        ensures tree { IsTrue result ↔ IsBoolTree (tree_of self.now) }
    {
        matches!(self, Value::Bool(_))
    }

    /// The boolean of that variant, else `None`.
    pub fn as_bool(&self) -> Option<bool>
        ensures some { IfSome result (λ b. self.now ≡ value.Bool b) }
        ensures none { IfNone result (¬ IsBool self.now) }
        ensures tree { MatchOption result (¬ IsBoolTree (tree_of self.now))
            (λ b. tree_of self.now ≡ trees.boolean b) }
    {
        match self {
            Value::Bool(boolean) => Some(*boolean),
            _ => None,
        }
    }

    /// The boolean of that variant, else the value itself as the error.
    pub fn into_bool(self) -> Result<bool, Value>
        ensures ok { IfOk result (λ b. self ≡ value.Bool b) }
        ensures err { IfErr result (λ v. (v ≡ self) × ¬ IsBool self) }
        ensures ok_tree { IfOk result (λ b. tree_of self ≡ trees.boolean b) }
        ensures err_tree { OnErr result (¬ IsBoolTree (tree_of self)) }
    {
        match self {
            Value::Bool(boolean) => Ok(boolean),
            value => Err(value),
        }
    }

    /// Whether the value is null.
    pub fn is_null(&self) -> bool
        ensures value { IsTrue result ↔ (self.now ≡ value.Null) }
        ensures tree { IsTrue result ↔ (tree_of self.now ≡ trees.null) }
    {
        matches!(self, Value::Null)
    }

    /// Whether the value is a tag.
    pub fn is_tag(&self) -> bool
        ensures value { IsTrue result ↔ IsTag self.now }
        ensures tree { IsTrue result ↔ IsTagTree (tree_of self.now) }
    {
        matches!(self, Value::Tag(_, _))
    }

    /// The number and the content of that variant, else `None`.
    pub fn as_tag(&self) -> Option<(u64, &Value)>
        ensures some { IfSome result (λ p. IsTagOf self.now p.0 p.1.now) }
        ensures none { IfNone result (¬ IsTag self.now) }
        ensures tree { MatchOption result (¬ IsTagTree (tree_of self.now))
            (λ p. tree_of self.now ≡ trees.tag p.0 (tree_of p.1.now)) }
    {
        match self {
            Value::Tag(tag, content) => Some((*tag, content)),
            _ => None,
        }
    }

    /// The number and the content of that variant, else `None`. What is written through the
    /// references is the number and the content afterwards, and the variant stays.
    pub fn as_tag_mut(&mut self) -> Option<(&mut u64, &mut Value)>
        ensures* writes_back { sem 𝓛 (LendsTag self.entry result) }
        ensures some { IfSome result (λ p. IsTagOf self.old p.0.now p.1.now) }
        ensures none { IfNone result (¬ IsTag self.old) }
        ensures tree { MatchOption result (¬ IsTagTree (tree_of self.old))
            (λ p. tree_of self.old ≡ trees.tag p.0.now (tree_of p.1.now)) }
    {
        if let Value::Tag(tag, content) = self {
            Some((tag, lend_content(content)))
        } else {
            None
        }
    }

    /// The number and the content of that variant, else the value itself as the error.
    pub fn into_tag(self) -> Result<(u64, Box<Value>), Value>
        ensures ok { IfOk result (λ p. self ≡ value.Tag p.0 p.1) }
        ensures err { IfErr result (λ v. (v ≡ self) × ¬ IsTag self) }
        ensures ok_tree { IfOk result (λ p. tree_of self ≡ trees.tag p.0 (tree_of p.1.value)) }
        ensures err_tree { OnErr result (¬ IsTagTree (tree_of self)) }
    {
        match self {
            Value::Tag(tag, content) => Ok((tag, content)),
            value => Err(value),
        }
    }

    /// Whether the value is an array.
    pub fn is_array(&self) -> bool
        ensures value { IsTrue result ↔ IsArray self.now }
        ensures tree { IsTrue result ↔ IsArrayTree (tree_of self.now) }
    {
        matches!(self, Value::Array(_))
    }

    /// The items of that variant, else `None`.
    pub fn as_array(&self) -> Option<&Vec<Value>>
        ensures some { IfSome result (λ vs. self.now ≡ value.Array vs.now) }
        ensures none { IfNone result (¬ IsArray self.now) }
        ensures tree { MatchOption result (¬ IsArrayTree (tree_of self.now))
            (λ vs. tree_of self.now ≡ trees.array (trees_of vs.now.items)) }
    {
        match self {
            Value::Array(values) => Some(values),
            _ => None,
        }
    }

    /// The items of that variant, else `None`. What is written through the reference is the
    /// content afterwards, and the variant stays.
    pub fn as_array_mut(&mut self) -> Option<&mut Vec<Value>>
        ensures* writes_back { sem 𝓛
            (LendsIf the_row array_row self.entry result value.Array self.old) }
        ensures some { IfSome result (λ vs. self.old ≡ value.Array vs.now) }
        ensures none { IfNone result (¬ IsArray self.old) }
        ensures tree { MatchOption result (¬ IsArrayTree (tree_of self.old))
            (λ vs. tree_of self.old ≡ trees.array (trees_of vs.now.items)) }
    {
        if let Value::Array(values) = self {
            Some(values)
        } else {
            None
        }
    }

    /// The items of that variant, else the value itself as the error.
    pub fn into_array(self) -> Result<Vec<Value>, Value>
        ensures ok { IfOk result (λ vs. self ≡ value.Array vs) }
        ensures err { IfErr result (λ v. (v ≡ self) × ¬ IsArray self) }
        ensures ok_tree { IfOk result (λ vs. tree_of self ≡ trees.array (trees_of vs.items)) }
        ensures err_tree { OnErr result (¬ IsArrayTree (tree_of self)) }
    {
        match self {
            Value::Array(values) => Ok(values),
            value => Err(value),
        }
    }

    /// Whether the value is a map.
    pub fn is_map(&self) -> bool
        ensures value { IsTrue result ↔ IsMap self.now }
        ensures tree { IsTrue result ↔ IsMapTree (tree_of self.now) }
    {
        matches!(self, Value::Map(_))
    }

    /// The pairs of that variant, else `None`.
    pub fn as_map(&self) -> Option<&Vec<(Value, Value)>>
        ensures some { IfSome result (λ ps. self.now ≡ value.Map ps.now) }
        ensures none { IfNone result (¬ IsMap self.now) }
        ensures tree { MatchOption result (¬ IsMapTree (tree_of self.now))
            (λ ps. tree_of self.now ≡ trees.map (tree_pairs_of ps.now.items)) }
    {
        match self {
            Value::Map(pairs) => Some(pairs),
            _ => None,
        }
    }

    /// The pairs of that variant, else `None`. What is written through the reference is the
    /// content afterwards, and the variant stays.
    pub fn as_map_mut(&mut self) -> Option<&mut Vec<(Value, Value)>>
        ensures* writes_back { sem 𝓛
            (LendsIf the_row map_row self.entry result value.Map self.old) }
        ensures some { IfSome result (λ ps. self.old ≡ value.Map ps.now) }
        ensures none { IfNone result (¬ IsMap self.old) }
        ensures tree { MatchOption result (¬ IsMapTree (tree_of self.old))
            (λ ps. tree_of self.old ≡ trees.map (tree_pairs_of ps.now.items)) }
    {
        if let Value::Map(pairs) = self {
            Some(pairs)
        } else {
            None
        }
    }

    /// The pairs of that variant, else the value itself as the error.
    pub fn into_map(self) -> Result<Vec<(Value, Value)>, Value>
        ensures ok { IfOk result (λ ps. self ≡ value.Map ps) }
        ensures err { IfErr result (λ v. (v ≡ self) × ¬ IsMap self) }
        ensures ok_tree { IfOk result (λ ps. tree_of self ≡ trees.map (tree_pairs_of ps.items)) }
        ensures err_tree { OnErr result (¬ IsMapTree (tree_of self)) }
    {
        match self {
            Value::Map(pairs) => Ok(pairs),
            value => Err(value),
        }
    }
}

// The value in a box. It is borrowed here, so that the proof of `as_tag_mut` calls no generic
// function.
fn lend_content(content: &mut Box<Value>) -> &mut Value
    ensures* writes_back { sem 𝓛 (box_follows the_row global.the_row ghosts content.entry result) }
    ensures value { result.now ≡ content.old.value }
{
    content
}
