//! The arrays, maps and tags that are unfinished while a text is read, and what each token does to
//! them.

ghost use Rattle.std.specs.Prelude.{◌≡◌, [], IfErr, IfOk, List, Some, length, map, nat_le, ℕ};
ghost use Rattle.ciborium_value.specs.Tokens.{behind_blanks};
ghost use Rattle.ciborium_value.specs.Tree.{Tree};
ghost use Rattle.ciborium_value.specs.ValueLists.{pair_trees};
ghost use Rattle.ciborium_value.specs.View.{tree_of};
ghost use Rattle.ciborium_value.specs.inner.ReadTokens.{Completes, Makes, Takes, around_in};
ghost use Rattle.ciborium_value.specs.inner.ReadTokens.{around_of, array_part, await_of, behind};
ghost use Rattle.ciborium_value.specs.inner.ReadTokens.{in_array, in_keys, in_tag, in_values, item};
ghost use Rattle.ciborium_value.specs.inner.ReadTokens.{map_part, token_read};

use super::error::{NotationError, NotationFault};
use super::tokens::Token;
use crate::tree::Value;
use std::alloc::Global;

/// An array, map or tag that is unfinished, with what is in it so far.
#[derive(Drop)]
pub enum Level {
    Array(Vec<Value>),
    /// A map in which a key is due.
    Keys(Vec<(Value, Value)>),
    /// A map in which the value of this key is due.
    Values(Vec<(Value, Value)>, Value),
    Tag(u64),
}

/// What is due next.
#[derive(Drop)]
pub enum Due {
    /// An item.
    Item,
    /// The first item of an array, or its end.
    ArrayPart,
    /// The first key of a map, or its end.
    MapPart,
    /// What follows an item that has ended.
    Behind(Value),
}

/// What a token behind an item makes of the innermost level.
#[derive(Drop)]
enum Step {
    /// One more item is due in it.
    More(Level),
    /// It has ended, as this item.
    End(Value),
}

/// The levels around a place in a text, the innermost at the top.
#[derive(Drop)]
pub struct Levels {
    levels: Vec<Level>,
    limit: usize,
    alloc: Global,
}

impl Levels {
    /// None is unfinished, and so many may be.
    pub fn new(alloc: Global, limit: usize) -> Levels
        ensures levels { around_in result ≡ [] }
        ensures limit { result.limit ≡ limit }
    {
        Levels {
            levels: Vec::new(alloc),
            limit,
            alloc,
        }
    }

    /// The value, where the text ends and this is due: an item that is in no level.
    ///
    /// # Errors
    ///
    /// What is wanted at the end.
    pub fn end(&self, due: Due) -> Result<Value, NotationError>
        ensures ok { IfOk result (λ v. (around_in self.now ≡ []) ×
            (await_of due ≡ behind (tree_of v))) }
        ensures refused { IfErr result (λ _. (l : ℕ) (t : List ℕ) (v : Tree) →
            behind_blanks t ≡ Some [] → ¬ Completes l (around_in self.now) (await_of due) t v) }
    {
        let Due::Behind(value) = due else {
            return Err(NotationError::At(0, NotationFault::Item));
        };
        match self.levels.last() {
            None => Ok(value),
            Some(level) => {
                drop(value);
                Err(NotationError::At(0, fault_behind(level)))
            }
        }
    }

    /// Takes a token at this place, where this is due, and says what is due behind it.
    ///
    /// # Errors
    ///
    /// Why it may not stand there, and `Memory`.
    pub fn take(&mut self, due: Due, token: Token, place: usize) -> Result<Due, NotationError>
        ensures taken { Takes self.old.limit self.old.levels.items (await_of due)
            (token_read token) self.new.levels.items result }
        ensures limit { self.new.limit ≡ self.old.limit }
    {
        match due {
            Due::Item => self.take_item(token, place),
            Due::ArrayPart => self.take_array_part(token, place),
            Due::MapPart => self.take_map_part(token, place),
            Due::Behind(value) => self.take_behind(value, &token, place),
        }
    }

    // Takes the first token of an item.
    fn take_item(&mut self, token: Token, place: usize) -> Result<Due, NotationError>
        ensures taken { Takes self.old.limit self.old.levels.items item (token_read token)
            self.new.levels.items result }
        ensures limit { self.new.limit ≡ self.old.limit }
    {
        if token.enters_level() && self.is_full() {
            return Err(NotationError::At(place, NotationFault::TooDeep));
        }
        match token {
            Token::Leaf(value) => Ok(Due::Behind(value)),
            Token::BeginTag(tag) => {
                self.levels.push(Level::Tag(tag))?;
                Ok(Due::Item)
            }
            Token::BeginArray => Ok(Due::ArrayPart),
            Token::BeginMap => Ok(Due::MapPart),
            _ => Err(NotationError::At(place, NotationFault::Item)),
        }
    }

    // Whether as many levels are unfinished as may be.
    fn is_full(&self) -> bool
        ensures { result ≡ nat_le self.now.limit (length self.now.levels.items) }
    {
        self.levels.len() >= self.limit
    }

    // Takes the first token of the first item of an array, or its end.
    fn take_array_part(&mut self, token: Token, place: usize) -> Result<Due, NotationError>
        ensures taken { Takes self.old.limit self.old.levels.items array_part (token_read token)
            self.new.levels.items result }
        ensures limit { self.new.limit ≡ self.old.limit }
    {
        let items = Vec::new(self.alloc);
        if let Token::EndArray = token {
            return Ok(Due::Behind(Value::Array(items)));
        }
        self.levels.push(Level::Array(items))?;
        self.take_item(token, place)
    }

    // Takes the first token of the first key of a map, or its end.
    fn take_map_part(&mut self, token: Token, place: usize) -> Result<Due, NotationError>
        ensures taken { Takes self.old.limit self.old.levels.items map_part (token_read token)
            self.new.levels.items result }
        ensures limit { self.new.limit ≡ self.old.limit }
    {
        let pairs = Vec::new(self.alloc);
        if let Token::EndMap = token {
            return Ok(Due::Behind(Value::Map(pairs)));
        }
        self.levels.push(Level::Keys(pairs))?;
        self.take_item(token, place)
    }

    // Takes what follows an item.
    fn take_behind(
        &mut self,
        value: Value,
        token: &Token,
        place: usize,
    ) -> Result<Due, NotationError>
        ensures taken { Takes self.old.limit self.old.levels.items (behind (tree_of value))
            (token_read token.now) self.new.levels.items result }
        ensures limit { self.new.limit ≡ self.old.limit }
    {
        let Some(level) = self.levels.pop() else {
            drop(value);
            return Err(NotationError::At(place, NotationFault::End));
        };
        let step = match step_behind(self.alloc, level, value, token, place) {
            Ok(step) => step,
            Err(error) => return Err(error),
        };
        match step {
            Step::More(level) => {
                self.levels.push(level)?;
                Ok(Due::Item)
            }
            Step::End(value) => Ok(Due::Behind(value)),
        }
    }
}

// What a token makes of a level behind an item in it.
fn step_behind(
    alloc: Global,
    level: Level,
    value: Value,
    token: &Token,
    place: usize,
) -> Result<Step, NotationError>
    ensures { Makes (around_of level) (tree_of value) (token_read token.now) result }
{
    match level {
        Level::Array(items) => step_behind_item(items, value, token, place),
        Level::Keys(pairs) => step_behind_key(pairs, value, token, place),
        Level::Values(pairs, key) => step_behind_value(pairs, (key, value), token, place),
        Level::Tag(tag) => step_behind_content(alloc, tag, value, token, place),
    }
}

// The same of an array.
fn step_behind_item(
    mut items: Vec<Value>,
    value: Value,
    token: &Token,
    place: usize,
) -> Result<Step, NotationError>
    ensures { Makes (in_array (map tree_of items.items)) (tree_of value) (token_read token.now)
        result }
{
    match token {
        Token::Comma => {
            items.push(value)?;
            Ok(Step::More(Level::Array(items)))
        }
        Token::EndArray => {
            items.push(value)?;
            Ok(Step::End(Value::Array(items)))
        }
        _ => {
            drop(value);
            Err(NotationError::At(place, NotationFault::ArrayEnd))
        }
    }
}

// The same behind a key of a map.
fn step_behind_key(
    pairs: Vec<(Value, Value)>,
    value: Value,
    token: &Token,
    place: usize,
) -> Result<Step, NotationError>
    ensures { Makes (in_keys (map pair_trees pairs.items)) (tree_of value) (token_read token.now)
        result }
{
    match token {
        Token::Colon => Ok(Step::More(Level::Values(pairs, value))),
        _ => {
            drop(value);
            Err(NotationError::At(place, NotationFault::Colon))
        }
    }
}

// The same behind a pair of a map.
fn step_behind_value(
    mut pairs: Vec<(Value, Value)>,
    pair: (Value, Value),
    token: &Token,
    place: usize,
) -> Result<Step, NotationError>
    ensures { Makes (in_values (map pair_trees pairs.items) (tree_of pair.0)) (tree_of pair.1)
        (token_read token.now) result }
{
    match token {
        Token::Comma => {
            pairs.push(pair)?;
            Ok(Step::More(Level::Keys(pairs)))
        }
        Token::EndMap => {
            pairs.push(pair)?;
            Ok(Step::End(Value::Map(pairs)))
        }
        _ => {
            drop(pair);
            Err(NotationError::At(place, NotationFault::MapEnd))
        }
    }
}

// The same of a tag.
fn step_behind_content(
    alloc: Global,
    tag: u64,
    value: Value,
    token: &Token,
    place: usize,
) -> Result<Step, NotationError>
    ensures { Makes (in_tag tag) (tree_of value) (token_read token.now) result }
{
    match token {
        Token::EndTag => Ok(Step::End(Value::Tag(tag, Box::new(alloc, value)?))),
        _ => {
            drop(value);
            Err(NotationError::At(place, NotationFault::TagEnd))
        }
    }
}

// What is wrong where no token stands that may follow an item in this level.
fn fault_behind(level: &Level) -> NotationFault {
    match level {
        Level::Array(_) => NotationFault::ArrayEnd,
        Level::Keys(_) => NotationFault::Colon,
        Level::Values(..) => NotationFault::MapEnd,
        Level::Tag(_) => NotationFault::TagEnd,
    }
}
