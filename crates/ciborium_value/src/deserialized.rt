//! Values as sources to read from.

ghost use Rattle.std.specs.Prelude.{◌≡◌, IfErr, IfOk, None};
ghost use Rattle.ciborium_value.specs.Sources.{IsGrantedFault};
ghost use Rattle.ciborium_value.specs.Given.{gives, outcome};
ghost use Rattle.ciborium_value.specs.inner.TreeSources.{IsTreeAt, IsTreeLevelAt, IsTreeSeqAt};
ghost use Rattle.ciborium_value.specs.inner.TreeSources.{level_weight, pending_due, seq_weight};
ghost use Rattle.ciborium_value.specs.inner.TreeSources.{source_weight};
ghost use Rattle.ciborium_value.specs.TreeAnswers.{IsErrorOf, tree_fault, value_item};

use crate::deserialize::Deserialize;
use crate::error::Error;
use crate::labels::Labels;
use crate::source::Source;
use crate::tree::Value;
use ciborium_ll::{Integer, Kind};
use std::alloc::Global;
use std::mem;

mod folding;
mod parts;

use folding::fold_value;
use parts::{
    copy_bytes, copy_name, copy_text, find_boolean, find_character, find_lone_pair, find_null,
    find_number, find_place, skip_tags,
};

impl Value {
    /// A value of another type, read from the item of this one as `from_reader` reads it from
    /// bytes, but without a limit on how deep it nests. Reading a `Value` recurses as deep.
    ///
    /// # Errors
    ///
    /// `Custom` with the kind with which a part is refused, `Memory` where an allocation failed.
    /// The value is left as it was.
    pub fn deserialized<T: Deserialize>(&self, alloc: Global) -> Result<T, Error>
        ensures ok { IfOk result
            (λ v. outcome None (T.reading.taken (value_item self.now))
            ≡ gives (T.reading.content v)) }
        ensures refused { IfErr result
            (λ e. IsErrorOf e (outcome None (T.reading.taken (value_item self.now)))) }
        ensures memory { IfErr result (λ e. IsGrantedFault (tree_fault e) T.reading.needs_memory) }
    {
        let mut source = TreeSource {
            ahead: Pending::Whole(self),
            due: None,
        };
        T::deserialize(alloc, &mut source)
    }
}

// What is read next: a value; a byte of a byte string that is read as a sequence; or the null that
// is the data of a variant which is a text.
#[derive(Drop)]
pub(crate) enum Pending<'a> {
    Nothing,
    Whole(&'a Value),
    Byte(u8),
    Null,
}

// A source over a tree.
#[derive(Drop)]
pub(crate) struct TreeSource<'a> {
    ahead: Pending<'a>,
    // The value of a map, behind the key that is ahead.
    due: Option<&'a Value>,
}

// What is left of a container.
#[derive(Drop)]
pub(crate) enum Left<'a> {
    Items(&'a [Value]),
    Bytes(&'a [u8]),
    Pairs(&'a [(Value, Value)]),
}

// A container that is read, and the value that is due behind it.
#[derive(Drop)]
pub(crate) struct TreeSeq<'a> {
    left: Left<'a>,
    due: Option<&'a Value>,
}

// The value that is due behind the content of a tag or a variant.
#[derive(Drop)]
pub(crate) struct TreeLevel<'a> {
    due: Option<&'a Value>,
}

impl<'a> TreeSource<'a> {
    // What is ahead; the value that is due comes next.
    fn take(&mut self) -> Pending<'a>
        ensures ahead { result ≡ self.old.ahead }
        ensures next { self.new.ahead ≡ pending_due self.old.due }
        ensures due { self.new.due ≡ None }
    {
        let next = match self.due.take() {
            Some(value) => Pending::Whole(value),
            None => Pending::Nothing,
        };
        mem::replace(&mut self.ahead, next)
    }
}

impl<'a> Source for TreeSource<'a> {
    type Error = Error;

    type Seq = TreeSeq<'a>;

    type Level = TreeLevel<'a>;

    ghost stands_before = { IsTreeAt };

    ghost seq_stands = { IsTreeSeqAt };

    ghost level_stands = { IsTreeLevelAt };

    ghost left = { source_weight };

    ghost seq_left = { seq_weight };

    ghost level_left = { level_weight };

    ghost is_unread = { λ source b. ⊥ };

    ghost owes = { λ seq type b c. ⊥ };

    ghost has_taken = { λ first now. Unit {0} };

    ghost reads = { λ old new answer. Unit {0} };

    ghost cause = { λ _ e. tree_fault e };

    ghost offset_ahead = { λ _. None };

    fn integer(&mut self) -> Result<(bool, u128), Error> {
        match self.take() {
            Pending::Whole(value) => find_number(value),
            Pending::Byte(byte) => Ok((false, u128::from(byte))),
            _ => Err(Error::Custom(Kind::Integer)),
        }
    }

    fn boolean(&mut self) -> Result<bool, Error> {
        match self.take() {
            Pending::Whole(value) => find_boolean(value),
            _ => Err(Error::Custom(Kind::Bool)),
        }
    }

    fn unit(&mut self) -> Result<(), Error> {
        match self.take() {
            Pending::Whole(value) => find_null(value),
            Pending::Null => Ok(()),
            _ => Err(Error::Custom(Kind::Unit)),
        }
    }

    fn character(&mut self) -> Result<char, Error> {
        match self.take() {
            Pending::Whole(value) => find_character(value),
            _ => Err(Error::Custom(Kind::Char)),
        }
    }

    fn text(&mut self, alloc: Global) -> Result<String, Error> {
        match self.take() {
            Pending::Whole(value) => copy_text(alloc, value),
            _ => Err(Error::Custom(Kind::Text)),
        }
    }

    fn bytes(&mut self, alloc: Global) -> Result<Vec<u8>, Error> {
        match self.take() {
            Pending::Whole(value) => copy_bytes(alloc, value),
            _ => Err(Error::Custom(Kind::Bytes)),
        }
    }

    fn name(&mut self, alloc: Global) -> Result<String, Error> {
        match self.take() {
            Pending::Whole(value) => copy_name(alloc, value),
            _ => Err(Error::Custom(Kind::Name)),
        }
    }

    fn label<N: Labels>(&mut self, _alloc: Global, labels: &N) -> Result<N::Place, Error> {
        match self.take() {
            Pending::Whole(value) => find_place(value, labels),
            Pending::Byte(byte) => Ok(labels.find_number(false, u128::from(byte))),
            Pending::Null => Ok(labels.find_other()),
            Pending::Nothing => Err(Error::Custom(Kind::Other)),
        }
    }

    fn null_ahead(&mut self) -> Result<bool, Error> {
        match self.ahead {
            Pending::Whole(value) => Ok(value.is_null()),
            Pending::Null => Ok(true),
            _ => Ok(false),
        }
    }

    fn begin_tag(&mut self) -> Result<(Option<u64>, TreeLevel<'a>), Error> {
        let level = TreeLevel {
            due: self.due.take(),
        };
        let Pending::Whole(value) = self.ahead else {
            return Ok((None, level));
        };
        match value {
            Value::Tag(tag, content) => {
                self.ahead = Pending::Whole(content);
                Ok((Some(*tag), level))
            }
            _ => Ok((None, level)),
        }
    }

    fn end_tag(&mut self, level: TreeLevel<'a>) {
        self.due = level.due;
        let _ = self.take();
    }

    fn begin_variant(&mut self, alloc: Global) -> Result<(String, TreeLevel<'a>), Error> {
        let level = TreeLevel {
            due: self.due.take(),
        };
        let Pending::Whole(value) = self.ahead else {
            return Err(Error::Custom(Kind::Variant));
        };
        match skip_tags(value) {
            Value::Text(text) => {
                let name = String::from_str(alloc, text)?;
                self.ahead = Pending::Null;
                Ok((name, level))
            }
            Value::Map(pairs) => match find_lone_pair(pairs) {
                Some((key, data)) => {
                    let name = copy_name(alloc, key)?;
                    self.ahead = Pending::Whole(data);
                    Ok((name, level))
                }
                None => Err(Error::Custom(Kind::Variant)),
            },
            _ => Err(Error::Custom(Kind::Variant)),
        }
    }

    fn end_variant(&mut self, level: TreeLevel<'a>) {
        self.due = level.due;
        let _ = self.take();
    }

    fn begin_seq(&mut self, _alloc: Global) -> Result<TreeSeq<'a>, Error> {
        let due = self.due.take();
        match self.take() {
            Pending::Whole(value) => match skip_tags(value) {
                Value::Array(values) => Ok(TreeSeq {
                    left: Left::Items(values),
                    due,
                }),
                Value::Bytes(bytes) => Ok(TreeSeq {
                    left: Left::Bytes(bytes),
                    due,
                }),
                _ => Err(Error::Custom(Kind::Array)),
            },
            _ => Err(Error::Custom(Kind::Array)),
        }
    }

    fn begin_map(&mut self) -> Result<TreeSeq<'a>, Error> {
        let due = self.due.take();
        match self.take() {
            Pending::Whole(value) => match skip_tags(value) {
                Value::Map(pairs) => Ok(TreeSeq {
                    left: Left::Pairs(pairs),
                    due,
                }),
                _ => Err(Error::Custom(Kind::Map)),
            },
            _ => Err(Error::Custom(Kind::Map)),
        }
    }

    fn next(&mut self, seq: &mut TreeSeq<'a>) -> Result<bool, Error> {
        match seq.left {
            Left::Items(values) => match values.split_first() {
                Some((first, rest)) => {
                    seq.left = Left::Items(rest);
                    self.ahead = Pending::Whole(first);
                    self.due = None;
                    return Ok(true);
                }
                None => {}
            },
            Left::Bytes(bytes) => match bytes.split_first() {
                Some((first, rest)) => {
                    seq.left = Left::Bytes(rest);
                    self.ahead = Pending::Byte(*first);
                    self.due = None;
                    return Ok(true);
                }
                None => {}
            },
            Left::Pairs(pairs) => match pairs.split_first() {
                Some(((key, value), rest)) => {
                    seq.left = Left::Pairs(rest);
                    self.ahead = Pending::Whole(key);
                    self.due = Some(value);
                    return Ok(true);
                }
                None => {}
            },
        }
        self.due = seq.due.take();
        let _ = self.take();
        Ok(false)
    }

    fn value(&mut self, alloc: Global) -> Result<Value, Error> {
        match self.take() {
            Pending::Whole(value) => fold_value(alloc, value),
            Pending::Byte(byte) => Ok(Value::Integer(Integer::from(byte))),
            Pending::Null => Ok(Value::Null),
            Pending::Nothing => Err(Error::Custom(Kind::Other)),
        }
    }

    fn skip(&mut self, _alloc: Global) -> Result<(), Error> {
        match self.take() {
            Pending::Nothing => Err(Error::Custom(Kind::Other)),
            _ => Ok(()),
        }
    }

    fn refuse(&self, kind: Kind) -> Error {
        Error::Custom(kind)
    }

    fn offset(&self) -> Option<usize> {
        None
    }

    fn refuse_at(&self, _offset: Option<usize>, kind: Kind) -> Error {
        Error::Custom(kind)
    }

    fn memory(&self) -> Error {
        Error::Memory
    }
}
