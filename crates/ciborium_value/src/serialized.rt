//! Values as sinks to write to.

ghost use Rattle.std.specs.Prelude.{◌≡◌, ◌∷◌, IfErr, IfOk, OnOk};
ghost use Rattle.ciborium_value.specs.inner.Frames.{placed};
ghost use Rattle.ciborium_value.specs.Sinks.{IsOwed, memory};
ghost use Rattle.ciborium_value.specs.inner.Stack.{begun_frame, frames_of};
ghost use Rattle.ciborium_value.specs.inner.TreeSinks.{IsBuiltAt, no_out, nothing_shown, state_of};
ghost use Rattle.ciborium_value.specs.TreeAnswers.{IsTreeOf, tree_cause};
ghost use Rattle.ciborium_value.specs.View.{tree_of};

use crate::error::Error;
use crate::serialize::Serialize;
use crate::sink::Sink;
use crate::stack::{NewFrame, Stack};
use crate::tree::Value;
use ciborium_ll::Kind;
use std::alloc::Global;

impl Value {
    /// The tree of the item that the value writes. An array or map of indefinite length becomes a
    /// definite one, and no bignum is folded.
    ///
    /// # Errors
    ///
    /// `Custom` where the value has no item, with the kind that it names; `Memory` where an
    /// allocation failed. The value is left as it was.
    pub fn serialized<T: Serialize>(alloc: Global, value: &T) -> Result<Value, Error>
        ensures ok { IfOk result (IsTreeOf (T.written value.now)) }
        ensures refused { IfErr result (λ e. IsOwed (tree_cause e) (T.written value.now)) }
    {
        let mut sink = TreeSink {
            stack: Stack::new(alloc),
            whole: None,
            alloc,
        };
        value.serialize(&mut sink)?;
        let TreeSink { whole, .. } = sink;
        match whole {
            Some(value) => Ok(value),
            None => unreachable!(),
        }
    }
}

// What is unfinished, or the tree once it is whole.
#[derive(Drop)]
struct TreeSink {
    stack: Stack,
    whole: Option<Value>,
    alloc: Global,
}

impl TreeSink {
    // Puts a value where one is due.
    fn put(&mut self, value: Value) -> Result<(), Error>
        ensures ok { OnOk result
            (state_of self.new ≡ placed (frames_of self.old.stack) (tree_of value)) }
        ensures memory { IfErr result (λ e. tree_cause e ≡ memory) }
    {
        self.whole = self.stack.place(value)?;
        Ok(())
    }

    // Begins a container or tag.
    fn begin_frame(&mut self, frame: NewFrame) -> Result<(), Error>
        ensures begun { OnOk result
            (frames_of self.new.stack ≡ begun_frame frame ∷ frames_of self.old.stack) }
        ensures whole { OnOk result (self.new.whole ≡ self.old.whole) }
        ensures memory { IfErr result (λ e. tree_cause e ≡ memory) }
    {
        self.stack.begin_frame(frame)?;
        Ok(())
    }
}

impl Sink for TreeSink {
    type Error = Error;

    ghost stands_at = { IsBuiltAt };

    ghost out = { no_out };

    ghost takes_memory = { Unit {0} };

    ghost cause = { tree_cause };

    ghost shows = { nothing_shown };

    fn integer(&mut self, number: i128) -> Result<(), Error> {
        let value = Value::from_i128(self.alloc, number)?;
        self.put(value)
    }

    fn unsigned(&mut self, number: u128) -> Result<(), Error> {
        let value = Value::from_u128(self.alloc, number)?;
        self.put(value)
    }

    fn boolean(&mut self, boolean: bool) -> Result<(), Error> {
        self.put(Value::Bool(boolean))
    }

    fn null(&mut self) -> Result<(), Error> {
        self.put(Value::Null)
    }

    fn text(&mut self, text: &str) -> Result<(), Error> {
        let value = Value::from_text(self.alloc, text)?;
        self.put(value)
    }

    fn bytes(&mut self, bytes: &[u8]) -> Result<(), Error> {
        let value = Value::from_bytes(self.alloc, bytes)?;
        self.put(value)
    }

    fn tag(&mut self, tag: u64) -> Result<(), Error> {
        self.begin_frame(NewFrame::Tag(tag))
    }

    fn begin_array(&mut self, items: Option<usize>) -> Result<(), Error> {
        match items {
            Some(0) => self.put(Value::Array(Vec::new(self.alloc))),
            Some(n) => self.begin_frame(NewFrame::Array {
                behind: Some(n - 1),
            }),
            None => self.begin_frame(NewFrame::Array { behind: None }),
        }
    }

    fn begin_map(&mut self, pairs: Option<usize>) -> Result<(), Error> {
        match pairs {
            Some(0) => self.put(Value::Map(Vec::new(self.alloc))),
            Some(n) => self.begin_frame(NewFrame::Map {
                behind: Some(n - 1),
            }),
            None => self.begin_frame(NewFrame::Map { behind: None }),
        }
    }

    // What was announced is whole with its last part; only a break ends a container of indefinite
    // length.
    fn end(&mut self, count: Option<usize>) -> Result<(), Error> {
        match count {
            Some(_) => Ok(()),
            None => match self.stack.close() {
                Some(value) => self.put(value),
                None => unreachable!(),
            },
        }
    }

    fn refuse(&self, kind: Kind) -> Error {
        Error::Custom(kind)
    }

    fn memory(&self) -> Error {
        Error::Memory
    }
}
