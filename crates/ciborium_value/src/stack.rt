//! The containers and tags that are unfinished while a value is put together.

ghost use Rattle.std.specs.Prelude.{◌≡◌, ◌∷◌, ◌++◌, [], IfOk, MatchOption, None, OnErr, OnOk};
ghost use Rattle.std.specs.Prelude.{Some, drop, length, map, option_map, true};
ghost use Rattle.ciborium_value.specs.inner.Frames.{array, closed, fill, placed};
ghost use Rattle.ciborium_value.specs.inner.Frames.{tree_ended, waiting_keys};
ghost use Rattle.ciborium_value.specs.inner.Stack.{begun_frame, filled_of, frame_of, frames_of};
ghost use Rattle.ciborium_value.specs.inner.Stack.{map_frame};
ghost use Rattle.ciborium_value.specs.inner.Stack.{placed_of};
ghost use Rattle.ciborium_value.specs.ValueLists.{pair_trees};
ghost use Rattle.ciborium_value.specs.View.{tree_of};

use crate::tree::Value;
use std::alloc::{AllocError, Global};
use std::mem;

/// A container or tag that begins. `behind` says how many items or pairs follow the first; with
/// `None` they are as many as come before a break.
#[derive(Clone, Copy)]
pub enum NewFrame {
    /// An array.
    Array { behind: Option<usize> },
    /// A map.
    Map { behind: Option<usize> },
    /// A tag that waits for its item.
    Tag(u64),
}

// A container or tag that is unfinished: what is in it so far, and how many items or pairs follow
// the one that is read now.
#[derive(Drop)]
enum Frame {
    Array {
        items: Vec<Value>,
        behind: Option<usize>,
    },
    // Where a key waits, it stands in the last pair, and null in the place of its value.
    Map {
        pairs: Vec<(Value, Value)>,
        behind: Option<usize>,
        waits: bool,
    },
    Tag(u64),
}

fn begin(alloc: Global, frame: NewFrame) -> Frame
    ensures { frame_of result ≡ begun_frame frame }
{
    match frame {
        NewFrame::Array { behind } => Frame::Array {
            items: Vec::new(alloc),
            behind,
        },
        NewFrame::Map { behind } => Frame::Map {
            pairs: Vec::new(alloc),
            behind,
            waits: false,
        },
        NewFrame::Tag(tag) => Frame::Tag(tag),
    }
}

// Puts a part into a list, for which this many parts follow. For the last one room is made alone.
#[inline(always)]
fn put<T: Drop>(parts: &mut Vec<T>, behind: Option<usize>, part: T) -> Result<(), AllocError>
    ensures { OnOk result (parts.new.items ≡ parts.old.items ++ part ∷ []) }
{
    if let Some(0) = behind {
        parts.reserve_exact(1)?;
    }
    parts.push(part)?;
    Ok(())
}

// Takes the list, and leaves an empty one.
#[inline(always)]
fn take_parts<T: Drop>(alloc: Global, parts: &mut Vec<T>) -> Vec<T>
    ensures { result ≡ parts.old }
{
    mem::replace(parts, Vec::new(alloc))
}

// Puts a value into an array. Answers the array where this was its last item.
#[inline(always)]
fn fill_array(
    alloc: Global,
    items: &mut Vec<Value>,
    behind: &mut Option<usize>,
    value: Value,
) -> Result<Option<Value>, AllocError>
    ensures { IfOk result (λ r. filled_of r (array (map tree_of items.new.items) behind.new) ≡
        fill (array (map tree_of items.old.items) behind.old) (tree_of value)) }
{
    put(items, *behind, value)?;
    match *behind {
        Some(0) => Ok(Some(Value::Array(take_parts(alloc, items)))),
        Some(n) => {
            *behind = Some(n - 1);
            Ok(None)
        }
        None => Ok(None),
    }
}

// Puts a key or value into a map. Answers the map where this was its last value.
#[inline(always)]
fn fill_map(
    alloc: Global,
    pairs: &mut Vec<(Value, Value)>,
    behind: &mut Option<usize>,
    waits: &mut bool,
    value: Value,
) -> Result<Option<Value>, AllocError>
    ensures { IfOk result (λ r. filled_of r
        (map_frame (map pair_trees pairs.new.items) behind.new waits.new) ≡ fill
        (map_frame (map pair_trees pairs.old.items) behind.old waits.old) (tree_of value)) }
{
    if *waits && let Some(pair) = pairs.last_mut() {
        pair.1 = value;
    } else {
        put(pairs, *behind, (value, Value::Null))?;
        *waits = true;
        return Ok(None);
    }
    *waits = false;
    match *behind {
        Some(0) => Ok(Some(Value::Map(take_parts(alloc, pairs)))),
        Some(n) => {
            *behind = Some(n - 1);
            Ok(None)
        }
        None => Ok(None),
    }
}

// Puts a value into a frame. Answers what it completes.
#[inline(always)]
fn fill(alloc: Global, frame: &mut Frame, value: Value) -> Result<Option<Value>, AllocError>
    ensures { IfOk result (λ r. filled_of r (frame_of frame.new) ≡
        fill (frame_of frame.old) (tree_of value)) }
{
    match frame {
        Frame::Array { items, behind } => fill_array(alloc, items, behind, value),
        Frame::Map {
            pairs,
            behind,
            waits,
        } => fill_map(alloc, pairs, behind, waits, value),
        Frame::Tag(tag) => Ok(Some(Value::Tag(*tag, Box::new(alloc, value)?))),
    }
}

fn end(frame: Frame) -> Option<Value>
    ensures { option_map (λ v. tree_of v) result ≡ tree_ended (frame_of frame) }
{
    match frame {
        Frame::Array {
            items,
            behind: None,
        } => Some(Value::Array(items)),
        Frame::Map {
            pairs,
            behind: None,
            waits,
        } => {
            if waits && !pairs.is_empty() {
                return None;
            }
            Some(Value::Map(pairs))
        }
        _ => None,
    }
}

// The key of the last pair, behind the key of the pair before it.
#[inline(always)]
fn last_keys(pairs: &[(Value, Value)]) -> Option<(&Value, &Value)>
    ensures { option_map (λ keys. (tree_of keys.0.now, tree_of keys.1.now)) result ≡
        waiting_keys (map_frame (map pair_trees pairs.now) None true ∷ []) }
{
    match pairs {
        [.., (before, _), (key, _)] => Some((before, key)),
        _ => None,
    }
}

/// The containers and tags that are unfinished, the innermost at the top.
#[derive(Drop)]
pub struct Stack {
    frames: Vec<Frame>,
    alloc: Global,
}

#[tactic(auto, using(crate::proofs::Trees::Stacked::frames_last))]
impl Stack {
    /// Nothing is unfinished. This takes no memory.
    pub fn new(alloc: Global) -> Stack
        ensures { frames_of result ≡ [] }
    {
        Stack {
            frames: Vec::new(alloc),
            alloc,
        }
    }

    /// How many containers and tags are unfinished.
    pub fn depth(&self) -> usize
        ensures { result ≡ length (frames_of self.now) }
    {
        self.frames.len()
    }

    /// Begins a container or tag inside those that are unfinished. Where an allocation fails, they
    /// are as they were.
    pub fn begin_frame(&mut self, frame: NewFrame) -> Result<(), AllocError>
        ensures ok { OnOk result (frames_of self.new ≡ begun_frame frame ∷ frames_of self.old) }
        ensures err { OnErr result (frames_of self.new ≡ frames_of self.old) }
    {
        self.frames.push(begin(self.alloc, frame))?;
        Ok(())
    }

    /// Puts a value where one is due. Returns the value that it completes last, where nothing is
    /// unfinished any more. Where an allocation fails, what was unfinished is given up.
    #[inline(always)]
    pub fn place(&mut self, value: Value) -> Result<Option<Value>, AllocError>
        ensures { IfOk result (λ r. placed_of r (frames_of self.new) ≡
            placed (frames_of self.old) (tree_of value)) }
    {
        let mut value = value;
        while let Some(frame) = self.frames.last_mut() {
            match fill(self.alloc, frame, value)? {
                None => return Ok(None),
                Some(whole) => {
                    self.frames.pop();
                    value = whole;
                }
            }
        }
        Ok(Some(value))
    }

    /// The key that waits for its value in the innermost container, and the key before it: none
    /// where this is no map, or no key waits, or the key is the first.
    #[inline(always)]
    pub fn waiting_keys(&self) -> Option<(&Value, &Value)>
        ensures { option_map (λ keys. (tree_of keys.0.now, tree_of keys.1.now)) result ≡
            waiting_keys (frames_of self.now) }
    {
        match self.frames.last() {
            Some(
                Frame::Map {
                    pairs,
                    waits: true,
                    ..
                },
            ) => last_keys(pairs),
            _ => None,
        }
    }

    /// Ends the innermost container at a break and takes it off, if a break may stand there. At
    /// `None` the innermost is given up.
    pub fn close(&mut self) -> Option<Value>
        ensures { MatchOption result
            ((closed (frames_of self.old) ≡ None) ×
            (frames_of self.new ≡ drop 1 (frames_of self.old)))
            (λ v. closed (frames_of self.old) ≡ Some (tree_of v, frames_of self.new)) }
    {
        match self.frames.pop() {
            Some(frame) => end(frame),
            None => None,
        }
    }
}
