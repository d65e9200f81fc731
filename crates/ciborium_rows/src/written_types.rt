//! The types whose values are written: also those that are not read, by a part that is.

use crate::types::ask_type;
use crate::writes::{Rewriting, Writing, no_value, read_whole, write_by};
use ciborium::de::Deserialize;
use ciborium::ser::Serialize;
use ciborium::tag::{Accepted, Captured, Required};
use ciborium::value::{ByteBuf, Value};
use ciborium_examples::own_types::{Copied, Even, Open, OpenMap, Position};
use std::alloc::{AllocError, Global};
use std::collections::BTreeMap;

/// What the value writes that the bytes give as the type of this name, or none where there is no
/// such type.
///
/// # Errors
///
/// `AllocError` where an allocation fails for the answer.
pub fn write_type(
    alloc: Global,
    name: &str,
    bytes: &[u8],
    writing: Writing,
) -> Result<Option<String>, AllocError> {
    let job = Rewriting { writing, bytes };
    if let Some(answer) = write_own(alloc, name, &job)? {
        return Ok(Some(answer));
    }
    if let Some(answer) = write_tagged(alloc, name, &job)? {
        return Ok(Some(answer));
    }
    if let Some(answer) = write_lent(alloc, name, &job)? {
        return Ok(Some(answer));
    }
    ask_type(alloc, name, &job)
}

// A type that is written, and made of a type that is read.
trait Made<P>: Sized + Drop {
    fn make(alloc: Global, plain: P) -> Result<Self, AllocError>;
}

// A value that is there, none too.
impl Made<Option<u8>> for Option<Option<u8>> {
    fn make(_: Global, plain: Option<u8>) -> Result<Option<Option<u8>>, AllocError> {
        Ok(Some(plain))
    }
}

impl Made<u8> for Even {
    fn make(_: Global, plain: u8) -> Result<Even, AllocError> {
        Ok(Even(plain))
    }
}

impl Made<(u8, u8)> for (u8, Even) {
    fn make(_: Global, plain: (u8, u8)) -> Result<(u8, Even), AllocError> {
        Ok((plain.0, Even(plain.1)))
    }
}

impl Made<String> for Copied {
    fn make(_: Global, plain: String) -> Result<Copied, AllocError> {
        Ok(Copied(plain))
    }
}

impl Made<Vec<u8>> for Open {
    fn make(_: Global, plain: Vec<u8>) -> Result<Open, AllocError> {
        Ok(Open(plain))
    }
}

impl Made<Vec<Vec<u8>>> for Vec<Open> {
    fn make(alloc: Global, plain: Vec<Vec<u8>>) -> Result<Vec<Open>, AllocError> {
        let mut opens = Vec::new(alloc);
        for numbers in plain {
            opens.push(Open(numbers))?;
        }
        Ok(opens)
    }
}

impl Made<(Vec<u8>, u128)> for (Open, u128) {
    fn make(_: Global, plain: (Vec<u8>, u128)) -> Result<(Open, u128), AllocError> {
        Ok((Open(plain.0), plain.1))
    }
}

impl Made<BTreeMap<u8, u8>> for OpenMap {
    fn make(_: Global, plain: BTreeMap<u8, u8>) -> Result<OpenMap, AllocError> {
        Ok(OpenMap(plain))
    }
}

impl Made<(i16, String)> for Position {
    fn make(_: Global, plain: (i16, String)) -> Result<Position, AllocError> {
        let (x, name) = plain;
        Ok(Position { x, name })
    }
}

// A tag over a value, a bignum too that is not folded.
impl Made<Captured<Value>> for Value {
    fn make(alloc: Global, plain: Captured<Value>) -> Result<Value, AllocError> {
        let Captured(tag, content) = plain;
        match tag {
            Some(number) => Ok(Value::Tag(number, Box::new(alloc, content)?)),
            None => Ok(content),
        }
    }
}

// A text of one character.
impl Made<char> for Value {
    fn make(alloc: Global, plain: char) -> Result<Value, AllocError> {
        Value::from_char(alloc, plain)
    }
}

// What a value writes that is made of what the bytes give.
fn write_made<P: Deserialize, T: Made<P> + Serialize>(
    alloc: Global,
    job: &Rewriting,
) -> Result<String, AllocError> {
    match read_whole::<P>(alloc, job.bytes) {
        Some(plain) => {
            let value = T::make(alloc, plain)?;
            write_by(alloc, job.writing, &value)
        }
        None => no_value(alloc),
    }
}

// What a value writes that is read as it is.
fn write_plain<T: Deserialize + Serialize>(
    alloc: Global,
    job: &Rewriting,
) -> Result<String, AllocError> {
    match read_whole::<T>(alloc, job.bytes) {
        Some(value) => write_by(alloc, job.writing, &value),
        None => no_value(alloc),
    }
}

fn write_own(alloc: Global, name: &str, job: &Rewriting) -> Result<Option<String>, AllocError> {
    let answer = match name {
        "Even" => write_made::<u8, Even>(alloc, job),
        "(u8,Even)" => write_made::<(u8, u8), (u8, Even)>(alloc, job),
        "Copied" => write_made::<String, Copied>(alloc, job),
        "Open" => write_made::<Vec<u8>, Open>(alloc, job),
        "Vec<Open>" => write_made::<Vec<Vec<u8>>, Vec<Open>>(alloc, job),
        "(Open,u128)" => write_made::<(Vec<u8>, u128), (Open, u128)>(alloc, job),
        "Some(Option<u8>)" => write_made::<Option<u8>, Option<Option<u8>>>(alloc, job),
        "OpenMap" => write_made::<BTreeMap<u8, u8>, OpenMap>(alloc, job),
        "Position" => write_made::<(i16, String), Position>(alloc, job),
        "Tag" => write_made::<Captured<Value>, Value>(alloc, job),
        "from_char" => write_made::<char, Value>(alloc, job),
        _ => return Ok(None),
    };
    Ok(Some(answer?))
}

fn write_tagged(alloc: Global, name: &str, job: &Rewriting) -> Result<Option<String>, AllocError> {
    let answer = match name {
        "Captured<Value>" => write_plain::<Captured<Value>>(alloc, job),
        "Captured<bool>" => write_plain::<Captured<bool>>(alloc, job),
        "Captured<ByteBuf>" => write_plain::<Captured<ByteBuf>>(alloc, job),
        "Captured<Accepted<Required<Even,1>,2>>" => write_even_under_tags(alloc, job),
        _ => return Ok(None),
    };
    Ok(Some(answer?))
}

// A number under three tags, as one that must be even.
fn write_even_under_tags(alloc: Global, job: &Rewriting) -> Result<String, AllocError> {
    let read = read_whole::<Captured<Accepted<Required<u8, 1>, 2>>>(alloc, job.bytes);
    match read {
        Some(Captured(tag, Accepted(Required(number)))) => {
            let content = Accepted::<Required<Even, 1>, 2>(Required(Even(number)));
            write_by(alloc, job.writing, &Captured(tag, content))
        }
        None => no_value(alloc),
    }
}

fn write_lent(alloc: Global, name: &str, job: &Rewriting) -> Result<Option<String>, AllocError> {
    let answer = match name {
        "&u8" => write_lent_number(alloc, job),
        "&str" => write_lent_text(alloc, job),
        "(u8,bool,&str)" => write_lent_end(alloc, job),
        "(Open,&str,u128)" => write_lent_middle(alloc, job),
        _ => return Ok(None),
    };
    Ok(Some(answer?))
}

fn write_lent_number(alloc: Global, job: &Rewriting) -> Result<String, AllocError> {
    match read_whole::<u8>(alloc, job.bytes) {
        Some(number) => write_by(alloc, job.writing, &&number),
        None => no_value(alloc),
    }
}

fn write_lent_text(alloc: Global, job: &Rewriting) -> Result<String, AllocError> {
    match read_whole::<String>(alloc, job.bytes) {
        Some(text) => write_by(alloc, job.writing, &text.as_str()),
        None => no_value(alloc),
    }
}

// A tuple that ends in a text.
fn write_lent_end(alloc: Global, job: &Rewriting) -> Result<String, AllocError> {
    match read_whole::<(u8, bool, String)>(alloc, job.bytes) {
        Some((a, b, text)) => write_by(alloc, job.writing, &(a, b, text.as_str())),
        None => no_value(alloc),
    }
}

// A tuple with a text in it.
fn write_lent_middle(alloc: Global, job: &Rewriting) -> Result<String, AllocError> {
    match read_whole::<(Vec<u8>, String, u128)>(alloc, job.bytes) {
        Some((a, text, c)) => write_by(alloc, job.writing, &(Open(a), text.as_str(), c)),
        None => no_value(alloc),
    }
}
