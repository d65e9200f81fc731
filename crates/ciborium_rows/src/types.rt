//! The types that lines name.

use crate::few::Few;
use ciborium::de::{Deserialize, UniqueKeys};
use ciborium::ser::Serialize;
use ciborium::tag::{Accepted, Required};
use ciborium::value::{ByteBuf, CanonicalValue, Value};
use ciborium_examples::array_types::Sample;
use ciborium_examples::described_types::{KeyHeader, Record};
use ciborium_examples::own_types::{Figure, Message, Moment, Span};
use ciborium_examples::strict_types::{Header, Order};
use ciborium_examples::struct_types::{Ends, Foo, Reply};
use ciborium_examples::tag_types::{Parted, Two};
use ciborium_examples::variant_types::{Form, Letter};
use std::alloc::{AllocError, Global};
use std::collections::BTreeMap;

/// What is asked of a type.
pub trait Job {
    /// The answer for this type.
    ///
    /// # Errors
    ///
    /// `AllocError` where an allocation fails for the answer.
    fn answer<T: Deserialize + Serialize>(&self, alloc: Global) -> Result<String, AllocError>;
}

/// The answer of a job for the type of this name, or none where there is no such type. `Captured`
/// is shown as an array of the tag, or null, and the value.
///
/// # Errors
///
/// `AllocError` where an allocation fails for the answer.
pub fn ask_type<J: Job>(alloc: Global, name: &str, job: &J) -> Result<Option<String>, AllocError> {
    if let Some(answer) = ask_number(alloc, name, job)? {
        return Ok(Some(answer));
    }
    if let Some(answer) = ask_scalar(alloc, name, job)? {
        return Ok(Some(answer));
    }
    if let Some(answer) = ask_container(alloc, name, job)? {
        return Ok(Some(answer));
    }
    if let Some(answer) = ask_tagged(alloc, name, job)? {
        return Ok(Some(answer));
    }
    ask_own(alloc, name, job)
}

fn ask_number<J: Job>(alloc: Global, name: &str, job: &J) -> Result<Option<String>, AllocError> {
    let answer = match name {
        "u8" => job.answer::<u8>(alloc),
        "u16" => job.answer::<u16>(alloc),
        "u32" => job.answer::<u32>(alloc),
        "u64" => job.answer::<u64>(alloc),
        "u128" => job.answer::<u128>(alloc),
        "usize" => job.answer::<usize>(alloc),
        "i8" => job.answer::<i8>(alloc),
        "i16" => job.answer::<i16>(alloc),
        "i32" => job.answer::<i32>(alloc),
        "i64" => job.answer::<i64>(alloc),
        "i128" => job.answer::<i128>(alloc),
        "isize" => job.answer::<isize>(alloc),
        _ => return Ok(None),
    };
    Ok(Some(answer?))
}

fn ask_scalar<J: Job>(alloc: Global, name: &str, job: &J) -> Result<Option<String>, AllocError> {
    let answer = match name {
        "bool" => job.answer::<bool>(alloc),
        "()" => job.answer::<()>(alloc),
        "char" => job.answer::<char>(alloc),
        "String" => job.answer::<String>(alloc),
        "ByteBuf" => job.answer::<ByteBuf>(alloc),
        "Value" => job.answer::<Value>(alloc),
        "CanonicalValue" => job.answer::<CanonicalValue>(alloc),
        "Option<u8>" => job.answer::<Option<u8>>(alloc),
        "Option<()>" => job.answer::<Option<()>>(alloc),
        "Option<Value>" => job.answer::<Option<Value>>(alloc),
        "Option<Option<u8>>" => job.answer::<Option<Option<u8>>>(alloc),
        _ => return Ok(None),
    };
    Ok(Some(answer?))
}

fn ask_container<J: Job>(alloc: Global, name: &str, job: &J) -> Result<Option<String>, AllocError> {
    if name.starts_with('(') {
        return ask_tuple(alloc, name, job);
    }
    if name.starts_with("BTreeMap") || name.starts_with("UniqueKeys") {
        return ask_map(alloc, name, job);
    }
    let answer = match name {
        "Vec<u8>" => job.answer::<Vec<u8>>(alloc),
        "Vec<u64>" => job.answer::<Vec<u64>>(alloc),
        "Vec<i128>" => job.answer::<Vec<i128>>(alloc),
        "Vec<String>" => job.answer::<Vec<String>>(alloc),
        "Vec<(u8,u8)>" => job.answer::<Vec<(u8, u8)>>(alloc),
        "Vec<Value>" => job.answer::<Vec<Value>>(alloc),
        "Vec<Option<bool>>" => job.answer::<Vec<Option<bool>>>(alloc),
        "Vec<Vec<u8>>" => job.answer::<Vec<Vec<u8>>>(alloc),
        "Vec<ByteBuf>" => job.answer::<Vec<ByteBuf>>(alloc),
        _ => return Ok(None),
    };
    Ok(Some(answer?))
}

fn ask_map<J: Job>(alloc: Global, name: &str, job: &J) -> Result<Option<String>, AllocError> {
    let answer = match name {
        "BTreeMap<u8,Vec<Option<i16>>>" => job.answer::<BTreeMap<u8, Vec<Option<i16>>>>(alloc),
        "BTreeMap<u8,u8>" => job.answer::<BTreeMap<u8, u8>>(alloc),
        "BTreeMap<i8,u8>" => job.answer::<BTreeMap<i8, u8>>(alloc),
        "BTreeMap<u64,String>" => job.answer::<BTreeMap<u64, String>>(alloc),
        "BTreeMap<String,String>" => job.answer::<BTreeMap<String, String>>(alloc),
        "BTreeMap<String,u8>" => job.answer::<BTreeMap<String, u8>>(alloc),
        "UniqueKeys<u8,bool>" => job.answer::<UniqueKeys<u8, bool>>(alloc),
        "UniqueKeys<String,u8>" => job.answer::<UniqueKeys<String, u8>>(alloc),
        "BTreeMap<Value,u8>" => job.answer::<BTreeMap<Value, u8>>(alloc),
        "BTreeMap<CanonicalValue,u8>" => job.answer::<BTreeMap<CanonicalValue, u8>>(alloc),
        "BTreeMap<CanonicalValue,Value>" => job.answer::<BTreeMap<CanonicalValue, Value>>(alloc),
        _ => return Ok(None),
    };
    Ok(Some(answer?))
}

fn ask_tuple<J: Job>(alloc: Global, name: &str, job: &J) -> Result<Option<String>, AllocError> {
    let answer = match name {
        "(u8,)" => job.answer::<(u8,)>(alloc),
        "(u8,u8)" => job.answer::<(u8, u8)>(alloc),
        "(u8,u16)" => job.answer::<(u8, u16)>(alloc),
        "(u8,String)" => job.answer::<(u8, String)>(alloc),
        "(u8,bool,char)" => job.answer::<(u8, bool, char)>(alloc),
        "(u8,u8,u8,())" => job.answer::<(u8, u8, u8, ())>(alloc),
        "(u8,bool,char,i64)" => job.answer::<(u8, bool, char, i64)>(alloc),
        _ => return Ok(None),
    };
    Ok(Some(answer?))
}

fn ask_tagged<J: Job>(alloc: Global, name: &str, job: &J) -> Result<Option<String>, AllocError> {
    let answer = match name {
        "Captured<Value>" => job.answer::<Parted<Value>>(alloc),
        "Captured<bool>" => job.answer::<Parted<bool>>(alloc),
        "Captured<u8>" => job.answer::<Parted<u8>>(alloc),
        "Captured<ByteBuf>" => job.answer::<Parted<ByteBuf>>(alloc),
        "Captured<Vec<u8>>" => job.answer::<Parted<Vec<u8>>>(alloc),
        "Captured<Captured<bool>>" => job.answer::<Parted<Parted<bool>>>(alloc),
        "Vec<Captured<bool>>" => job.answer::<Vec<Parted<bool>>>(alloc),
        "Required<bool,6>" => job.answer::<Required<bool, 6>>(alloc),
        "Required<String,6>" => job.answer::<Required<String, 6>>(alloc),
        "Accepted<bool,6>" => job.answer::<Accepted<bool, 6>>(alloc),
        "Option<Required<u64,255>>" => job.answer::<Option<Required<u64, 255>>>(alloc),
        "Option<Accepted<u64,255>>" => job.answer::<Option<Accepted<u64, 255>>>(alloc),
        _ => return Ok(None),
    };
    Ok(Some(answer?))
}

fn ask_own<J: Job>(alloc: Global, name: &str, job: &J) -> Result<Option<String>, AllocError> {
    let answer = match name {
        "Few" => job.answer::<Few>(alloc),
        "Figure" => job.answer::<Figure>(alloc),
        "Letter" => job.answer::<Letter>(alloc),
        "Vec<Letter>" => job.answer::<Vec<Letter>>(alloc),
        "Message" => job.answer::<Message>(alloc),
        "Vec<Message>" => job.answer::<Vec<Message>>(alloc),
        "Foo" => job.answer::<Foo>(alloc),
        "Reply" => job.answer::<Reply>(alloc),
        "Ends" => job.answer::<Ends>(alloc),
        "Order" => job.answer::<Order>(alloc),
        "Header" => job.answer::<Header>(alloc),
        "Record" => job.answer::<Record>(alloc),
        "Vec<Record>" => job.answer::<Vec<Record>>(alloc),
        "KeyHeader" => job.answer::<KeyHeader>(alloc),
        "Form" => job.answer::<Form>(alloc),
        "Sample" => job.answer::<Sample>(alloc),
        "Span" => job.answer::<Span>(alloc),
        "Moment" => job.answer::<Moment>(alloc),
        "Two<u8>" => job.answer::<Two<u8>>(alloc),
        "Two<ByteBuf>" => job.answer::<Two<ByteBuf>>(alloc),
        "Vec<Two<bool>>" => job.answer::<Vec<Two<bool>>>(alloc),
        _ => return Ok(None),
    };
    Ok(Some(answer?))
}
