//! The lines of the program: the name of a shape, and an item as hex.
use super::{Shape, read_shaped};
use ciborium::Value;
use std::alloc::{AllocError, Global};

/// Answers `NAME HEX` with the item in diagnostic notation where it has the shape of this name, and
/// else with why it has not.
///
/// # Errors
///
/// `AllocError` where an allocation failed.
pub fn answer(alloc: Global, line: &str) -> Result<String, AllocError> {
    let (name, digits) = line.split_once(' ').unwrap_or((line, ""));
    let Some(shape) = named_shape(alloc, name)? else {
        return String::from_str(alloc, "no such shape");
    };
    let Ok(bytes) = hex::decode(alloc, digits) else {
        return String::from_str(alloc, "no hex");
    };
    match read_shaped(alloc, &bytes, &shape) {
        Ok(value) => value.to_string(alloc),
        Err(error) => format!(in alloc; "{error}"),
    }
}

fn named_shape(alloc: Global, name: &str) -> Result<Option<Shape>, AllocError> {
    match name {
        "any" => Ok(Some(Shape::Any)),
        "null" => Ok(Some(Shape::Null)),
        "bytes" => Ok(Some(Shape::Bytes)),
        "names" => Ok(Some(Shape::Array(Box::new(alloc, Shape::Text)?))),
        "reading" => Ok(Some(reading_shape(alloc)?)),
        "readings" => Ok(Some(Shape::Array(Box::new(alloc, reading_shape(alloc)?)?))),
        _ => Ok(None),
    }
}

// What a reading is written as, and whether it is checked, if that is said.
fn reading_shape(alloc: Global) -> Result<Shape, AllocError> {
    let at = Shape::Integer {
        least: 0,
        greatest: u64::MAX as i128,
    };
    let level = Shape::Integer {
        least: i16::MIN as i128,
        greatest: i16::MAX as i128,
    };
    let mut fields = Vec::new(alloc);
    fields.push((String::from_str(alloc, "sensor")?, true, Shape::Text))?;
    fields.push((String::from_str(alloc, "at")?, true, at))?;
    fields.push((String::from_str(alloc, "level")?, false, level))?;
    fields.push((String::from_str(alloc, "checked")?, false, Shape::Bool))?;
    Ok(Shape::Map(fields))
}
