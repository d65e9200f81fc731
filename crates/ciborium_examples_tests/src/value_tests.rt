//! Copies and comparisons of values, and the error of a writer.
use crate::expectations::expect_all;
use ciborium::from_reader;
use ciborium::ser::Error;
use ciborium::tag::{Accepted, Captured, Required};
use ciborium::value::canonical::cmp_value;
use ciborium::value::{CanonicalValue, Value};
use ciborium_examples::callers::only_item;
use std::cmp::Ordering;
use std::io::{self, ErrorKind};
use std::test::Fail;

#[test]
fn a_copy_is_equal(rt: HostRuntime) -> Result<(), Fail> {
    let bytes = hex::decode(rt.alloc(), "8101")?;
    match only_item(rt.alloc(), &bytes) {
        Some(array) => copies(&array),
        None => Err(Fail::new("no item")),
    }
}

// Fails unless a copy of a canonical value is the value.
fn copies(value: &Value) -> Result<(), Fail> {
    let canonical = CanonicalValue::from(value.clone()?);
    let copy = canonical.clone()?;
    let is_equal = copy == canonical;
    let back = Value::from(copy);
    expect_all(&[
        is_equal,
        back == *value,
        cmp_value(&back, value) == Ordering::Equal,
    ])
}

// No tag is skipped before the null of an option, which both are written as.
#[test]
fn a_tag_before_null_is_some(rt: HostRuntime) -> Result<(), Fail> {
    let tagged: Option<()> = from_reader(rt.alloc(), &mut &[0xc7u8, 0xf6][..])?;
    assert_eq!(rt; tagged, Some(()));
    let null: Option<()> = from_reader(rt.alloc(), &mut &[0xf6u8][..])?;
    assert_eq!(rt; null, None);
    Ok(())
}

#[test]
fn tagged_values_compare_as_their_parts(rt: HostRuntime) {
    assert_eq!(rt; Captured(None, 2) < Captured(Some(0), 1), true);
    assert_eq!(rt; Required::<u8, 6>(1) < Required(2), true);
    assert_eq!(rt; Accepted::<u8, 6>(1), Accepted(1));
}

#[test]
fn an_error_of_the_writer_is_io(rt: HostRuntime) {
    let answer = Error::from(io::Error::from(ErrorKind::BrokenPipe));
    assert!(rt; matches!(answer, Error::Io(error) if error.kind() == ErrorKind::BrokenPipe));
}
