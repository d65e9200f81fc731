//! What tests expect, by calls that take what they compare.
use ciborium::into_writer;
use ciborium::ser::Serialize;
use std::alloc::Global;
use std::error;
use std::fmt::Debug;
use std::test::Fail;

/// Fails with these words unless it holds.
pub fn expect(holds: bool, words: &str) -> Result<(), Fail> {
    if holds { Ok(()) } else { Err(Fail::new(words)) }
}

/// Fails unless each of these holds, with the place of the first that does not.
pub fn expect_all(hold: &[bool]) -> Result<(), Fail> {
    for (place, holds) in hold.iter().enumerate() {
        if !*holds {
            return Err(Fail::new(place));
        }
    }
    Ok(())
}

/// Fails unless there are bytes, and these hex digits name them.
pub fn expect_bytes(alloc: Global, bytes: Option<Vec<u8>>, digits: &str) -> Result<(), Fail> {
    match bytes {
        Some(found) => expect_same(found, hex::decode(alloc, digits)?, digits),
        None => Err(Fail::new(digits)),
    }
}

/// Fails with these words unless both are the same.
pub fn expect_same<T: PartialEq + Drop>(found: T, expected: T, words: &str) -> Result<(), Fail> {
    expect(found == expected, words)
}

/// Whether the answer is this value.
pub fn is_ok_of<T: PartialEq + Drop, E: Drop>(answer: Result<T, E>, expected: T) -> bool {
    match answer {
        Ok(found) => found == expected,
        Err(_) => false,
    }
}

/// Whether the answer is this error.
pub fn is_error_of<T: Drop, E: PartialEq + Drop>(answer: Result<T, E>, expected: E) -> bool {
    match answer {
        Ok(_) => false,
        Err(error) => error == expected,
    }
}

/// Whether there is a value.
pub fn is_there<T: Drop>(answer: Option<T>) -> bool {
    answer.is_some()
}

/// Whether the answer is an error.
pub fn is_refused<T: Drop, E: Drop>(answer: Result<T, E>) -> bool {
    answer.is_err()
}

/// Fails unless there is a value, written as the bytes that these hex digits name.
pub fn expect_written<T: Serialize + Drop, E: Debug + Drop>(
    alloc: Global,
    answer: Result<T, E>,
    digits: &str,
) -> Result<(), Fail> {
    let value = answer?;
    let mut bytes = Vec::new(alloc);
    into_writer(&value, &mut bytes)?;
    expect_bytes(alloc, Some(bytes), digits)
}

/// Fails unless the error prints these words.
pub fn expect_text<E: error::Error>(alloc: Global, error: E, words: &str) -> Result<(), Fail> {
    let text = format!(in alloc; "{error}")?;
    expect(text.as_str() == words, words)
}
