//! The functions of an application are run, on files of their own.
use crate::expectations::{expect, expect_text};
use ciborium::write_sequence;
use ciborium_examples::application::{copy_version, read_version};
use ciborium_examples::own_types::Message;
use std::alloc::{AllocError, Global};
use std::fs::{self, File};
use std::test::Fail;

fn message(alloc: Global, version: u8, body: &str) -> Result<Message, AllocError> {
    Ok(Message {
        version,
        body: String::from_str(alloc, body)?,
    })
}

// Messages of two versions.
fn three_messages(alloc: Global) -> Result<Vec<Message>, AllocError> {
    let mut messages = Vec::new(alloc);
    messages.push(message(alloc, 1, "a")?)?;
    messages.push(message(alloc, 2, "b")?)?;
    messages.push(message(alloc, 1, "c")?)?;
    Ok(messages)
}

#[test]
fn messages_are_copied(rt: HostRuntime) -> Result<(), Fail> {
    let messages = three_messages(rt.alloc())?;
    let mut file = File::create(&rt, "messages")?;
    write_sequence(messages.as_slice(), &mut file)?;
    drop(file);
    let count = copy_version(&rt, "messages", "copies", 1)?;
    let copies = read_version(&rt, "copies", 1)?;
    fs::remove_file(&rt, "messages")?;
    fs::remove_file(&rt, "copies")?;
    expect(count == 2, "two messages")?;
    match (copies.as_slice(), messages.as_slice()) {
        ([first, second], [one, _, three]) => {
            expect(first == one && second == three, "another message")
        }
        _ => Err(Fail::new("other counts")),
    }
}

#[test]
fn a_file_that_is_no_sequence(rt: HostRuntime) -> Result<(), Fail> {
    fs::write(&rt, "numbers", [0x01u8, 0x02].as_slice())?;
    let answer = copy_version(&rt, "numbers", "copies", 1);
    fs::remove_file(&rt, "numbers")?;
    match answer {
        Ok(_) => Err(Fail::new("numbers are no messages")),
        Err(error) => expect_text(rt.alloc(), error, "the messages: at byte 0: not a map"),
    }
}

#[test]
fn a_file_that_is_not_there(rt: HostRuntime) -> Result<(), Fail> {
    let words = "the messages: reading failed: No such file or directory (os error 2)";
    match copy_version(&rt, "no/such/file", "copies", 1) {
        Ok(_) => Err(Fail::new("there is a file")),
        Err(error) => expect_text(rt.alloc(), error, words),
    }
}

#[test]
fn a_file_that_cannot_be_made(rt: HostRuntime) -> Result<(), Fail> {
    fs::write(&rt, "empty", [].as_slice())?;
    let answer = copy_version(&rt, "empty", "no/such/folder", 1);
    fs::remove_file(&rt, "empty")?;
    match answer {
        Ok(_) => Err(Fail::new("there is a folder")),
        Err(error) => expect_text(
            rt.alloc(),
            error,
            "the copy: No such file or directory (os error 2)",
        ),
    }
}
