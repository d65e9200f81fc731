//! Answers that are to be alike.

use std::alloc::{AllocError, Global};

/// The answer of the first way to ask, or how the answer of another way differs from it.
#[derive(Drop)]
pub struct Alike {
    text: String,
    differs: bool,
}

impl Alike {
    /// The answer of the first way.
    pub fn new(text: String) -> Alike {
        Alike {
            text,
            differs: false,
        }
    }

    /// Compares the answer of a further way.
    ///
    /// # Errors
    ///
    /// `AllocError` where an allocation fails for a text.
    pub fn compare(
        &mut self,
        alloc: Global,
        answer: Result<String, AllocError>,
    ) -> Result<(), AllocError> {
        let other = answer?;
        if !self.differs && other != self.text {
            self.text = name_difference(alloc, self.text.as_str(), other.as_str())?;
            self.differs = true;
        }
        Ok(())
    }

    /// The same text as `into_text`, lent.
    pub fn as_str(&self) -> &str {
        self.text.as_str()
    }

    /// The answer where all of them are the same, else `differs: A / B`, of the first and of the
    /// first that is another one.
    pub fn into_text(self) -> String {
        self.text
    }
}

fn name_difference(alloc: Global, text: &str, other: &str) -> Result<String, AllocError> {
    format!(in alloc; "differs: {text} / {other}")
}
