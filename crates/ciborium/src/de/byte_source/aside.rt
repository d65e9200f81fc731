//! The reader's error, which was kept aside, put back.

ghost use Rattle.std.specs.Prelude.{◌≡◌, IfSome};
ghost use Rattle.ciborium.specs.Errors.{without_reader_error};

use crate::de::byte_source::ByteSource;
use crate::de::error::{self, BareReadError, Error};
use std::io;

impl<R, A> ByteSource<'_, R, A> {
    /// Puts back the reader's error, if there is one.
    pub(crate) fn put_back(&mut self, refusal: BareReadError) -> Error<io::Error>
        ensures refusal { refusal ≡ without_reader_error result }
        ensures given { IfSome self.old.failure
            (λ e. refusal ≡ Error.Io tt → result ≡ Error.Io e) }
        ensures decoder { self.new.decoder ≡ self.old.decoder }
    {
        error::put_back(refusal, self.failure.take())
    }
}
