//! A reader as what values are read from.

ghost use Rattle.std.specs.Prelude.{◌≡◌, None};
ghost use Rattle.ciborium_ll.specs.Decoding.{pushed_of};

use ciborium_ll::{Decoder, Header};
use std::{io, vec};

mod aside;
mod byte_lists;
mod characters;
mod containers;
mod heads;
mod levels;
mod names;
mod numbers;
mod payloads;
mod scalars;
mod skipping;
mod source;
mod strings;

// Reads each head and payload as it comes. A head that was looked at and not taken is pending, with
// its offset; so is one that stands for what is not in the bytes, as a byte of a byte string that
// is read as numbers.
#[derive(Drop)]
pub(crate) struct ByteSource<'a, R, A> {
    pub(crate) decoder: Decoder<'a, R, A>,
    pub(crate) pending: Option<(Header, usize)>,
    pub(crate) levels: usize,
    pub(crate) scratch: &'a mut [u8],
    pub(crate) failure: Option<io::Error>,
    ghost unpushed: { pushed_of decoder ≡ None },
}

// How many items or pairs are left; or any number, up to a break; or the bytes of a byte string.
#[derive(Drop)]
pub(crate) enum Left {
    Counted(usize),
    Open,
    Bytes(vec::IntoIter<u8>),
}

// What is left of a container, the levels to give back behind it, and where it began.
#[derive(Drop)]
pub(crate) struct ByteSeq {
    pub(crate) left: Left,
    pub(crate) levels: usize,
    pub(crate) offset: usize,
}

// The levels to give back behind the content of a tag or a variant.
#[derive(Drop)]
pub(crate) struct ByteLevel {
    pub(crate) levels: usize,
}
