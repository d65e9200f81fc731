//! Names.

ghost use Rattle.std.specs.Prelude.{◌≡◌, ◌≤◌, IfErr, IfOk, IfSome, None, Some};
ghost use Rattle.std.specs.Prelude.{IsUtf8, MatchOption, string_bytes};
ghost use Rattle.ciborium_ll.specs.declared.strings.StringType.{StringType};
ghost use Rattle.ciborium_value.specs.Labels.{name_place, placed};
ghost use Rattle.ciborium_value.specs.Given.{given_name};
ghost use Rattle.ciborium_value.specs.declared.labels.LabelType.TheVariants.{Name};
ghost use Rattle.ciborium.specs.inner.ByteSources.{KeepsSource, AnswersItem, IsUnread, PassesItem};
ghost use Rattle.ciborium.specs.inner.ByteSources.{end_at, fault_at, head_label_type};
ghost use Rattle.ciborium.specs.inner.StringContents.{DeniesContent, TakesPlace};

use crate::de::byte_source::ByteSource;
use crate::de::error::{BareReadError, Error};
use ciborium_ll::tag::is_bignum;
use ciborium_ll::{Access, Header, Visitor};
use ciborium_value::{Kind, LabelType, Labels};
use std::alloc::Global;
use std::str;

// The length in bytes up to which a name is looked up without memory.
const BUFFER_SIZE: usize = 64;

// The length of a text that has room.
#[inline(always)]
fn short_len(len: Option<usize>) -> Option<usize>
    ensures { IfSome result (λ n. (len ≡ Some n) × (n ≤ 64)) }
{
    match len {
        Some(n) => {
            if n <= BUFFER_SIZE {
                return Some(n);
            }
            None
        }
        None => None,
    }
}

/// How the item that this head begins is read as a label.
#[inline(always)]
pub(crate) fn label_type(header: Header) -> LabelType
    ensures { result ≡ head_label_type header }
{
    match header {
        Header::Positive(_) | Header::Negative(_) => LabelType::Number,
        Header::Bytes(_) | Header::Text(_) => LabelType::Name,
        Header::Tag(tag) => {
            if is_bignum(tag) {
                LabelType::Number
            } else {
                LabelType::Name
            }
        }
        _ => LabelType::Other,
    }
}

// Finds the place of a name, or none where the bytes are no text.
#[derive(Clone, Copy, Drop)]
struct NameFinder<'n, N> {
    names: &'n N,
}

impl<'n, N: Labels> Visitor for NameFinder<'n, N> {
    type Value = Option<N::Place>;

    ghost makes = { λ self bytes found. MatchOption found (¬ IsUtf8 bytes)
        (λ place. IsUtf8 bytes × (place ≡ name_place (N.place_of self.names.now) bytes)) };

    #[inline(always)]
    fn visit(&self, bytes: &[u8]) -> Option<N::Place> {
        match str::from_utf8(bytes) {
            Ok(name) => Some(self.names.find_name(name)),
            Err(_) => None,
        }
    }
}

impl<'a, R, A: Access<R>> ByteSource<'a, R, A> {
    /// A text, or a byte string that is UTF-8 once its chunks are joined.
    #[inline(always)]
    pub(crate) fn name(&mut self, alloc: Global) -> Result<String, BareReadError>
        ensures keeps { PassesItem A.remaining self.old self.new result }
        ensures answer { AnswersItem A.can_fail A.remaining self.old self.new (Some self.old.levels)
            given_name string_bytes result }
    {
        let (header, offset) = self.bare_head(false)?;
        match header {
            Header::Text(len) => self.text_content(alloc, len),
            Header::Bytes(len) => {
                let bytes = self.bytes_content(alloc, len)?;
                match String::from_utf8(bytes) {
                    Ok(name) => Ok(name),
                    Err(_) => Err(Error::Semantic(Some(offset), Kind::Name)),
                }
            }
            _ => Err(Error::Semantic(Some(offset), Kind::Name)),
        }
    }

    // The place of the text of n bytes whose head, at this offset, was taken last, where they are
    // not held.
    #[inline(always)]
    fn copied_place<N: Labels>(
        &mut self,
        n: usize,
        offset: usize,
        names: &N,
    ) -> Result<N::Place, BareReadError>
        requires pending { self.old.pending ≡ None }
        requires short { n ≤ 64 }
        ensures keeps { KeepsSource A.remaining self.old self.new }
        ensures ok { IfOk result (λ place. TakesPlace (IsUnread A.remaining self.old)
            (IsUnread A.remaining self.new) StringType.Text (Some n)
            (name_place (N.place_of names.now))
            place) }
        ensures denied { IfErr result
            (λ e. DeniesContent (IsUnread A.remaining self.old) (end_at A.remaining self.old)
            StringType.Text (Some n) (fault_at A.can_fail A.remaining self.new e)) }
    {
        let mut buffer = [0u8; BUFFER_SIZE];
        let payload = &mut buffer[..n];
        self.fill(payload)?;
        match str::from_utf8(payload) {
            Ok(name) => Ok(names.find_name(name)),
            Err(_) => Err(Error::Syntax(offset)),
        }
    }

    // The place of the text of n bytes whose head, at this offset, was taken last.
    #[inline(always)]
    fn short_place<N: Labels>(
        &mut self,
        n: usize,
        offset: usize,
        names: &N,
    ) -> Result<N::Place, BareReadError>
        requires pending { self.old.pending ≡ None }
        requires short { n ≤ 64 }
        ensures keeps { KeepsSource A.remaining self.old self.new }
        ensures ok { IfOk result (λ place. TakesPlace (IsUnread A.remaining self.old)
            (IsUnread A.remaining self.new) StringType.Text (Some n)
            (name_place (N.place_of names.now))
            place) }
        ensures denied { IfErr result
            (λ e. DeniesContent (IsUnread A.remaining self.old) (end_at A.remaining self.old)
            StringType.Text (Some n) (fault_at A.can_fail A.remaining self.new e)) }
    {
        match self.visit(n, &NameFinder { names })? {
            Some(Some(place)) => Ok(place),
            Some(None) => Err(Error::Syntax(offset)),
            None => self.copied_place(n, offset, names),
        }
    }

    /// The place of the text whose head, at this offset, was taken last. Memory is allocated only
    /// for a long one, and one of indefinite length.
    #[inline(always)]
    pub(crate) fn text_place<N: Labels>(
        &mut self,
        alloc: Global,
        len: Option<usize>,
        offset: usize,
        names: &N,
    ) -> Result<N::Place, BareReadError>
        requires { self.old.pending ≡ None }
        ensures keeps { KeepsSource A.remaining self.old self.new }
        ensures ok { IfOk result (λ place. TakesPlace (IsUnread A.remaining self.old)
            (IsUnread A.remaining self.new) StringType.Text len (name_place (N.place_of names.now))
            place) }
        ensures denied { IfErr result
            (λ e. DeniesContent (IsUnread A.remaining self.old) (end_at A.remaining self.old)
            StringType.Text len (fault_at A.can_fail A.remaining self.new e)) }
    {
        if let Some(n) = short_len(len) {
            return self.short_place(n, offset, names);
        }
        let name = self.text_content(alloc, len)?;
        Ok(names.find_name(&name))
    }

    // The place of a name among these labels, which is read as `name` reads it.
    fn named_place<N: Labels>(
        &mut self,
        alloc: Global,
        labels: &N,
    ) -> Result<N::Place, BareReadError>
        ensures keeps { PassesItem A.remaining self.old self.new result }
        ensures answer { AnswersItem A.can_fail A.remaining self.old self.new (Some self.old.levels)
            (placed (N.place_of labels.now) Name) (λ v. v) result }
    {
        let (header, offset) = self.bare_head(false)?;
        match header {
            Header::Text(len) => self.text_place(alloc, len, offset, labels),
            Header::Bytes(len) => {
                let bytes = self.bytes_content(alloc, len)?;
                match str::from_utf8(&bytes) {
                    Ok(name) => Ok(labels.find_name(name)),
                    Err(_) => Err(Error::Semantic(Some(offset), Kind::Name)),
                }
            }
            _ => Err(Error::Semantic(Some(offset), Kind::Name)),
        }
    }

    /// The place among these labels of a key of this type.
    #[inline(never)]
    pub(crate) fn place_of_type<N: Labels>(
        &mut self,
        alloc: Global,
        label: LabelType,
        labels: &N,
    ) -> Result<N::Place, BareReadError>
        ensures keeps { PassesItem A.remaining self.old self.new result }
        ensures answer { AnswersItem A.can_fail A.remaining self.old self.new (Some self.old.levels)
            (placed (N.place_of labels.now) label) (λ v. v) result }
    {
        match label {
            LabelType::Name => self.named_place(alloc, labels),
            LabelType::Number => {
                let ((negative, n), _) = self.read_integer()?;
                Ok(labels.find_number(negative, n))
            }
            LabelType::Other => {
                self.skip(alloc)?;
                Ok(labels.find_other())
            }
        }
    }
}
