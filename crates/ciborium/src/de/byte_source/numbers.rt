//! Numbers: integers, and bignums that are read byte by byte.

ghost use Rattle.std.specs.Prelude.{◌≡◌, ◌==◌, ◌∷◌, ◌<◌, IfErr, IfOk, None, Some};
ghost use Rattle.std.specs.Prelude.{[], false, true, ℕ};
ghost use Rattle.ciborium_ll.specs.declared.strings.StringType.{StringType};
ghost use Rattle.ciborium_ll.specs.declared.header.Header.TheVariants as heads;
ghost use Rattle.ciborium_value.specs.Sources.{IsGrantedFault};
ghost use Rattle.ciborium_value.specs.Given.{given_bignum, given_integer};
ghost use Rattle.ciborium.specs.inner.ByteSources.{IsUnread, end_at};
ghost use Rattle.ciborium.specs.inner.ByteSources.{AnswersItem, KeepsSource, PassesItem};
ghost use Rattle.ciborium.specs.inner.ByteSources.{fault_at};
ghost use Rattle.ciborium.specs.inner.StringContents.{DeniesContent, DeniesJust, TakesDigits};
ghost use Rattle.ciborium.specs.inner.StringContents.{TakesNumber, one_digit_more};

use crate::de::byte_source::ByteSource;
use crate::de::error::{BareReadError, Error};
use ciborium_ll::tag::BIGNEG;
use ciborium_ll::{Access, Header};
use ciborium_value::Kind;

// The number with one byte more, or none where 128 bits do not hold it.
#[inline(always)]
fn with_digit(number: Option<u128>, byte: u8) -> Option<u128>
    ensures { result ≡ one_digit_more number byte }
{
    match number {
        Some(n) => {
            if n < 1 << 120 {
                Some(n * 256 + u128::from(byte))
            } else {
                None
            }
        }
        None => None,
    }
}

// Whether a head is that of a negative number. Told apart here, the two signs share one arm, which
// the processor does not have to guess.
#[inline(always)]
fn is_negative(header: Header) -> bool
    ensures positive { (n : ℕ) → header ≡ heads.Positive n → result ≡ false }
    ensures negative { (n : ℕ) → header ≡ heads.Negative n → result ≡ true }
{
    match header {
        Header::Negative(_) => true,
        _ => false,
    }
}

#[inline(always)]
fn only_byte(buffer: &[u8; 1]) -> u8
    ensures { buffer.now ≡ result ∷ [] }
{
    buffer[0]
}

impl<'a, R, A: Access<R>> ByteSource<'a, R, A> {
    // The number with the next bytes, `len` of them, as its further digits.
    fn read_digits(
        &mut self,
        len: usize,
        start: Option<u128>,
    ) -> Result<Option<u128>, BareReadError>
        requires { self.old.pending ≡ None }
        ensures keeps { KeepsSource A.remaining self.old self.new }
        ensures ok { IfOk result (λ number. TakesDigits (IsUnread A.remaining self.old)
            (IsUnread A.remaining self.new) len start number) }
        ensures outside { IfErr result
            (λ e. DeniesJust (IsUnread A.remaining self.old) (end_at A.remaining self.old) len
            (fault_at A.can_fail A.remaining self.new e)) }
        ensures memory { IfErr result
            (λ e. IsGrantedFault (fault_at A.can_fail A.remaining self.new e) false) }
    {
        let mut number = start;
        let mut left = len;
        while left > 0 {
            let mut buffer = [0u8; 1];
            self.decoder
                .read_exact_keeping(&mut buffer, &mut self.failure)?;
            number = with_digit(number, only_byte(&buffer));
            left -= 1;
        }
        Ok(number)
    }

    // The number that the byte string makes whose head was taken last. It is read whole, also where
    // 128 bits do not hold it.
    fn read_number(&mut self, len: Option<usize>) -> Result<Option<u128>, BareReadError>
        requires { self.old.pending ≡ None }
        ensures keeps { KeepsSource A.remaining self.old self.new }
        ensures ok { IfOk result (λ number. TakesNumber (IsUnread A.remaining self.old)
            (IsUnread A.remaining self.new) len number) }
        ensures denied { IfErr result
            (λ e. DeniesContent (IsUnread A.remaining self.old) (end_at A.remaining self.old)
            StringType.Bytes len (fault_at A.can_fail A.remaining self.new e)) }
        ensures memory { IfErr result
            (λ e. IsGrantedFault (fault_at A.can_fail A.remaining self.new e) false) }
    {
        match len {
            Some(n) => self.read_digits(n, Some(0)),
            None => {
                let mut number = Some(0u128);
                'parts: loop {
                    let (header, offset) = self.next_head()?;
                    match header {
                        Header::Break => return Ok(number),
                        Header::Bytes(part) => match part {
                            Some(n) => number = self.read_digits(n, number)?,
                            None => return Err(Error::Syntax(offset)),
                        },
                        _ => return Err(Error::Syntax(offset)),
                    }
                }
            }
        }
    }

    // The number under the tag of a bignum, which was taken last and stands at this offset.
    #[inline(never)]
    fn read_bignum(&mut self, tag_offset: usize) -> Result<u128, BareReadError>
        ensures keeps { KeepsSource A.remaining self.old self.new }
        ensures answer { AnswersItem A.can_fail A.remaining self.old self.new None
            given_bignum (λ v. v) result }
        ensures memory { IfErr result
            (λ e. IsGrantedFault (fault_at A.can_fail A.remaining self.new e) false) }
    {
        let (header, offset) = self.next_head()?;
        match header {
            Header::Bytes(len) => {
                let number = self.read_number(len)?;
                match number {
                    Some(n) => Ok(n),
                    None => Err(Error::Semantic(Some(tag_offset), Kind::TooLarge)),
                }
            }
            Header::Break => Err(Error::Semantic(Some(offset), Kind::Break)),
            _ => Err(Error::Semantic(Some(offset), Kind::Bytes)),
        }
    }

    // The number under this tag of a bignum, which was taken last and stands at this offset. Apart
    // from `read_integer`, so that the room for an error is made ready only behind a tag.
    #[inline(always)]
    fn read_tagged(
        &mut self,
        tag: u64,
        offset: usize,
    ) -> Result<((bool, u128), usize), BareReadError>
        ensures keeps { KeepsSource A.remaining self.old self.new }
        ensures sign { IfOk result (λ v. v.0.0 ≡ (tag == 3)) }
        ensures offset { IfOk result (λ v. v.1 ≡ offset) }
        ensures answer { AnswersItem A.can_fail A.remaining self.old self.new None
            given_bignum (λ v. v.0.1) result }
        ensures memory { IfErr result
            (λ e. IsGrantedFault (fault_at A.can_fail A.remaining self.new e) false) }
    {
        let n = self.read_bignum(offset)?;
        Ok(((tag == BIGNEG, n), offset))
    }

    /// A number, and the offset of its head or, for a bignum, of the tag of it.
    #[inline(always)]
    pub(crate) fn read_integer(&mut self) -> Result<((bool, u128), usize), BareReadError>
        ensures keeps { PassesItem A.remaining self.old self.new result }
        ensures answer { AnswersItem A.can_fail A.remaining self.old self.new (Some self.old.levels)
            given_integer (λ v. v.0) result }
        ensures memory { IfErr result
            (λ e. IsGrantedFault (fault_at A.can_fail A.remaining self.new e) false) }
    {
        let (header, offset) = self.bare_head(true)?;
        let negative = is_negative(header);
        match header {
            Header::Positive(n) | Header::Negative(n) => { Ok(((negative, u128::from(n)), offset)) }
            Header::Tag(tag) => self.read_tagged(tag, offset),
            _ => Err(Error::Semantic(Some(offset), Kind::Integer)),
        }
    }
}
