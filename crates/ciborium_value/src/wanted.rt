//! A struct from a map by labels, for implementations of `Deserialize`.

ghost use Rattle.std.specs.Prelude.{◌≡◌, ◌<◌, ◌≤◌, Bool, IfErr, IfOk, None, OnErr, OnOk};
ghost use Rattle.std.specs.Prelude.{Option, Some, false, true};
ghost use Rattle.std.specs.Option.{option_map, unwrap_or};
ghost use Rattle.ciborium_ll.specs.Item.{Item};
ghost use Rattle.ciborium_value.specs.Labels as labels;
ghost use Rattle.ciborium_value.specs.Nesting.{Limit};
ghost use Rattle.ciborium_value.specs.Sources.{RefusesAhead, TakesAhead, TakesItem, TakesOneItem};
ghost use Rattle.ciborium_value.specs.Sources.{TakesOnly, of_kind};
ghost use Rattle.ciborium_value.specs.StructReadings.{FieldsGiven, field_place, field_given};
ghost use Rattle.ciborium_value.specs.StructReadings.{no_field_given, no_other_given, given_fields};
ghost use Rattle.ciborium_value.specs.Given.{outcome};
ghost use Rattle.ciborium_ll.specs.declared.kind.Kind.TheVariants.{Other};

use crate::deserialize::Deserialize;
use crate::fields::NoField;
use crate::labels::{Labels, SoughtLabel};
use crate::source::Source;
use ciborium_ll::Kind;
use std::alloc::Global;

/// A field by its label, a text or a number, what has been read of it so far, which at first is
/// nothing, and the fields after it: a `Wanted` again, or the end of the fields. They are read by
/// `read_fields`:
///
///     let mut fields = Wanted("version", None, Wanted("body", None, NoField));
///     read_fields(alloc, source, &mut fields)?;
///     let Wanted(_, version, Wanted(_, body, NoField)) = fields;
///
/// The end says what is accepted beside them. `NoField`: other keys are passed over, and of a
/// repeated field the last one counts. `NoFieldTwice`: other keys are passed over. `NoOtherField`:
/// neither another key nor a repeated field is.
#[derive(Drop)]
pub struct Wanted<L, V, R>(pub L, pub Option<V>, pub R);

/// The end of fields of which none occurs twice: a key that does is refused as `DuplicateKey`, at
/// its offset. Other keys are passed over, and not looked at for this.
#[derive(Drop)]
pub struct NoFieldTwice;

/// The end of fields of which none occurs twice, and beside which there is no other: a key that
/// occurs twice is refused as `DuplicateKey`, another key as `UnknownField`, each at its offset.
#[derive(Drop)]
pub struct NoOtherField;

/// The place of a label among those of fields in a row: the first field's, or one behind it.
#[derive(Drop)]
pub enum FieldPlace<P> {
    First,
    Behind(P),
}

/// Fields in a row: a `Wanted`, or an end of the fields.
pub trait WantedFields: Labels + Drop {
    // Each may occur but once.
    ghost once: { Bool };

    // What counts of what was read of them.
    ghost Content: { Type 0 };

    ghost content: { Self → Content };

    // What an item gives them under a label, onto what was read.
    ghost fields: { Self → FieldsGiven Content };

    /// Whether a field that occurs twice is refused.
    fn is_once(&self) -> bool
        ensures { result ≡ once };

    /// Reads the item that the source stands before, which is the value under a label with this
    /// place and at this offset: as the type of the first field of this label, replacing what was
    /// read of it before. Where there is no such field, it is passed over, or the end of the fields
    /// refuses the label. Where it is refused, a prefix of what was unread has been taken and
    /// nothing else, and no more is left to read than before.
    fn read_field<S: Source>(
        &mut self,
        place: Self::Place,
        offset: Option<usize>,
        alloc: Global,
        source: &mut S,
    ) -> Result<(), S::Error>
        ensures names { OnOk result ((name : labels.Label) (c : Content) (l : Limit) (i : Item) →
            outcome l (fields self.new name c i) ≡ outcome l (fields self.old name c i)) }
        ensures ok { OnOk result ((name : labels.Label) → Self.place_of self.old name ≡ place →
            TakesAhead S.stands_before source.old source.new
            (fields self.old name (content self.old)) (content self.new)) }
        ensures refused { IfErr result
            (λ e. (name : labels.Label) → Self.place_of self.old name ≡ place →
            RefusesAhead S.stands_before source.old
            (fields self.old name (content self.old)) (S.cause source.new e)) }
        ensures took { OnOk result (TakesItem S.is_unread source.old source.new) }
        ensures only { TakesOnly S.has_taken source.old source.new }
        ensures less { OnOk result (S.left source.new < S.left source.old) }
        ensures no_more { OnErr result (S.left source.new ≤ S.left source.old) };
}

/// An end of fields: `NoField`, `NoFieldTwice` or `NoOtherField`.
pub trait FieldsEnd: Drop {
    // Each field may occur but once.
    ghost once: { Bool };

    // What stands under a key that is no field's.
    ghost others: { FieldsGiven (Unit {0}) };

    /// Whether a field that occurs twice is refused.
    fn is_once() -> bool
        ensures { result ≡ once };

    /// Passes over the item that the source stands before, which is the value under a key that is
    /// no field's, at this offset; or refuses the key. Then a prefix of what was unread has been
    /// taken and nothing else, and no more is left to read than before.
    fn read_other<S: Source>(
        offset: Option<usize>,
        alloc: Global,
        source: &mut S,
    ) -> Result<(), S::Error>
        ensures ok { OnOk result ((name : labels.Label) →
            TakesAhead S.stands_before source.old source.new (others name tt) tt) }
        ensures refused { IfErr result (λ e. (name : labels.Label) →
            RefusesAhead S.stands_before source.old (others name tt) (S.cause source.new e)) }
        ensures took { OnOk result (TakesItem S.is_unread source.old source.new) }
        ensures only { TakesOnly S.has_taken source.old source.new }
        ensures less { OnOk result (S.left source.new < S.left source.old) }
        ensures no_more { OnErr result (S.left source.new ≤ S.left source.old) };
}

impl FieldsEnd for NoField {
    ghost once = { false };

    ghost others = { no_field_given };

    fn is_once() -> bool {
        false
    }

    fn read_other<S: Source>(
        _offset: Option<usize>,
        alloc: Global,
        source: &mut S,
    ) -> Result<(), S::Error> {
        source.skip(alloc)
    }
}

impl FieldsEnd for NoFieldTwice {
    ghost once = { true };

    ghost others = { no_field_given };

    fn is_once() -> bool {
        true
    }

    fn read_other<S: Source>(
        offset: Option<usize>,
        alloc: Global,
        source: &mut S,
    ) -> Result<(), S::Error> {
        NoField::read_other(offset, alloc, source)
    }
}

impl FieldsEnd for NoOtherField {
    ghost once = { true };

    ghost others = { no_other_given };

    fn is_once() -> bool {
        true
    }

    fn read_other<S: Source>(
        offset: Option<usize>,
        _alloc: Global,
        source: &mut S,
    ) -> Result<(), S::Error> {
        Err(source.refuse_at(offset, Kind::UnknownField))
    }
}

impl<E: FieldsEnd> Labels for E {
    type Place = ();

    ghost place_of = { λ _ _. tt };

    fn find_name(&self, _name: &str) {}

    fn find_number(&self, _negative: bool, _n: u128) {}

    fn find_other(&self) {}
}

impl<E: FieldsEnd> WantedFields for E {
    ghost once = { E.once };

    ghost Content = { Unit {0} };

    ghost content = { λ _. tt };

    ghost fields = { λ _. E.others };

    fn is_once(&self) -> bool {
        E::is_once()
    }

    fn read_field<S: Source>(
        &mut self,
        _place: (),
        offset: Option<usize>,
        alloc: Global,
        source: &mut S,
    ) -> Result<(), S::Error> {
        E::read_other(offset, alloc, source)
    }
}

impl<L: SoughtLabel, V, R: Labels> Labels for Wanted<L, V, R> {
    type Place = FieldPlace<R::Place>;

    ghost place_of = { λ w. field_place (L.label w.0) (R.place_of w.2) };

    fn find_name(&self, name: &str) -> FieldPlace<R::Place> {
        if self.0.is_name(name) {
            return FieldPlace::First;
        }
        FieldPlace::Behind(self.2.find_name(name))
    }

    fn find_number(&self, negative: bool, n: u128) -> FieldPlace<R::Place> {
        if self.0.is_number(negative, n) {
            return FieldPlace::First;
        }
        FieldPlace::Behind(self.2.find_number(negative, n))
    }

    fn find_other(&self) -> FieldPlace<R::Place> {
        FieldPlace::Behind(self.2.find_other())
    }
}

impl<L: SoughtLabel, V: Deserialize, R: WantedFields> WantedFields for Wanted<L, V, R> {
    ghost once = { R.once };

    ghost Content = { Option V.Content × R.Content };

    ghost content = { λ w. (option_map V.reading.content w.1, R.content w.2) };

    ghost fields = { λ w. field_given R.once (L.label w.0) V.reading.taken (R.fields w.2) };

    fn is_once(&self) -> bool {
        self.2.is_once()
    }

    fn read_field<S: Source>(
        &mut self,
        place: FieldPlace<R::Place>,
        offset: Option<usize>,
        alloc: Global,
        source: &mut S,
    ) -> Result<(), S::Error> {
        match place {
            FieldPlace::First => {
                if self.2.is_once() && self.1.is_some() {
                    return Err(source.refuse_at(offset, Kind::DuplicateKey));
                }
                let value = V::deserialize(alloc, source)?;
                self.1 = Some(value);
                Ok(())
            }
            FieldPlace::Behind(behind) => self.2.read_field(behind, offset, alloc, source),
        }
    }
}

/// Reads a map whose keys are labels, as `Source::label` reads them. The value under the label of a
/// field is read as the field's type, and of a repeated label the last one counts; the value under
/// another key is passed over. Where the end of the fields refuses one of them, it does so before
/// the value is read. Skips tags. A field that does not occur stays as it was.
///
/// # Errors
///
/// It is refused as `Map` where another item stands there, for nesting where no level is left,
/// where a key or the value under it is refused, and as `DuplicateKey` or `UnknownField` where the
/// end of the fields asks for it. Then a prefix of what was unread has been taken and nothing else,
/// and no more is left to read than before.
pub fn read_fields<F: WantedFields, S: Source>(
    alloc: Global,
    source: &mut S,
    fields: &mut F,
) -> Result<(), S::Error>
    ensures { TakesOneItem S.stands_before S.is_unread S.has_taken S.left S.cause source.old
        source.new (given_fields (F.fields fields.old) (F.content fields.old))
        (λ _. F.content fields.new) result }
{
    let mut seq = source.begin_map()?;
    while source.next(&mut seq)? {
        let offset = source.offset();
        let place = source.label(alloc, fields)?;
        fields.read_field(place, offset, alloc, source)?;
    }
    Ok(())
}

/// What was read of a field that must be there.
///
/// # Errors
///
/// It is refused as `Other` where nothing was read.
pub fn required<T: Drop, S: Source>(source: &S, field: Option<T>) -> Result<T, S::Error>
    ensures found { IfOk result (λ v. field ≡ Some v) }
    ensures missing { IfErr result (λ e. (field ≡ None) × (S.cause source.now e ≡ of_kind Other)) }
{
    match field {
        Some(value) => Ok(value),
        None => Err(source.refuse(Kind::Other)),
    }
}

/// What was read of a field that may be missing, which then is this.
pub fn found_or<T: Deserialize>(field: Option<T>, default: T) -> T
    ensures { Some (T.reading.content result) ≡ Some (unwrap_or
        (option_map T.reading.content field) (T.reading.content default)) }
{
    field.unwrap_or(default)
}
