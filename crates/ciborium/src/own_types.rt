//! The bodies of `serialize` and `deserialize` of own types, from the list of their parts.

/// The body of `serialize` of a struct: its fields as a map, `{field, ..}`, or as an array,
/// `[field, ..]`. It gives a `Result<(), S::Error>`.
///
///     write_struct!(self, sink, {id, name, seq?, key: "k", algorithm: 1, level = 3})
///
/// A field of a map stands under its own name, or under the label behind the colon, a text or a
/// number. One with `?` is an `Option`, which is left out where it is `None`. Defaults, and the
/// kind of refusal that `..` names, are for reading: the list may be the one of `read_struct`.
///
/// # Errors
///
/// Those of the fields.
#[macro_export]
macro_rules! write_struct {
    (@map $value:ident $(.. $end:ident)?) => { $crate::ser::NoField };
    (@map $value:ident $field:ident ? $(: $label:literal)? $(, $($rest:tt)*)?) => {
        $crate::ser::MaybeField(
            $crate::label!($field $($label)?),
            &$value.$field,
            $crate::write_struct!(@map $value $($($rest)*)?),
        )
    };
    (@map $value:ident
        $field:ident $(: $label:literal)? $(= $default:expr)? $(, $($rest:tt)*)?) => {
        $crate::ser::Field(
            $crate::label!($field $($label)?),
            &$value.$field,
            $crate::write_struct!(@map $value $($($rest)*)?),
        )
    };

    (@array $value:ident) => { $crate::ser::NoItem };
    (@array $value:ident $field:ident $(, $($rest:tt)*)?) => {
        $crate::ser::Item(&$value.$field, $crate::write_struct!(@array $value $($($rest)*)?))
    };

    ($value:ident, $sink:expr, {$($fields:tt)*}) => {
        $crate::ser::Serialize::serialize(&$crate::write_struct!(@map $value $($fields)*), $sink)
    };
    ($value:ident, $sink:expr, [$($fields:tt)*]) => {
        $crate::ser::Serialize::serialize(
            &$crate::ser::Array($crate::write_struct!(@array $value $($fields)*)),
            $sink,
        )
    };
}

/// The body of `deserialize` of a struct, from a map of its fields, `{field, ..}`, or from an array
/// of them, `[field, ..]`. It gives a `Result<Self, S::Error>`.
///
///     read_struct!(alloc, source, {id, name, seq?, key: "k", level = 3, ..NoOtherField})
///
/// A field of a map stands under its own name, or under the label behind the colon. It may be
/// missing where a default stands behind `=`, or where it has `?`: it is `None` then. What becomes
/// of other keys and of repeated ones is said by the type behind `..`, or is as `NoField` has it.
///
/// # Errors
///
/// Those of `read_fields`, or of `Array` as it is read, and `Other` for a field that is missing.
#[macro_export]
macro_rules! read_struct {
    (@map $alloc:ident $source:ident [$(($field:ident $label:expr $(, $default:expr)?))*]) => {
        $crate::read_struct!(@map $alloc $source
            [$(($field $label $(, $default)?))*] .. {$crate::de::NoField})
    };
    (@map $alloc:ident $source:ident [$($done:tt)*] .. $end:ident) => {
        $crate::read_struct!(@map $alloc $source [$($done)*] .. {$crate::de::$end})
    };
    (@map $alloc:ident $source:ident
        [$(($field:ident $label:expr $(, $default:expr)?))*] .. {$($end:tt)*}) => {{
        let mut fields = $crate::read_struct!(@wanted {$($end)*} $($label,)*);
        $crate::de::read_fields($alloc, $source, &mut fields)?;
        $(let $crate::de::Wanted(_, $field, fields) = fields;)*
        let $($end)* = fields;
        Ok(Self { $($field: $crate::read_struct!(@found $source $field $($default)?)),* })
    }};
    (@map $alloc:ident $source:ident [$($done:tt)*]
        $field:ident ? $(: $label:literal)? $(, $($rest:tt)*)?) => {
        $crate::read_struct!(@map $alloc $source
            [$($done)* ($field $crate::label!($field $($label)?), None)] $($($rest)*)?)
    };
    (@map $alloc:ident $source:ident [$($done:tt)*]
        $field:ident $(: $label:literal)? $(= $default:expr)? $(, $($rest:tt)*)?) => {
        $crate::read_struct!(@map $alloc $source
            [$($done)* ($field $crate::label!($field $($label)?) $(, $default)?)] $($($rest)*)?)
    };

    (@wanted {$($end:tt)*}) => { $($end)* };
    (@wanted $end:tt $label:expr, $($rest:tt)*) => {
        $crate::de::Wanted($label, None, $crate::read_struct!(@wanted $end $($rest)*))
    };

    (@found $source:ident $found:ident) => { $crate::de::required($source, $found)? };
    (@found $source:ident $found:ident $default:expr) => {
        $crate::de::found_or($found, $default)
    };

    ($alloc:ident, $source:ident, {$($fields:tt)*}) => {
        $crate::read_struct!(@map $alloc $source [] $($fields)*)
    };
    ($alloc:ident, $source:ident, [$($field:ident),* $(,)?]) => {{
        let $crate::de::Array($crate::read_struct!(@items $($field,)*)) =
            $crate::de::Deserialize::deserialize($alloc, $source)?;
        Ok(Self { $($field),* })
    }};

    (@items) => { $crate::de::NoItem };
    (@items $field:ident, $($rest:tt)*) => {
        $crate::de::Item($field, $crate::read_struct!(@items $($rest)*))
    };
}

/// The body of `serialize` of an enum: the name of a variant, or where it has data a map from that
/// name to them. It gives a `Result<(), S::Error>`.
///
///     write_enum!(self, sink, {Point, Circle(_), Square(_): "square"})
///
/// # Errors
///
/// Those of the data.
#[macro_export]
macro_rules! write_enum {
    ($value:ident, $sink:ident,
        {$($variant:ident $(($data:tt))? $(: $label:literal)?),* $(,)?}) => {
        match $value {
            $($crate::write_enum!(@pattern $variant data $($data)?) => $crate::write_enum!(
                @written $sink ($crate::label!($variant $($label)?)) data $($data)?
            ),)*
        }
    };

    (@pattern $variant:ident $name:ident) => { Self::$variant };
    (@pattern $variant:ident $name:ident $data:tt) => { Self::$variant($name) };

    (@written $sink:ident ($label:expr) $name:ident) => {
        $crate::ser::Serialize::serialize(&$label, $sink)
    };
    (@written $sink:ident ($label:expr) $name:ident $data:tt) => {
        $crate::ser::Serialize::serialize(
            &$crate::ser::Field($label, $name, $crate::ser::NoField),
            $sink,
        )
    };
}

/// The body of `deserialize` of an enum, from the name of a variant, or from a map from that name
/// to its data. It gives a `Result<Self, S::Error>`.
///
///     read_enum!(alloc, source, {Point, Circle(_), Square(_): "square"})
///
/// # Errors
///
/// `Variant` where no variant has the name, and those of `begin_variant` and of the data.
#[macro_export]
macro_rules! read_enum {
    ($alloc:ident, $source:ident,
        {$($variant:ident $(($data:tt))? $(: $label:literal)?),* $(,)?}) => {{
        let (name, level) = $source.begin_variant($alloc)?;
        $(if name.as_str() == $crate::label!($variant $($label)?) {
            let value = $crate::read_enum!(@read $alloc $source $variant $($data)?);
            $source.end_variant(level);
            return Ok(value);
        })*
        Err($source.refuse($crate::value::Kind::Variant))
    }};

    (@read $alloc:ident $source:ident $variant:ident) => {{
        $source.unit()?;
        Self::$variant
    }};
    (@read $alloc:ident $source:ident $variant:ident $data:tt) => {
        Self::$variant($crate::de::Deserialize::deserialize($alloc, $source)?)
    };
}

/// The label of a part: its own name, or the one that is given. For the macros above.
#[macro_export]
macro_rules! label {
    ($name:ident) => { stringify!($name) };
    ($name:ident $label:literal) => { $label };
}
