//! Trees as literals.

/// The tree of a literal: `null`, `[item, ..]`, `{key => value, ..}`, or any expression of a type
/// that implements `Serialize`; keys, values and items are such trees too. A comma may follow the
/// last item or pair.
///
///     cbor!(alloc, {"codes" => [1, null], [-1] => {}})
///
/// It gives a `Result<Value, value::Error>`, and has no `?` of its own that would leave the
/// function around it. Every expression is evaluated once, in the order of the text, also behind
/// one that has no item; it is borrowed, and its tree is made by `Value::serialized` before the
/// next one is evaluated. The pairs of a map keep their order, and repeated keys are kept. An array
/// or a block of the language is written in parentheses.
///
/// Calls of macros nest at most 128 deep. Of these a literal takes two, and on the way to its
/// innermost part two for each list or map, one for each item of those lists and two for each pair
/// of those maps. So one list may have 124 items, one map 62 pairs, and there may be 42 lists of
/// one item in one another. A longer list has to be an expression, such as a `Vec` or a `Value`.
///
/// # Errors
///
/// `Custom` with the kind of the first expression that has no item, and `Memory` where an
/// allocation failed.
#[macro_export]
macro_rules! cbor {
    (@part $alloc:ident null) => { $crate::literals::null() };
    (@part $alloc:ident [$($items:tt)*]) => { $crate::cbor!(@items $alloc [] $($items)*) };
    (@part $alloc:ident {$($pairs:tt)*}) => { $crate::cbor!(@pairs $alloc [] $($pairs)*) };
    (@part $alloc:ident $part:literal) => { $crate::literals::literal($alloc, $part) };
    (@part $alloc:ident $part:expr) => { $crate::literals::part($alloc, &$part) };

    (@items $alloc:ident [$(($($item:tt)*))*]) => {{
        let items = $crate::literals::items($alloc);
        $(let items = $crate::literals::item(items, $crate::cbor!(@part $alloc $($item)*));)*
        $crate::literals::array(items)
    }};
    (@items $alloc:ident [$($done:tt)*] null $(, $($rest:tt)*)?) => {
        $crate::cbor!(@items $alloc [$($done)* (null)] $($($rest)*)?)
    };
    (@items $alloc:ident [$($done:tt)*] [$($inner:tt)*] $(, $($rest:tt)*)?) => {
        $crate::cbor!(@items $alloc [$($done)* ([$($inner)*])] $($($rest)*)?)
    };
    (@items $alloc:ident [$($done:tt)*] {$($inner:tt)*} $(, $($rest:tt)*)?) => {
        $crate::cbor!(@items $alloc [$($done)* ({$($inner)*})] $($($rest)*)?)
    };
    (@items $alloc:ident [$($done:tt)*] $item:literal $(, $($rest:tt)*)?) => {
        $crate::cbor!(@items $alloc [$($done)* ($item)] $($($rest)*)?)
    };
    (@items $alloc:ident [$($done:tt)*] $item:expr $(, $($rest:tt)*)?) => {
        $crate::cbor!(@items $alloc [$($done)* ($item)] $($($rest)*)?)
    };

    (@pairs $alloc:ident [$((($($key:tt)*) ($($value:tt)*)))*]) => {{
        let pairs = $crate::literals::pairs($alloc);
        $(let pairs = $crate::literals::pair(
            pairs,
            $crate::cbor!(@part $alloc $($key)*),
            $crate::cbor!(@part $alloc $($value)*),
        );)*
        $crate::literals::map(pairs)
    }};
    (@pairs $alloc:ident $done:tt null => $($rest:tt)+) => {
        $crate::cbor!(@behind $alloc $done (null) $($rest)+)
    };
    (@pairs $alloc:ident $done:tt [$($inner:tt)*] => $($rest:tt)+) => {
        $crate::cbor!(@behind $alloc $done ([$($inner)*]) $($rest)+)
    };
    (@pairs $alloc:ident $done:tt {$($inner:tt)*} => $($rest:tt)+) => {
        $crate::cbor!(@behind $alloc $done ({$($inner)*}) $($rest)+)
    };
    (@pairs $alloc:ident $done:tt $key:literal => $($rest:tt)+) => {
        $crate::cbor!(@behind $alloc $done ($key) $($rest)+)
    };
    (@pairs $alloc:ident $done:tt $key:expr => $($rest:tt)+) => {
        $crate::cbor!(@behind $alloc $done ($key) $($rest)+)
    };

    (@behind $alloc:ident [$($done:tt)*] $key:tt null $(, $($rest:tt)*)?) => {
        $crate::cbor!(@pairs $alloc [$($done)* ($key (null))] $($($rest)*)?)
    };
    (@behind $alloc:ident [$($done:tt)*] $key:tt [$($inner:tt)*] $(, $($rest:tt)*)?) => {
        $crate::cbor!(@pairs $alloc [$($done)* ($key ([$($inner)*]))] $($($rest)*)?)
    };
    (@behind $alloc:ident [$($done:tt)*] $key:tt {$($inner:tt)*} $(, $($rest:tt)*)?) => {
        $crate::cbor!(@pairs $alloc [$($done)* ($key ({$($inner)*}))] $($($rest)*)?)
    };
    (@behind $alloc:ident [$($done:tt)*] $key:tt $value:literal $(, $($rest:tt)*)?) => {
        $crate::cbor!(@pairs $alloc [$($done)* ($key ($value))] $($($rest)*)?)
    };
    (@behind $alloc:ident [$($done:tt)*] $key:tt $value:expr $(, $($rest:tt)*)?) => {
        $crate::cbor!(@pairs $alloc [$($done)* ($key ($value))] $($($rest)*)?)
    };

    ($alloc:expr, $($tree:tt)+) => {{
        let alloc = $alloc;
        $crate::cbor!(@part alloc $($tree)+)
    }};
}
