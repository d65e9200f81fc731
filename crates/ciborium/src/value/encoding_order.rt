//! The orders of encodings as types.

ghost use Rattle.std.specs.Prelude.{◌≡◌};
ghost use Rattle.ciborium_value.specs.declared.key_order.KeyOrder.{KeyOrder};
ghost use Rattle.ciborium_value.specs.declared.key_order.KeyOrder.TheVariants as orders;

use ciborium_value::KeyOrder;

/// An order of values by their encodings, as a type.
pub trait EncodingOrder {
    // The order.
    ghost order: { KeyOrder };

    /// The order.
    fn order() -> KeyOrder
        ensures { result ≡ order };
}

/// `KeyOrder::LengthFirst` as a type.
#[derive(Debug, Drop)]
pub struct LengthFirst;

impl EncodingOrder for LengthFirst {
    ghost order = { orders.LengthFirst };

    #[inline(always)]
    fn order() -> KeyOrder {
        KeyOrder::LengthFirst
    }
}

/// `KeyOrder::Bytewise` as a type.
#[derive(Debug, Drop)]
pub struct Bytewise;

impl EncodingOrder for Bytewise {
    ghost order = { orders.Bytewise };

    #[inline(always)]
    fn order() -> KeyOrder {
        KeyOrder::Bytewise
    }
}
