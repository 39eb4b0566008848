//! Types whose values are lists.
ghost use Rattle.picky_der_core.specs.Tree.{IsListTree};

use crate::Serialize;

/// A type whose values are lists: a SEQUENCE or a SET, of fixed members or of any number of one type.
///
/// Only such a type can be in an `ImplicitList`. A struct of your own becomes one by `impl List for It { ghost is_list
/// = { λ it. tt }; }`.
pub trait List: Serialize {
    // Each value means a list.
    ghost is_list: { (v : Self) → IsListTree (Self.meaning v) };
}
