//! The laws of canonical DER: each is the contract of a function without arguments, over the definitions alone. The
//! submodules have the laws of `==` and of copies.
ghost use Rattle.std.specs.Prelude.{◌≡◌, ℤ, List, ℕ, true};
ghost use Rattle.picky_der_core.specs.Element.{AreBytes};
ghost use Rattle.picky_der_core.specs.Integer.{is_integer, integer_content, integer_value, twos_complement};
ghost use Rattle.picky_der_core.specs.Laws.{LengthBothWays, WrapperLengths, FirstsTell, UniqueReadability, OneValue};
ghost use Rattle.picky_der_core.specs.Laws.{RoundTrip};
ghost use Rattle.picky_der_core.specs.Laws.{SameBytes, OneInside, SetOrder, NoAmplification};

pub mod copies;
pub mod equality;
pub mod order;

/// A length that begins another length, followed by any bytes, is that length (X.690, 8.1.3 and 10.1).
pub fn length_both_ways()
    ensures { LengthBothWays }
{}

/// Around something, a wrapper whose tag can be written is one element that holds exactly what it should, at every
/// depth. An application tag is one around anything.
#[tactic(auto, using(crate::proofs::LawProofs::wrapper_lengths))]
pub fn wrapper_lengths()
    ensures { WrapperLengths }
{}

/// The encoding of a readable tree isn't empty, and its first byte is one of its shape's.
#[tactic(auto, using(crate::proofs::LawProofs::firsts_tell))]
pub fn firsts_tell()
    ensures { FirstsTell }
{}

/// If the encoding of one of two readable trees begins the other's, and one sound shape has both, the trees are equal.
#[tactic(auto, using(crate::proofs::LawProofs::unique_readability))]
pub fn unique_readability()
    ensures { UniqueReadability }
{}

/// Two readable trees of a sound shape whose encodings both begin one input are equal.
pub fn one_value()
    ensures { OneValue }
{}

/// Reading the encoding of a readable tree of a sound shape gives this tree and no other. What follows the encoding is
/// left.
pub fn round_trip()
    ensures { RoundTrip }
{}

/// Lists of readable trees of a sound shape are equal exactly if their encodings, one after another, are equal.
#[tactic(auto, using(crate::proofs::LawProofs::same_bytes))]
pub fn same_bytes()
    ensures { SameBytes }
{}

/// The content directly under an implicit tag, within one end, is that of one tree of a sound shape.
pub fn one_inside()
    ensures { OneInside }
{}

/// Sets of the same members, in any order, have the same encoding (X.690, 11.6). Each member is as often in both.
#[tactic(auto, using(crate::proofs::LawProofs::set_order))]
pub fn set_order()
    ensures { SetOrder }
{}

/// What a readable tree holds is less than twice its encoding: the bytes of its contents and raw parts, and one for
/// each member of a list. So a value that is read holds at most twice what was consumed. What vectors reserve isn't
/// counted.
#[tactic(auto, using(crate::proofs::HeldLaws::no_amplification))]
pub fn no_amplification()
    ensures { NoAmplification }
{}

/// Each whole number has one content, and each content that passes the test is that of a number. The bits of a number's
/// content count as its value (X.690, 8.3).
pub fn integers()
    ensures made { (z : ℤ) → is_integer (integer_content z) ≡ true }
    ensures all { (bs : List ℕ) → AreBytes bs → is_integer bs ≡ true
        → integer_content (integer_value bs) ≡ bs }
    ensures one { (y z : ℤ) → integer_content y ≡ integer_content z → y ≡ z }
    ensures value { (z : ℤ) → twos_complement (integer_content z) ≡ z }
{}
