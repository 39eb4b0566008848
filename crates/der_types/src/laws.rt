//! Laws about what the types mean. They are statements for proofs and run no code, which is why their bodies are empty.
ghost use Rattle.std.specs.Prelude.{◌≡◌, ◌≤◌, ℕ, Bool, List, [], ◌∷◌, length, true, chars, IsUtf8};
ghost use Rattle.std.specs.List.{list_all};
ghost use Rattle.std.specs.Cmp.Lexicographic.{slice_cmp};
ghost use Rattle.std.specs.Ordering.{nat_cmp, int_cmp};
ghost use Rattle.std.specs.Char.Escape.{encode_utf16};
ghost use Rattle.picky_der_core.specs.Element.{AreBytes};
ghost use Rattle.picky_der_core.specs.Integer.{integer_value};
ghost use Rattle.picky_der_core.specs.Readable.{IsReadable};
ghost use Rattle.picky_der_core.specs.Shape.{IsOf};
ghost use Rattle.picky_der_core.specs.Equality.{IsEqualityOf, IsThatOf, IsKept, IsCopied};
ghost use Rattle.der_types.specs.BitString.{is_bit_string, bit_string_content, bits_of, is_named_bits, without_zeros};
ghost use Rattle.der_types.specs.CharacterStrings.{string_content, characters, is_string_content, is_ia5, is_bmp};
ghost use Rattle.picky_der_core.specs.Tree.{Tree};
ghost use Rattle.der_types.specs.Denotes.{Denotes, IsShort};
ghost use Rattle.der_types.specs.declared.width.Width.{Width};
ghost use Rattle.der_types.specs.SampleTrees.{has_sample};
ghost use Rattle.picky_der_de.specs.Examples.{HasReadable};
ghost use Rattle.der_types.specs.RelativeOid.{are_relative_arcs, is_relative_oid, relative_oid_content};
ghost use Rattle.der_types.specs.Subidentifiers.{numbers_after};
ghost use Rattle.der_types.specs.TagOrder.{AreInTagOrder, member_encodings};
ghost use Rattle.der_types.specs.DateTimes.{seconds_of};
ghost use Rattle.der_types.specs.GeneralizedTimes.{ticks};
ghost use Rattle.der_types.specs.ObjectIdentifier.{is_object_identifier, object_identifier_content, are_arcs, arcs_of};
ghost use Rattle.der_types.specs.TimeChoice.{date_time_of};
ghost use Rattle.der_types.specs.TimeContents.{is_utc_time, fraction_of};
ghost use Rattle.der_types.specs.TimeValues.{utc_content};

pub use crate::generated::equality::{content_copies, content_equality, content_orders};
use crate::{
    Arcs, CharacterSet, DateTime, Exact, GeneralizedTime, ImplicitPrimitive, ImplicitSet, Integer,
    LaterTime, OidError, RestrictedString, TagOrdered, Time, TimeError, UtcTime, Width,
};
pub use picky_der_core::laws::integers;

/// Errors, and widths, are equal by `==` exactly if they are the same. Times of one form are equal exactly if their
/// dates and times are.
pub fn equality()
    ensures error { IsEqualityOf ⟦<OidError as PartialEq>⟧.eq (λ error. error) }
    ensures width { IsEqualityOf ⟦<Width as PartialEq>⟧.eq (λ width. width) }
    ensures utc_time { IsThatOf ⟦<UtcTime as PartialEq>⟧.eq (λ time. time.at) ⟦<DateTime as PartialEq>⟧.eq }
    ensures later_time { IsThatOf ⟦<LaterTime as PartialEq>⟧.eq (λ time. time.at) ⟦<DateTime as PartialEq>⟧.eq }
{}

/// A copy of arcs not yet returned, of an error, of a width, or of a date and time is the same.
pub fn copies()
    ensures arcs { IsKept ⟦<Arcs<'static> as Clone>⟧.is_clone (λ arcs. arcs) }
    ensures error { IsKept ⟦<OidError as Clone>⟧.is_clone (λ error. error) }
    ensures time_error { IsKept ⟦<TimeError as Clone>⟧.is_clone (λ error. error) }
    ensures width { IsKept ⟦<Width as Clone>⟧.is_clone (λ width. width) }
    ensures date_time { IsKept ⟦<DateTime as Clone>⟧.is_clone (λ at. at) }
    ensures utc_time { IsKept ⟦<UtcTime as Clone>⟧.is_clone (λ time. time) }
    ensures later_time { IsKept ⟦<LaterTime as Clone>⟧.is_clone (λ time. time) }
    ensures time { IsKept ⟦<Time as Clone>⟧.is_clone (λ time. time) }
{}

/// Each valid list of arcs has a content, each content encodes a list of arcs, and different lists have different
/// contents.
pub fn object_identifiers()
    ensures made { (arcs : List ℕ) → are_arcs arcs ≡ true
        → is_object_identifier (object_identifier_content arcs) ≡ true }
    ensures all { (bs : List ℕ) → AreBytes bs → is_object_identifier bs ≡ true
        → object_identifier_content (arcs_of bs) ≡ bs }
    ensures one { (a b : List ℕ) → are_arcs a ≡ true → are_arcs b ≡ true
        → object_identifier_content a ≡ object_identifier_content b → a ≡ b }
{}

/// Each list of at least one arc has a content as a RELATIVE-OID, each content encodes such a list, and different lists
/// have different contents.
#[tactic(auto, using(crate::specs::RelativeOidLaws::valid_relative, crate::specs::RelativeOidLaws::relative_arcs, crate::specs::RelativeOidLaws::same_relative))]
pub fn relative_oids()
    ensures made { (arcs : List ℕ) → are_relative_arcs arcs ≡ true
        → is_relative_oid (relative_oid_content arcs) ≡ true }
    ensures all { (bs : List ℕ) → AreBytes bs → is_relative_oid bs ≡ true
        → relative_oid_content (numbers_after 0 bs) ≡ bs }
    ensures one { (a b : List ℕ) → relative_oid_content a ≡ relative_oid_content b → a ≡ b }
{}

/// INTEGERs are in the order of their numbers.
pub fn integer_order()
    ensures { (x y : Integer) → AreBytes x.content.items → AreBytes y.content.items
        → ⟦<Integer as Ord>⟧.cmp x y
        ≡ int_cmp (integer_value x.content.items) (integer_value y.content.items) }
{}

/// When a SET is read back, its members begin with tags in the order of tags (X.690, 10.3), and no tag occurs twice.
pub fn sets<T: TagOrdered>()
    ensures order { (value : T) → IsOf T.shape (T.meaning value) → IsReadable (T.meaning value)
        → AreInTagOrder (member_encodings (T.meaning value)) }
{}

/// Each list of bits has a content, each content encodes a list of bits, and different lists have different contents.
pub fn bit_strings()
    ensures made { (bits : List Bool) → is_bit_string (bit_string_content bits) ≡ true }
    ensures all { (bs : List ℕ) → AreBytes bs → is_bit_string bs ≡ true
        → bit_string_content (bits_of bs) ≡ bs }
    ensures bits { (bits : List Bool) → bits_of (bit_string_content bits) ≡ bits }
    ensures one { (a b : List Bool) → bit_string_content a ≡ bit_string_content b → a ≡ b }
{}

/// Each list of bits has a content as a list of named bits, in which zeros at the end are left out. Each such content
/// is one of a bit string.
pub fn named_bits()
    ensures made { (bits : List Bool)
        → is_named_bits (bit_string_content (without_zeros bits)) ≡ true }
    ensures all { (bs : List ℕ) → is_named_bits bs ≡ true → is_bit_string bs ≡ true }
{}

/// Two strings of a set are equal by `==` exactly if their contents are the same.
pub fn string_equality<S: CharacterSet>()
    ensures { IsEqualityOf ⟦<RestrictedString<S> as PartialEq>⟧.eq (λ it. it.content.items) }
{}

/// Strings of a set are ordered by the bytes of their contents, at the first index where these differ. A copy has the
/// same content.
pub fn string_order<S: CharacterSet>()
    ensures order { IsThatOf ⟦<RestrictedString<S> as Ord>⟧.cmp (λ it. it.content.items) (slice_cmp nat_cmp) }
    ensures copy { IsKept ⟦<RestrictedString<S> as Clone>⟧.is_clone (λ it. it.content.items) }
{}

/// A primitive value under another tag is ordered as the value, and so is a set as its members. A copy holds a copy.
pub fn wrappers<T: Clone + Ord, const TAG: u8>()
    ensures primitive { IsThatOf ⟦<ImplicitPrimitive<T, TAG> as Ord>⟧.cmp (λ tagged. tagged.0) T.cmp }
    ensures set { IsThatOf ⟦<ImplicitSet<T, TAG> as Ord>⟧.cmp (λ set. set.0) T.cmp }
    ensures primitive_copy { IsCopied ⟦<ImplicitPrimitive<T, TAG> as Clone>⟧.is_clone (λ tagged. tagged.0) T.is_clone }
    ensures set_copy { IsCopied ⟦<ImplicitSet<T, TAG> as Clone>⟧.is_clone (λ set. set.0) T.is_clone }
{}

/// Each text whose characters are all in a set has a content, each content encodes its characters, and different texts
/// have different contents.
pub fn character_strings()
    ensures made { (width : Width) (is_character : ℕ → Bool) (text : List ℕ)
        → is_string_content width is_character (string_content width text)
        ≡ list_all is_character text }
    ensures all { (width : Width) (is_character : ℕ → Bool) (bs : List ℕ) → AreBytes bs
        → is_string_content width is_character bs ≡ true
        → string_content width (characters width bs) ≡ bs }
    ensures each { (width : Width) (is_character : ℕ → Bool) (bs : List ℕ)
        → is_string_content width is_character bs ≡ true
        → list_all is_character (characters width bs) ≡ true }
    ensures text { (width : Width) (text : List ℕ)
        → characters width (string_content width text) ≡ text }
    ensures one { (width : Width) (a b : List ℕ)
        → string_content width a ≡ string_content width b → a ≡ b }
{}

/// The content of a text in ASCII is the text's UTF-8. A character of a BMPString is one code unit of UTF-16.
pub fn unicode_contents()
    ensures ascii { (text : List ℕ) → IsUtf8 text → list_all is_ia5 (chars text) ≡ true
        → string_content Width.One (chars text) ≡ text }
    ensures bmp { (c : ℕ) → is_bmp c ≡ true → encode_utf16 c ≡ c ∷ [] }
{}

/// Dates and times are ordered by the number of seconds from the beginning of the year 0. They are equal exactly if
/// that number is.
pub fn date_times()
    ensures order { (x y : DateTime) → ⟦<DateTime as Ord>⟧.cmp x y
        ≡ nat_cmp (seconds_of x) (seconds_of y) }
    ensures equality { IsEqualityOf ⟦<DateTime as PartialEq>⟧.eq seconds_of }
{}

/// Each second of the years 1950 to 2049 has a content as a UTCTime, and different seconds have different contents
/// (X.690, 11.8).
pub fn utc_times()
    ensures made { (t : DateTime) → 1950 ≤ t.year → t.year ≤ 2049
        → is_utc_time (utc_content t) ≡ true }
    ensures one { (t u : DateTime) → 1950 ≤ t.year → t.year ≤ 2049 → 1950 ≤ u.year → u.year ≤ 2049
        → utc_content t ≡ utc_content u → seconds_of t ≡ seconds_of u }
{}

/// Times are ordered by the number of 10^k-ths of a second from the beginning of the year 0. This holds for each k that
/// is at least the number of digits of both fractions. They are equal exactly if their contents are the same.
pub fn generalized_times()
    ensures order { (k : ℕ) (x y : GeneralizedTime) → length (fraction_of x.content.items) ≤ k
        → length (fraction_of y.content.items) ≤ k
        → ⟦<GeneralizedTime as Ord>⟧.cmp x y ≡ nat_cmp (ticks k x) (ticks k y) }
    ensures equality { IsEqualityOf ⟦<GeneralizedTime as PartialEq>⟧.eq (λ it. it.content.items) }
{}

/// Times of RFC 5280 are ordered by their dates and times, and are equal exactly if these are one second.
pub fn times()
    ensures order { (x y : Time) → ⟦<Time as Ord>⟧.cmp x y
        ≡ nat_cmp (seconds_of (date_time_of x)) (seconds_of (date_time_of y)) }
    ensures equality { IsEqualityOf ⟦<Time as PartialEq>⟧.eq (λ time. seconds_of (date_time_of time)) }
{}

/// The readable values of an exact type mean exactly the readable trees that its notation denotes. A content with 2^63
/// or more bytes, or a list with as many members, is excluded: no vector is as long.
pub fn exact<T: Exact>()
    ensures sound { (it : T) → IsReadable (T.meaning it) → Denotes T.notation (T.meaning it) }
    ensures complete { (t : Tree) → Denotes T.notation t → IsReadable t → IsShort t
        → (it : T) × (T.meaning it ≡ t) }
{}

/// An exact type has a readable value if a tree of its notation is found by a search, which is done where a program is
/// checked.
pub fn inhabited<T: Exact>()
    ensures { has_sample T.notation ≡ true → HasReadable T.meaning }
{}
