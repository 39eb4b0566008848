//! A number under each context tag.

use crate::answers::{RowBytes, read_copied};
use crate::own_types;
use picky_asn1_der::asn1::*;
use std::alloc::{AllocError, Global};

/// The result of a row that names one of these types. Other rows go to the next family.
pub(crate) fn answer(alloc: Global, name: &str, row: &RowBytes) -> Result<String, AllocError> {
    if let Some(number) = number_in(name, "ExplicitContextTag") {
        return explicit(alloc, number, row);
    }
    match number_in(name, "ImplicitContextTag") {
        Some(number) => implicit(alloc, number, row),
        None => own_types::answer(alloc, name, row),
    }
}

// The number of the tag, of a `u8` in a type of this name: `ExplicitContextTag3<u8>` or `ExplicitContextTag<u8, 30>`.
fn number_in(name: &str, of: &str) -> Option<u8> {
    let rest = name.strip_prefix(of)?;
    match rest.strip_suffix("<u8>") {
        Some(number) => number.parse().ok(),
        None => rest.strip_prefix("<u8, ")?.strip_suffix(">")?.parse().ok(),
    }
}

// A number selects its arm without a comparison of names.
fn explicit(alloc: Global, number: u8, row: &RowBytes) -> Result<String, AllocError> {
    match number {
        0 => read_copied::<ExplicitContextTag0<u8>>(alloc, row),
        1 => read_copied::<ExplicitContextTag1<u8>>(alloc, row),
        2 => read_copied::<ExplicitContextTag2<u8>>(alloc, row),
        3 => read_copied::<ExplicitContextTag3<u8>>(alloc, row),
        4 => read_copied::<ExplicitContextTag4<u8>>(alloc, row),
        5 => read_copied::<ExplicitContextTag5<u8>>(alloc, row),
        6 => read_copied::<ExplicitContextTag6<u8>>(alloc, row),
        7 => read_copied::<ExplicitContextTag7<u8>>(alloc, row),
        8 => read_copied::<ExplicitContextTag8<u8>>(alloc, row),
        9 => read_copied::<ExplicitContextTag9<u8>>(alloc, row),
        10 => read_copied::<ExplicitContextTag10<u8>>(alloc, row),
        11 => read_copied::<ExplicitContextTag11<u8>>(alloc, row),
        12 => read_copied::<ExplicitContextTag12<u8>>(alloc, row),
        13 => read_copied::<ExplicitContextTag13<u8>>(alloc, row),
        14 => read_copied::<ExplicitContextTag14<u8>>(alloc, row),
        15 => read_copied::<ExplicitContextTag15<u8>>(alloc, row),
        30 => read_copied::<ExplicitContextTag<u8, 30>>(alloc, row),
        31 => read_copied::<ExplicitContextTag<u8, 31>>(alloc, row),
        _ => String::from_str(alloc, "unknown tag"),
    }
}

fn implicit(alloc: Global, number: u8, row: &RowBytes) -> Result<String, AllocError> {
    match number {
        0 => read_copied::<ImplicitContextTag0<u8>>(alloc, row),
        1 => read_copied::<ImplicitContextTag1<u8>>(alloc, row),
        2 => read_copied::<ImplicitContextTag2<u8>>(alloc, row),
        3 => read_copied::<ImplicitContextTag3<u8>>(alloc, row),
        4 => read_copied::<ImplicitContextTag4<u8>>(alloc, row),
        5 => read_copied::<ImplicitContextTag5<u8>>(alloc, row),
        6 => read_copied::<ImplicitContextTag6<u8>>(alloc, row),
        7 => read_copied::<ImplicitContextTag7<u8>>(alloc, row),
        8 => read_copied::<ImplicitContextTag8<u8>>(alloc, row),
        9 => read_copied::<ImplicitContextTag9<u8>>(alloc, row),
        10 => read_copied::<ImplicitContextTag10<u8>>(alloc, row),
        11 => read_copied::<ImplicitContextTag11<u8>>(alloc, row),
        12 => read_copied::<ImplicitContextTag12<u8>>(alloc, row),
        13 => read_copied::<ImplicitContextTag13<u8>>(alloc, row),
        14 => read_copied::<ImplicitContextTag14<u8>>(alloc, row),
        15 => read_copied::<ImplicitContextTag15<u8>>(alloc, row),
        30 => read_copied::<ImplicitContextTag<u8, 30>>(alloc, row),
        31 => read_copied::<ImplicitContextTag<u8, 31>>(alloc, row),
        _ => String::from_str(alloc, "unknown tag"),
    }
}
