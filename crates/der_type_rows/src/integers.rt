//! Numbers: `i16 02 02 FF 7F` to be read, and `i16 -129` to be written.

use crate::outcomes::{made, written};
use der_fixtures::{bytes_of, text_of};
use der_types::{Enumerated, Int, Integer, deserialize_int, serialize_int};
use picky_der_core::{Asn1DerError, Result as DerResult};
use picky_der_de::{Deserialize, Deserializer, from_bytes};
use picky_der_ser::Serializer;
use std::alloc::{AllocError, Global};
use std::fmt::Display;
use std::str::FromStr;

/// How a number is read and written.
#[derive(Clone, Copy)]
pub(crate) enum Way {
    /// By itself.
    Number,
    /// As an `Integer`.
    Value,
}

/// What the bytes are read as.
pub(crate) fn read(alloc: Global, way: Way, row: &str) -> Result<String, AllocError> {
    let Some((name, text)) = row.split_once(" ") else {
        return String::from_str(alloc, "no type");
    };
    match bytes_of(alloc, text) {
        Ok(bytes) => read_as(alloc, way, name, &bytes),
        Err(_) => String::from_str(alloc, "no bytes"),
    }
}

fn read_as(alloc: Global, way: Way, name: &str, bytes: &[u8]) -> Result<String, AllocError> {
    match name {
        "i8" => read_int::<i8>(alloc, way, bytes),
        "i16" => read_int::<i16>(alloc, way, bytes),
        "i32" => read_int::<i32>(alloc, way, bytes),
        "i64" => read_int::<i64>(alloc, way, bytes),
        "i128" => read_int::<i128>(alloc, way, bytes),
        "u8" => read_int::<u8>(alloc, way, bytes),
        "u16" => read_int::<u16>(alloc, way, bytes),
        "u32" => read_int::<u32>(alloc, way, bytes),
        "u64" => read_int::<u64>(alloc, way, bytes),
        "u128" => read_int::<u128>(alloc, way, bytes),
        "Integer" => read_integer(alloc, bytes),
        "Enumerated" => read_enumerated(alloc, bytes),
        _ => String::from_str(alloc, "no type"),
    }
}

fn read_int<N: Int + Display>(alloc: Global, way: Way, bytes: &[u8]) -> Result<String, AllocError> {
    let mut deserializer = Deserializer::new_from_bytes(alloc, bytes);
    let outcome = match way {
        Way::Number => deserialize_int::<N, _>(&mut deserializer),
        Way::Value => fit(Integer::deserialize(&mut deserializer)),
    };
    match outcome {
        Ok(number) => format!(in alloc; "{number}"),
        Err(error) => format!(in alloc; "refused {error}"),
    }
}

// The number of an integer. The error says that it doesn't fit the type.
fn fit<N: Int>(integer: DerResult<Integer>) -> DerResult<N> {
    match integer?.to_int() {
        Some(number) => Ok(number),
        None => Err(Asn1DerError::UnsupportedValue),
    }
}

// A copy of what is read is written again.
fn read_integer(alloc: Global, bytes: &[u8]) -> Result<String, AllocError> {
    match from_bytes::<Integer>(alloc, bytes).and_then(|it| Ok(it.clone()?)) {
        Ok(copy) => written(alloc, &copy),
        Err(error) => format!(in alloc; "refused {error}"),
    }
}

fn read_enumerated(alloc: Global, bytes: &[u8]) -> Result<String, AllocError> {
    match from_bytes::<Enumerated>(alloc, bytes).and_then(|it| Ok(it.clone()?)) {
        Ok(copy) => written(alloc, &copy),
        Err(error) => format!(in alloc; "refused {error}"),
    }
}

/// What a number is written as.
pub(crate) fn write(alloc: Global, way: Way, row: &str) -> Result<String, AllocError> {
    let Some((name, number)) = row.split_once(" ") else {
        return String::from_str(alloc, "no type");
    };
    match name {
        "i8" => write_int::<i8>(alloc, way, number),
        "i16" => write_int::<i16>(alloc, way, number),
        "i32" => write_int::<i32>(alloc, way, number),
        "i64" => write_int::<i64>(alloc, way, number),
        "i128" => write_int::<i128>(alloc, way, number),
        "u8" => write_int::<u8>(alloc, way, number),
        "u16" => write_int::<u16>(alloc, way, number),
        "u32" => write_int::<u32>(alloc, way, number),
        "u64" => write_int::<u64>(alloc, way, number),
        "u128" => write_int::<u128>(alloc, way, number),
        _ => String::from_str(alloc, "no type"),
    }
}

fn write_int<N: Int + FromStr>(alloc: Global, way: Way, text: &str) -> Result<String, AllocError>
where
    N::Err: Drop,
{
    let Ok(number) = N::from_str(text) else {
        return String::from_str(alloc, "no number");
    };
    match way {
        Way::Number => write_alone(alloc, number),
        Way::Value => made(alloc, Integer::from_int(alloc, number)),
    }
}

fn write_alone<N: Int>(alloc: Global, number: N) -> Result<String, AllocError> {
    let mut room = [0; 19];
    let mut serializer = Serializer::new_to_bytes(alloc, &mut room);
    let outcome = serialize_int(&mut serializer, number);
    drop(serializer);
    match outcome {
        Ok(len) => match room.get(..len) {
            Some(bytes) => text_of(alloc, bytes),
            None => String::from_str(alloc, "too long"),
        },
        Err(error) => format!(in alloc; "{error}"),
    }
}
