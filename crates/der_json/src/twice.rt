//! Members that an object of a text has twice.

use crate::refusal::JsonStep;
use json::{Reader, Scratch, Token};
use std::alloc::{AllocError, Global};
use std::collections::BTreeMap;

// An object or an array of a text that isn't closed yet.
#[derive(Drop)]
struct Level {
    // The names of an object's members so far.
    names: BTreeMap<String, ()>,
    // The last member or item so far.
    last: Option<JsonStep>,
    is_array: bool,
}

// The path of the first member of a JSON text whose name its object already has, or `None`.
pub(crate) fn path_of_twice(
    alloc: Global,
    text: &str,
) -> Result<Option<Vec<JsonStep>>, AllocError> {
    let mut scratch = Scratch::new(alloc);
    let mut reader = Reader::new(text, &mut scratch)?;
    let mut levels = Vec::new(alloc);
    for _ in 0..text.len() {
        let Some(token) = reader.next() else {
            return Ok(None);
        };
        if let Token::Key(name) = token {
            if is_twice(alloc, &mut levels, name)? {
                return Ok(Some(path_of(alloc, levels)?));
            }
        } else {
            pass(alloc, &mut levels, token)?;
        }
    }
    Ok(None)
}

// Passes a token that isn't a name.
fn pass(alloc: Global, levels: &mut Vec<Level>, token: Token<'_>) -> Result<(), AllocError> {
    if matches!(token, Token::EndObject | Token::EndArray) {
        drop(levels.pop());
        return Ok(());
    }
    if let Some(level) = levels.last_mut() {
        level.pass_item();
    }
    if matches!(token, Token::BeginObject | Token::BeginArray) {
        levels.push(Level {
            names: BTreeMap::new(alloc),
            last: None,
            is_array: matches!(token, Token::BeginArray),
        })?;
    }
    Ok(())
}

// Whether the innermost object already has a member of this name, which is now its last.
fn is_twice(alloc: Global, levels: &mut Vec<Level>, name: &str) -> Result<bool, AllocError> {
    let Some(level) = levels.last_mut() else {
        return Ok(false);
    };
    level.last = Some(JsonStep::Member(String::from_str(alloc, name)?));
    let before = level.names.insert(String::from_str(alloc, name)?, ())?;
    Ok(before.is_some())
}

// The steps to the last member or item of each level.
fn path_of(alloc: Global, levels: Vec<Level>) -> Result<Vec<JsonStep>, AllocError> {
    let mut path = Vec::new(alloc);
    for level in levels {
        let Level { names, last, .. } = level;
        drop(names);
        if let Some(step) = last {
            path.push(step)?;
        }
    }
    Ok(path)
}

impl Level {
    // The next item is the last one, if this is an array.
    fn pass_item(&mut self) {
        if !self.is_array {
            return;
        }
        let index = match self.last {
            Some(JsonStep::Item(index)) => index.saturating_add(1),
            _ => 0,
        };
        self.last = Some(JsonStep::Item(index));
    }
}
