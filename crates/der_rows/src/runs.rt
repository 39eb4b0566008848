//! Results for 0, 1, 2 and so on, with equal neighbours joined.

use std::alloc::{AllocError, Global};

/// The results in order, with equal neighbours written once: `0 to 22: Err(InvalidSink), 23: Ok(23)`.
pub(crate) fn in_runs(alloc: Global, answers: &[String]) -> Result<String, AllocError> {
    let mut text = String::new(alloc);
    let mut first = 0;
    for (last, answer) in answers.iter().enumerate() {
        if answers.get(last + 1) == Some(answer) {
            continue;
        }
        if first > 0 {
            text.push_str(", ")?;
        }
        if first == last {
            write!(text, "{last}: {answer}")?;
        } else {
            write!(text, "{first} to {last}: {answer}")?;
        }
        first = last + 1;
    }
    Ok(text)
}
