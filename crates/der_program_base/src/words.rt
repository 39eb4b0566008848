//! The words of a line.
ghost use Rattle.std.specs.Prelude.{MatchOption};
ghost use Rattle.der_program_base.specs.Words.{HasNo, IsAfter, IsFirstWord};

/// Returns what follows a word, if the line begins with that word.
pub fn after<'a>(line: &'a [u8], word: &[u8]) -> Option<&'a [u8]>
    ensures { IsAfter line.now word.now result }
{
    line.strip_prefix(word)
}

/// Returns what precedes the first space and what follows it, or `None` if there is no space.
pub fn first_word(line: &[u8]) -> Option<(&[u8], &[u8])>
    ensures { MatchOption result (HasNo 0x20 line.now) (λ parts. IsFirstWord line.now parts.0.now parts.1.now) }
{
    let Some(end) = line.iter().position(|byte| *byte == b' ') else {
        return None;
    };
    Some((&line[..end], &line[end + 1..]))
}
