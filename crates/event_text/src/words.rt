//! The words of a line.

ghost use Rattle.std.specs.Prelude.{◌≡◌, ◌≤◌, ◌<◌, [], ◌∷◌, length, Some, None, IfSome, IfNone};
ghost use Rattle.std.specs.List.{prefix_len, position_or_len};
ghost use Rattle.event_text.specs.Lines.{is_blank, words};
ghost use Rattle.event_text.specs.Words.{one_word, two_words, three_words, four_words};

/// Whether a byte parts words.
fn is_blank(byte: u8) -> bool
    ensures { result ≡ is_blank byte }
{
    byte == b' ' || byte == b'\t'
}

/// The first word of a line, and what follows it.
pub fn first_word(line: &[u8]) -> Option<(&[u8], &[u8])>
    ensures none { IfNone result (words line.now ≡ []) }
    ensures some { IfSome result (λ parts. words line.now ≡ parts.0.now ∷ words parts.1.now) }
    ensures shorter { IfSome result (λ parts. length parts.1.now < length line.now) }
{
    let rest = &line[blanks_before(line)..];
    if rest.is_empty() {
        return None;
    }
    Some(rest.split_at(word_len(rest)))
}

/// How many blanks a line begins with.
fn blanks_before(line: &[u8]) -> usize
    ensures count { result ≡ prefix_len is_blank line.now }
    ensures within { result ≤ length line.now }
{
    line.iter().take_while(|byte| is_blank(**byte)).count()
}

/// How many bytes there are before the first blank.
fn word_len(line: &[u8]) -> usize
    ensures len { result ≡ position_or_len is_blank line.now }
    ensures within { result ≤ length line.now }
{
    line.iter().take_while(|byte| !is_blank(**byte)).count()
}

/// The only word of a line.
pub fn one_word(line: &[u8]) -> Option<&[u8]>
    ensures none { IfNone result (one_word (words line.now) ≡ None) }
    ensures some { IfSome result (λ word. one_word (words line.now) ≡ Some word.now) }
{
    let (word, rest) = first_word(line)?;
    if first_word(rest).is_some() {
        return None;
    }
    Some(word)
}

/// The words of a line of two.
pub fn two_words(line: &[u8]) -> Option<(&[u8], &[u8])>
    ensures none { IfNone result (two_words (words line.now) ≡ None) }
    ensures some { IfSome result (λ it. two_words (words line.now) ≡ Some (it.0.now, it.1.now)) }
{
    let (first, rest) = first_word(line)?;
    let second = one_word(rest)?;
    Some((first, second))
}

/// The words of a line of three.
pub fn three_words(line: &[u8]) -> Option<(&[u8], &[u8], &[u8])>
    ensures none { IfNone result (three_words (words line.now) ≡ None) }
    ensures some { IfSome result (λ it. three_words (words line.now) ≡ Some (it.0.now, it.1.now, it.2.now)) }
{
    let (first, rest) = first_word(line)?;
    let (second, third) = two_words(rest)?;
    Some((first, second, third))
}

/// The words of a line of four.
pub fn four_words(line: &[u8]) -> Option<(&[u8], &[u8], &[u8], &[u8])>
    ensures none { IfNone result (four_words (words line.now) ≡ None) }
    ensures some { IfSome result (λ it.
        four_words (words line.now) ≡ Some (it.0.now, it.1.now, it.2.now, it.3.now)) }
{
    let (first, rest) = first_word(line)?;
    let (second, third, fourth) = three_words(rest)?;
    Some((first, second, third, fourth))
}
