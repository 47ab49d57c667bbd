//! The bytes of one word.
ghost use Rattle.std.specs.Prelude.{◌≡◌, option_map, position};
ghost use Rattle.std.specs.List.{list_all};
ghost use Rattle.command_words.specs.Numbers.{is_digit, is_number};
ghost use Rattle.command_words.specs.WordByWord.{behind, is_equals};

fn are_digits(text: &[u8]) -> bool
    ensures { result ≡ list_all is_digit text.now }
{
    text.iter().all(|byte| b'0' <= *byte && *byte <= b'9')
}

/// The text is one to ten digits.
#[tactic(auto, unfolding(crate::specs::Numbers::is_number))]
pub fn is_number(text: &[u8]) -> bool
    ensures { result ≡ is_number text.now }
{
    0 < text.len() && text.len() <= 10 && are_digits(text)
}

/// The place of the first `=`.
pub fn equals_at(text: &[u8]) -> Option<usize>
    ensures { result ≡ position is_equals text.now }
{
    text.iter().position(|byte| *byte == b'=')
}

/// What stands behind a first hyphen.
pub fn behind_hyphen(word: &[u8]) -> Option<&[u8]>
    ensures { option_map (λ b. b.now) result ≡ behind 45 word.now }
{
    let (first, rest) = word.split_first()?;
    if *first == b'-' { Some(rest) } else { None }
}
