// How names and strings are spelled.
ghost use Rattle.std.specs.Prelude.{◌≡◌};
ghost use Rattle.std.specs.List.{list_any};
ghost use Rattle.std.specs.Str.{bytes_eq};
ghost use Rattle.layout.specs.Texts.{letter, letter_or_digit, identifier, keyword, string_byte, all};

use nodes::bytes::byte;

fn is_letter(b: u8) -> bool
    ensures { result ≡ letter b }
{
    b.is_ascii_alphabetic() || b == b'_'
}

fn are_letters_or_digits(text: &[u8]) -> bool
    ensures { result ≡ all letter_or_digit text.now }
{
    text.iter().all(|b| is_letter(*b) || b.is_ascii_digit())
}

/// Whether the bytes are a letter and then letters and digits.
pub fn is_identifier(text: &[u8]) -> bool
    ensures { result ≡ identifier text.now }
{
    is_letter(byte(text, 0)) && are_letters_or_digits(text)
}

/// Whether every byte may stand in a string.
pub fn is_string_text(text: &[u8]) -> bool
    ensures { result ≡ all string_byte text.now }
{
    text.iter()
        .all(|b| matches!(b, 32..=126 | 9..=10 | 12..=13))
}

// The keywords of the language, in alphabetical order.
const KEYWORDS: [&[u8]; 15] = [
    b"bool",
    b"break",
    b"continue",
    b"else",
    b"false",
    b"for",
    b"if",
    b"import",
    b"int",
    b"len",
    b"long",
    b"return",
    b"true",
    b"void",
    b"while",
];

// Whether the bytes are those of one of the words.
fn is_one_of(text: &[u8], words: &[&[u8]]) -> bool
    ensures { result ≡ list_any (λ word. bytes_eq text.now word.now) words.now }
{
    words.iter().any(|word| text == *word)
}

/// Whether the bytes are a keyword of the language.
#[tactic(auto, unfolding(layout::specs::Texts::keyword))]
pub fn is_keyword(text: &[u8]) -> bool
    ensures { result ≡ keyword text.now }
{
    is_one_of(text, &KEYWORDS)
}
