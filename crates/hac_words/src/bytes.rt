//! The bytes that words are made of.
ghost use Rattle.std.specs.Prelude.{◌≡◌};
ghost use Rattle.hac_model.specs.Query.Words.{is_lower_word_byte, is_word, is_word_byte};

/// Whether the bytes are one word as texts have them: in lower case, and without a byte that
/// separates words.
#[tactic(auto, unfolding(hac_model::specs::Query::Words::is_word))]
pub fn is_word(bytes: &[u8]) -> bool
    ensures { result ≡ is_word bytes.now }
{
    !bytes.is_empty() && bytes.iter().all(|b| is_lower_word_byte(*b))
}

#[tactic(auto, unfolding(hac_model::specs::Query::Words::is_lower_word_byte))]
fn is_lower_word_byte(b: u8) -> bool
    ensures { result ≡ is_lower_word_byte b }
{
    is_word_byte(b) && !b.is_ascii_uppercase()
}

/// Whether a byte is one of those that words are made of: a letter or a digit of ASCII, or a byte
/// above. All others separate words.
#[tactic(auto, unfolding(hac_model::specs::Query::Words::is_word_byte))]
pub fn is_word_byte(b: u8) -> bool
    ensures { result ≡ is_word_byte b }
{
    b.is_ascii_alphanumeric() || b >= 128
}
