//! What each byte is in a query.
ghost use Rattle.std.specs.Prelude.{◌≡◌};
ghost use Rattle.hac_model.specs.Query.Grammar.{is_control};
ghost use Rattle.hac_model.specs.Query.QueryReading.{kind_of};
ghost use Rattle.hac_model.specs.Query.Words.{is_word_byte};

use hac_model::reading::ByteKind;

#[tactic(auto, unfolding(hac_model::specs::Query::QueryReading::kind_of))]
pub(crate) fn kind_of(byte: u8) -> ByteKind
    ensures { result ≡ kind_of byte }
{
    if is_word_byte(byte) {
        ByteKind::Word
    } else if byte == b' ' {
        ByteKind::Space
    } else if byte == b'(' {
        ByteKind::Open
    } else if byte == b')' {
        ByteKind::Close
    } else if byte == b'*' {
        ByteKind::Star
    } else if byte == b'{' {
        ByteKind::Brace
    } else if byte == b'}' {
        ByteKind::EndBrace
    } else if byte == b'\\' {
        ByteKind::Backslash
    } else if byte == b'/' {
        ByteKind::Slash
    } else if is_control(byte) {
        ByteKind::Control
    } else {
        ByteKind::Foreign
    }
}

#[tactic(auto, unfolding(hac_model::specs::Query::Words::is_word_byte))]
fn is_word_byte(byte: u8) -> bool
    ensures { result ≡ is_word_byte byte }
{
    byte.is_ascii_alphanumeric() || byte >= 128
}

fn is_control(byte: u8) -> bool
    ensures { result ≡ is_control byte }
{
    byte < 32 || byte == 127
}
