//! Names of spaces and of sessions.
ghost use Rattle.std.specs.Prelude.{◌≡◌};
ghost use Rattle.std.specs.List.{list_all};
ghost use Rattle.hac_model.specs.Script.SpaceNames.{is_space_byte, is_space_name};

/// Whether bytes are the name of a space: 1 to 32 ASCII letters, ASCII digits, `_` or `-`. A
/// session has such a name too.
#[tactic(auto, unfolding(hac_model::specs::Script::SpaceNames::is_space_name))]
pub fn is_space_name(bytes: &[u8]) -> bool
    ensures { result ≡ is_space_name bytes.now }
{
    (1..=32).contains(&bytes.len()) && are_space_bytes(bytes)
}

fn are_space_bytes(bytes: &[u8]) -> bool
    ensures { result ≡ list_all is_space_byte bytes.now }
{
    bytes.iter().all(|byte| is_space_byte(*byte))
}

#[tactic(auto, unfolding(hac_model::specs::Script::SpaceNames::is_space_byte))]
fn is_space_byte(byte: u8) -> bool
    ensures { result ≡ is_space_byte byte }
{
    byte.is_ascii_alphanumeric() || byte == b'_' || byte == b'-'
}
