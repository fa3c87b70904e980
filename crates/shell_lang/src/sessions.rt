//! The session of a line.
ghost use Rattle.std.specs.Prelude.{◌≡◌};
ghost use Rattle.std.specs.Option.{ok_or, option_map};
ghost use Rattle.hac_model.specs.Script.SessionWords.{names_session, session_words};
ghost use Rattle.hac_model.specs.declared.replies.Refusal.TheVariants.{BadLine};

use crate::words::{skip_one, skip_spaces, split_run};
use hac_names::is_space_name;

/// The name of a line's session, and the bytes that spell what it asks for. None where the line is
/// bad, since it names no session behind its `@`.
pub fn session_words(line: &[u8]) -> Option<(&[u8], &[u8])>
    ensures { ok_or (option_map (λ words. (words.0.now, words.1.now)) result) BadLine ≡
        session_words line.now }
{
    if !names_session(line) {
        return Some((b"main", line));
    }
    let (word, rest) = split_run(line);
    let name = skip_one(word);
    if !is_space_name(name) {
        return None;
    }
    Some((name, rest))
}

/// Whether a line names its session.
fn names_session(line: &[u8]) -> bool
    ensures { result ≡ names_session line.now }
{
    matches!(skip_spaces(line), [b'@', ..])
}
