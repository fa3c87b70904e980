//! The sessions that stand in a directory other than the root.
ghost use Rattle.std.specs.Prelude.{◌≡◌, IfOk};
ghost use Rattle.hac_model.specs.Tree.Sessions.{are_few, is_busy, least_name, sessions_with};
ghost use Rattle.hac_model.specs.Tree.Sessions.{lesser_name, stands_in, visitors};

use hac_model::{Memory, Name, Number, Session, Version};
use std::alloc::Global;

/// The directory in which a session stands.
pub fn stands_in(sessions: &[Session], name: &Name) -> Number
    ensures { result ≡ stands_in sessions.now name.now }
{
    for session in sessions {
        if session.name == *name {
            return session.dir;
        }
    }
    Number::ROOT
}

/// Whether a session stands in a directory.
pub fn is_busy(sessions: &[Session], dir: Number) -> bool
    ensures { result ≡ is_busy sessions.now dir }
{
    for session in sessions {
        if session.dir == dir {
            return true;
        }
    }
    false
}

/// The least of the names of the sessions that stand in a directory, if any do.
pub fn least_visitor(sessions: &[Session], dir: Number) -> Result<Option<Name>, Memory>
    ensures { IfOk result (λ least. least ≡ least_name (visitors sessions.now dir)) }
{
    let mut least: Option<Name> = None;
    let mut left = sessions.len();
    'sessions: while left > 0 {
        left -= 1;
        if sessions[left].dir == dir {
            let name = sessions[left].name.clone()?;
            least = match least {
                Some(other) => Some(lesser(name, other)),
                None => Some(name),
            };
        }
    }
    Ok(least)
}

/// The lesser of two names, compared by bytes.
fn lesser(name: Name, other: Name) -> Name
    ensures { result ≡ lesser_name name other }
{
    if other < name { other } else { name }
}

/// Whether no more sessions than may in a store of a version stand elsewhere than in the root, once
/// one stands in a directory.
pub fn has_place_for(version: Version, sessions: &[Session], name: &Name, dir: Number) -> bool
    ensures { result ≡ are_few version (sessions_with name.now dir sessions.now) }
{
    let most = version.sessions_limit();
    let mut places: u64 = if dir == Number::ROOT { most } else { most - 1 };
    'sessions: for session in sessions {
        if session.name != *name {
            if places == 0 {
                return false;
            }
            places -= 1;
        }
    }
    true
}

/// The sessions, once one stands in a directory.
pub fn sessions_with(
    alloc: Global,
    sessions: &[Session],
    name: &Name,
    dir: Number,
) -> Result<Vec<Session>, Memory>
    ensures { IfOk result (λ after. after.items ≡ sessions_with name.now dir sessions.now) }
{
    let mut after = Vec::new(alloc);
    'sessions: for session in sessions {
        if session.name != *name {
            after.push(Session {
                name: session.name.clone()?,
                dir: session.dir,
            })?;
        }
    }
    if dir != Number::ROOT {
        after.push(Session {
            name: name.clone()?,
            dir,
        })?;
    }
    Ok(after)
}
