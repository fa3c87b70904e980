//! What a payload is for, by its kind.
ghost use Rattle.std.specs.Prelude.{◌≡◌};
ghost use Rattle.event_codec.specs.Kinds.{is_state_kind, kind_of};
ghost use Rattle.hac_model.specs.Payload.Payloads.{event_kind};
ghost use Rattle.hac_model.specs.Payload.States.{state_kind};

use hac_model::Version;

/// What a payload is for.
#[derive(Clone, Copy, Debug, PartialEq, Eq)]
pub enum PayloadKind {
    /// A whole state. What it says tells its version.
    State,
    /// An event, in a store of this version.
    Event(Version),
}

/// What a payload is for, by its first byte. One of no kind is taken for an event of version Two,
/// which `read_event` then finds to be none.
pub fn payload_kind(payload: &[u8]) -> PayloadKind
    ensures { result ≡ kind_of payload.now }
{
    match payload.first() {
        Some(&kind) if is_state_kind(kind) => PayloadKind::State,
        Some(&kind) if kind == event_kind(Version::One) => PayloadKind::Event(Version::One),
        _ => PayloadKind::Event(Version::Two),
    }
}

fn is_state_kind(kind: u8) -> bool
    ensures { result ≡ is_state_kind kind }
{
    kind == state_kind(Version::One) || kind == state_kind(Version::Two)
}

/// The kind of a payload that holds an event.
pub(crate) fn event_kind(version: Version) -> u8
    ensures { result ≡ event_kind version }
{
    match version {
        Version::One => 1,
        Version::Two => 4,
    }
}

/// The kind of a payload that holds a state.
pub(crate) fn state_kind(version: Version) -> u8
    ensures { result ≡ state_kind version }
{
    match version {
        Version::One => 2,
        Version::Two => 3,
    }
}
