//! The sets of links of a directory that isn't semantic any more, or was to become so: they are given
//! back.
ghost use Rattle.std.specs.Prelude.{Some};
ghost use Rattle.kept_links.specs.Kept.{AreSetsFew};
ghost use Rattle.reeval.specs.Settled.{AreLinksOf, AreSetsAsked};

use hac_model::Number;
use kept_lookups::is_semantic;
use kept_state::KeptState;
use link_kinds::Links;

/// Gives back the sets of the directory at which an event began, if it isn't semantic. This takes no
/// memory, and no link changes.
pub(crate) fn drop_plain(kept: &KeptState, found: &mut Links, begun: Option<Number>)
    requires links { AreLinksOf kept.now.state found.old }
    requires sets { AreSetsFew kept.now.state begun found.old }
    ensures links { AreLinksOf kept.now.state found.new }
    ensures sets { AreSetsAsked kept.now.state found.new }
{
    match begun {
        Some(dir) => drop_at(kept, found, dir),
        None => {}
    }
}

/// The same where there is such a directory.
fn drop_at(kept: &KeptState, found: &mut Links, dir: Number)
    requires links { AreLinksOf kept.now.state found.old }
    requires sets { AreSetsFew kept.now.state (Some dir) found.old }
    ensures links { AreLinksOf kept.now.state found.new }
    ensures sets { AreSetsAsked kept.now.state found.new }
{
    kept.know_valid();
    if is_semantic(kept, dir) {
        return;
    }
    found.drop_dir(dir);
    found.know_lists();
}
