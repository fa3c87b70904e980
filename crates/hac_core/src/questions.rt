//! What a command asks spaces.
ghost use Rattle.std.specs.Prelude.{◌≡◌, true, IfOk};
ghost use Rattle.hac_model.specs.Run.Asks.{asks, mount_asks, no_asks, query_asks, searches_for};
ghost use Rattle.hac_model.specs.Run.Asks.{space_of, text_asks};
ghost use Rattle.hac_model.specs.Tree.{is_document_at};
ghost use Rattle.hac_core.specs.Questions.{searches_with};

use hac_model::{Asks, Fetch, Memory, Name, Number, Query, Resolved, Search, Seq, Term};
use kept_state::KeptState;
use std::alloc::Global;
use tree_answers::{Question, questions};

/// What a command asks spaces, in order.
pub fn asks_of(alloc: Global, kept: &KeptState, command: &Resolved) -> Result<Asks, Memory>
    ensures { IfOk result (λ asked. asked ≡ asks kept.now.state command.now) }
{
    match command {
        Resolved::Cat { entry } => text_asks(alloc, kept, *entry),
        Resolved::Smkdir { query, .. } | Resolved::Setq { query, .. } | Resolved::Find { query } =>
            query_asks(alloc, kept, query),
        Resolved::Smount { space, .. } => mount_asks(alloc, kept, space),
        Resolved::Ssync { mount } => sync_asks(alloc, kept, *mount),
        _ => Ok(no_asks(alloc)),
    }
}

/// Nothing is asked.
fn no_asks(alloc: Global) -> Asks
    ensures { result ≡ no_asks }
{
    Asks {
        list: None,
        searches: Seq::new(Vec::new(alloc)),
        fetch: None,
    }
}

/// The text of a document is asked from the space of its mount.
fn text_asks(alloc: Global, kept: &KeptState, entry: Number) -> Result<Asks, Memory>
    ensures { IfOk result (λ asked. asked ≡ text_asks kept.now.state entry) }
{
    let tree = kept.tree();
    if !tree.is_document(entry) {
        return Ok(no_asks(alloc));
    }
    fetch_asks(alloc, kept, entry)
}

/// The text of a document is asked.
fn fetch_asks(alloc: Global, kept: &KeptState, document: Number) -> Result<Asks, Memory>
    requires { is_document_at kept.now.state.entries document ≡ true }
    ensures { IfOk result (λ asked. asked ≡ text_asks kept.now.state document) }
{
    let tree = kept.tree();
    let space = space_of(alloc, kept, tree.parent(document))?;
    let document = tree.name_of(document).clone()?;
    Ok(Asks {
        list: None,
        searches: Seq::new(Vec::new(alloc)),
        fetch: Some(Fetch { space, document }),
    })
}

/// For a query each mount is asked for the terms for which it keeps no answer.
fn query_asks(alloc: Global, kept: &KeptState, query: &Query<Number>) -> Result<Asks, Memory>
    ensures { IfOk result (λ asked. asked ≡ query_asks kept.now.state query.now) }
{
    let questions = questions(alloc, kept, query)?;
    let searches = searches_with(alloc, kept, questions.as_slice())?;
    Ok(Asks {
        list: None,
        searches: Seq::new(searches),
        fetch: None,
    })
}

/// The questions, each to the space of its mount.
fn searches_with(
    alloc: Global,
    kept: &KeptState,
    questions: &[Question],
) -> Result<Vec<Search>, Memory>
    ensures { IfOk result (λ searches. searches.items
        ≡ searches_with kept.now.state questions.now) }
{
    let mut searches = Vec::new(alloc);
    for question in questions {
        let space = space_of(alloc, kept, question.mount)?;
        let term = question.term.clone()?;
        searches.push(Search { space, term })?;
    }
    Ok(searches)
}

/// The list of the documents of a space, and then each term in use.
fn mount_asks(alloc: Global, kept: &KeptState, space: &Name) -> Result<Asks, Memory>
    ensures { IfOk result (λ asked. asked ≡ mount_asks kept.now.state space.now) }
{
    let list = Some(space.clone()?);
    let terms = kept.terms_to_ask(alloc)?;
    let searches = searches_for(alloc, space, terms.as_slice())?;
    Ok(Asks {
        list,
        searches: Seq::new(searches),
        fetch: None,
    })
}

/// The same of the space of a mount.
fn sync_asks(alloc: Global, kept: &KeptState, mount: Number) -> Result<Asks, Memory>
    ensures { IfOk result (λ asked. asked
        ≡ mount_asks kept.now.state (space_of kept.now.state mount)) }
{
    let space = space_of(alloc, kept, mount)?;
    let asks = mount_asks(alloc, kept, &space);
    drop(space);
    asks
}

/// A space is asked for terms.
fn searches_for(alloc: Global, space: &Name, terms: &[Term]) -> Result<Vec<Search>, Memory>
    ensures { IfOk result (λ searches. searches.items ≡ searches_for space.now terms.now) }
{
    let mut searches = Vec::new(alloc);
    for term in terms {
        let space = space.clone()?;
        let term = term.clone()?;
        searches.push(Search { space, term })?;
    }
    Ok(searches)
}

/// The name of the space that a mount shows. What is no mount shows none.
fn space_of(alloc: Global, kept: &KeptState, mount: Number) -> Result<Name, Memory>
    ensures { IfOk result (λ space. space ≡ space_of kept.now.state mount) }
{
    match kept.tree().space(mount) {
        Some(space) => Ok(space.clone()?),
        None => Ok(Name::new(Vec::new(alloc))),
    }
}
