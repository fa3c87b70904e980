//! Queries. Their parts are read one by one, and then joined, so that no bytes make this go deep.
ghost use Rattle.std.specs.Prelude.{◌≡◌, ◌∷◌, [], IfOk, OnOk, length};
ghost use Rattle.hac_model.specs.Payload.QueryFields.{built, put, query_field, token_at, tokens_at};
ghost use Rattle.hac_model.specs.declared.limits.TheConstants.{NESTING_LIMIT, QUERY_LIMIT};
ghost use Rattle.hac_model.specs.declared.limits.TheConstants.{TERMS_LIMIT};
ghost use Rattle.payload_fields.specs.Reading.{GivesField, GivesSeen};
ghost use Rattle.payload_fields.specs.Tokens.{TakesTwo, token_of, tokens_of};

use crate::bytes::Bytes;
use crate::faults::Fault;
use crate::fields::num;
use crate::rooms::Room;
use crate::terms::whole_word;
use hac_model::{Memory, Node, Number, Pile, Query, Term, Version};
use std::alloc::Global;

/// A part of a query without what it joins.
#[derive(Debug, Drop)]
pub(crate) enum Token {
    /// A word or a prefix.
    Term(Term),
    /// A directory.
    Dir(Number),
    /// `NOT`, before one query.
    Not,
    /// `AND`, before two.
    And,
    /// `OR`, before two.
    Or,
}

/// A query.
#[tactic(auto, unfolding(hac_model::specs::Payload::QueryFields::query_read))]
pub fn query(alloc: Global, version: Version, bytes: &mut Bytes) -> Result<Query<Number>, Fault>
    ensures { GivesField result bytes.new ((query_field version).read bytes.old) }
{
    let tokens = tokens(alloc, version, bytes)?;
    let mut pile = build(alloc, tokens)?;
    match pile.pop() {
        Some(query) => Ok(query),
        None => Err(bytes.bad()),
    }
}

/// The parts of a query, as long as one is wanted.
fn tokens(alloc: Global, version: Version, bytes: &mut Bytes) -> Result<Vec<Token>, Fault>
    ensures { GivesSeen (λ tokens. tokens_of tokens.items) result bytes.new
        (tokens_at version (length bytes.old) (NESTING_LIMIT ∷ []) TERMS_LIMIT QUERY_LIMIT
        bytes.old) }
{
    let mut room = Room::new(alloc)?;
    let mut tokens = Vec::new(alloc);
    'parts: for _ in 0..bytes.left() {
        let Some(nots) = room.wanted.pop() else {
            return Ok(tokens);
        };
        let bad = bytes.bad();
        let token = next_token(alloc, version, bytes, room.terms)?;
        if !room.take(nots, &token)? {
            return Err(bad);
        }
        tokens.push(token)?;
    }
    if room.wanted.is_empty() {
        Ok(tokens)
    } else {
        Err(Fault::Bad { left: 0 })
    }
}

/// The part at the front, where `terms` terms may still come.
#[tactic(auto, unfolding(hac_model::specs::Payload::Fields::choice_at, hac_model::specs::Payload::Fields::way_at))]
fn next_token(
    alloc: Global,
    version: Version,
    bytes: &mut Bytes,
    terms: u64,
) -> Result<Token, Fault>
    ensures { GivesSeen token_of result bytes.new (token_at version terms bytes.old) }
{
    let left = bytes.left();
    let Some(kind) = bytes.byte() else {
        return Err(Fault::Bad { left });
    };
    match kind {
        1 => Ok(Token::Term(Term::Word(whole_word(alloc, bytes, left)?))),
        2 => Ok(Token::Term(Term::Prefix(whole_word(alloc, bytes, left)?))),
        3 if terms > 0 => Ok(Token::Dir(num(version, bytes)?)),
        4 => Ok(Token::Not),
        5 => Ok(Token::And),
        6 => Ok(Token::Or),
        _ => Err(Fault::Bad { left }),
    }
}

/// The queries that parts make, the first one topmost.
fn build(alloc: Global, tokens: Vec<Token>) -> Result<Pile<Query<Number>>, Memory>
    ensures { IfOk result (λ pile. pile ≡ built (tokens_of tokens.items) []) }
{
    let mut tokens = tokens;
    let mut pile = Pile::new(alloc);
    'parts: while let Some(token) = tokens.pop() {
        put(alloc, &mut pile, token)?;
    }
    Ok(pile)
}

/// Puts a part in front of queries, of which it takes those that it joins.
fn put(alloc: Global, pile: &mut Pile<Query<Number>>, token: Token) -> Result<(), Memory>
    ensures { OnOk result (pile.new ≡ put (token_of token) pile.old) }
{
    let node = match token {
        Token::Term(term) => Node::Term(term),
        Token::Dir(dir) => Node::Dir(dir),
        Token::Not => {
            let Some(query) = pile.pop() else {
                return Ok(());
            };
            Node::Not(Box::new(alloc, query)?)
        }
        Token::And => {
            let Some((left, right)) = two(pile) else {
                return Ok(());
            };
            Node::And(Box::new(alloc, left)?, Box::new(alloc, right)?)
        }
        Token::Or => {
            let Some((left, right)) = two(pile) else {
                return Ok(());
            };
            Node::Or(Box::new(alloc, left)?, Box::new(alloc, right)?)
        }
    };
    pile.push(Query { node })?;
    Ok(())
}

/// The first two queries of a pile.
fn two(pile: &mut Pile<Query<Number>>) -> Option<(Query<Number>, Query<Number>)>
    ensures { TakesTwo pile.old pile.new result }
{
    let left = pile.pop()?;
    let right = pile.pop()?;
    Some((left, right))
}
