//! What may still come of a query.
ghost use Rattle.std.specs.Prelude.{◌≡◌, ◌∷◌, [], ◌&&◌, ◌-◌, nat_le, if◌then◌else◌, IfOk};
ghost use Rattle.hac_model.specs.declared.limits.TheConstants as limits;
ghost use Rattle.payload_fields.specs.Tokens.{TakesPart, room_of, token_of};

use crate::queries::Token;
use hac_model::{Memory, NESTING_LIMIT, Pile, QUERY_LIMIT, TERMS_LIMIT};
use std::alloc::Global;

/// What may still come of a query whose parts are read one by one.
#[derive(Debug, Drop)]
pub(crate) struct Room {
    /// For each query that is still wanted, how many `NOT`s it may have, that of the next one on
    /// top.
    pub wanted: Pile<u64>,
    /// How many terms.
    pub terms: u64,
    /// How many bytes of letters.
    pub letters: u64,
}

impl Room {
    /// One query is wanted.
    pub(crate) fn new(alloc: Global) -> Result<Room, Memory>
        ensures { IfOk result (λ room. room_of room ≡ record {
          wanted = limits.NESTING_LIMIT ∷ [];
          terms = limits.TERMS_LIMIT;
          letters = limits.QUERY_LIMIT;
        }) }
    {
        let mut wanted = Pile::new(alloc);
        wanted.push(NESTING_LIMIT)?;
        Ok(Room {
            wanted,
            terms: TERMS_LIMIT,
            letters: QUERY_LIMIT as u64,
        })
    }

    /// Whether a part that may have `nots` `NOT`s may come. It makes room for what the part joins.
    pub(crate) fn take(&mut self, nots: u64, token: &Token) -> Result<bool, Memory>
        ensures { IfOk result (λ taken. TakesPart nots (token_of token.now) self.old
            self.new taken) }
    {
        match token {
            Token::Term(term) => Ok(self.take_term(term.letters().len() as u64)),
            Token::Dir(_) => Ok(self.take_term(0)),
            Token::Not => {
                if nots == 0 {
                    return Ok(false);
                }
                self.wanted.push(nots - 1)?;
                Ok(true)
            }
            Token::And | Token::Or => {
                self.wanted.push(nots)?;
                self.wanted.push(nots)?;
                Ok(true)
            }
        }
    }

    /// Whether a term of `size` letters may come.
    fn take_term(&mut self, size: u64) -> bool
        ensures taken { result ≡ (nat_le 1 self.old.terms && nat_le size self.old.letters) }
        ensures room { self.new ≡ if result then record self.old
            { terms = self.old.terms - 1; letters = self.old.letters - size } else self.old }
    {
        if self.terms == 0 || size > self.letters {
            return false;
        }
        self.terms -= 1;
        self.letters -= size;
        true
    }
}
