//! Commands from what follows their names, by its shape.
ghost use Rattle.std.specs.Prelude.{◌≡◌, if◌then◌else◌, Option, Ok, Err};
ghost use Rattle.hac_model.specs.Run.Answers.{Answers};
ghost use Rattle.hac_model.specs.Query.Formula.{Formula};
ghost use Rattle.hac_model.specs.Script.Lines.{alone, find_of, ln_of, maybe_path};
ghost use Rattle.hac_model.specs.Script.Lines.{of_two_paths, one_path, path_and_query, smount_of};
ghost use Rattle.hac_model.specs.Script.SpaceNames.{is_space_name};
ghost use Rattle.hac_model.specs.Query.QueryReading.{read_query};
ghost use Rattle.hac_model.specs.declared.commands.Command.{Command};
ghost use Rattle.hac_model.specs.declared.paths.PathWord.{PathWord};
ghost use Rattle.hac_model.specs.declared.replies.Refusal.TheVariants.{BadLine};

use crate::paths::{only_path, parse_path, two_paths};
use crate::words::{only_word, skip_one, split_word};
use crate::writing::limited;
use hac_model::{Command, Deny, LimitWord, Name, PathWord, RawQuery, Refusal, TARGET_LIMIT, Text};
use hac_names::is_space_name;
use line_reader::is_blank;
use query_text::{QueryFault, parse};
use std::alloc::Global;

/// The command of one path word.
#[tactic(auto, unfolding(hac_model::specs::Script::Lines::one_path))]
pub fn one_path<F: FnOnce(PathWord) -> Command>(
    alloc: Global,
    arguments: &[u8],
    command: F,
) -> Result<Command, Deny>
    requires { F.IsAlwaysCallable command }
    ensures { (spelled : PathWord → Command) → ((path : PathWord) (made : Command) →
        F.post command path made → made ≡ spelled path)
        → Answers result (one_path spelled arguments.now) }
{
    let path = only_path(alloc, arguments)?;
    Ok(command(path))
}

/// The command of one path word or of none.
#[tactic(auto, unfolding(hac_model::specs::Script::Lines::maybe_path, hac_model::specs::Script::Lines::one_path))]
pub fn maybe_path<F: FnOnce(Option<PathWord>) -> Command>(
    alloc: Global,
    arguments: &[u8],
    command: F,
) -> Result<Command, Deny>
    requires { F.IsAlwaysCallable command }
    ensures { (spelled : Option PathWord → Command) → ((path : Option PathWord)
        (made : Command) → F.post command path made → made ≡ spelled path)
        → Answers result (maybe_path spelled arguments.now) }
{
    if is_blank(arguments) {
        return Ok(command(None));
    }
    let path = only_path(alloc, arguments)?;
    Ok(command(Some(path)))
}

/// The command of two path words, of which a bad one counts before one with a long name.
#[tactic(auto, unfolding(hac_model::specs::Script::Lines::of_two_paths))]
pub fn of_two_paths<F: FnOnce(PathWord, PathWord) -> Command>(
    alloc: Global,
    arguments: &[u8],
    command: F,
) -> Result<Command, Deny>
    requires { F.IsAlwaysCallable command }
    ensures { (spelled : PathWord → PathWord → Command) →
        ((first second : PathWord) (made : Command) → F.post command first second made →
        made ≡ spelled first second)
        → Answers result (of_two_paths spelled arguments.now) }
{
    let (first, rest) = split_word(alloc, arguments)?;
    let second = only_word(alloc, rest)?;
    let (first, second) = two_paths(alloc, &first, &second)?;
    Ok(command(first, second))
}

/// `ln TARGET PATH`, from what follows `ln`. The target is kept as it was given.
#[tactic(auto, unfolding(hac_model::specs::Script::Lines::ln_of))]
pub fn parse_link(alloc: Global, arguments: &[u8]) -> Result<Command, Deny>
    ensures { Answers result (ln_of arguments.now) }
{
    let (target, rest) = split_word(alloc, arguments)?;
    let path = only_word(alloc, rest)?;
    let (_, path) = two_paths(alloc, &target, &path)?;
    let target = limited(Text::new(target), TARGET_LIMIT, LimitWord::Target)?;
    Ok(Command::Ln { target, path })
}

/// The command of a path word and a query, which is all that follows one space.
#[tactic(auto, unfolding(hac_model::specs::Script::Lines::path_and_query))]
pub fn path_and_query<F: FnOnce(PathWord, RawQuery) -> Command>(
    alloc: Global,
    arguments: &[u8],
    command: F,
) -> Result<Command, Deny>
    requires { F.IsAlwaysCallable command }
    ensures { (spelled : PathWord → Formula PathWord → Command) →
        ((path : PathWord) (query : Formula PathWord) (made : Command) →
        F.post command path query made → made ≡ spelled path query)
        → Answers result (path_and_query spelled arguments.now) }
{
    let (word, rest) = split_word(alloc, arguments)?;
    let path = parse_path(alloc, &word)?;
    let query = spelled_query(alloc, skip_one(rest))?;
    Ok(command(path, query))
}

/// `smount PATH SPACE`, from what follows `smount`. A bad name of a space counts before a bad path.
#[tactic(auto, unfolding(hac_model::specs::Script::Lines::smount_of))]
pub fn parse_mount(alloc: Global, arguments: &[u8]) -> Result<Command, Deny>
    ensures { Answers result (smount_of arguments.now) }
{
    let (word, rest) = split_word(alloc, arguments)?;
    let space = only_word(alloc, rest)?;
    let space = named_space(Name::new(space))?;
    let path = parse_path(alloc, &word)?;
    Ok(Command::Smount { path, space })
}

/// The name, where a space may have it. The line is bad where none may.
fn named_space(name: Name) -> Result<Name, Deny>
    ensures { Answers result (if is_space_name name then Ok name else Err BadLine) }
{
    if !is_space_name(name.as_bytes()) {
        return Err(Deny::Refused(Refusal::BadLine));
    }
    Ok(name)
}

/// The command that is its name alone.
#[tactic(auto, unfolding(hac_model::specs::Script::Lines::alone))]
pub fn alone(arguments: &[u8], command: Command) -> Result<Command, Deny>
    ensures { Answers result (alone command arguments.now) }
{
    if is_blank(arguments) {
        return Ok(command);
    }
    drop(command);
    Err(Deny::Refused(Refusal::BadLine))
}

/// `find QUERY`, from what follows `find`.
#[tactic(auto, unfolding(hac_model::specs::Script::Lines::find_of))]
pub fn parse_find(alloc: Global, arguments: &[u8]) -> Result<Command, Deny>
    ensures { Answers result (find_of arguments.now) }
{
    let query = spelled_query(alloc, skip_one(arguments))?;
    Ok(Command::Find { query })
}

/// The query that the bytes spell, or the refusal of its bytes.
fn spelled_query(alloc: Global, bytes: &[u8]) -> Result<RawQuery, Deny>
    ensures { Answers result (read_query bytes.now) }
{
    match parse(alloc, bytes) {
        Ok(query) => Ok(query),
        Err(QueryFault::BadAt(place)) => Err(Deny::Refused(Refusal::BadQuery(place))),
        Err(QueryFault::Limit(word)) => Err(Deny::Refused(Refusal::Limit(word))),
        Err(QueryFault::Memory) => Err(Deny::Memory),
    }
}
