//! Reading the words of the program: the name of its store, whether that is to be a new one, how
//! many files may be indexed behind each command, from which number the script is drawn, if it is,
//! and which spaces there are. It knows no device.
ghost use Rattle.std.specs.Prelude.{◌≡◌, false, IfErr, IfOk, Some, None, map, string_bytes};
ghost use Rattle.std.specs.List.{list_any};
ghost use Rattle.std.specs.Str.{bytes_eq};
ghost use Rattle.clap.specs.Words.{app_of, rule_of};
ghost use Rattle.hac_model.specs.Script.CommandLine.{each_space, make_of, may_stand};
ghost use Rattle.hac_model.specs.Script.CommandLine.{names_differ, options, space_in_word};
ghost use Rattle.hac_model.specs.Script.CommandLine.{spaces_of, tick_of};
ghost use Rattle.command_line.specs.Words.{asked_of, flag_option, hac, space_asked, spaces_asked};
ghost use Rattle.command_line.specs.Words.{valued_option, values_of};

use clap::builder::ValueParser;
use clap::error::ErrorKind;
use clap::{Arg, ArgAction, Command};
use hac_model::{Name, SPACES_LIMIT};
use hac_names::is_space_name;
use shell_lang::{seed_of, steps_of};
use std::alloc::{AllocError, Global};

/// What the words ask for. Its texts are parts of the words.
#[derive(Debug, Drop)]
pub struct Options<'a> {
    /// The store is to be a new one.
    pub fresh: bool,
    /// The most index steps that follow each command by themselves.
    pub tick: u64,
    /// The number from which the script is drawn. None where the script is read.
    pub make: Option<u64>,
    /// The name of its file.
    pub store: &'a str,
    /// The spaces, in the order of the words. No two have the same name.
    pub spaces: Vec<SpaceFile<'a>>,
}

/// A space that the words name.
#[derive(Debug, Drop)]
pub struct SpaceFile<'a> {
    /// Its name.
    pub name: Name,
    /// The file of its documents.
    pub file: &'a str,
}

/// Why the words aren't read.
#[derive(Clone, Copy, Debug, PartialEq, Eq)]
pub enum WordsFault {
    /// They don't fit the usage.
    Usage,
    /// Memory ran out. Of the words nothing is said then.
    Memory,
}

impl From<AllocError> for WordsFault {
    ghost use Rattle.std.specs.Prelude.{◌≡◌};
    ghost use Rattle.command_line.specs.declared.words.WordsFault.TheVariants.{Memory};

    ghost from_gives = { λ _ fault. fault ≡ Memory };

    fn from(_error: AllocError) -> WordsFault {
        WordsFault::Memory
    }
}

impl From<clap::Error> for WordsFault {
    ghost use Rattle.command_line.specs.Words.{fault_by};
    ghost use Rattle.std.specs.Prelude.{◌≡◌};
    ghost use Rattle.clap.specs.Words.{kind_of};

    ghost from_gives = { λ error fault. fault ≡ fault_by (kind_of error) };

    fn from(error: clap::Error) -> WordsFault {
        match error.kind() {
            ErrorKind::OutOfMemory => WordsFault::Memory,
            _ => WordsFault::Usage,
        }
    }
}

/// What the words of the program ask for: `[--new] [--tick N] [--make NUMBER] STORE
/// [NAME=FILE]...`, without the program's own name in front. No file is opened, so each may be
/// missing.
pub fn read_words(alloc: Global, words: &[String]) -> Result<Options<'_>, WordsFault>
    ensures read { IfOk result (λ asked. options (map string_bytes words.now)
        ≡ Some (asked_of asked)) }
    ensures usage { IfErr result (λ fault. fault ≡ WordsFault.Usage
        → options (map string_bytes words.now) ≡ None) }
{
    let matches = command(alloc)?.try_get_matches_from(words)?;
    let Some(tick) = tick_of(matches.get_str("tick")) else {
        return Err(WordsFault::Usage);
    };
    let Some(make) = make_of(matches.get_str("make")) else {
        return Err(WordsFault::Usage);
    };
    let names = matches.get_raw("spaces").unwrap_or(&[]);
    match spaces_of(alloc, names) {
        Ok(spaces) => Ok(Options {
            fresh: matches.get_flag("new"),
            tick,
            make,
            store: matches.get_str("store").unwrap(),
            spaces,
        }),
        Err(fault) => Err(fault),
    }
}

/// The number that `--tick` gives. The numbers of the library may begin with `+` or with zeros, and
/// this one may not, so it is read as those of lines are.
fn tick_of(value: Option<&str>) -> Option<u64>
    ensures { result ≡ tick_of (values_of value.entry) }
{
    match value {
        Some(text) => steps_of(text.as_bytes()),
        None => Some(0),
    }
}

/// The number that `--make` gives, where it is there.
fn make_of(value: Option<&str>) -> Option<Option<u64>>
    ensures { result ≡ make_of (values_of value.entry) }
{
    match value {
        Some(text) => match seed_of(text.as_bytes()) {
            Some(seed) => Some(Some(seed)),
            None => None,
        },
        None => Some(None),
    }
}

/// The spaces that words name, unless there are too many or two of them have the same name.
fn spaces_of<'a>(alloc: Global, words: &[&'a str]) -> Result<Vec<SpaceFile<'a>>, WordsFault>
    ensures read { IfOk result (λ spaces. spaces_of (map (λ word. word.now) words.now)
        ≡ Some (spaces_asked spaces.items)) }
    ensures usage { IfErr result (λ fault. fault ≡ WordsFault.Usage
        → spaces_of (map (λ word. word.now) words.now) ≡ None) }
{
    match each_space(alloc, words) {
        Ok(spaces) if may_stand(&spaces) => Ok(spaces),
        Ok(_) => Err(WordsFault::Usage),
        Err(fault) => Err(fault),
    }
}

/// The space of each word.
fn each_space<'a>(alloc: Global, words: &[&'a str]) -> Result<Vec<SpaceFile<'a>>, WordsFault>
    ensures read { IfOk result (λ spaces. each_space (map (λ word. word.now) words.now)
        ≡ Some (spaces_asked spaces.items)) }
    ensures usage { IfErr result (λ fault. fault ≡ WordsFault.Usage
        → each_space (map (λ word. word.now) words.now) ≡ None) }
{
    let mut spaces = Vec::new(alloc);
    for word in words {
        match space_in_word(alloc, word) {
            Ok(space) => {
                if spaces.push(space).is_err() {
                    return Err(WordsFault::Memory);
                }
            }
            Err(fault) => return Err(fault),
        }
    }
    Ok(spaces)
}

/// The space of a word. Its name stands before the first `=` and its file behind that, which may
/// hold more of them.
fn space_in_word<'a>(alloc: Global, word: &'a str) -> Result<SpaceFile<'a>, WordsFault>
    ensures read { IfOk result (λ space. space_in_word word.now ≡ Some (space_asked space)) }
    ensures usage { IfErr result (λ fault. fault ≡ WordsFault.Usage → space_in_word word.now ≡ None) }
{
    let Some((name, file)) = word.split_once('=') else {
        return Err(WordsFault::Usage);
    };
    if !is_space_name(name.as_bytes()) || file.is_empty() {
        return Err(WordsFault::Usage);
    }
    let name = Name::new(name.as_bytes().to_vec(alloc)?);
    Ok(SpaceFile { name, file })
}

/// Whether the spaces are few enough, and their names differ.
fn may_stand(spaces: &[SpaceFile<'_>]) -> bool
    ensures { result ≡ may_stand (spaces_asked spaces.now) }
{
    spaces.len() <= SPACES_LIMIT && names_differ(spaces)
}

/// Whether no two of the spaces have the same name.
fn names_differ(spaces: &[SpaceFile<'_>]) -> bool
    ensures { result ≡ names_differ (map (λ space. space.name) spaces.now) }
{
    for at in 0..spaces.len() {
        if is_named(&spaces[at + 1..], &spaces[at].name) {
            return false;
        }
    }
    true
}

/// Whether one of the spaces has the name.
fn is_named(spaces: &[SpaceFile<'_>], name: &Name) -> bool
    ensures { result ≡ list_any (λ space. bytes_eq name.now space.name) spaces.now }
{
    spaces.iter().any(|space| *name == space.name)
}

/// The command line, as the library reads it.
fn command<'a>(alloc: Global) -> Result<Command<'a>, AllocError>
    ensures { IfOk result (λ command. app_of command ≡ hac) }
{
    let fresh = flag(alloc, "new");
    let tick = valued(alloc, "tick");
    let make = valued(alloc, "make");
    let store = Arg::new(alloc, "store")
        .value_parser(ValueParser::NonEmptyString)
        .required(true);
    let spaces = Arg::new(alloc, "spaces").action(ArgAction::Append);
    Command::new(alloc, "hac")
        .no_binary_name(true)
        .disable_help_flag(true)
        .arg(fresh)?
        .arg(tick)?
        .arg(make)?
        .arg(store)?
        .arg(spaces)
}

/// An option that stands alone.
fn flag<'a>(alloc: Global, name: &'a str) -> Arg<'a>
    ensures rule { rule_of result ≡ flag_option name.now }
    ensures local { result.global ≡ false }
{
    Arg::new(alloc, name).long(name).action(ArgAction::SetTrue)
}

/// An option with a value.
fn valued<'a>(alloc: Global, name: &'a str) -> Arg<'a>
    ensures rule { rule_of result ≡ valued_option name.now }
    ensures local { result.global ≡ false }
{
    Arg::new(alloc, name).long(name)
}
