//! Where a path word leads: a walk from directory to directory, over symbolic links.
ghost use Rattle.std.specs.Prelude.{◌≡◌, ◌++◌, ◌∷◌, [], ℕ, not, List, None, Option, IfOk, IsTrue};
ghost use Rattle.std.specs.Prelude.{OnOk, Result, Ok, Err, if◌then◌else◌};
ghost use Rattle.std.specs.Option.{option_copied};
ghost use Rattle.hac_model.specs.Tree.Looks.{has_names, look};
ghost use Rattle.hac_model.specs.Tree.Paths.{join};
ghost use Rattle.hac_model.specs.Tree.{is_directory_at, path_of};
ghost use Rattle.hac_model.specs.declared.places.Place.{Place};
ghost use Rattle.hac_model.specs.declared.places.Place.TheVariants.{Free};
ghost use Rattle.hac_model.specs.declared.replies.Refusal.{Refusal};
ghost use Rattle.hac_model.specs.declared.replies.Refusal.TheVariants.{NoPath};
ghost use Rattle.command_paths.specs.Traces.{begin, steps, trace, up, word_at};
ghost use Rattle.command_paths.specs.Walked.{EndsAs, EndsInDirectory, Finds, Meets};
ghost use Rattle.command_paths.specs.Walked.{MeetsDirectory, Walks, names_of};

use file_tree::Tree;
use hac_model::{FOLLOW_LIMIT, Memory, Name, Number, Path, PathWord, Pile, Place};
use hac_names::join;
use std::alloc::{AllocError, Global};

/// Why a look-up gives no place.
#[derive(Clone, Debug, Drop, PartialEq, Eq)]
pub enum Stop {
    /// Nothing is at this path, and names remain behind it.
    Missing(Path),
    /// Something other than a directory is at this path, and names remain behind it.
    NotDir(Path),
    /// This path, the one that was looked up, leads through more symbolic links than a path may.
    Loop(Path),
    /// Memory ran out.
    Memory,
}

impl From<Memory> for Stop {
    ghost use Rattle.command_paths.specs.declared.placing.Stop.TheVariants as stop;

    ghost from_gives = { λ _ e. e ≡ stop.Memory };

    fn from(_memory: Memory) -> Stop {
        Stop::Memory
    }
}

impl From<AllocError> for Stop {
    ghost use Rattle.command_paths.specs.declared.placing.Stop.TheVariants as stop;

    ghost from_gives = { λ _ e. e ≡ stop.Memory };

    fn from(_error: AllocError) -> Stop {
        Stop::Memory
    }
}

/// How one name leads on from a directory.
#[derive(Drop)]
enum Met<'a> {
    // To a directory, with names behind it.
    Directory(Number),
    // To a symbolic link that is to be followed, by this word.
    Link(&'a PathWord),
    // To the end.
    End(Place),
}

/// How names lead on from a directory.
#[derive(Drop)]
enum Walked<'a> {
    // To the end.
    Place(Place),
    // To a symbolic link in this directory that is to be followed, by this word.
    Link(Number, &'a PathWord),
}

/// Where a word leads from a directory. Symbolic links on the way are followed, and one at the end
/// if `follow` says so.
pub fn place(
    alloc: Global,
    tree: &Tree,
    base: Number,
    word: &PathWord,
    follow: bool,
) -> Result<Place, Stop>
    requires dir { IsTrue (is_directory_at tree.now.state.entries base) }
    ensures { Finds result (look tree.now.state follow
        (join (path_of tree.now.state base) word.now)) }
{
    tree.know_layout();
    let mut left = Pile::new(alloc);
    push_names(&mut left, word)?;
    let start = begin(tree, base, word);
    match trace(tree, FOLLOW_LIMIT, start, &mut left, follow)? {
        Some(place) => Ok(place),
        None => Err(Stop::Loop(joined(alloc, tree, base, word)?)),
    }
}

/// Where the names that are left lead from a directory. None if they lead through more than
/// `links` symbolic links.
fn trace<'a>(
    tree: &'a Tree,
    links: u64,
    base: Number,
    left: &mut Pile<&'a Name>,
    follow: bool,
) -> Result<Option<Place>, Stop>
    requires dir { IsTrue (is_directory_at tree.now.state.entries base) }
    ensures { (given : List (List ℕ)) → EndsAs given result
        (trace tree.now.state follow given links base (names_of left.old)) }
{
    match walk_names(tree, base, left, follow)? {
        Walked::Place(place) => Ok(Some(place)),
        Walked::Link(dir, word) => {
            if links == 0 {
                return Ok(None);
            }
            push_names(left, word)?;
            trace(tree, links - 1, begin(tree, dir, word), left, follow)
        }
    }
}

/// Walks by names from a directory until none is left, or a symbolic link is to be followed.
fn walk_names<'a>(
    tree: &'a Tree,
    base: Number,
    left: &mut Pile<&'a Name>,
    follow: bool,
) -> Result<Walked<'a>, Stop>
    requires dir { IsTrue (is_directory_at tree.now.state.entries base) }
    ensures walks { (jump : ℕ → PathWord → List (List ℕ) → Result Place Refusal) →
        Walks jump (names_of left.new) result
        (steps tree.now.state follow jump base (names_of left.old)) }
    ensures directory { IfOk result (EndsInDirectory tree.now.state.entries) }
{
    let mut dir = base;
    while let Some(name) = left.pop() {
        match walk_name(tree, dir, name, left.is_empty(), follow)? {
            Met::Directory(number) => dir = number,
            Met::Link(word) => return Ok(Walked::Link(dir, word)),
            Met::End(place) => return Ok(Walked::Place(place)),
        }
    }
    Ok(Walked::Place(Place::There(dir)))
}

/// Walks by one name from a directory.
fn walk_name<'a>(
    tree: &'a Tree,
    dir: Number,
    name: &Name,
    is_last: bool,
    follow: bool,
) -> Result<Met<'a>, Stop>
    ensures meets { (jump : ℕ → PathWord → List (List ℕ) → Result Place Refusal)
        (names : List (List ℕ)) → has_names names ≡ not is_last →
        Meets tree.now.state follow jump dir names result
        (steps tree.now.state follow jump dir (name.now ∷ names)) }
    ensures directory { IfOk result (MeetsDirectory tree.now.state.entries) }
{
    let Some(number) = tree.child(dir, name) else {
        return Ok(Met::End(vacancy(tree, dir, name, is_last)?));
    };
    match word_met(tree, number, follow || !is_last) {
        Some(word) => Ok(Met::Link(word)),
        None if is_last => Ok(Met::End(Place::There(number))),
        None if tree.is_directory(number) => Ok(Met::Directory(number)),
        None => Err(Stop::NotDir(named(tree, dir, name.clone()?)?)),
    }
}

/// What a name leads to that a directory hasn't got.
fn vacancy(tree: &Tree, dir: Number, name: &Name, is_last: bool) -> Result<Place, Stop>
    ensures { Finds result (if is_last then Ok (Free dir name.now) else
        Err (NoPath (path_of tree.now.state dir ++ name.now ∷ []))) }
{
    let name = name.clone()?;
    if is_last {
        Ok(Place::Free { dir, name })
    } else {
        Err(Stop::Missing(named(tree, dir, name)?))
    }
}

/// The word by which a number leads, if it is a symbolic link that is to be followed.
fn word_met(tree: &Tree, number: Number, follow: bool) -> Option<&PathWord>
    ensures { option_copied result ≡ if follow then word_at tree.now.state number else None }
{
    if follow {
        tree.target_word(number)
    } else {
        None
    }
}

/// The directory in which a word begins that leads on from a directory.
fn begin(tree: &Tree, dir: Number, word: &PathWord) -> Number
    requires dir { IsTrue (is_directory_at tree.now.state.entries dir) }
    ensures begin { result ≡ begin tree.now.state dir word.now }
    ensures directory { IsTrue (is_directory_at tree.now.state.entries result) }
{
    tree.know_layout();
    if word.absolute {
        Number::ROOT
    } else {
        up(tree, dir, word.ups)
    }
}

/// The directory so many steps above one.
fn up(tree: &Tree, dir: Number, steps: u64) -> Number
    ensures { result ≡ up steps tree.now.state dir }
{
    let mut above = dir;
    for _ in 0..steps {
        above = tree.parent(above);
    }
    above
}

/// The path of a name in a directory.
pub fn named(tree: &Tree, dir: Number, name: Name) -> Result<Path, Memory>
    ensures { IfOk result (λ path. path ≡ path_of tree.now.state dir ++ name ∷ []) }
{
    let mut path = tree.path_of(dir)?;
    path.push(name)?;
    Ok(path)
}

/// The path that a word says, as it leads from a directory.
fn joined(alloc: Global, tree: &Tree, base: Number, word: &PathWord) -> Result<Path, Memory>
    ensures { IfOk result (λ path. path ≡ join (path_of tree.now.state base) word.now) }
{
    let base = tree.path_of(base)?;
    join(alloc, &base, word)
}

/// Puts the names of a word on those that are left, its first one topmost.
fn push_names<'a>(left: &mut Pile<&'a Name>, word: &'a PathWord) -> Result<(), Memory>
    ensures { OnOk result (names_of left.new ≡ word.now.names ++ names_of left.old) }
{
    for name in word.names.as_slice().iter().rev() {
        left.push(name)?;
    }
    Ok(())
}
