//! Finds the files below folders.

ghost use Rattle.std.specs.Prelude.{◌≡◌, ◌++◌, ◌∷◌, [], false, IfOk, List, MatchResult, map, ℕ};
ghost use Rattle.std.specs.List.{flat_map};
ghost use Rattle.xxhsum_program.specs.Eprints.{EprintsLines};
ghost use Rattle.xxhsum_app.specs.Messages.{messages_of};
ghost use Rattle.xxhsum_app.specs.WalkLaws.{FindsEachFile, FindsNoOther, FindsOnce};
ghost use Rattle.xxhsum_app.specs.Walk.{HasKind, IsInOrder, IsSeen, SeesFolder, SeesOne, WalksAll, WalksSome, below, closed_text, kept_name, place_of, state_of, tree_of, waiting_in, with_slash, without};
ghost use Rattle.xxhsum_options.specs.Exclude.{patterns_in};

use crate::names::add_name;
use std::alloc::{AllocError, Global};
use xxh_io::refusal::Refusal;
use xxh_io::streams::Sink;
use xxhsum_fs::folders::{FolderError, Folders, PathKind};
use xxhsum_fs::store::Store;
use xxhsum_options::exclude::is_excluded;
use xxhsum_program::hash::eprint_outcome;
use xxhsum_program::outcome::{Outcome, Reason};
use xxhsum_program::stop::Stop;

/// The result of a walk.
#[derive(Drop)]
pub struct Walked {
    /// The names of the files, in order.
    pub files: Vec<Vec<u8>>,
    /// The folders that could not be read, and the names in folders that could not be looked up.
    pub unread: Vec<Vec<u8>>,
}

// A name to visit: a given name, or a name in a folder.
#[derive(Drop)]
pub(crate) struct Waiting {
    pub(crate) name: Vec<u8>,
    pub(crate) is_given: bool,
}

/// Returns the files of these names, with each folder replaced by the files below it, in the order of the bytes of
/// their names.
///
/// A given name that is a link is followed. Links in folders are skipped, and so is anything that is neither a file nor
/// a folder, and each name that a pattern of `--exclude` in `flags` matches. A folder that can't be read, and a
/// name in a folder that can't be looked up, is reported.
///
/// # Errors
///
/// [`Stop::OutOfMemory`] if memory for the names runs out.
pub fn files_below<S: Store + Folders, E: Sink>(
    alloc: Global,
    store: &S,
    flags: &[Vec<u8>],
    names: &[Vec<u8>],
    err: &mut E,
) -> Result<Walked, Stop>
    ensures { let given = map (λ name. name.items) names.now in
        let patterns = patterns_in (map (λ flag. flag.items) flags.now) in
        let tree = without patterns (tree_of S.Store S.Folders store.now) in
        MatchResult result (λ walked. WalksAll tree (messages_of E.Sink err.old err.new) given
        (map (λ file. file.items) walked.files.items)
        (map (λ name. name.items) walked.unread.items))
        (WalksSome tree (messages_of E.Sink err.old err.new) given) }
{
    let mut walked = Walked {
        files: Vec::new(alloc),
        unread: Vec::new(alloc),
    };
    let mut waiting = Vec::new(alloc);
    put_names(alloc, b"", true, names, &mut waiting)?;
    for _ in 0..u64::MAX {
        let Some(place) = waiting.pop() else {
            return Ok(walked);
        };
        visit(alloc, store, flags, place, &mut waiting, &mut walked, err)?;
    }
    Err(Stop::OutOfMemory)
}

// Pushes the names in a folder, so that the first of them is visited next.
fn put_names(
    alloc: Global,
    folder: &[u8],
    is_given: bool,
    names: &[Vec<u8>],
    waiting: &mut Vec<Waiting>,
) -> Result<(), AllocError>
    ensures { IfOk result (λ _. waiting_in waiting.new.items
        ≡ map (below folder.now is_given) (map (λ name. name.items) names.now)
        ++ waiting_in waiting.old.items) }
{
    for at in 0..names.len() {
        put_name(
            alloc,
            folder,
            is_given,
            &names[names.len() - 1 - at],
            waiting,
        )?;
    }
    Ok(())
}

fn put_name(
    alloc: Global,
    folder: &[u8],
    is_given: bool,
    name: &[u8],
    waiting: &mut Vec<Waiting>,
) -> Result<(), AllocError>
    ensures { IfOk result (λ _. map place_of waiting.new.items
        ≡ map place_of waiting.old.items ++ below folder.now is_given name.now ∷ []) }
{
    let mut path = Vec::new(alloc);
    path.extend_from_slice(folder)?;
    path.extend_from_slice(name)?;
    waiting.push(Waiting {
        name: path,
        is_given,
    })?;
    Ok(())
}

// Visits a name: adds a file, or pushes the names in a folder.
fn visit<S: Store + Folders, E: Sink>(
    alloc: Global,
    store: &S,
    flags: &[Vec<u8>],
    place: Waiting,
    waiting: &mut Vec<Waiting>,
    walked: &mut Walked,
    err: &mut E,
) -> Result<(), Stop>
    ensures { let patterns = patterns_in (map (λ flag. flag.items) flags.now) in SeesOne
        (IsSeen (without patterns (tree_of S.Store S.Folders store.now)) (place_of place))
        (messages_of E.Sink err.old err.new) (state_of waiting.old.items walked.old)
        (state_of waiting.new.items walked.new) result }
{
    let Waiting { name, is_given } = place;
    match kind_at(store, &name, is_given) {
        PathKind::File => {
            add_file(name, &mut walked.files)?;
            Ok(())
        }
        PathKind::Folder => open_folder(alloc, store, flags, &name, waiting, walked, err),
        PathKind::Other => Ok(()),
        PathKind::Unknown(refusal) => add_unread(alloc, &name, refusal, &mut walked.unread, err),
    }
}

// Returns the kind of a name. A given link is followed.
fn kind_at<S: Store + Folders>(store: &S, name: &[u8], is_given: bool) -> PathKind
    ensures { HasKind (tree_of S.Store S.Folders store.now) name.now is_given result }
{
    if !is_given {
        return store.kind_of(name);
    }
    if store.is_directory(name) {
        PathKind::Folder
    } else {
        PathKind::File
    }
}

fn add_file(name: Vec<u8>, files: &mut Vec<Vec<u8>>) -> Result<(), AllocError>
    ensures { IfOk result (λ _. map (λ file. file.items) files.new.items
        ≡ map (λ file. file.items) files.old.items ++ name.items ∷ []) }
{
    files.push(name)?;
    Ok(())
}

// Pushes the names in a folder, in order. Reports a folder that can't be read.
fn open_folder<S: Store + Folders, E: Sink>(
    alloc: Global,
    store: &S,
    flags: &[Vec<u8>],
    name: &[u8],
    waiting: &mut Vec<Waiting>,
    walked: &mut Walked,
    err: &mut E,
) -> Result<(), Stop>
    ensures { let patterns = patterns_in (map (λ flag. flag.items) flags.now) in SeesFolder
        (without patterns (tree_of S.Store S.Folders store.now)) name.now
        (messages_of E.Sink err.old err.new) (state_of waiting.old.items walked.old)
        (state_of waiting.new.items walked.new) result }
{
    let folder = with_slash(alloc, name)?;
    match store.names_in(alloc, &folder) {
        Ok(names) => {
            let kept = kept(alloc, flags, &names)?;
            let ordered = in_order(kept);
            put_names(alloc, &folder, false, &ordered, waiting)?;
            Ok(())
        }
        Err(FolderError::OutOfMemory) => Err(Stop::OutOfMemory),
        Err(FolderError::Refused(refusal)) => {
            add_unread(alloc, name, refusal, &mut walked.unread, err)
        }
    }
}

// Returns the names that no pattern of these arguments matches.
fn kept(alloc: Global, flags: &[Vec<u8>], names: &[Vec<u8>]) -> Result<Vec<Vec<u8>>, AllocError>
    ensures { IfOk result (λ kept. map (λ name. name.items) kept.items
        ≡ flat_map (kept_name (patterns_in (map (λ flag. flag.items) flags.now)))
        (map (λ name. name.items) names.now)) }
{
    let mut kept = Vec::new(alloc);
    for name in names {
        add_kept(alloc, flags, name, &mut kept)?;
    }
    Ok(kept)
}

// Appends the name, unless a pattern of these arguments matches it.
fn add_kept(
    alloc: Global,
    flags: &[Vec<u8>],
    name: &[u8],
    kept: &mut Vec<Vec<u8>>,
) -> Result<(), AllocError>
    ensures { IfOk result (λ _. map (λ name. name.items) kept.new.items
        ≡ map (λ name. name.items) kept.old.items
        ++ kept_name (patterns_in (map (λ flag. flag.items) flags.now)) name.now) }
{
    if is_excluded(flags, name) {
        return Ok(());
    }
    add_name(alloc, name, kept)
}

// Returns the name of a folder with a slash at its end.
fn with_slash(alloc: Global, name: &[u8]) -> Result<Vec<u8>, AllocError>
    ensures { IfOk result (λ folder. folder.items ≡ with_slash name.now) }
{
    let mut folder = Vec::new(alloc);
    folder.extend_from_slice(name)?;
    if !name.ends_with(b"/") {
        folder.push(b'/')?;
    }
    Ok(folder)
}

// Returns the names in the order of their bytes.
fn in_order(names: Vec<Vec<u8>>) -> Vec<Vec<u8>>
    ensures { IsInOrder (map (λ name. name.items) names.items)
        (map (λ name. name.items) result.items) }
{
    let mut names = names;
    names.sort_unstable();
    names
}

// Adds and reports a folder that can't be read, or a name that can't be looked up. If out of memory, reports nothing.
fn add_unread<E: Sink>(
    alloc: Global,
    name: &[u8],
    refusal: Refusal,
    unread: &mut Vec<Vec<u8>>,
    err: &mut E,
) -> Result<(), Stop>
    ensures { MatchResult result
        (λ _. (map (λ name. name.items) unread.new.items
        ≡ map (λ name. name.items) unread.old.items ++ name.now ∷ [])
        × EprintsLines E.Sink (closed_text name.now refusal) err.old err.new)
        (λ stop. (stop ≡ Stop.OutOfMemory) × (err.new ≡ err.old)) }
{
    add_name(alloc, name, unread)?;
    let outcome = Outcome::Unread {
        reason: Reason::Unopened { refusal },
    };
    eprint_outcome(name, &outcome, err);
    Ok(())
}

/// Lemma: a walk finds exactly the files that the given names lead to through names in folders, if each folder could be
/// read and the store gives one result per name. Below one given name no path is found twice, if each name occurs once
/// in its folder and has no slash. `hash_names` then has one outcome for each.
pub fn laws_of_walks<S: Store + Folders>()
    ensures each { (store : S) (patterns : List (List ℕ))
        → FindsEachFile (without patterns (tree_of S.Store S.Folders store)) }
    ensures no_other { (store : S) (patterns : List (List ℕ))
        → FindsNoOther (without patterns (tree_of S.Store S.Folders store)) }
    ensures once { (store : S) (patterns : List (List ℕ))
        → FindsOnce (without patterns (tree_of S.Store S.Folders store)) }
{}
