//! A search of all walks, breadth first.

ghost use Rattle.std.specs.Prelude.{◌≡◌, ◌<◌, ◌++◌, ◌∷◌, [], IfOk, IsTrue, List, OnOk, ℕ, length};
ghost use Rattle.hunt_walks.specs.Searched.{HasTried, HasTriedAll, IsEnded, IsSearched, IsVisited};
ghost use Rattle.hunt_walks.specs.Searched.{IsWalked, Keeps};
ghost use Rattle.hunt_walks.specs.Walks.{IsMet, IsWalk};

use crate::seen::Seen;
use crate::walker::Walker;
use model::items::Items;
use std::alloc::{AllocError, Global};

/// A move that fails behind a walk.
#[derive(Drop)]
pub struct Failed {
    pub path: Vec<u8>,
    pub number: u8,
}

/// What comes of a search.
#[derive(Drop)]
pub enum Walked {
    /// The walks that are kept, one for each place that was met.
    All(Vec<Items<u8>>),
    /// A move fails.
    Fails(Failed),
    /// There are more walks than were wanted.
    More,
}

/// How a search has ended.
#[derive(Drop)]
pub(crate) enum Searched {
    /// All walks that are kept were followed.
    All,
    /// A move fails.
    Fails(Failed),
    /// There are more walks than were wanted.
    More,
}

/// The key of the place at which one stands.
fn key_of<W: Walker>(alloc: Global, place: &W) -> Result<Vec<u8>, AllocError> {
    let mut key = Vec::new(alloc);
    place.add_key(&mut key)?;
    Ok(key)
}

/// Whether the walk of a number leads to the place at which one stands.
fn is_there<W: Walker + Drop>(
    alloc: Global,
    home: &W,
    seen: &Seen,
    number: usize,
    place: &W,
) -> Result<bool, AllocError>
    ensures { IfOk result (λ there. IsTrue there → (path : List ℕ)
        → W.stands home.now path place.now → IsMet (W.one home.now) seen.now path) }
{
    let Some(path) = seen.path(number) else {
        return Ok(false);
    };
    let other = home.behind(alloc, path)?;
    let same = place.is_one(&other);
    Ok(same)
}

/// Whether one of the walks whose places have one key, the last of them first, leads to the place
/// at which one stands.
fn is_met<W: Walker + Drop>(
    alloc: Global,
    home: &W,
    seen: &Seen,
    last: Option<usize>,
    place: &W,
) -> Result<bool, AllocError>
    ensures { IfOk result (λ met. IsTrue met → (path : List ℕ)
        → W.stands home.now path place.now → IsMet (W.one home.now) seen.now path) }
{
    let mut next = last;
    for _walk in 0..seen.len() {
        let Some(number) = next else {
            return Ok(false);
        };
        let there = is_there(alloc, home, seen, number, place)?;
        if there {
            return Ok(true);
        }
        next = seen.before(number);
    }
    Ok(false)
}

/// A walk with one move more.
fn longer(alloc: Global, path: &[u8], number: u8) -> Result<Vec<u8>, AllocError>
    ensures { IfOk result (λ longer. longer.items ≡ path.now ++ number ∷ []) }
{
    let mut longer = Vec::from_slice(alloc, path)?;
    longer.push(number)?;
    Ok(longer)
}

/// Keeps a walk with one move more, which leads to the place at which one stands, unless that place
/// was met.
fn keep<W: Walker + Drop>(
    alloc: Global,
    home: &W,
    seen: &mut Seen,
    path: &[u8],
    number: u8,
    place: &W,
) -> Result<(), AllocError>
    requires stands { W.stands home.now (path.now ++ number ∷ []) place.now }
    requires walk { IsWalk (W.may home.now) (W.fails home.now) (path.now ++ number ∷ []) }
    ensures { OnOk result (Keeps (W.may home.now) (W.fails home.now) (W.one home.now) seen.old
        seen.new (path.now ++ number ∷ [])) }
{
    let key = key_of(alloc, place)?;
    let last = seen.last_like(key.as_slice());
    let met = is_met(alloc, home, seen, last, place)?;
    if met {
        return Ok(());
    }
    let grown = longer(alloc, path, number)?;
    seen.add(grown, key)?;
    Ok(())
}

/// Follows a move behind a walk, where one stands, and answers whether it goes on. Then one stands
/// there again.
fn follow<W: Walker + Drop>(
    alloc: Global,
    home: &W,
    seen: &mut Seen,
    path: &[u8],
    number: u8,
    place: &mut W,
) -> Result<bool, AllocError>
    requires stands { W.stands home.now path.now place.old }
    requires walk { IsWalk (W.may home.now) (W.fails home.now) path.now }
    ensures tried { IfOk result (HasTried (W.may home.now) (W.fails home.now) (W.one home.now)
        seen.old seen.new path.now number) }
    ensures stands { IfOk result (λ well. IsTrue well → W.stands home.now path.now place.new) }
{
    let may = place.may(number);
    if !may {
        return Ok(true);
    }
    let well = place.go(number)?;
    if !well {
        return Ok(false);
    }
    keep(alloc, home, seen, path, number, place)?;
    let fresh = home.behind(alloc, path)?;
    *place = fresh;
    Ok(true)
}

/// Follows each of so many moves behind a walk, up to the first that fails.
fn follow_each<W: Walker + Drop>(
    alloc: Global,
    home: &W,
    seen: &mut Seen,
    path: &[u8],
    moves: u8,
) -> Result<Option<u8>, AllocError>
    requires { IsWalk (W.may home.now) (W.fails home.now) path.now }
    ensures { IfOk result (HasTriedAll (W.may home.now) (W.fails home.now) (W.one home.now) moves
        seen.old seen.new path.now) }
{
    let mut place = home.behind(alloc, path)?;
    for number in 0..moves {
        let well = follow(alloc, home, seen, path, number, &mut place)?;
        if !well {
            return Ok(Some(number));
        }
    }
    Ok(None)
}

/// Follows the moves behind the walk of a number, at the front: one that fails ends the search.
fn visit<W: Walker + Drop>(
    alloc: Global,
    home: &W,
    seen: &mut Seen,
    moves: u8,
    number: usize,
) -> Result<Option<Failed>, AllocError>
    requires inside { number < length seen.old }
    requires searched { IsSearched (W.may home.now) (W.fails home.now) (W.one home.now) moves
        seen.old number }
    ensures { IfOk result (IsVisited (W.may home.now) (W.fails home.now) (W.one home.now) moves
        seen.new number) }
{
    let Some(moves_there) = seen.path(number) else {
        return Ok(None);
    };
    let path = Vec::from_slice(alloc, moves_there)?;
    let found = follow_each(alloc, home, seen, path.as_slice(), moves)?;
    match found {
        Some(number) => Ok(Some(Failed { path, number })),
        None => Ok(None),
    }
}

/// Goes on from each walk that is kept, in that order, until none is left, a move fails, or more
/// places than so many are met.
fn search<W: Walker + Drop>(
    alloc: Global,
    home: &W,
    seen: &mut Seen,
    moves: u8,
    most: usize,
) -> Result<Searched, AllocError>
    requires { IsSearched (W.may home.now) (W.fails home.now) (W.one home.now) moves seen.old 0 }
    ensures { IfOk result (IsEnded (W.may home.now) (W.fails home.now) (W.one home.now) moves most
        seen.new) }
{
    for number in 0..most {
        if number >= seen.len() {
            return Ok(Searched::All);
        }
        if seen.len() > most {
            return Ok(Searched::More);
        }
        let visited = visit(alloc, home, seen, moves, number)?;
        if let Some(failed) = visited {
            return Ok(Searched::Fails(failed));
        }
    }
    if seen.len() > most {
        return Ok(Searched::More);
    }
    Ok(Searched::All)
}

/// All walks by so many moves from where one stands, of which one is kept for each place, up to so
/// many; or a move that fails; or that there are more walks than so many, no two of them the same.
/// Where all are kept, and places that are one go on alike, no move behind any walk fails, and each
/// walk leads to the place of one that is kept.
///
/// # Errors
///
/// When memory runs out.
pub fn walk<W: Walker + Drop>(
    alloc: Global,
    home: &W,
    moves: u8,
    most: usize,
) -> Result<Walked, AllocError>
    ensures { IfOk result
        (IsWalked (W.may home.now) (W.fails home.now) (W.one home.now) moves most) }
{
    let key = key_of(alloc, home)?;
    let mut seen = Seen::of(alloc, key)?;
    let ended = search(alloc, home, &mut seen, moves, most)?;
    match ended {
        Searched::All => Ok(Walked::All(seen.into_paths())),
        Searched::Fails(failed) => Ok(Walked::Fails(failed)),
        Searched::More => Ok(Walked::More),
    }
}
