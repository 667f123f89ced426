//! An object with a long list of lists in it, read piece by piece.

ghost use Rattle.std.specs.Prelude.{◌≡◌, ◌<◌, ◌≤◌, ◌∷◌, ◌++◌, IfSome};
ghost use Rattle.std.specs.Thread.{IsSync};
ghost use Rattle.json.specs.Token.{Token as SpecToken};
ghost use Rattle.serde_json.specs.Data.{Members, no_members};
ghost use Rattle.lk_pieces.specs.Around.{IsAdded, LeadsIn, Completes, OpensObject, ClosesObject, ReadsEnds, HoldsList};
ghost use Rattle.lk_pieces.specs.Pieces.{joined, bytes_of};
ghost use Rattle.lk_pieces.specs.Workers.{AreShares};

use crate::cuts::{Guess, cut};
use crate::element::Element;
use crate::lists::{open_list, read_on, read_to_end};
use crate::pieces::{Part, join_parts, nothing, read_in_turn, seems_within, whole_lists};
use crate::row::Row;
use crate::workers::{join_shares, read_shares};
use json::{Reader, Scratch, Token};
use std::alloc::Global;
use std::thread::{Threads, join};

/// How deep the members of the object may nest.
const MEMBER_DEPTH: usize = 126;

/// How deep the items of the lists in the list in it may nest.
const ITEM_DEPTH: usize = 124;

/// What is kept of the members of an object, other than its list.
pub trait Others: Sized + Drop {
    /// The members that were added.
    ghost members: { Self → Members };

    /// No member.
    fn none(alloc: Global) -> Self
        ensures { members result ≡ no_members };

    /// Adds the member with this key, the value of which stands next, nested no deeper than `depth`. No answer tells nothing.
    fn add(&mut self, alloc: Global, key: &str, reader: &mut Reader<'_>, depth: usize) -> Option<()>
        ensures { IfSome result (λ _. IsAdded key.now depth (members self.old) reader.old (members self.new) reader.new) };
}

/// The brace that opens an object.
fn open_object(reader: &mut Reader<'_>) -> Option<()>
    ensures { IfSome result (λ _. reader.old ≡ SpecToken.begin_object ∷ reader.new) }
{
    match reader.next()? {
        Token::BeginObject => Some(()),
        _ => None,
    }
}

/// The members up to the list at this key, and the bracket that opens it.
fn read_up_to_list<M: Others>(
    alloc: Global,
    key: &str,
    others: &mut M,
    reader: &mut Reader<'_>,
) -> Option<()>
    ensures { IfSome result (λ _. LeadsIn key.now 126 (M.members others.old) reader.old (M.members others.new) reader.new) }
{
    'members: while let Some(name) = reader.next_key().ok()? {
        if name == key {
            open_list(reader)?;
            return Some(());
        }
        others.add(alloc, name, reader, MEMBER_DEPTH)?;
    }
    None
}

/// The members behind the list, up to the end of the object; a second one at its key is refused.
fn read_behind_list<M: Others>(
    alloc: Global,
    key: &str,
    others: &mut M,
    reader: &mut Reader<'_>,
) -> Option<()>
    ensures { IfSome result (λ _. Completes key.now 126 (M.members others.old) reader.old (M.members others.new) reader.new) }
{
    'members: while let Some(name) = reader.next_key().ok()? {
        if name == key {
            return None;
        }
        others.add(alloc, name, reader, MEMBER_DEPTH)?;
    }
    Some(())
}

/// What is read of the first piece, which begins an object with the list of lists at this key, and the members before it.
fn read_front<T: Element, M: Others>(
    alloc: Global,
    piece: &[u8],
    key: &str,
    scratch: &mut Scratch,
) -> Option<(Part<T::Item>, M)>
    ensures { IfSome result (λ r. OpensObject T.described key.now piece.now r.0 (M.members r.1)) }
{
    let text = str::from_utf8(piece).ok()?;
    let mut reader = Reader::new(text, scratch).ok()?;
    open_object(&mut reader)?;
    let mut others = M::none(alloc);
    read_up_to_list(alloc, key, &mut others, &mut reader)?;
    let mut closed = Vec::new(alloc);
    let unclosed = read_on::<T>(alloc, &mut closed, None, &mut reader, ITEM_DEPTH)?;
    let part = Part {
        within: false,
        closed,
        unclosed,
    };
    Some((part, others))
}

/// What is read of the last piece, which ends the list of lists at this key and the object around it, and the members behind it, which
/// are added to the others.
fn read_back<T: Element, M: Others>(
    alloc: Global,
    piece: &[u8],
    key: &str,
    others: &mut M,
    scratch: &mut Scratch,
) -> Option<Part<T::Item>>
    ensures { IfSome result (λ part. ClosesObject T.described key.now piece.now part (M.members others.old) (M.members others.new)) }
{
    let text = str::from_utf8(piece).ok()?;
    let mut reader = Reader::new(text, scratch).ok()?;
    let Part {
        within,
        mut closed,
        unclosed,
    } = nothing(alloc, seems_within(piece));
    read_to_end::<T>(alloc, &mut closed, unclosed, &mut reader, ITEM_DEPTH)?;
    read_behind_list(alloc, key, others, &mut reader)?;
    match reader.next() {
        Some(_) => None,
        None => Some(Part {
            within,
            closed,
            unclosed: None,
        }),
    }
}

/// What one reader gives of an object in pieces: what it reads of its first pieces and of its last one, and the other members.
#[derive(Drop)]
struct Ends<T, M> {
    opening: Part<T>,
    ending: Part<T>,
    others: M,
}

/// What is read of the first piece, these behind it, and the last.
fn read_ends<T: Element, M: Others>(
    alloc: Global,
    first: &[u8],
    near: &[&[u8]],
    last: &[u8],
    key: &str,
) -> Option<Ends<T::Item, M>>
    ensures { IfSome result (λ ends. ReadsEnds T.described key.now first.now (bytes_of near.now) last.now ends.opening ends.ending (M.members ends.others)) }
{
    let mut scratch = Scratch::new(alloc);
    let (front, mut others) = read_front::<T, _>(alloc, first, key, &mut scratch)?;
    let opening = read_in_turn::<T>(alloc, front, near, &mut scratch, ITEM_DEPTH)?;
    let ending = read_back::<T, _>(alloc, last, key, &mut others, &mut scratch)?;
    Some(Ends {
        opening,
        ending,
        others,
    })
}

/// The lists and the other members of an object in these pieces, one after the other.
fn read_alone<T: Element, M: Others>(
    alloc: Global,
    first: &[u8],
    pieces: &[&[u8]],
    last: &[u8],
    key: &str,
) -> Option<(Vec<Row<T::Item>>, M)>
    ensures { IfSome result (λ r. HoldsList T.described key.now (joined (first.now ∷ bytes_of pieces.now) last.now) r.0.items (M.members r.1)) }
{
    let ends = read_ends::<T, _>(alloc, first, pieces, last, key)?;
    let Ends {
        opening,
        ending,
        others,
    } = ends;
    let lists = whole_lists(join_parts::<T>(opening, ending)?)?;
    Some((lists, others))
}

/// An object in pieces that are shared out: the caller reads the first ones and the last.
#[derive(Clone, Copy)]
struct DividedObject<'a> {
    first: &'a [u8],
    /// The pieces behind the first that the caller reads too.
    near: &'a [&'a [u8]],
    /// Those between them and the last, which other workers read.
    far: &'a [&'a [u8]],
    last: &'a [u8],
}

/// The same, while so many other workers read the pieces that are far.
fn read_beside<T: Element + Send, M: Others, R: Threads + Sync>(
    rt: &R,
    alloc: Global,
    object: DividedObject<'_>,
    key: &str,
    workers: usize,
) -> Option<(Vec<Row<T::Item>>, M)>
    requires { 0 < workers }
    ensures { IfSome result (λ r. HoldsList T.described key.now
        (joined (object.entry.first.now ∷ (bytes_of object.entry.near.now ++ bytes_of object.entry.far.now)) object.entry.last.now) r.0.items (M.members r.1)) }
{
    let DividedObject {
        first,
        near,
        far,
        last,
    } = object;
    let (between, ends) = join(
        rt,
        || -> Option<Vec<Option<Part<T::Item>>>>
            requires { IsSync R.row × (0 < workers) }
            ensures { IfSome result (λ answers. AreShares T.described 124 (bytes_of far.entry.now) answers.items) }
        { read_shares::<T, _>(rt, alloc, far, ITEM_DEPTH, workers) },
        || -> Option<Ends<T::Item, M>>
            ensures { IfSome result (λ ends. ReadsEnds T.described key.entry.now first.entry.now (bytes_of near.entry.now) last.entry.now ends.opening ends.ending (M.members ends.others)) }
        { read_ends::<T, _>(alloc, first, near, last, key) },
    );
    let ends = ends?;
    let Ends {
        opening,
        ending,
        others,
    } = ends;
    let opening = join_shares::<T>(opening, between?)?;
    let lists = whole_lists(join_parts::<T>(opening, ending)?)?;
    Some((lists, others))
}

/// How many of so many pieces between the first and the last their reader reads too: with both it has as many as each other worker.
fn near_count(pieces: usize, workers: usize) -> usize
    ensures { result ≤ pieces }
{
    if workers < 2 {
        return pieces;
    }
    let size = pieces.saturating_add(2) / workers;
    size.saturating_sub(2).min(pieces)
}

/// The lists of the list at this key of an object that is cut where this guesses, and its other members, with room for the unescaped
/// strings of one piece. No answer tells nothing: the text may be no such object, have two lists at the key, be of one piece, or have
/// been cut at another comma than one between lists or items, or memory may have run out.
pub fn read_object_in_pieces<T: Element, M: Others, G: Guess>(
    alloc: Global,
    text: &[u8],
    key: &str,
    guess: &G,
) -> Option<(Vec<Row<T::Item>>, M)>
    ensures { IfSome result (λ r. HoldsList T.described key.now text.now r.0.items (M.members r.1)) }
{
    let (pieces, last) = cut(alloc, text, guess).ok()?;
    let (first, pieces) = pieces.as_slice().split_first()?;
    read_alone::<T, _>(alloc, first, pieces, last, key)
}

/// The same, read by so many workers side by side, each on a thread of its own, of which the caller's is one; none counts as one, and no
/// more are started than there are pieces for.
pub fn read_object_by_workers<T: Element + Send, M: Others, G: Guess, R: Threads + Sync>(
    rt: &R,
    alloc: Global,
    text: &[u8],
    key: &str,
    guess: &G,
    workers: usize,
) -> Option<(Vec<Row<T::Item>>, M)>
    ensures { IfSome result (λ r. HoldsList T.described key.now text.now r.0.items (M.members r.1)) }
{
    let (pieces, last) = cut(alloc, text, guess).ok()?;
    let (first, pieces) = pieces.as_slice().split_first()?;
    let (near, far) = pieces.split_at(near_count(pieces.len(), workers));
    if far.is_empty() {
        return read_alone::<T, _>(alloc, first, pieces, last, key);
    }
    let others = workers.saturating_sub(1).min(far.len()).max(1);
    let object = DividedObject {
        first,
        near,
        far,
        last,
    };
    read_beside::<T, _, _>(rt, alloc, object, key, others)
}
