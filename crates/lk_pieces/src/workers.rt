//! Pieces that several workers read side by side.

ghost use Rattle.std.specs.Prelude.{◌≡◌, ◌<◌, ◌≤◌, ◌*◌, ℕ, List, IfOk, IfSome, vec_len};
ghost use Rattle.lk_pieces.specs.Pieces.{bytes_of, Continue};
ghost use Rattle.lk_pieces.specs.Workers.{share_of, ReadsShare, ReadShares, AreShares};

use crate::element::Element;
use crate::pieces::{Part, join_parts, nothing, read_in_turn, seem_within};
use json::Scratch;
use std::alloc::{AllocError, Global};
use std::thread::{Threads, map_indices};

/// How many of so many pieces each of so many workers reads at most.
fn share_size(pieces: usize, workers: usize) -> usize
    requires { 0 < workers }
    ensures { pieces ≤ result * workers }
{
    let rounded = pieces / workers;
    if pieces % workers == 0 {
        rounded
    } else {
        rounded + 1
    }
}

/// The pieces of a worker.
fn share<'a, 'b>(pieces: &'b [&'a [u8]], size: usize, worker: usize) -> &'b [&'a [u8]]
    ensures { result.now ≡ share_of size worker pieces.now }
{
    let from = worker.saturating_mul(size).min(pieces.len());
    let rest = &pieces[from..];
    let size = size.min(rest.len());
    &rest[..size]
}

/// Pieces that workers share.
#[derive(Clone, Copy)]
struct SharedPieces<'a> {
    pieces: &'a [&'a [u8]],
    /// How deep their items may nest.
    depth: usize,
    /// How many pieces each worker reads at most.
    size: usize,
}

/// What a worker reads of its pieces.
fn read_share<T: Element>(
    alloc: Global,
    shares: &SharedPieces<'_>,
    worker: usize,
) -> Option<Part<T::Item>>
    ensures { ReadsShare T.described shares.now.depth shares.now.size shares.now.pieces.now worker result }
{
    let mut scratch = Scratch::new(alloc);
    let pieces = share(shares.pieces, shares.size, worker);
    let within = seem_within(pieces);
    let front = nothing(alloc, within);
    let all = read_in_turn::<T>(alloc, front, pieces, &mut scratch, shares.depth)?;
    Some(Part {
        within,
        closed: all.closed,
        unclosed: all.unclosed,
    })
}

/// What each worker reads of its pieces, on a thread of its own.
fn read_each<T: Element + Send, R: Threads + Sync>(
    rt: &R,
    alloc: Global,
    shares: &SharedPieces<'_>,
    workers: usize,
) -> Result<Vec<Option<Part<T::Item>>>, AllocError>
    ensures count { IfOk result (λ answers. vec_len answers ≡ workers) }
    ensures each { IfOk result (λ answers. ReadShares T.described shares.now.depth shares.now.size shares.now.pieces.now workers answers.items) }
{
    map_indices(
        rt,
        alloc,
        workers,
        &|worker: usize| -> Option<Part<T::Item>>
            ensures { ReadsShare T.described shares.entry.now.depth shares.entry.now.size shares.entry.now.pieces.now worker result }
        { read_share::<T>(alloc, shares, worker) },
    )
}

/// What so many workers, or fewer, read of pieces, each of a share of them.
pub(crate) fn read_shares<T: Element + Send, R: Threads + Sync>(
    rt: &R,
    alloc: Global,
    pieces: &[&[u8]],
    depth: usize,
    workers: usize,
) -> Option<Vec<Option<Part<T::Item>>>>
    requires { 0 < workers }
    ensures { IfSome result (λ answers. AreShares T.described depth (bytes_of pieces.now) answers.items) }
{
    let size = share_size(pieces.len(), workers).max(1);
    let sharers = share_size(pieces.len(), size);
    let shares = SharedPieces {
        pieces,
        depth,
        size,
    };
    let Ok(answers) = read_each::<T, _>(rt, alloc, &shares, sharers) else {
        return None;
    };
    Some(answers)
}

/// What was read of pieces, and behind them of those that workers read.
pub(crate) fn join_shares<T: Element>(
    part: Part<T::Item>,
    answers: Vec<Option<Part<T::Item>>>,
) -> Option<Part<T::Item>>
    ensures { IfSome result (λ all. (depth : ℕ) (ps : List (List ℕ)) → AreShares T.described depth ps answers.items → Continue T.described depth ps part all) }
{
    let mut all = part;
    for answer in answers {
        all = join_parts::<T>(all, answer?)?;
    }
    Some(all)
}
