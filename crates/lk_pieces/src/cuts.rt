//! Where a text is cut.

ghost use Rattle.std.specs.Prelude.{◌≡◌, ◌∷◌, ◌++◌, IfOk, IfSome};
ghost use Rattle.lk_pieces.specs.Pieces.{joined, bytes_of};

use std::alloc::{AllocError, Global};

/// Guesses at a comma between two lists, or two items of one. Any answer will do: a text is cut only where a comma is, and a cut between
/// others shows when the pieces are read.
pub trait Guess {
    /// How many bytes stand before the comma at which this text may be cut next.
    fn place(&self, text: &[u8]) -> Option<usize>;
}

/// What stands before the comma at this place and what stands behind it, if one is there.
fn cut_at(text: &[u8], at: usize) -> Option<(&[u8], &[u8])>
    ensures { IfSome result (λ p. text.now ≡ p.0.now ++ 44 ∷ p.1.now) }
{
    let (piece, behind) = text.split_at_checked(at)?;
    match behind {
        [b',', behind @ ..] => Some((piece, behind)),
        _ => None,
    }
}

/// The pieces of a text, and the last of them apart: with a comma between one and the next they are the text. Without a good guess the
/// last is all of it.
pub fn cut<'a, G: Guess>(
    alloc: Global,
    text: &'a [u8],
    guess: &G,
) -> Result<(Vec<&'a [u8]>, &'a [u8]), AllocError>
    ensures { IfOk result (λ p. text.now ≡ joined (bytes_of p.0.items) p.1.now) }
{
    let mut pieces = Vec::new(alloc);
    let mut rest = text;
    'pieces: while let Some(at) = guess.place(rest) {
        let Some((piece, behind)) = cut_at(rest, at) else {
            break;
        };
        pieces.push(piece)?;
        rest = behind;
    }
    Ok((pieces, rest))
}
