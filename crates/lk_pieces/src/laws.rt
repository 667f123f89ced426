//! The law on texts that are put together, proved as the contract of a function that does nothing.

ghost use Rattle.lk_pieces.specs.Joining.{PiecesJoin};

/// A law: the tokens of two texts with a comma between them are those of the first and then those of the second, where the first ends
/// behind a value and the second begins with one.
pub fn pieces_join(first: &[u8], second: &[u8])
    ensures { PiecesJoin first.now second.now }
{}
