//! Marks on numbers: a list with a truth value for each.

ghost use Rattle.std.specs.Prelude.{◌≡◌};
ghost use Rattle.lk_link.specs.Marks.{is_marked};

/// Whether a number has a mark; none has one past the end. Takes constant time.
pub fn is_marked(marks: &[bool], index: usize) -> bool
    ensures { result ≡ is_marked marks.now index }
{
    index < marks.len() && marks[index]
}
