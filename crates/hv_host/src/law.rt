//! What holds of all host trees.
ghost use Rattle.std.specs.Prelude.{List, ℕ, Option, Ok, Err};
ghost use Rattle.hv_host.specs.declared.board.Board.{Board};
ghost use Rattle.hv_host.specs.declared.refusal.BoardRefusal.{BoardRefusal};
ghost use Rattle.hv_host.specs.Boards.{Says, IsWantOfMemory, AreOneRefusal};

/// A law, with no work at run time: a host tree, or that there is none, says one thing: a board, or
/// one refusal. Want of memory alone may come in place of either.
pub fn host_trees_are_unambiguous()
    ensures board { (text : Option (List ℕ)) (board : Board) (why : BoardRefusal)
        → Says text (Ok board) → Says text (Err why) → IsWantOfMemory why }
    ensures refusal { (text : Option (List ℕ)) (one other : BoardRefusal)
        → Says text (Err one) → Says text (Err other) → AreOneRefusal one other }
{}
