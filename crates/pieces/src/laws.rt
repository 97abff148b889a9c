// What holds of each text.
ghost use Rattle.std.specs.Prelude.{◌≡◌, ℕ, List};
ghost use Rattle.pieces.specs.Pieces.{AreCut};

/// A law: a text is cut into one list of pieces at most.
pub fn cut_law()
    ensures { (bytes : List ℕ) (one other : List (List ℕ)) → AreCut one bytes → AreCut other bytes → one ≡ other }
{}
