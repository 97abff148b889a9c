// What a comparison says of two states.
ghost use Rattle.std.specs.Prelude.{◌≡◌, ◌↔◌, ℕ, IsTrue, List};
ghost use Rattle.comparison.specs.Found.{AreEqual, IsFound, is_equal};
ghost use Rattle.comparison.specs.Splitting.{IsSplit};
ghost use Rattle.comparison.specs.declared.finding.Found.{Found};

use air_journal::AirState;

/// A law: what is found says that nothing differs exactly where the encounters are equal, all cells, the reports commit
/// by commit and all messages.
pub fn equal_law(one: &AirState, other: &AirState)
    ensures { (found : Found) → IsFound one.now other.now found → IsTrue (is_equal found) ↔ AreEqual one.now other.now }
{
    one.legal_law();
    other.legal_law();
    enc_file::canonical_text_law();
}

/// A law: bytes are cut in one way.
pub fn split_law()
    ensures { (bytes one other two another : List ℕ) → IsSplit bytes one other → IsSplit bytes two another → (one ≡ two) × (other ≡ another) }
{}
