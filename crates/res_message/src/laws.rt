// Laws of words.
ghost use Rattle.std.specs.Prelude.{◌≡◌, ℕ, ◌<◌, ◌≤◌, Some, IfSome, count_ones};
ghost use Rattle.acas_base.specs.Ranges.{IsAddress};
ghost use Rattle.acas_base.specs.declared.advisory.ResMsg.{ResMsg};
ghost use Rattle.res_message.specs.Words.{word_of, read_word, flip_word, Word, IsCodeWord};

/// A law: a message's word is read as that message, and an empty mask flips nothing.
pub fn read_law()
    ensures read { (m : ResMsg) → IsAddress m.sender → read_word (word_of m) ≡ Some m }
    ensures flip { (word : ℕ) → flip_word word 0 ≡ word }
{}

/// A law: a word is the word of at most one message, and a message has one word.
pub fn once_law()
    ensures message { (m n : ResMsg) (word : ℕ) → Word m word → Word n word → m ≡ n }
    ensures word { (m : ResMsg) (v w : ℕ) → Word m v → Word m w → v ≡ w }
{}

/// A law: a message's word with one to three of the eight protected bits flipped is no message's word.
pub fn distance_law()
    ensures { (m : ResMsg) (word mask : ℕ) → Word m word → mask < 256 → 1 ≤ count_ones mask → count_ones mask ≤ 3 → ¬ IsCodeWord (flip_word word mask) }
{}

/// A law: flip at most three of the protected bits of a message's word. If the result is read at all, it is read as
/// that message.
pub fn spoilt_law()
    ensures { (m : ResMsg) (mask : ℕ) → IsAddress m.sender → mask < 256 → count_ones mask ≤ 3 → IfSome (read_word (flip_word (word_of m) mask)) (λ n. n ≡ m) }
{}
