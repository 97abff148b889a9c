// Laws of the text of a word.
ghost use Rattle.std.specs.Prelude.{◌≡◌, ℕ, ◌∷◌, ◌⊎◌, [], codes};
ghost use Rattle.acas_base.specs.declared.advisory.ResMsg.{ResMsg};
ghost use Rattle.ra_block.specs.Words.{IsBlockWord, Word as IsWordOfBlock};
ghost use Rattle.ra_block.specs.declared.block.RaBlock.{RaBlock};
ghost use Rattle.res_message.specs.Words.{IsCodeWord, Word as IsWordOfMessage};
ghost use Rattle.word_text.specs.Lines.{block_lines, message_lines, word_lines};

/// A law: the word of a block is told as that block, the word of a message as that message, and any other word as none.
pub fn told_law()
    ensures block { (b : RaBlock) (word : ℕ) → IsWordOfBlock b word → word_lines word ≡ codes "word,block\n" ∷ block_lines b }
    ensures message { (m : ResMsg) (word : ℕ) → IsWordOfMessage m word → word_lines word ≡ codes "word,message\n" ∷ message_lines word m }
    ensures none { (word : ℕ) → ¬ IsBlockWord word → ¬ IsCodeWord word → (word_lines word ≡ codes "word,block\n" ∷ codes "none\n" ∷ []) ⊎ (word_lines word ≡ codes "word,message\n" ∷ codes "none\n" ∷ []) }

    // No two words of blocks or messages are told alike.
    ensures same { (v w : ℕ) → IsBlockWord v ⊎ IsCodeWord v → word_lines v ≡ word_lines w → v ≡ w }
{}
