ghost use Rattle.msp_decode.specs.Law.{HeadsAreSpelled, IllegalWordsSpellNothing, WordsAreRead, WordsAreWritten};

/// The law of heads: the head that is computed from a word is the one that the word spells.
pub fn heads_are_spelled()
    ensures { HeadsAreSpelled }
{}

/// The law of illegal words: they are those that spell nothing.
#[tactic(auto, using(crate::proofs::IllegalLemmas::illegal_words_spell_nothing))]
pub fn illegal_words_spell_nothing()
    ensures { IllegalWordsSpellNothing }
{}

/// The law of spellings, from instructions: the words that are written are read as the instruction.
#[tactic(auto, using(crate::proofs::WordLemmas::words_are_read))]
pub fn words_are_read()
    ensures { WordsAreRead }
{}

/// The law of spellings, from words: a legal word and its extension words are written again.
#[tactic(auto, using(crate::proofs::WordLemmas::words_are_written))]
pub fn words_are_written()
    ensures { WordsAreWritten }
{}
