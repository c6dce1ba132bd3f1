//! What holds of reading.

ghost use Rattle.rl_reading.specs.Laws.{EachTokenStandsOnce, NoPhraseIsUnknown};

/// The reader knows every phrase that the grammar of modules gives.
pub fn no_phrase_is_unknown()
    ensures { NoPhraseIsUnknown }
{}

/// A phrase takes each token of its text once, in their order: none is passed over and none is read twice.
pub fn each_token_stands_once()
    ensures { EachTokenStandsOnce }
{}
