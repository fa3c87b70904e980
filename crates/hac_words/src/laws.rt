//! Theorems over the definitions alone. Each is the contract of a function that does nothing.
ghost use Rattle.hac_words.specs.Laws.{TermsAreFound, WordsAreDetermined, WordsAreWords, WordsRise};
ghost use Rattle.hac_words.specs.Laws.{TermsStand, WordsStay};

/// Each word of a text is a word by itself.
pub fn words_are_words()
    ensures { WordsAreWords }
{}

/// The words that `words_of` lists rise, so that none comes twice.
pub fn words_rise()
    ensures { WordsRise }
{}

/// They are the words of the text.
pub fn words_stay()
    ensures { WordsStay }
{}

/// No other list rises and has the words of the text.
pub fn words_are_determined()
    ensures { WordsAreDetermined }
{}

/// Which terms a text has is known from the list of its words.
pub fn terms_are_found()
    ensures { TermsAreFound }
{}

/// A text has a term whose letters are a word where that word, or one that begins so, stands in it.
pub fn terms_stand()
    ensures { TermsStand }
{}
