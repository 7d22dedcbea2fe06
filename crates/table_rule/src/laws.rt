//! What holds of the layout of the words. Each law is the contract of a function that does nothing.
ghost use Rattle.table_rule.specs.Words.{WordsAreApart, LinesAreApart};

/// Each part of the core has a word of its own.
pub fn words_are_apart()
    ensures { WordsAreApart }
{}

/// The words that one seat alone writes, its section word and its own counters, lie at least 8
/// words of 8 bytes from every word that another writes: two seats never write the same 64 bytes
/// there, wherever the table begins.
pub fn lines_are_apart()
    ensures { LinesAreApart }
{}
