// A law, the contract of a function that does nothing.
ghost use Rattle.command_words.specs.Spelling.{WordsAreSpelled};

/// Words say a command exactly where they are its words, a number in decimal digits without a
/// leading zero, and its values are such as it may have.
pub fn words_are_spelled()
    ensures { WordsAreSpelled }
{}
