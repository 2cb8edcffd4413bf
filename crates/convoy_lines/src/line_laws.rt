//! The laws of words and of lines. Each is the one clause of a function that does nothing; a caller
//! that needs the law calls the function.

ghost use Rattle.convoy_lines.specs.LineLaws.{NumbersAreDecimals, DecimalsAreWords};
ghost use Rattle.convoy_lines.specs.LineLaws.{WordsOfLines, WordsMakeLines};
ghost use Rattle.convoy_lines.specs.LineLaws.{LabelledLines, NumberLines, LinesOfTexts};

/// A number in decimal digits is read as that number, up to the limit, and from no other word.
pub fn numbers_are_decimals()
    ensures { NumbersAreDecimals }
{}

/// A number in decimal digits is a word.
pub fn decimals_are_words()
    ensures { DecimalsAreWords }
{}

/// A line is the words read from it with one space between them, and words are read from the line
/// that they make so.
pub fn words_of_lines()
    ensures { WordsOfLines }
{}

/// Words with one space between them make a line: it has no byte 10 in it.
pub fn words_make_lines()
    ensures { WordsMakeLines }
{}

/// A line is its label and the words read after it, and words are read after the label of the line
/// that they make with it.
pub fn labelled_lines()
    ensures { LabelledLines }
{}

/// The line of a label and a number of 32 bits is read as that number, and no other line is.
pub fn number_lines()
    ensures { NumberLines }
{}

/// A text has just the lines of which it is made, each ended by byte 10.
pub fn lines_of_texts()
    ensures { LinesOfTexts }
{}
