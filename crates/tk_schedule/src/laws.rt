//! Laws of lines and the histories that they tell, each for every shape.
ghost use Rattle.tk_schedule.specs.Laws.{TellsOne, EndsWhereTold, EndsBehind, TellsSerial};
ghost use Rattle.tk_schedule.specs.Laws.{NoneBad, FirstBad};

/// Lines tell one history at most, and the last alone of those that tell one is an `End`, as it is where one is put
/// after lines without any. The serial history's lines tell it.
pub fn lines_tell()
    ensures one { TellsOne }
    ensures ends { EndsWhereTold }
    ensures end { EndsBehind }
    ensures serial { TellsSerial }
{}

/// The bad line is what its name says, without a word of turns: lines have none exactly where they are those of a legal
/// history; else a legal history begins with the lines before it, and none with these and it.
pub fn bad_line_is()
    ensures none { NoneBad }
    ensures first { FirstBad }
{}
