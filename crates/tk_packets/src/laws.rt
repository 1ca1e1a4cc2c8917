//! Why no mark of an epoch is lost on its way.
ghost use Rattle.tk_packets.specs.Laws.{MarksAreReadAgain};

/// The bytes of a filter's marks have bit by bit the filter's marks.
pub fn marks_are_read_again()
    ensures { MarksAreReadAgain }
{}
