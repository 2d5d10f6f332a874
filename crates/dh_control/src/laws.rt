//! Laws of messages and their answers.

ghost use Rattle.dh_control.specs.Answers.{ImportsAreDone, LinesAreDone, OthersAreLeft, WordsAreDone};
ghost use Rattle.dh_control.specs.Cutting.{AnswersAreCut};

/// Cutting an answer gives the lines that were printed and the end, whatever they are.
pub fn answers_are_cut()
    ensures { AnswersAreCut }
{}

/// What a client sends to the server of a file is what is done there: its words are done as their line, a line of a script is
/// done, and the redirects of a list are added. A message for another file does nothing.
pub fn messages_are_done()
    ensures words { WordsAreDone }
    ensures lines { LinesAreDone }
    ensures imports { ImportsAreDone }
    ensures others { OthersAreLeft }
{}
