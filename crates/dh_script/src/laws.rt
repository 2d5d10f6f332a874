//! Laws of scripts.
ghost use Rattle.dh_script.specs.LineCalls.{LinesAreCalls};
ghost use Rattle.dh_script.specs.Running.{LinesHaveWords};

/// The lines of a script that ran are calls of a desk, done one after the other. They print the texts of the calls' outcomes,
/// and `bad target` or `usage` for a line that is no call.
pub fn lines_are_calls()
    ensures { LinesAreCalls }
{}

/// The lines of a script that have words, one by one, are the script.
pub fn lines_have_words()
    ensures { LinesHaveWords }
{}
