// The law of lines. The function does nothing: its contract is the law.
ghost use Rattle.script.specs.Lines.{LinesAreTexts};

// A line asks for a command exactly when it is a text of that command.
pub fn lines_are_texts()
    ensures { LinesAreTexts }
{}
