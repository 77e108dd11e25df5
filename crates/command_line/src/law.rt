//! Laws of command lines, and worked values.

ghost use Rattle.command_line.specs.Laws.{WordsAreReadInOneWay, CommandsAreListed};
ghost use Rattle.command_line.specs.Worked.{CommandLines, OtherWords};

/// The law that words can be read in one way only, so that they have at most one request. The function has no code: its
/// contract is the law.
pub fn words_are_read_in_one_way()
    ensures { WordsAreReadInOneWay }
{}

/// The law that the usage text has a line for each command, and that no two commands have the same word. The function
/// has no code: its contract is the law.
pub fn commands_are_listed()
    ensures { CommandsAreListed }
{}

/// Worked values of the requests of words. The function has no code: its contract is these values.
pub fn command_lines_are_as_worked_out()
    ensures asked { CommandLines }
    ensures nothing { OtherWords }
{}
