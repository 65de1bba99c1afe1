//! What is proved of the definitions themselves. The functions have no effect: their contracts are the laws.

ghost use Rattle.std.specs.Prelude.{◌≡◌};
ghost use Rattle.gc_texts.specs.FaultNumbers.{FaultsHaveTheirNumbers};
ghost use Rattle.gc_texts.specs.DescribedLaws.{AreCheckedAsTheTables, ColumnExamples, DescriptionsReadBack, OneDescription};
ghost use Rattle.gc_texts.specs.DescribedTexts.{DescribedCommandsFit, FormsAreDescribed, FormsHoldForAll, MeasuredAsColumns, OneFormReading, TextsAddColumns};
ghost use Rattle.gc_texts.specs.Chained.{TasksFollowTheirLines, PlacesHoldForAll, UnwatchedHoldForAll};
ghost use Rattle.gc_texts.specs.Repeats.{ChainsGoOutAgain, RetriesHold};
ghost use Rattle.gc_texts.specs.SentTwice.{SecondsFollowTheirFirsts};
ghost use Rattle.gc_texts.specs.Moments.{StampsAreMoments};
ghost use Rattle.gc_texts.specs.Nears.{DirectionsAreAskedFor, DistancesAreAskedFor};
ghost use Rattle.gc_texts.specs.Numerals.{DecimalsAreSpelled};
ghost use Rattle.gc_texts.specs.Laws.{OneCommandList, OneTaskList, CommandsAreTasks, CommandsArePlain, ChainsKeepTargets, NamesAreTheCatalogues, LogLinesReadBack, LogLinesArePrintable};
ghost use Rattle.gc_texts.specs.declared.text.TheConstants.{TEXT_LIMIT};

/// A text that is read whole has at most 65,536 bytes. Contracts cite this limit by its name.
pub fn limits()
    ensures { TEXT_LIMIT ≡ 65536 }
{}

/// A command text gives one list of commands at most.
pub fn commands_have_one_reading()
    ensures { OneCommandList }
{}

/// For each deadline, and each `chained`, that its caller gives, a station's text gives at most one list of tasks, one count of those that
/// are setup, one list of names, one of places, one of unwatched targets, one of descriptions, and one of the columns that these add.
pub fn tasks_have_one_reading()
    ensures { OneTaskList }
{}

/// A command text is a station's text, too, and gives the same commands. Where `chained` isn't asked for, each of them is
/// unchained, has the caller's deadline, no place of its target, no return code accepted beside 0, and none that says busy.
pub fn commands_are_tasks()
    ensures same { CommandsAreTasks }
    ensures plain { CommandsArePlain }
{}

/// Each chain of the cycle keeps its target: a task after the setup is chained only if the task directly before it, which isn't of the
/// setup, is for the same target. The setup is one chain, whatever its targets.
pub fn chains_keep_targets()
    ensures { ChainsKeepTargets }
{}

/// The tasks after the setup are the attempts of the chains of the cycle, in order. A chain has one attempt, and as many further
/// ones as the last line `retry` before it says, or none without such a line. Each attempt begins with the chain's first command,
/// and has the chain's commands, in order, with the same deadlines, places and codes; if a line `agree` holds for the chain, it
/// has all of them twice, the second time chained to the first, and the two are numbered as two attempts. Each attempt but the last has the
/// rule of the line, and the last has none. The commands of these chains are the text's commands of the cycle, in order, each
/// once.
pub fn chains_go_out_again()
    ensures { ChainsGoOutAgain }
{}

/// A command of the cycle has the retry that the last line `retry` before it says; without one it isn't repeated. It is sent twice in an
/// attempt if the last line `agree` before it says so, with the tolerances of this line, and otherwise once.
pub fn retries_hold_behind_their_lines()
    ensures { RetriesHold }
{}

/// Each second sending of a command follows its first in the same attempt of its chain: the same command, with nothing between the two but
/// tasks of this chain, which are all chained and come after that command in it.
pub fn seconds_follow_their_firsts()
    ensures { SecondsFollowTheirFirsts }
{}

/// The name that is printed for a procedure's number, if a line has that number after the word `raw`, is the catalogue's.
pub fn names_are_the_catalogues()
    ensures { NamesAreTheCatalogues }
{}

/// A written line of a log reads back as the same time, mark and bytes, and as nothing else.
pub fn log_lines_read_back()
    ensures { LogLinesReadBack }
{}

/// A line of a log has no byte below 32 nor above 126 before its line feed.
pub fn log_lines_are_printable()
    ensures { LogLinesArePrintable }
{}

/// Each fault has the number that the table of faults gives it. A full window and a full scene have types of their own as well:
/// their numbers, 31 and 41, are in the contracts of the calls that return them.
pub fn faults_have_their_numbers()
    ensures { FaultsHaveTheirNumbers }
{}

/// Each command of a station's text has the deadline of the last line `deadline` before it, or else the caller's, the codes of the
/// last line `accept` before it, or else none, those of the last line `busy` before it, or else none, and the expectation of its own line `expect`, or else none; an item `>` there has the number
/// of commands with such an item before it. One of the cycle is chained exactly if two things hold: the last line `chained` or
/// `unchained` before it says `chained`, or there is none and the caller says so; and the command before it is for the same target, with no
/// line `chained`, `unchained`, `retry`, `agree`, `at start`, `each cycle` or `every N cycles` between the two. It has its turn in every so
/// many cycles as the last line `each cycle` or `every N cycles` before it says, or else in each. One of the setup is chained exactly if
/// another is before it, and all of the setup is sent before the cycle, once. The task of one of the cycle is the only sending of the command in the
/// first attempt of its chain, or the first of two, as the last line `agree` before it says. Its answers have the form that the text's
/// description of its procedure says, if there is one.
pub fn commands_go_out_as_their_lines_say()
    ensures { TasksFollowTheirLines }
{}

/// A line `near`, which says where a target is, holds for each command of that target, before the line and after it.
pub fn places_hold_for_all_commands_of_a_target()
    ensures { PlacesHoldForAll }
{}

/// A line `unwatched`, which says that a target isn't watched, holds for each command of that target, before the line and after it; a
/// command that hasn't its turn in each cycle isn't watched; and every other command is.
pub fn unwatched_targets_are_so_in_all_their_commands()
    ensures { UnwatchedHoldForAll }
{}

/// The answers that have a direction, which can be near or off target, are those of procedures 2107, 2108, 2117 and 17017.
pub fn directions_are_asked_for()
    ensures { DirectionsAreAskedFor }
{}

/// The answers that have a distance are those of procedures 2108, 2117 and 17017.
pub fn distances_are_asked_for()
    ensures { DistancesAreAskedFor }
{}

/// The text of a time reads as that time: its date and its hour, minute, second and millisecond make up the milliseconds since
/// 1970, each written in digits of its value. The date of day 0 is 1 January 1970, and that of each later day is the day after
/// the date of the day before.
pub fn stamps_are_moments()
    ensures { StampsAreMoments }
{}

/// The number that lines `expect` take a text for is the one that the text spells; there is none exactly if the text spells none.
pub fn numbers_are_those_spelled()
    ensures { DecimalsAreSpelled }
{}

/// Descriptions of procedures read back: the text of what may be said of one is read as just that, and a text describes one procedure at
/// most, in one way.
pub fn descriptions_read_back()
    ensures written { DescriptionsReadBack }
    ensures one { OneDescription }
{}

/// The parameters of a described procedure are checked as those of a procedure of the table with the same kinds: with the same fault, or
/// as the same values.
pub fn described_parameters_are_the_tables()
    ensures { AreCheckedAsTheTables }
{}

/// Worked examples of the names and columns of described procedures.
pub fn columns_of_examples()
    ensures { ColumnExamples }
{}

/// Each command that asks for a procedure outside the table by its number alone follows a line that describes this procedure; its request
/// has the described number, and as many parameters as the line says, each of its kind, a value of a file being a number; and its answers are
/// read by the form that the line says.
pub fn described_commands_are_as_described()
    ensures { DescribedCommandsFit }
{}

/// A line `procedure` holds for each command of its procedure, before the line and after it, also after the word `raw`: the answers are
/// read by the form that the line says. The answers of no other command have a form.
pub fn descriptions_hold_for_all_commands_of_a_procedure()
    ensures hold { FormsHoldForAll }
    ensures only { FormsAreDescribed }
{}

/// The parameters of a reply have one reading by a form at most: values of its kinds, or one fault.
pub fn forms_have_one_reading()
    ensures { OneFormReading }
{}

/// What is read of a described answer says where it was measured as its columns do: its direction is that of the columns `hz_rad` and
/// `v_rad`, and with it its distance that of the column `distance_m`; without a direction it says nothing.
pub fn described_answers_are_measured_as_their_columns()
    ensures { MeasuredAsColumns }
{}

/// The columns that a text's descriptions add are at most 64; none of them is one of the table's quantities; and each described value that
/// isn't one of these has its column.
pub fn texts_add_their_columns()
    ensures { TextsAddColumns }
{}
