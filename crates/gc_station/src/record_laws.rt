//! Laws of the records of a station's runs, whatever its link does: of which command, request and reply each record is, and what it says
//! of them. `laws` says what a run and an act are.

ghost use Rattle.gc_station.specs.Agreeing.{AgreedRowsAgree};
ghost use Rattle.gc_station.specs.Codes.{WellIsAnAcceptedCode};
ghost use Rattle.gc_station.specs.Counting.{TalliesCountRecords};
ghost use Rattle.gc_station.specs.Described.{DescribedAnswersAreReadByTheirKinds};
ghost use Rattle.gc_station.specs.Expecting.{AnswersAreAsExpected};
ghost use Rattle.gc_station.specs.Moments.{AnswersHaveTheirMoments, EachRecordHasItsMoment, UnreadableAsTheyRead};
ghost use Rattle.gc_station.specs.Nearness.{AnswersAreAtTheirTargets};
ghost use Rattle.gc_station.specs.Qualities.{QualitiesAreAsListed, GoodIsAnAnswer};
ghost use Rattle.gc_station.specs.Requested.{EachRecordIsOfItsRequest};
ghost use Rattle.gc_station.specs.Retries.{EachRecordHasItsTurn};
ghost use Rattle.gc_station.specs.Tasked.{EachRecordIsOfItsTask};
ghost use Rattle.gc_station.specs.Values.{EachRequestHasItsValues};
ghost use Rattle.gc_station.specs.Groups.{GroupsHaveTheirTurn};

/// Each record is of the task at its place, and has a time of sending exactly if its request was sent. Its command is what the
/// task asks at that time: if the task sets the clock, the time cut to seconds, UTC; if it takes values of files, what the text says with some
/// such values (`each_request_has_its_values` says with which); and otherwise what the text says. The command of a record that was never
/// sent is as in the text.
pub fn each_record_is_of_its_task()
    ensures { EachRecordIsOfItsTask }
{}

/// Each record has the request of its command.
/// - If the command was sent, an act of the run writes the line of the record's call with the record's id, and CR LF; the write may be cut.
///   A command is sent at that act, of the record's cycle and place, and the moment read last by then is the record's time of sending. The
///   act that adds the record comes later.
/// - If it was never sent, the id is 0.
/// - The id is a digit from 0 to 7.
pub fn each_record_is_of_its_request()
    ensures { EachRecordIsOfItsRequest }
{}

/// Each request of a command was made of its task with the time and the values of files of the last moment that was read before it was sent; and
/// of a command of a cycle each value that it takes was there then.
pub fn each_request_has_its_values()
    ensures { EachRequestHasItsValues }
{}

/// Each record has the moment of the act by which its command ended, by the clock of time stamps: an answered one that of the read that
/// brought its reply's line.
/// - `each`: the act added the record, and the record has the moment that was read last by then: that of the act itself, if it reads one.
///   A missed command has the moment at which its cycle was due, where cycles have due moments and the clock doesn't go back.
/// - `answers`: the record of a reply in time has the moment of the read that brought the reply's line.
pub fn records_have_their_moments()
    ensures each { EachRecordHasItsMoment }
    ensures answers { AnswersHaveTheirMoments }
{}

/// Each record says which command of the text it is of, and in which attempt, as the task at its place does; a record of the
/// setup has the attempt of the setup.
pub fn each_record_has_its_turn()
    ensures { EachRecordHasItsTurn }
{}

/// A record of a run is unreadable only if the line of its reply doesn't read as an answer to its call, by the form of its command if it has
/// one, and for the very fault for which it doesn't.
pub fn unreadable_ones_do_not_read()
    ensures { UnreadableAsTheyRead }
{}

/// A command was answered well only if the communication code of its reply is 0, and the return code is 0 or one that the text
/// accepts. With both codes 0 it was answered well exactly if the parameters read as an answer of its call, or by its form, that wasn't
/// measured off target, the line's values are as the text expects them, and in a second sending the answer agrees with that of the first. With an
/// accepted code it was, unless they read as an answer that was measured off target, or the values aren't as the text expects them, or in a
/// second sending the answer, if there is one, doesn't agree with that of the first. A command that is late, lost, skipped or missed never
/// was answered well.
pub fn answered_well_is_an_accepted_code()
    ensures { WellIsAnAcceptedCode }
{}

/// If the text accepts no code of a command, an answer of a good quality has both codes 0 and values that read. So for a text
/// without `accept` the laws on chains speak of such answers alone.
pub fn good_without_accept_is_an_answer()
    ensures { GoodIsAnAnswer }
{}

/// Each answered record has the quality of its line: fine with both codes 0; a warning with communication code 0 and a return
/// code that the text accepts of its command, and with the values that the line has with return code 0, if these read; unconfirmed in
/// place of either in the first sending of a chain that is sent twice; and else refused, and without values.
pub fn qualities_are_as_listed()
    ensures { QualitiesAreAsListed }
{}

/// Whatever the line, the instrument or its operator did: if a record is answered, and the text says where the command's target
/// is, the answer was measured there. Its direction, if it has one, is near that place; and its distance, if it has one and the text says
/// the target's, is within the tolerance of that. The reply of a record that is `off_target` has both codes 0 or an accepted return
/// code, and a direction that isn't near the target, or a distance that isn't within the tolerance of the target's.
pub fn answers_are_at_their_targets()
    ensures { AnswersAreAtTheirTargets }
{}

/// A chain that the text has sent twice, whatever the line, the instrument or its operator did:
/// - `second`: if a record is of a second sending, and is answered and not refused, then before it is one of the first sending of the same
///   command of the text, in the same cycle and in the attempt before, which is answered and unconfirmed. The answers of the two agree: each
///   value of the second is within the text's tolerance of that of the first.
/// - `compared`: if the procedure of such a record is one that the text describes, its answers have nothing else in columns than both angles,
///   or these and the distance, or nothing. So each value in a column of it was compared.
/// - `first`: a record of a first sending that is answered and not refused is unconfirmed, so it never counts as a measurement.
/// - `disagree`: only a record of a second sending ends as `disagree`.
///
/// So if at most one of the two reply lines was damaged, each value of a confirmed record is within the tolerance of one that the instrument
/// sent. That isn't proved here: these runs know nothing of an instrument.
pub fn agreed_rows_agree()
    ensures { AgreedRowsAgree }
{}

/// An answer of a command whose procedure the text describes is read by that description, whatever the line, the instrument or its operator
/// did:
/// - `answered`: if its record is answered, with an answer, the values of its reply's line are of the described kinds, and the direction and
///   the distance that the answer has are those in the columns `hz_rad`, `v_rad` and `distance_m`. That holds with an accepted return code,
///   too.
/// - `unreadable`, `faulty`: it is unreadable exactly if both codes are 0 and the values aren't of the described kinds, and for the very fault
///   for which they aren't. If both codes are 0 and the values are of the kinds, it is answered, off target, unexpected or disagreeing, as
///   `answered_well_is_an_accepted_code` says.
pub fn described_answers_are_read_by_their_kinds()
    ensures { DescribedAnswersAreReadByTheirKinds }
{}

/// If a record is answered well, the values of its reply's line are as the text expects them of its command, and if it ended as unexpected,
/// they aren't. An item `>` is compared with the number that the station kept when it sent the record's own request: the one in the
/// answer to that command of the text which was recorded last by then, if one had a number there.
pub fn answers_are_as_expected()
    ensures { AnswersAreAsExpected }
{}

/// A tally counts the records of the last attempt of each chain: each count but `again` is how many of them have its ending.
/// `again` is how many times a chain was sent again. Records of the setup (cycle 0) aren't counted. A count stops at 2^64 - 1.
pub fn tallies_count_the_records()
    ensures { TalliesCountRecords }
{}

/// A command that the text has in one of every N cycles is sent only in cycles 1, N + 1, 2 N + 1 and so on, and has a record of no other
/// cycle.
pub fn groups_have_their_turn()
    ensures { GroupsHaveTheirTurn }
{}
