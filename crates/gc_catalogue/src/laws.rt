//! What is proved of the definitions themselves. Each function does nothing: its contract is the law.

ghost use Rattle.gc_catalogue.specs.AskedLaws.{AskedReadBack, EachReplyIsReadForAsked, OneAsked, OneAskedForALine, OneAskedReading, RawLinesFit, RequestLinesAreOfBytes};
ghost use Rattle.gc_catalogue.specs.Laws.{NumbersDiffer, OneCallForALine, OneCallOrRefusal, OneReading, EachReplyIsRead, CallsReadBack, AnswersReadBack, DoublesAreRounded};

/// No two procedures share a number: calls with the same number have parameters of the same kinds and answers of the same shape, and
/// if their parameters agree too, they are the same call.
pub fn numbers_differ()
    ensures { NumbersDiffer }
{}

/// Two calls with values in their ranges and with the same request line, each with an id below 8 or without one, are the same
/// call, and have the same id.
pub fn one_call_for_a_line()
    ensures { OneCallForALine }
{}

/// The number and the parameters of a request are those of at most one call, and have at most one refusal; if they are those of a
/// call, they have none.
pub fn one_call_or_refusal()
    ensures { OneCallOrRefusal }
{}

/// A reply to a call has at most one reading.
pub fn one_reading_for_a_reply()
    ensures { OneReading }
{}

/// Each reply has a reading for each call, whatever the codes and the parameters of the reply are.
pub fn each_reply_is_read()
    ensures { EachReplyIsRead }
{}

/// The request line of a call with values in their ranges, and with an id below 8 or without one, reads back as that call.
pub fn calls_read_back()
    ensures { CallsReadBack }
{}

/// The reply line of a call's answer with values in their ranges, and with the return code 0 and an id below 8, reads back as
/// that answer with its doubles rounded. The reply line of the answer `Nothing`, with a return code from 1 to 65535 and an id
/// below 8, reads back as the refusal with that code.
pub fn answers_read_back()
    ensures { AnswersReadBack }
{}

/// Rounding an answer to a number of places, as writing it does, rounds each of its doubles to that many places. Its shape and
/// every other value stay.
pub fn doubles_are_rounded()
    ensures { DoublesAreRounded }
{}

/// The request line of a procedure that isn't in the table, with an id below 8 or without one, has at most 512 bytes, none of them CR or
/// LF, and no procedure of the table has its number.
pub fn raw_lines_fit()
    ensures { RawLinesFit }
{}

/// The request line for whatever is asked, with an id below 8 or without one, is of bytes: each of its numbers is below 256.
pub fn request_lines_are_of_bytes()
    ensures { RequestLinesAreOfBytes }
{}

/// The number and the parameters of a request ask for at most one thing: one call of the table, or one procedure that isn't in it.
pub fn one_asked()
    ensures { OneAsked }
{}

/// Two requests for what may be asked (`IsAskedFitting`) with the same line, each with an id below 8 or without one, ask for the
/// same thing, and have the same id.
pub fn one_asked_for_a_line()
    ensures { OneAskedForALine }
{}

/// The request line of whatever may be asked (`IsAskedFitting`), with an id below 8 or without one, reads back as what was asked.
pub fn asked_read_back()
    ensures { AskedReadBack }
{}

/// A reply has at most one reading for what was asked.
pub fn one_asked_reading()
    ensures { OneAskedReading }
{}

/// Each reply has a reading for whatever is asked.
pub fn each_reply_is_read_for_asked()
    ensures { EachReplyIsReadForAsked }
{}
