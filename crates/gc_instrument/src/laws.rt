//! What is proved of the definitions themselves. Each function does nothing: its contract is the law.

ghost use Rattle.gc_instrument.specs.Laws.{OutcomesAreSound, ExecutesApart, Restarts, OneReply, ExchangesCalls, AnswersInTurn, ForeignLinesAreSilent};

/// Every call leaves the instrument's serial number, name and scene as they are. With the return code 0 its answer has the shape of
/// the call's answers, and with another code, below 65536, it is `Answer::Nothing`. If the values of the state and of the call lie in the
/// ranges of their types, so do those of the state after the call and of the answer.
pub fn outcomes_are_sound()
    ensures { OutcomesAreSound }
{}

/// Executing a call leaves the stored reply as it is, and the outcome of the call doesn't depend on that reply.
pub fn executes_apart()
    ensures { ExecutesApart }
{}

/// Restarting twice is restarting once. Where the values of a state lie in their ranges before a restart, they do so after it.
pub fn restarts()
    ensures { Restarts }
{}

/// A state and a line determine the state after the line, and the reply or that there is none.
pub fn one_reply()
    ensures { OneReply }
{}

/// The request line of a call with values in their ranges, and with an id below 8, gets the reply that the definition `handed`
/// computes. If the line's id isn't that of the stored reply, and the values of the state lie in their ranges, the reply reads as
/// the outcome of executing the call.
pub fn exchanges_calls()
    ensures { ExchangesCalls }
{}

/// A state and a list of lines determine the state after them and their replies. Two lists of lines, one after the other, give the
/// replies to the first and then those to the second, which starts from the state that the first leads to. The same holds of
/// two streams of bytes, if the first is empty or ends in a line feed.
pub fn answers_in_turn()
    ensures { AnswersInTurn }
{}

/// Noise and other programs' lines change nothing: if lines that are no requests, each with its line feed, are inserted into a stream, at
/// its start or after one of its line feeds, its output and the state after it stay the same.
pub fn foreign_lines_are_silent()
    ensures { ForeignLinesAreSilent }
{}
