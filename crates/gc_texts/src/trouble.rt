//! Troubles: which field of a faulty line of a station's text or of a text of commands is at fault, and what is printed of it.

ghost use Rattle.std.specs.Prelude.{◌≡◌, ◌++◌, IsTrue, IsFalse, MatchOption, codes};
ghost use Rattle.gc_lines.specs.Ports.{WritesIfOk};
ghost use Rattle.gc_texts.specs.Troubles.{parameters_trouble, raw_trouble, IsCallTrouble, IsRawTrouble, IsRawWordsTrouble, HasTarget, NoTarget, BeginsNoSetting, BeginsAsCommand, IsWordTrouble, IsSettingTrouble, IsRequestTrouble, IsAskingTrouble, IsMarkTrouble, HasNoMark, IsLineTrouble, IsUnmarkedTrouble, IsTrouble, IsStationLine, IsNoStationLine, IsForStation, IsNotForStation, IsUnmarkedCommandTrouble, IsFaultOfCommand, asks_outside, described_in_table_text, for_command, for_station, in_table_text, item_text, trouble_text, trouble_line, undescribed_text, value_text, HasNoValue, IsValueTrouble, IsProcedureTrouble};
ghost use Rattle.gc_texts.specs.Words.{second_word, third_word};
ghost use Rattle.gc_texts.specs.ProcedureNames.{name_in_table};

use crate::agree_numbers::agree_trouble;
use crate::cuts::{after_prefix, before, behind, is_word};
use crate::description_trouble::description_trouble;
use crate::expect_trouble::expect_trouble;
use crate::near_numbers::near_trouble;
use crate::procedure::{target_of, u16_of};
use crate::task_line::{TaskLine, read_task_line};
use crate::value_item::{are_sound, has_values};
use crate::wording::Wording;
use gc_catalogue::{CallFault, RawFault, decode_call, parameter_count, procedure_name, raw_call};
use gc_lines::Request;
use gc_values::ValueFault;
use std::io::{self, Write};

/// Which field of a faulty line is at fault. The texts are this project's own.
#[derive(Clone, Copy)]
pub enum Trouble {
    /// No procedure has this number.
    NoProcedure(u16),
    /// The procedure with this number has as many parameters as the second value says, and the line another number of them.
    Wants(u16, u8),
    /// A parameter hasn't the form or the range of its kind, or a double quote has no end.
    Parameters,
    /// The procedure's number is none from 0 to 65535.
    Number,
    /// The target is no number from 0 to 4294967295.
    Target,
    /// The deadline is no number from 1 to 86400000.
    Deadline,
    /// A line `name` gives no text, or one that no name may have, its target has a name already, or 64 targets have names.
    Name,
    /// The horizontal angle of a line `near` is no decimal from 0 to a turn.
    NearHz,
    /// The vertical angle of a line `near` is no decimal from 0 to half a turn.
    NearV,
    /// The tolerance of the angles of a line `near` is no decimal from 0 to half a turn.
    NearTolerance,
    /// More follows that tolerance, and its first word is no decimal from 0 to 100,000.
    NearDistance,
    /// A distance follows that tolerance, and what follows the distance is no decimal from 0 to 100,000: it may be missing, or more than
    /// one word.
    NearDistanceTolerance,
    /// A line `near` reads, but its target has a place already, or 64 targets have places.
    Near,
    /// A line `unwatched` reads, but its target is unwatched already, or 64 targets are.
    Unwatched,
    /// What follows the word `procedure` doesn't begin with a number from 0 to 65535.
    ProcedureNumber,
    /// A line `procedure` describes the procedure with this number, which is in the table.
    ProcedureInTable(u16),
    /// A line `procedure` isn't `procedure RPC NAME KIND .. -> COLUMN KIND ..`, with `..` at its end or without; or it has more than 16
    /// parameters or columns; or a column may not have its name, or is there twice.
    ProcedureForm,
    /// A line `procedure` reads, but its procedure is described already, or is a 17th, or one of its columns is a 65th, or of another sort
    /// than in a description before.
    Procedure,
    /// The table hasn't the procedure with this number, and no line `procedure` before this one describes it, or not with such parameters.
    Undescribed(u16),
    /// The procedure with this number is in the table, so the word `raw` is to be left out.
    RawInTable(u16),
    /// The parameters after `raw` and a number are more than 16, or have a double quote without its end, or a CR.
    RawParameters,
    /// The request after `raw` would have more than 512 bytes with an id.
    RawTooLong,
    /// A word after `accept` is no code from 1 to 65535, or there are more than 16.
    Accept,
    /// A word after `busy` is no code from 1 to 65535, or there are more than 16.
    Busy,
    /// After the word `retry` there is neither 0 alone nor a number from 1 to 9 with words after it; or one of these words is
    /// neither a code nor an outcome; or more than 16 of them are codes.
    Retry,
    /// The first number of a line `agree` is no decimal from 0 to half a turn.
    AgreeHz,
    /// The second number of a line `agree` is no decimal from 0 to half a turn.
    AgreeV,
    /// The third number of a line `agree` is no decimal from 0 to 100,000.
    AgreeDistance,
    /// After the word `agree` there are neither three words nor none.
    Agree,
    /// The line's first word is `at`, and the line isn't `at start`.
    AtStart,
    /// The line's first word is `each`, and the line isn't `each cycle`.
    EachCycle,
    /// The line's first word is `every`, and the line isn't `every N cycles` with a number from 1 to 65535.
    Every,
    /// A line `T expect ..` isn't `T expect REQUEST = ITEMS`, with one space before its first `=` and one behind it.
    ExpectForm,
    /// The items of a line `expect` have more than 128 bytes.
    ExpectLong,
    /// A line `expect` has more than 16 items.
    ExpectMany,
    /// More than one item of a line `expect` is `>`.
    ExpectTwo,
    /// The item with this number, from 1, is none: it is empty, isn't printable ASCII, has a space at an end, or is no range of two
    /// numbers.
    ExpectItem(usize),
    /// A line `expect` reads, but it is a 17th with an item `>`.
    Expect,
    /// An item of the parameters begins with a brace, and isn't `{FILE SECONDS}`.
    ValueForm,
    /// A command for the procedure with this number takes values of files, and may not: no line `procedure` before it describes the procedure,
    /// or not with a Double in the place of each, or the request may become too long; or it is one of the setup; or the text has a 17th value.
    Value(u16),
    /// More follows `5007 now`.
    Now,
    /// The line has no form: it is one word, with or without a space after it, or it ends in a space after a procedure's number.
    NoForm,
    /// The same of a line of a text of commands, whose one form is said.
    CommandForm,
    /// The line is in a text of commands, and one of a station's text.
    ForStation,
    /// The line begins with the byte order mark of UTF-8.
    ByteOrderMark,
    /// The line begins with the byte order mark of UTF-16.
    Utf16,
}

impl Trouble {
    /// Writes the message about the line with this number, counted from 1: the program's name, the number, and which field is at fault.
    pub fn tell<E: Write>(self, line: u32, messages: &mut E) -> io::Result<()>
        ensures { WritesIfOk E.contents messages.old messages.new result (trouble_line line self) }
    {
        write!(messages, "geocom: line {line}: ")?;
        self.tell_field(messages)
    }

    // Writes which field is at fault, and a line feed.
    fn tell_field<E: Write>(self, messages: &mut E) -> io::Result<()>
        ensures { WritesIfOk E.contents messages.old messages.new result (trouble_text self ++ codes "\n") }
    {
        match self {
            Trouble::NoProcedure(rpc) => writeln!(messages, "no procedure {rpc}"),
            Trouble::Wants(rpc, count) => writeln!(messages, "{rpc} wants {count} parameters"),
            Trouble::Parameters => writeln!(messages, "spelling of the parameters"),
            Trouble::Number => writeln!(messages, "procedure"),
            Trouble::Target => writeln!(messages, "target"),
            Trouble::Deadline => writeln!(messages, "deadline"),
            Trouble::Name => writeln!(messages, "name"),
            Trouble::NearHz => {
                writeln!(
                    messages,
                    "near: HZ is no decimal from 0 to a turn, in radians"
                )
            }
            Trouble::NearV => {
                writeln!(
                    messages,
                    "near: V is no decimal from 0 to half a turn, in radians"
                )
            }
            Trouble::NearTolerance => writeln!(
                messages,
                "near: TOLERANCE is no decimal from 0 to half a turn, in radians"
            ),
            Trouble::NearDistance => writeln!(
                messages,
                "near: DISTANCE is no decimal from 0 to 100000, in metres"
            ),
            Trouble::NearDistanceTolerance => writeln!(
                messages,
                "near: the TOLERANCE after DISTANCE is no decimal from 0 to 100000, in metres"
            ),
            Trouble::Near => writeln!(messages, "near: a second place of the target, or a 65th"),
            Trouble::Unwatched => writeln!(
                messages,
                "unwatched: the target is unwatched already, or is a 65th"
            ),
            Trouble::Accept => writeln!(messages, "accept"),
            Trouble::Busy => writeln!(messages, "busy"),
            Trouble::Retry => writeln!(messages, "retry"),
            Trouble::AgreeHz => writeln!(
                messages,
                "agree: HZ is no decimal from 0 to half a turn, in radians"
            ),
            Trouble::AgreeV => {
                writeln!(
                    messages,
                    "agree: V is no decimal from 0 to half a turn, in radians"
                )
            }
            Trouble::AgreeDistance => {
                writeln!(
                    messages,
                    "agree: D is no decimal from 0 to 100000, in metres"
                )
            }
            Trouble::Agree => writeln!(messages, "agree: the form is agree HZ V D, or agree alone"),
            Trouble::AtStart => writeln!(messages, "at start"),
            Trouble::EachCycle => writeln!(messages, "each cycle"),
            Trouble::Every => writeln!(
                messages,
                "every: the form is every N cycles, with N from 1 to 65535"
            ),
            Trouble::ExpectForm => writeln!(
                messages,
                "expect: the form is T expect REQUEST = ITEMS, with one space on both sides of ="
            ),
            Trouble::ExpectLong => writeln!(messages, "expect: ITEMS has more than 128 bytes"),
            Trouble::ExpectMany => writeln!(messages, "expect: more than 16 items"),
            Trouble::ExpectTwo => writeln!(messages, "expect: more than one item is >"),
            Trouble::ExpectItem(place) => tell_item(place, messages),
            Trouble::Expect => writeln!(messages, "expect: a 17th line with an item >"),
            Trouble::ValueForm => writeln!(
                messages,
                "value: the form is {{FILE SECONDS}}, with a path of 1 to 128 bytes without spaces, commas, quotes and braces, and 1 to 86400 seconds"
            ),
            Trouble::Value(rpc) => tell_value(rpc, messages),
            Trouble::Now => writeln!(messages, "5007 now"),
            Trouble::ProcedureNumber => {
                writeln!(messages, "procedure: RPC is no number from 0 to 65535")
            }
            Trouble::ProcedureInTable(rpc) => {
                tell_described_in_table(rpc, name_in_table(rpc), messages)
            }
            Trouble::ProcedureForm => writeln!(
                messages,
                "procedure: the form is RPC NAME KIND .. -> COLUMN KIND .. [..] with kinds Double, Long, Short, Byte, Boolean and String; a COLUMN is there once, isn't one of each row, and has a quantity's kind if it has its name"
            ),
            Trouble::Procedure => writeln!(
                messages,
                "procedure: a second description of it, a 17th, a 65th new column, or one of another kind than before"
            ),
            Trouble::Undescribed(rpc) => tell_undescribed(rpc, messages),
            Trouble::RawInTable(rpc) => tell_in_table(rpc, name_in_table(rpc), messages),
            Trouble::RawParameters => {
                writeln!(
                    messages,
                    "more than 16 parameters, a double quote without its end, or a carriage return"
                )
            }
            Trouble::RawTooLong => writeln!(messages, "the request has more than 512 bytes"),
            Trouble::NoForm => writeln!(messages, "no form"),
            Trouble::CommandForm => writeln!(messages, "the form is T RPC or T RPC PARAMS"),
            Trouble::ForStation => writeln!(messages, "of a text for geocom station"),
            Trouble::ByteOrderMark => {
                writeln!(
                    messages,
                    "begins with a byte order mark: save the text without it"
                )
            }
            Trouble::Utf16 => writeln!(messages, "is UTF-16: save the text as UTF-8"),
        }
    }
}

// Writes that the procedure with this number and this name is in the table, and a line feed.
fn tell_in_table<E: Write>(rpc: u16, name: &str, messages: &mut E) -> io::Result<()>
    ensures { WritesIfOk E.contents messages.old messages.new result (in_table_text rpc name.now ++ codes "\n") }
{
    writeln!(messages, "{rpc} is {name}: leave out raw")
}

// Writes that the procedure with this number and this name, which a line describes, is in the table, and a line feed.
fn tell_described_in_table<E: Write>(rpc: u16, name: &str, messages: &mut E) -> io::Result<()>
    ensures { WritesIfOk E.contents messages.old messages.new result (described_in_table_text rpc name.now ++ codes "\n") }
{
    writeln!(
        messages,
        "procedure: {rpc} is {name}, and needs no description"
    )
}

// Writes that the table hasn't the procedure with this number, nor a line a description of it, and a line feed.
fn tell_undescribed<E: Write>(rpc: u16, messages: &mut E) -> io::Result<()>
    ensures { WritesIfOk E.contents messages.old messages.new result (undescribed_text rpc ++ codes "\n") }
{
    writeln!(
        messages,
        "no procedure {rpc} in the table, nor with such parameters in a line procedure before this one"
    )
}

// Writes which commands may take values of files, for one of the procedure with this number, which may not, and a line feed.
fn tell_value<E: Write>(rpc: u16, messages: &mut E) -> io::Result<()>
    ensures { WritesIfOk E.contents messages.old messages.new result (value_text rpc ++ codes "\n") }
{
    writeln!(
        messages,
        "value: {rpc} may take values of files in a cycle alone, each in the place of a Double of a line procedure before this one, 16 in a text and 512 bytes in a request"
    )
}

// Writes what an item is, for the one with this number, which is none, and a line feed.
fn tell_item<E: Write>(place: usize, messages: &mut E) -> io::Result<()>
    ensures { WritesIfOk E.contents messages.old messages.new result (item_text place ++ codes "\n") }
{
    writeln!(
        messages,
        "expect: item {place} is no *, no >, no LOW..HIGH of two decimals with LOW up to HIGH, and no value: printable ASCII without a space at an end"
    )
}

// The name of the procedure of the table with this number; empty where there is none.
fn name_in_table(rpc: u16) -> &'static str
    ensures { result.now ≡ name_in_table rpc }
{
    match procedure_name(rpc) {
        Some(name) => name,
        None => "",
    }
}

// What is at fault in a procedure's number and its parameters. `NoForm`: nothing, because they make a call.
fn call_trouble(rpc: u16, params: &[u8]) -> Trouble
    ensures { IsCallTrouble rpc params.now result }
{
    let request = Request {
        rpc,
        id: None,
        params,
    };
    match decode_call(&request) {
        Ok(_) => Trouble::NoForm,
        Err(CallFault::Unknown) => Trouble::NoProcedure(rpc),
        Err(CallFault::Parameters(fault)) => parameters_trouble(rpc, parameter_count(rpc), fault),
    }
}

// What is reported of this fault in the parameters of a procedure that has `count` of them: `count`, if the line has another
// number of them, else that their spelling is at fault.
fn parameters_trouble(rpc: u16, count: u8, fault: ValueFault) -> Trouble
    ensures { result ≡ parameters_trouble rpc count fault }
{
    match fault {
        ValueFault::Count | ValueFault::TooMany => Trouble::Wants(rpc, count),
        _ => Trouble::Parameters,
    }
}

// What is reported of a procedure's number and its parameters after the word `raw`, if they are refused for this reason.
fn raw_trouble(rpc: u16, fault: RawFault) -> Trouble
    ensures { result ≡ raw_trouble rpc fault }
{
    match fault {
        RawFault::InTable => Trouble::RawInTable(rpc),
        RawFault::TooLong => Trouble::RawTooLong,
        _ => Trouble::RawParameters,
    }
}

// What is at fault in a procedure's number and its parameters after the word `raw`. `NoForm`: nothing, because they make a request.
fn raw_call_trouble(rpc: u16, params: &[u8]) -> Trouble
    ensures { IsRawTrouble rpc params.now result }
{
    match raw_call(rpc, params) {
        Ok(_) => Trouble::NoForm,
        Err(fault) => raw_trouble(rpc, fault),
    }
}

// What is at fault after the word `raw`: the procedure's number, or the parameters that follow it. `NoForm`: nothing.
fn raw_words_trouble(number: &[u8], params: &[u8]) -> Trouble
    ensures { IsRawWordsTrouble number.now params.now result }
{
    match u16_of(number) {
        Some(rpc) => raw_call_trouble(rpc, params),
        None => Trouble::Number,
    }
}

// What is at fault in parameters with an item that begins with a brace: the form of such an item, or that the command may not be where it is.
// `None`: there is no such item.
fn value_trouble(rpc: u16, params: &[u8]) -> Option<Trouble>
    ensures { MatchOption result (HasNoValue params.now) (λ t. IsValueTrouble rpc params.now t) }
{
    if !has_values(params) {
        return None;
    }
    if are_sound(params) {
        Some(Trouble::Value(rpc))
    } else {
        Some(Trouble::ValueForm)
    }
}

// What is at fault in a procedure's number and its parameters, which may take values of files. `NoForm`: nothing, because they make a call.
fn procedure_trouble(rpc: u16, params: &[u8]) -> Trouble
    ensures { IsProcedureTrouble rpc params.now result }
{
    match value_trouble(rpc, params) {
        Some(trouble) => trouble,
        None => call_trouble(rpc, params),
    }
}

// Which field is at fault of a request, of a procedure of the table, or, if its first word is `raw`, of one that isn't there. `NoForm`:
// each of its fields reads.
pub(crate) fn request_trouble(request: &[u8]) -> Trouble
    ensures { IsRequestTrouble request.now result }
{
    let word = before(b' ', request);
    let words = behind(b' ', request);
    if is_word(b"raw", word) {
        return raw_words_trouble(before(b' ', words), behind(b' ', words));
    }
    match u16_of(word) {
        Some(rpc) => procedure_trouble(rpc, words),
        None => Trouble::Number,
    }
}

// Which field is at fault of a line that is taken for a command, or, if its second word is `raw`, for a request of a procedure
// that isn't in the table. `Now`: its first three words are a target's number, `5007` and `now`. `NoForm`: it is one word, with
// or without a space after it, or each of its fields reads.
fn asking_trouble(line: &[u8]) -> Trouble
    ensures { IsAskingTrouble line.now result }
{
    if begins_as_5007_now(line) {
        return Trouble::Now;
    }
    let rest = behind(b' ', line);
    if rest.is_empty() {
        return Trouble::NoForm;
    }
    if target_of(before(b' ', line)).is_none() {
        return Trouble::Target;
    }
    request_trouble(rest)
}

// Whether the first three words of a line are a target's number, `5007` and `now`. The contract says this of the second
// and the third word alone, and only where the result is `true`.
fn begins_as_5007_now(line: &[u8]) -> bool
    ensures { IsTrue result → (second_word line.now ≡ codes "5007") × (third_word line.now ≡ codes "now") }
{
    let rest = behind(b' ', line);
    target_of(before(b' ', line)).is_some()
        && is_word(b"5007", before(b' ', rest))
        && is_word(b"now", before(b' ', behind(b' ', rest)))
}

// Whether the second word of a line is a target's number.
fn has_target(line: &[u8]) -> bool
    ensures target { IsTrue result → HasTarget (second_word line.now) }
    ensures none { IsFalse result → NoTarget (second_word line.now) }
{
    target_of(before(b' ', behind(b' ', line))).is_some()
}

// Which field is at fault of a line whose first word is `deadline`, `name`, `near`, `unwatched`, `accept`, `busy`, `retry`, `agree`, `at`,
// `each`, `every` or `procedure`. `None`: the first word is none of these.
fn word_trouble(line: &[u8]) -> Option<Trouble>
    ensures { MatchOption result (BeginsNoSetting line.now) (λ t. IsWordTrouble line.now t) }
{
    let first = before(b' ', line);
    if is_word(b"deadline", first) {
        return Some(Trouble::Deadline);
    }
    if is_word(b"name", first) {
        return Some(if has_target(line) {
            Trouble::Name
        } else {
            Trouble::Target
        });
    }
    if is_word(b"near", first) {
        return Some(if has_target(line) {
            near_trouble(behind(b' ', behind(b' ', line)))
        } else {
            Trouble::Target
        });
    }
    if is_word(b"unwatched", first) {
        return Some(if target_of(behind(b' ', line)).is_some() {
            Trouble::Unwatched
        } else {
            Trouble::Target
        });
    }
    if is_word(b"accept", first) {
        return Some(Trouble::Accept);
    }
    if is_word(b"busy", first) {
        return Some(Trouble::Busy);
    }
    if is_word(b"retry", first) {
        return Some(Trouble::Retry);
    }
    if is_word(b"agree", first) {
        return Some(agree_trouble(behind(b' ', line)));
    }
    if is_word(b"at", first) {
        return Some(Trouble::AtStart);
    }
    if is_word(b"each", first) {
        return Some(Trouble::EachCycle);
    }
    if is_word(b"every", first) {
        return Some(Trouble::Every);
    }
    if is_word(b"procedure", first) {
        return Some(description_trouble(behind(b' ', line)));
    }
    None
}

// What is at fault of a line that sets something (`word_trouble`), or whose second word is `expect`. `None`: it does neither.
fn setting_trouble(line: &[u8]) -> Option<Trouble>
    ensures { MatchOption result (BeginsAsCommand line.now) (λ t. IsSettingTrouble line.now t) }
{
    if let Some(trouble) = word_trouble(line) {
        return Some(trouble);
    }
    if is_word(b"expect", before(b' ', behind(b' ', line))) {
        return Some(expect_trouble(line));
    }
    None
}

// The trouble of a line that begins with a byte order mark, of UTF-8 or of UTF-16. `None`: it begins with none.
fn mark_trouble(line: &[u8]) -> Option<Trouble>
    ensures { MatchOption result (HasNoMark line.now) (λ t. IsMarkTrouble line.now t) }
{
    if after_prefix(b"\xef\xbb\xbf", line).is_some() {
        return Some(Trouble::ByteOrderMark);
    }
    if after_prefix(b"\xff\xfe", line).is_some() {
        return Some(Trouble::Utf16);
    }
    if after_prefix(b"\xfe\xff", line).is_some() {
        return Some(Trouble::Utf16);
    }
    None
}

// Which field is at fault of a line without a byte order mark: what it sets, or what it asks for.
fn line_trouble(line: &[u8]) -> Trouble
    ensures { IsLineTrouble line.now result }
{
    match setting_trouble(line) {
        Some(trouble) => trouble,
        None => asking_trouble(line),
    }
}

// What is reported of a line of a station's text with this trouble: of a procedure that isn't in the table, that no line describes it,
// either.
fn for_station(trouble: Trouble) -> Trouble
    ensures { result ≡ for_station trouble }
{
    match trouble {
        Trouble::NoProcedure(rpc) => Trouble::Undescribed(rpc),
        other => other,
    }
}

// Which field is at fault of a line without a byte order mark, as `trouble_of` says.
fn unmarked_trouble(line: &[u8]) -> Trouble
    ensures { IsUnmarkedTrouble line.now result }
{
    for_station(line_trouble(line))
}

/// Which field of a line is at fault, if the line is a faulty one of a station's text. A line that begins with a byte order mark has
/// that as its trouble. A line whose first word is `deadline`, `name`, `near`, `unwatched`, `accept`, `busy`, `retry`, `agree`, `at`,
/// `each`, `every` or `procedure` is at fault in its target or in what it sets. A line whose second word is `expect` is at fault in its form, in its
/// target, in its request or in its items. Any other line is taken for a command, or, if its second word is `raw`, for a request of a
/// procedure that isn't in the table. Of these a line whose first three words are `T 5007 now`, with a target's number T, gives `Now`; one
/// that is one word, with or without a space after it, or each of whose fields reads, gives `NoForm`; and any other is at fault in its
/// first field that doesn't read. A procedure that isn't in the table gives `Undescribed`; a command with an item that begins with a brace
/// gives `ValueForm` or `Value`. Of a line that isn't faulty the result says
/// nothing: a command gives `NoForm`, for example, and a line `retry` gives `Retry`.
pub fn trouble_of(line: &[u8]) -> Trouble
    ensures { IsTrouble line.now result }
{
    match mark_trouble(line) {
        Some(trouble) => trouble,
        None => unmarked_trouble(line),
    }
}

// Whether a line asks for a procedure outside the table by its number alone. In a text of commands such a line is a faulty command.
fn asks_outside(said: &TaskLine) -> bool
    ensures { result ≡ asks_outside said.now }
{
    matches!(said, TaskLine::Command(_, Wording::Described, _))
}

// Whether a line is one of a station's text, and asks for no procedure outside the table by its number alone.
fn is_station_line(line: &[u8]) -> bool
    ensures station { IsTrue result → IsStationLine line.now }
    ensures none { IsFalse result → IsNoStationLine line.now }
{
    match read_task_line(line) {
        Some(said) => !asks_outside(&said),
        None => false,
    }
}

// Whether a line is one of a station's text, or begins as one that sets something there.
fn is_for_station(line: &[u8]) -> bool
    ensures station { IsTrue result → IsForStation line.now }
    ensures none { IsFalse result → IsNotForStation line.now }
{
    setting_trouble(line).is_some() || is_station_line(line)
}

// What is reported of a line of a text of commands, if this is the trouble of a command: where it has no form, the form that it
// should have.
fn for_command(trouble: Trouble) -> Trouble
    ensures { result ≡ for_command trouble }
{
    match trouble {
        Trouble::NoForm => Trouble::CommandForm,
        other => other,
    }
}

// Which field is at fault of a line without a byte order mark, as `command_trouble_of` says.
fn unmarked_command_trouble(line: &[u8]) -> Trouble
    ensures { IsUnmarkedCommandTrouble line.now result }
{
    if is_for_station(line) {
        Trouble::ForStation
    } else {
        for_command(asking_trouble(line))
    }
}

/// Which field of a line is at fault, if the line is a faulty one of a text of commands, as that of `ask`: `ForStation` if the line is
/// one of a station's text, or begins as one that sets something there; and otherwise as `trouble_of` says of a command, but with
/// `CommandForm` in place of `NoForm`. Of a line that isn't faulty the result says nothing.
pub fn command_trouble_of(line: &[u8]) -> Trouble
    ensures { IsFaultOfCommand line.now result }
{
    match mark_trouble(line) {
        Some(trouble) => trouble,
        None => unmarked_command_trouble(line),
    }
}
