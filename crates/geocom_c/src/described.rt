//! Replies to requests for described procedures: what a line says by a description, and where its values are in a text.

ghost use Rattle.std.specs.Prelude.{◌≡◌, ◌≤◌, length};
ghost use Rattle.gc_lines.specs.Replies.{reply_seen};
ghost use Rattle.gc_texts.specs.Descriptions.{description_seen};
ghost use Rattle.gc_texts.specs.KindLists.{kinds_seen};
ghost use Rattle.geocom_c.specs.Described.{AnswersBy, IsDescribedReading, IsNoAnswer, ReadsLine, ReadsReply, answer_effect};
ghost use Rattle.geocom_c.specs.Settled.{ListsItems};
ghost use Rattle.geocom_c.specs.declared.header.TheConstants.{TEXT_ROOM};

use crate::describing::described;
use crate::header::{NO_ROOM, TEXT_ROOM, VALUE};
use crate::listed::{GeocomItem, ListedLine, NOWHERE, list_line};
use crate::rest::put_text;
use crate::settled::kind_of;
use gc_catalogue::{Answer, Reading};
use gc_lines::{Line, LineFault, Reply, line_from, read_reply};
use gc_texts::{Description, Kinds};
use gc_values::MOST_ITEMS;

// The most bytes of a line, without its CR LF.
const LINE_BYTES: usize = 512;

/// What a reply says by a description. After a fault all other fields are 0.
#[repr(C)]
#[derive(Clone, Copy)]
pub struct GeocomAnswer {
    pub fault: u32,
    /// The return code of a refusal, the communication code of a fault of communication, or the number of what is wrong with
    /// the parameters; otherwise 0.
    pub code: u16,
    /// How many items a value has; 0 for every other reading.
    pub items: u16,
    /// How many of these items, the first ones, have the description's columns, in order: as many as it has. 0 for every other reading.
    pub columns: u16,
    /// Where the items are in the text: the first `items` places.
    pub places: [GeocomItem; MOST_ITEMS],
    /// What the reply says: [`VALUE`] to [`UNREADABLE`](crate::header::UNREADABLE).
    pub reading: u8,
}

// The fault of a line that nothing was read of; all other fields are 0.
fn unread(fault: u32) -> GeocomAnswer
    ensures { IsNoAnswer result fault }
{
    GeocomAnswer {
        fault,
        code: 0,
        items: 0,
        columns: 0,
        places: [NOWHERE; MOST_ITEMS],
        reading: 0,
    }
}

// What a reply says, whose parameters are to have values of these kinds.
fn reading_of(kinds: &Kinds, reply: &Reply<'_>) -> Reading
    ensures { IsDescribedReading (kinds_seen kinds.now) (reply_seen reply.now) result }
{
    if reply.rc_com != 0 {
        return Reading::ComFault(reply.rc_com);
    }
    if reply.rc != 0 {
        return Reading::Refused(reply.rc);
    }
    match kinds.fault(reply.params) {
        Some(fault) => Reading::Unreadable(fault),
        None => Reading::Value(Answer::Nothing),
    }
}

// What a reply says by a description. `told` is the text of its line.
fn answer_of(description: &Description, reply: &Reply<'_>, told: &ListedLine) -> GeocomAnswer
    requires { ListsItems told.now.text.items told.now.items told.now.places (reply_seen reply.now).params }
    ensures { AnswersBy (description_seen description.now) told.now.text.items (reply_seen reply.now) result }
{
    let columns = description.values.len() as u16;
    let (reading, code) = kind_of(&reading_of(&description.answers(), reply));
    GeocomAnswer {
        fault: 0,
        code,
        items: if reading == VALUE { told.items } else { 0 },
        columns: if reading == VALUE { columns } else { 0 },
        places: told.places,
        reading,
    }
}

// What a line says by a description. If it is a reply, its text is written to the front of `room`; otherwise nothing is.
fn read_line(description: &Description, line: &Line, room: &mut [u8]) -> GeocomAnswer
    requires { TEXT_ROOM ≤ length room.old }
    ensures { ReadsLine (description_seen description.now) line.now.items (answer_effect room.old room.new result) }
{
    match read_reply(line) {
        Ok(reply) => {
            let told = list_line(line);
            put_text(room, 0, told.text.as_slice());
            answer_of(description, &reply, &told)
        }
        Err(fault) => unread(u32::from(fault.number())),
    }
}

// As `read_line`, of bytes that are a line if they are at most 512.
fn read_bytes(description: &Description, line: &[u8], room: &mut [u8]) -> GeocomAnswer
    requires { TEXT_ROOM ≤ length room.old }
    ensures { ReadsLine (description_seen description.now) line.now (answer_effect room.old room.new result) }
{
    if line.len() > LINE_BYTES {
        return unread(u32::from(LineFault::TooLong.number()));
    }
    read_line(description, &line_from(line), room)
}

/// Reads a reply to a request for a described procedure. `line` is the reply's line without its CR LF, as the settlement of
/// `geocom_client_send_raw` has it at the front of its text. If both codes are 0, its parameters are read as values of the description's
/// columns, as those of a procedure of the table. The line is written to the front of `room`, with the items of its parameters after it.
///
/// Faults: 62, `room` has fewer than 1024 bytes; 68 and 71, as of `geocom_description_read`; 6, the line has more than 512 bytes; 1 to 5, it
/// is no reply. After a fault nothing is written.
#[unsafe(no_mangle)]
pub extern "C" fn geocom_description_reply(
    text: &[u8],
    line: &[u8],
    room: &mut [u8],
) -> GeocomAnswer
    ensures { ReadsReply text.now line.now (answer_effect room.old room.new result) }
{
    if room.len() < TEXT_ROOM {
        return unread(NO_ROOM);
    }
    match described(text) {
        Ok(description) => read_bytes(&description, line, room),
        Err(fault) => unread(fault),
    }
}
