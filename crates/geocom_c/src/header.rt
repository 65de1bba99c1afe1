//! The numbers that `library/include/geocom.h` has, too. There each constant has the same name with `GEOCOM_` before it, except
//! the faults, which are listed in the comment at its top.

ghost use Rattle.std.specs.Prelude.{◌≡◌};
ghost use Rattle.gc_lines.specs.Faults.{line_fault_number};
ghost use Rattle.gc_lines.specs.declared.fault.LineFault.{LineFault};
ghost use Rattle.gc_values.specs.declared.fault.ValueFault.{ValueFault};
ghost use Rattle.gc_catalogue.specs.CallFault.{refusal_number};
ghost use Rattle.gc_catalogue.specs.declared.fault.CallFault.{CallFault};
ghost use Rattle.gc_catalogue.specs.declared.raw.RawFault.{RawFault};
ghost use Rattle.gc_session.specs.declared.session.TheConstants as session;
ghost use Rattle.geocom_c.specs.Sending.{raw_number};
ghost use Rattle.geocom_c.specs.declared.header.TheConstants.{VERSION, LINE_ROOM, TEXT_ROOM, NAME_ROOM, WINDOW_FULL, NO_WIDTH, NO_ROOM, NO_CLIENT, NOT_BEGUN, IN_TABLE, NO_DESCRIPTION, NO_WANT, NOT_NOW, OWN_TARGET, OWN, WANT_NOTHING, WANT_ANSWERS, WANT_SEND, OPEN, WAIT, WRITE, SEND, READ, CLOSE, DOUBLE, LONG, SHORT, BYTE, BOOLEAN, STRING, ANSWERED, LATE, LOST, NONE, VALUE, REFUSED, COM_FAULT, UNREADABLE, MORE, SETTLED, STRAY, UNREAD, CLEARED, OVERLONG};

/// The version of the calls and of the structs that they take.
pub const VERSION: u32 = 2;

// Rooms.

/// The most bytes that a request line has with its CR LF.
pub const LINE_ROOM: usize = 514;

/// The most bytes of an answer's text: a line of at most 512, and after it the items of its parameters, which are parts of it.
pub const TEXT_ROOM: usize = 1024;

/// The most bytes of a column's name.
pub const NAME_ROOM: usize = 32;

// The library's own faults, and that of a full window, which is gc_client's.

/// As many requests wait as the width allows.
pub const WINDOW_FULL: u32 = 31;

/// A width that is not 1 to 7.
pub const NO_WIDTH: u32 = 61;

/// Less room than the call asks for.
pub const NO_ROOM: u32 = 62;

/// The state is no client's, or no session's: `geocom_client_init` or `geocom_session_init` never made it, or its bytes were overwritten.
pub const NO_CLIENT: u32 = 63;

/// The client hasn't synchronized: `geocom_client_synchronize` hasn't heard the eighth answer, at first or after a restart.
pub const NOT_BEGUN: u32 = 67;

/// A raw request's number is that of a procedure of the table, and so is that of a description.
pub const IN_TABLE: u32 = 68;

/// A text is no description of a procedure.
pub const NO_DESCRIPTION: u32 = 71;

/// What is wanted of a session is none of the three wants.
pub const NO_WANT: u32 = 72;

/// It isn't a request's turn: what is next in the session isn't [`SEND`].
pub const NOT_NOW: u32 = 73;

/// The target is that of the session's own requests, 4294967295.
pub const OWN_TARGET: u32 = 74;

/// The target of a session's own null procedures.
pub const OWN: u32 = 4294967295;

// Wants: what the caller wants of a session.

/// Nothing: what comes is heard, and nothing is sent.
pub const WANT_NOTHING: u32 = 0;

/// The ends of the outstanding requests.
pub const WANT_ANSWERS: u32 = 1;

/// To send a request.
pub const WANT_SEND: u32 = 2;

// Acts: what the caller does next for a session.

/// Make a connection.
pub const OPEN: u32 = 1;

/// Wait without a connection.
pub const WAIT: u32 = 2;

/// Write the line.
pub const WRITE: u32 = 3;

/// Send a request.
pub const SEND: u32 = 4;

/// Read.
pub const READ: u32 = 5;

/// Close the connection, which is dead.
pub const CLOSE: u32 = 6;

// Item kinds: of which kind a value is that a description has a column for.

/// A decimal.
pub const DOUBLE: u8 = 1;

/// A whole number of 32 bits.
pub const LONG: u8 = 2;

/// A whole number of 16 bits.
pub const SHORT: u8 = 3;

/// A byte, as two hexadecimal digits between single quotes.
pub const BYTE: u8 = 4;

/// 0 or 1.
pub const BOOLEAN: u8 = 5;

/// Bytes between double quotes.
pub const STRING: u8 = 6;

// Outcomes: how a request ended.

/// A reply answered the request.
pub const ANSWERED: u8 = 1;

/// The reply came after the request timed out.
pub const LATE: u8 = 2;

/// No reply came before that to a later request, or before a restart.
pub const LOST: u8 = 3;

// Readings: what an answer says.

/// There is no answer.
pub const NONE: u8 = 0;

/// A value of the procedure.
pub const VALUE: u8 = 1;

/// The return code of a refusal.
pub const REFUSED: u8 = 2;

/// The communication code of a request that the instrument didn't take.
pub const COM_FAULT: u8 = 3;

/// Parameters that don't read as the procedure's.
pub const UNREADABLE: u8 = 4;

// Kinds: what the bytes of a feed ended.

/// No line feed has ended the frame yet.
pub const MORE: u32 = 0;

/// A line that settled requests.
pub const SETTLED: u32 = 1;

/// A reply that no request is outstanding for.
pub const STRAY: u32 = 2;

/// A line that is no reply.
pub const UNREAD: u32 = 3;

/// A line feed without a CR before it. What was before it is discarded.
pub const CLEARED: u32 = 4;

/// A line of more than 512 bytes, which is discarded.
pub const OVERLONG: u32 = 5;

/// The constants have the values of the C header, and so have the faults of a line, which are gc_lines', and those of a call and of a raw
/// request, which are gc_catalogue's. `library/tests/same_numbers.py` compares these clauses with the constants above and with the header.
pub fn numbers_are_the_headers()
    ensures version { VERSION ≡ 2 }
    ensures rooms { (LINE_ROOM ≡ 514) × (TEXT_ROOM ≡ 1024) × (NAME_ROOM ≡ 32) }
    ensures signature { line_fault_number LineFault.Signature ≡ 1 }
    ensures number { line_fault_number LineFault.Number ≡ 2 }
    ensures id { line_fault_number LineFault.Id ≡ 3 }
    ensures colon { line_fault_number LineFault.Colon ≡ 4 }
    ensures code { line_fault_number LineFault.Code ≡ 5 }
    ensures procedure { refusal_number CallFault.Unknown ≡ 21 }
    ensures spelling { refusal_number (CallFault.Parameters ValueFault.Spelling) ≡ 11 }
    ensures range { refusal_number (CallFault.Parameters ValueFault.Range) ≡ 12 }
    ensures open_quote { refusal_number (CallFault.Parameters ValueFault.OpenQuote) ≡ 13 }
    ensures too_many { refusal_number (CallFault.Parameters ValueFault.TooMany) ≡ 14 }
    ensures count { refusal_number (CallFault.Parameters ValueFault.Count) ≡ 15 }
    ensures raw_in_table { raw_number RawFault.InTable ≡ 68 }
    ensures raw_not_plain { raw_number RawFault.NotPlain ≡ 11 }
    ensures raw_too_long { raw_number RawFault.TooLong ≡ 6 }
    ensures raw_open_quote { raw_number RawFault.OpenQuote ≡ 13 }
    ensures raw_too_many { raw_number RawFault.TooMany ≡ 14 }
    ensures faults { (WINDOW_FULL ≡ 31) × (NO_WIDTH ≡ 61) × (NO_ROOM ≡ 62) × (NO_CLIENT ≡ 63) × (NOT_BEGUN ≡ 67) × (IN_TABLE ≡ 68) × (NO_DESCRIPTION ≡ 71) × (NO_WANT ≡ 72) × (NOT_NOW ≡ 73) × (OWN_TARGET ≡ 74) }
    ensures item_kinds { (DOUBLE ≡ 1) × (LONG ≡ 2) × (SHORT ≡ 3) × (BYTE ≡ 4) × (BOOLEAN ≡ 5) × (STRING ≡ 6) }
    ensures outcomes { (ANSWERED ≡ 1) × (LATE ≡ 2) × (LOST ≡ 3) }
    ensures readings { (NONE ≡ 0) × (VALUE ≡ 1) × (REFUSED ≡ 2) × (COM_FAULT ≡ 3) × (UNREADABLE ≡ 4) }
    ensures own { OWN ≡ 4294967295 }
    ensures own_is_the_sessions { session.OWN ≡ OWN }
    ensures wants { (WANT_NOTHING ≡ 0) × (WANT_ANSWERS ≡ 1) × (WANT_SEND ≡ 2) }
    ensures acts { (OPEN ≡ 1) × (WAIT ≡ 2) × (WRITE ≡ 3) × (SEND ≡ 4) × (READ ≡ 5) × (CLOSE ≡ 6) }
    ensures kinds { (MORE ≡ 0) × (SETTLED ≡ 1) × (STRAY ≡ 2) × (UNREAD ≡ 3) × (CLEARED ≡ 4) × (OVERLONG ≡ 5) }
{}
