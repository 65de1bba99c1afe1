//! The client whose log is checked, as far as the log shows it: which of its requests are outstanding, and so which reply shows that a line
//! was altered.

ghost use Rattle.std.specs.Prelude.{◌≡◌, ◌<◌, ◌≤◌, ◌||◌, ◌&&◌, drop, length};
ghost use Rattle.gc_client.specs.Beginning.{is_answered, the_word};
ghost use Rattle.gc_client.specs.Rule.{place};
ghost use Rattle.gc_lines.specs.Headers.{MayBeId};
ghost use Rattle.gc_lines.specs.Readers.{reply_at, request_at};
ghost use Rattle.gc_lines.specs.Requests.{request_seen};
ghost use Rattle.gc_filters.specs.LogClients.{after_answer, after_came, after_entry, after_request, after_sent, is_impossible_entry, is_impossible_reply, is_null_of, known_begun, known_broken, known_heard, known_heard_at, known_sent, known_sent_at, may_follow, nothing_known};

use gc_client::{Beginning, IDS, WINDOW, WORD};
use gc_lines::{Request, read_reply, read_request};
use gc_texts::{LogMark, is_impossible, place};

// What is known of a client's requests.
#[derive(Clone, Copy)]
struct Known {
    // The id of the next request, 0 to 7.
    next: u8,
    // How many requests are outstanding, at most 7.
    outstanding: usize,
    // Whether these are all that were sent. If not, more may be outstanding: those whose writes were cut.
    is_whole: bool,
}

/// The client whose log is checked, as far as the log shows it.
#[derive(Drop)]
pub(crate) struct LogClient {
    // The beginning that was seen last, as far as it was seen.
    beginning: Beginning,
    // Whether the null procedure that it asks for next was sent, and no request after it.
    is_asked: bool,
    // `None`: nothing is known, until a beginning was seen whole.
    known: Option<Known>,
}

// What is known at the end of a beginning: the next id is 0, and nothing is outstanding.
const BEGUN: Known = Known {
    next: 0,
    outstanding: 0,
    is_whole: true,
};

impl Known {
    // Whether a request with the id at this place may follow: its id is the next one, or, if requests may be missing, any that isn't
    // outstanding, unless the request is a null procedure, which may be one of a beginning.
    fn may_follow(self, at: usize, is_null: bool) -> bool
        ensures { result ≡ may_follow self at is_null }
    {
        at < WINDOW
            && if self.is_whole {
                at == self.outstanding
            } else {
                self.outstanding <= at && !is_null
            }
    }

    // What is known after a request with this id, at this place: it is outstanding, and so are the requests before it that no reply has
    // ended. `None`: it may not follow.
    fn sent_at(self, id: u8, at: usize, is_null: bool) -> Option<Known>
        requires { id < IDS }
        ensures { result ≡ known_sent_at self id at is_null }
    {
        if !self.may_follow(at, is_null) {
            return None;
        }
        Some(Known {
            next: (id + 1) % IDS,
            outstanding: at + 1,
            is_whole: true,
        })
    }

    // What is known after a reply with the id at this place: it ends the request with that id, and those before it. If requests may be
    // missing, it may also end one of these.
    fn heard_at(self, id: u8, at: usize) -> Known
        requires { id < IDS }
        ensures { result ≡ known_heard_at self id at }
    {
        if at < self.outstanding {
            return Known {
                outstanding: self.outstanding - (at + 1),
                ..self
            };
        }
        if self.is_whole || at == WINDOW {
            return self;
        }
        Known {
            next: (id + 1) % IDS,
            outstanding: 0,
            is_whole: false,
        }
    }
}

// What is known after a request with this id, or without one.
fn known_sent(known: Option<Known>, id: Option<u8>, is_null: bool) -> Option<Known>
    requires { MayBeId id }
    ensures { result ≡ known_sent known id is_null }
{
    let known = known?;
    let id = id?;
    known.sent_at(id, place(known.next, known.outstanding, id), is_null)
}

// What is known after a reply with this id, or without one.
fn known_heard(known: Option<Known>, id: Option<u8>) -> Option<Known>
    requires { MayBeId id }
    ensures { result ≡ known_heard known id }
{
    let known = known?;
    match id {
        None => Some(known),
        Some(id) => {
            let at = place(known.next, known.outstanding, id);
            Some(known.heard_at(id, at))
        }
    }
}

// What is known after a line about the connection: requests may be missing.
fn known_broken(known: Option<Known>) -> Option<Known>
    ensures { result ≡ known_broken known }
{
    let known = known?;
    Some(Known {
        is_whole: false,
        ..known
    })
}

// Whether a request is the null procedure of a beginning of which the first `answered` are answered.
fn is_null_of(answered: usize, request: &Request<'_>) -> bool
    ensures { result ≡ is_null_of (drop answered the_word) (request_seen request.now) }
{
    match WORD.get(answered) {
        Some(asked) => request.rpc == 0 && request.id == Some(*asked),
        None => false,
    }
}

impl LogClient {
    /// A client of which nothing is known.
    pub(crate) fn new() -> LogClient
        ensures { result ≡ nothing_known }
    {
        LogClient {
            beginning: Beginning::new(),
            is_asked: false,
            known: None,
        }
    }

    /// Whether a line of the log with this mark and these bytes is an impossible reply: it shows that it was altered, or the line that
    /// ended requests last.
    pub(crate) fn is_impossible(&self, mark: LogMark, bytes: &[u8]) -> bool
        ensures { result ≡ is_impossible_entry self.now mark bytes.now }
    {
        match mark {
            LogMark::Came => bytes.len() <= 512 && self.is_impossible_reply(bytes),
            _ => false,
        }
    }

    // Whether a line that came is an impossible reply.
    fn is_impossible_reply(&self, line: &[u8]) -> bool
        ensures { result ≡ is_impossible_reply self.now.known (reply_at line.now) }
    {
        let Some(known) = self.known else {
            return false;
        };
        match read_reply(line) {
            Ok(reply) => known.is_whole && is_impossible(known.next, known.outstanding, reply.id),
            Err(_) => false,
        }
    }

    /// Takes a line of the log with this mark and these bytes: what is known after it.
    pub(crate) fn take(&mut self, mark: LogMark, bytes: &[u8])
        ensures { self.new ≡ after_entry self.old mark bytes.now }
    {
        match mark {
            LogMark::Went => self.take_sent(bytes),
            LogMark::Came => {
                if bytes.len() <= 512 {
                    self.take_came(bytes);
                }
            }
            LogMark::Link => self.known = known_broken(self.known),
            LogMark::WentPart | LogMark::CamePart => {}
        }
    }

    // Takes a line that was sent. If it is no request, nothing is known afterwards.
    fn take_sent(&mut self, line: &[u8])
        ensures { self.new ≡ after_sent self.old (request_at line.now) }
    {
        match read_request(line) {
            Ok(request) => self.take_request(&request),
            Err(_) => *self = LogClient::new(),
        }
    }

    // Takes a request. A beginning goes on if it is the null procedure that the beginning asks for next, and else begins anew.
    fn take_request(&mut self, request: &Request<'_>)
        requires { MayBeId request.now.id }
        ensures { self.new ≡ after_request self.old (request_seen request.now) }
    {
        let goes_on = is_null_of(self.beginning.answered(), request);
        if !goes_on {
            self.beginning = Beginning::new();
        }
        self.is_asked = goes_on || is_null_of(0, request);
        self.known = known_sent(self.known, request.id, request.rpc == 0);
    }

    // Takes a line of at most 512 bytes that came. If it is no reply, nothing changes.
    fn take_came(&mut self, line: &[u8])
        requires { length line.now ≤ 512 }
        ensures { self.new ≡ after_came self.old (reply_at line.now) }
    {
        let Ok(reply) = read_reply(line) else {
            return;
        };
        self.known = known_heard(self.known, reply.id);
        if self.is_asked && self.beginning.hear(line) {
            self.note_answer();
        }
    }

    // Notes that a null procedure of the beginning was answered. If all are, the client's requests are known.
    fn note_answer(&mut self)
        ensures { self.new ≡ after_answer self.old.beginning self.old.known }
    {
        self.is_asked = false;
        if self.beginning.has_begun() {
            self.beginning = Beginning::new();
            self.known = Some(BEGUN);
        }
    }
}
