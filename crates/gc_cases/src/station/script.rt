//! A link that plays steps, and stores the calls that open, close or write as text.

ghost use Rattle.gc_links.specs.Acts.{CameWithin};

use crate::station::fixed_text::{note, note_number};
use crate::station::setting::Setting;
use arrayvec::ArrayVec;
use gc_lines::PortFailed;
use gc_links::{Came, Link, Moment};
use gc_values::{FileValues, filled_up, no_values};

/// What a read comes to, this many milliseconds after it began.
#[derive(Clone, Copy)]
pub enum Step<'a> {
    /// These bytes come.
    Line(&'a [u8], u64),
    /// The reply of a null procedure comes whose id is this digit.
    Id(u8, u64),
    /// Nothing comes.
    Silence(u64),
    /// The reply to the last request that was sent comes. Its value is the last digit of the request's number, counted from 0
    /// modulo 256.
    Reply(u64),
    /// Nothing comes, and the clock goes back by this many milliseconds.
    Back(u64),
    /// Nothing comes any more, until the connection is closed.
    Dead,
    /// At each read, until the connection is closed, a line that is no reply comes: after 5 milliseconds, or when the read's time
    /// is over.
    Noise,
    /// From now on the last request that was sent on this connection is answered, if it isn't yet.
    Answers,
    /// The other end closes.
    End,
    /// The read fails.
    Failure,
    /// The clock can't be read after the read.
    NoMoment,
}

/// The time of day at which a link starts, in milliseconds since 1970, unless it is `ahead`. Its clock for deadlines starts at 0, as
/// that of the program's link does.
pub const TIME_AT_START: u64 = 1000;

// The ids of a synchronization's null procedures, in the order in which they are sent, and then that of the client's first one.
const NULL_IDS: [u8; 9] = *b"654321070";

/// A link that plays steps: each read, unless it is the failing call, makes the next one, and once none is left nothing comes for
/// as long as the read waits. The calls that open, close or write are stored as text.
#[derive(Drop)]
pub struct Script<'a> {
    // The steps that are played.
    steps: &'a [Step<'a>],
    // The place of the next step.
    at: usize,
    // What fails or is cut, and how the clock goes.
    setting: Setting,
    // How many calls of `put` there were.
    puts: u64,
    // How many requests were sent, modulo 256.
    requests: u8,
    // The digit of the id of the last of them.
    id: u8,
    // What `requests` was when a request was answered last, or when the connection was closed since.
    answered: u8,
    // How many calls there were, without those of `close`.
    calls: u64,
    // How many attempts to connect there were.
    attempts: u64,
    // The moment now, in milliseconds since the start.
    clock: u64,
    // Whether there is a connection.
    up: bool,
    // How many null procedures of a synchronization, and after them of the client, were put in a row so far.
    nulls: usize,
    // Where the text of the first of them begins, and when it was put.
    first: usize,
    first_at: u64,
    /// How many bytes were sent of the last put that was cut; 0 if none was.
    pub gone: usize,
    /// The words of the calls that opened, closed or wrote, each with a blank after it: `open`, `shut`, `close`, `lf`, `begin` or
    /// a request. The word of a put that was cut has `cut:` before it. What has no room any more is left out.
    pub text: ArrayVec<u8, 1024>,
}

impl<'a> Script<'a> {
    /// A link that plays these steps by this setting, before its first call.
    pub fn new(steps: &'a [Step<'a>], setting: &Setting) -> Script<'a> {
        Script {
            steps,
            at: 0,
            setting: *setting,
            puts: 0,
            requests: 0,
            id: b'0',
            answered: 0,
            calls: 0,
            attempts: 0,
            clock: 0,
            up: false,
            nulls: 0,
            first: 0,
            first_at: 0,
            gone: 0,
            text: ArrayVec::new(),
        }
    }

    // Appends a word and a blank. If the setting is timed, the word has `@` and the moment `clock` after it, in milliseconds
    // since the start.
    fn note_at(&mut self, word: &[u8], clock: u64) {
        note(&mut self.text, word);
        if self.setting.timed {
            note(&mut self.text, b"@");
            note_number(&mut self.text, clock);
        }
        note(&mut self.text, b" ");
    }

    // Appends the word of a call that is made now. The call is no null procedure, so it ends a row of these.
    fn note_now(&mut self, word: &[u8]) {
        self.nulls = 0;
        self.note_at(word, self.clock);
    }

    // Appends what is put: `lf` for a lone line feed, else a request as `note_request` does. If that is the client's first null
    // procedure, in a row with the eight of a synchronization, `begin` takes the place of all nine (`note_begin`).
    fn note_put(&mut self, bytes: &[u8]) {
        if bytes == b"\n".as_slice() {
            self.note_now(b"lf");
            return;
        }
        let request = bytes.strip_suffix(b"\r\n").unwrap_or(bytes);
        self.count_null(request);
        self.note_request(request);
        if self.nulls == NULL_IDS.len() {
            self.note_begin();
        }
    }

    // Appends a request, which has no line end here; if the setting is timed, only `#` and the digit of its id, or `#?` if it has
    // none.
    fn note_request(&mut self, request: &[u8]) {
        let word = [b'#', id_of(request).unwrap_or(b'?')];
        if self.setting.timed {
            self.note_at(&word, self.clock);
        } else {
            self.note_at(request, self.clock);
        }
    }

    // Replaces the text from the first null procedure of a synchronization on by the word `begin`, with the moment of the first,
    // and starts the count of null procedures again.
    fn note_begin(&mut self) {
        self.text.truncate(self.first);
        self.note_at(b"begin", self.first_at);
        self.nulls = 0;
    }

    // Whether a request is the null procedure with which a row of those of `NULL_IDS` goes on or begins.
    fn is_next_null(&self, request: &[u8]) -> bool {
        request.starts_with(b"%R1Q,0,") && id_of(request) == NULL_IDS.get(self.nulls).copied()
    }

    // Counts the null procedures that are put one after the other with the ids of `NULL_IDS` in order, and stores where the text of
    // the first begins and when it was put. Any other request starts the count again: at 1 if it is a null procedure with the first
    // of these ids, else at 0.
    fn count_null(&mut self, request: &[u8]) {
        if !self.is_next_null(request) {
            self.nulls = 0;
        }
        if self.nulls == 0 {
            self.first = self.text.len();
            self.first_at = self.clock;
        }
        if self.is_next_null(request) {
            self.nulls = self.nulls.saturating_add(1);
        }
    }

    // Counts a call of the link, and returns whether it is the one that fails.
    fn call_fails(&mut self) -> bool {
        let call = self.calls;
        self.calls = call.saturating_add(1);
        call == self.setting.failing_call
    }

    // Counts an attempt to connect, and returns whether it is one of those that fail.
    fn attempt_fails(&mut self) -> bool {
        let attempt = self.attempts;
        self.attempts = attempt.saturating_add(1);
        attempt < self.setting.failing_opens
    }

    // The values of files now.
    fn values(&self) -> FileValues {
        let mut values = no_values();
        let are_gone = self.setting.gone <= self.clock && self.clock < self.setting.back;
        for (k, value) in values.iter_mut().enumerate() {
            if k < self.setting.values && !are_gone {
                *value = filled_up(b"20.5");
            }
        }
        values
    }

    // When the file was changed by which somebody asks for a cycle; 0 before that.
    fn touched(&self) -> u64 {
        if self.setting.asked > self.clock {
            return 0;
        }
        self.setting.asked.saturating_add(TIME_AT_START)
    }

    // Lets `later` milliseconds pass, and returns the moment then.
    fn moment_after(&mut self, later: u64) -> Moment {
        self.clock = self.clock.saturating_add(later);
        Moment {
            elapsed: self.clock,
            utc: self
                .clock
                .saturating_add(TIME_AT_START)
                .saturating_add(self.setting.ahead),
            stops: self.setting.until <= self.clock,
            touched: self.touched(),
            values: self.values(),
        }
    }

    // Lets `later` milliseconds pass, and returns what a read gives then: as many bytes of `line` as `buf` has room for, which
    // are written there, or silence if that is none. The rest of the line never comes.
    fn bring(&mut self, buf: &mut [u8], line: &[u8], later: u64) -> Came
        ensures { CameWithin result buf.new }
    {
        let moment = self.moment_after(later);
        let n = line.len().min(buf.len());
        if n == 0 {
            return Came::Silence(moment);
        }
        buf[..n].copy_from_slice(&line[..n]);
        Came::Bytes(n, moment)
    }

    // Lets `later` milliseconds pass, and returns what a read gives then: the reply to a null procedure. `id` is the digit of its
    // id.
    fn bring_id(&mut self, buf: &mut [u8], id: u8, later: u64) -> Came
        ensures { CameWithin result buf.new }
    {
        let mut line = *b"%R1P,0,0:0\r\n";
        line[7] = id;
        self.bring(buf, &line, later)
    }

    // Counts the last request as answered, lets `later` milliseconds pass, and returns what a read gives then: the reply to that
    // request. Its one value is the last digit of the request's number among all requests, counted from 0 modulo 256. If none was
    // sent yet, the reply is one with id 0 and value 5.
    fn bring_reply(&mut self, buf: &mut [u8], later: u64) -> Came
        ensures { CameWithin result buf.new }
    {
        self.answered = self.requests;
        let mut line = *b"%R1P,0,0:0,0\r\n";
        line[7] = self.id;
        line[11] = b'0'.wrapping_add(self.requests.wrapping_sub(1) % 10);
        self.bring(buf, &line, later)
    }

    // What a read of `Answers` gives that waits for at most `millis` milliseconds: after 5 milliseconds, or `millis` if that is
    // less, the reply to the last request, if that isn't answered yet and there is a connection; otherwise silence for all that
    // time.
    fn bring_answer(&mut self, buf: &mut [u8], millis: u64) -> Came
        ensures { CameWithin result buf.new }
    {
        if self.answered == self.requests || !self.up {
            return Came::Silence(self.moment_after(millis));
        }
        self.bring_reply(buf, millis.min(5))
    }

    // The step of the next read, if there is one. `Dead`, `Noise` and `Answers` last: each is the step of all further reads,
    // until a close ends the first two.
    fn next(&mut self) -> Option<Step<'a>> {
        let step = self.steps.get(self.at).copied()?;
        if !matches!(step, Step::Dead | Step::Noise | Step::Answers) {
            self.at = self.at.saturating_add(1);
        }
        Some(step)
    }
}

// The digit of the id of a request that has an id: the byte before the first colon. `None`: there is no colon, or nothing before
// it.
fn id_of(request: &[u8]) -> Option<u8> {
    let end = request.iter().position(|byte| *byte == b':')?;
    request.get(end.checked_sub(1)?).copied()
}

impl<'a> Link for Script<'a> {
    ghost use Rattle.std.specs.Prelude.{None};

    ghost acts = { λ _. None };

    // The moment now. `Err`: this is the failing call, or the clock can't be read.
    fn now(&mut self) -> Result<Moment, PortFailed> {
        if self.call_fails() || self.setting.blind {
            return Err(PortFailed);
        }
        Ok(self.moment_after(0))
    }

    // Plays the next step, or fails if this is the failing call. If no step is left, nothing comes for `millis` milliseconds.
    fn read(&mut self, buf: &mut [u8], millis: u64) -> Came {
        if self.call_fails() {
            return Came::Failure;
        }
        let Some(step) = self.next() else {
            return Came::Silence(self.moment_after(millis));
        };
        match step {
            Step::Line(line, later) => self.bring(buf, line, later),
            Step::Id(id, later) => self.bring_id(buf, id, later),
            Step::Reply(later) => self.bring_reply(buf, later),
            Step::Silence(later) => Came::Silence(self.moment_after(later)),
            Step::Dead => Came::Silence(self.moment_after(millis)),
            Step::Noise => self.bring(buf, b"noise\r\n", millis.min(5)),
            Step::Answers => self.bring_answer(buf, millis),
            Step::Back(earlier) => {
                self.clock = self.clock.saturating_sub(earlier);
                Came::Silence(self.moment_after(0))
            }
            Step::End => Came::End,
            Step::Failure => Came::Failure,
            Step::NoMoment => Came::NoMoment,
        }
    }

    // Stores the word of what is put. The put whose number is the setting's `cut_put`, or that is the failing call, is cut: its
    // first `sent_of_cut` bytes are sent, at most all but one, and `Err` has how many. Any other is sent whole, and a request
    // counts as the last one that was sent.
    fn put(&mut self, bytes: &[u8]) -> Result<(), usize> {
        self.puts = self.puts.saturating_add(1);
        if self.call_fails() || self.puts == self.setting.cut_put {
            self.nulls = 0;
            note(&mut self.text, b"cut:");
            self.note_put(bytes);
            self.nulls = 0;
            let kept = usize::try_from(self.setting.sent_of_cut).unwrap_or(usize::MAX);
            let n = kept.min(bytes.len().saturating_sub(1));
            self.gone = n;
            return Err(n);
        }
        self.note_put(bytes);
        if bytes != b"\n".as_slice() {
            self.requests = self.requests.wrapping_add(1);
            self.id = id_of(bytes).unwrap_or(self.id);
        }
        Ok(())
    }

    // Closes the connection, and stores `close`. If the next step is `Dead` or `Noise`, that is over. A request that was sent on
    // the connection isn't answered by `Answers` any more.
    fn close(&mut self) {
        self.note_now(b"close");
        self.up = false;
        self.answered = self.requests;
        if let Some(Step::Dead | Step::Noise) = self.steps.get(self.at).copied() {
            self.at = self.at.saturating_add(1);
        }
    }

    // Makes a connection, and stores `open`. `Err`: this is the failing call, or one of the first attempts, as many as
    // `failing_opens` of the setting, and `shut` is stored.
    fn open(&mut self) -> Result<(), PortFailed> {
        if self.call_fails() || self.attempt_fails() {
            self.note_now(b"shut");
            return Err(PortFailed);
        }
        self.note_now(b"open");
        self.up = true;
        Ok(())
    }
}
