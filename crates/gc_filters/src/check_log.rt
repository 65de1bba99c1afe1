//! `check --log`: each line of a log, with its verdict.

ghost use Rattle.std.specs.Prelude.{◌≡◌, ◌+◌, ◌<◌, ◌≤◌, ◌++◌, ℕ, List, [], ◌∷◌, length, ◌^◌, OnOk, IfOk, IfErr, true, codes};
ghost use Rattle.std.specs.Option.{option_copied};
ghost use Rattle.gc_filters.specs.LogChecking.{IsWholeVerdict, IsMarkedVerdictLine, part_verdict, ends_cleared, IsMarkedVerdict, IsLogVerdict, KeepsLine, TakesPiece, TakesPieceInPart, IsCheckingLog};
ghost use Rattle.gc_filters.specs.LogChecking.{HasRoom, JudgesLine, JudgesMore, NoneWait, StopsWriting, TakesLine, WritesWaiting, bytes_left, texts_in};
ghost use Rattle.gc_filters.specs.LogClients.{nothing_known};
ghost use Rattle.gc_filters.specs.Remarks.{remark_text};
ghost use Rattle.gc_lines.specs.Answering.{AppendsText, ports_of};
ghost use Rattle.gc_lines.specs.Passing.{whole_and_part};
ghost use Rattle.gc_lines.specs.Ports.{FailsWith};

use crate::log_client::LogClient;
use crate::remark::remark_text;
use crate::verdict::{Verdict, line_verdict, push_verdict};
use arrayvec::ArrayVec;
use gc_lines::{Outgoing, ServeFault, Served, Sink, Source, append, write_whole};
use gc_texts::{LogLine, LogMark, append_escaped, cut_at, read_log_line};

// The most bytes of one read.
const PIECE: usize = 256;

// The bytes of the longest line of a log, without its line feed, and some to spare.
const LOG_LINE_MOST: usize = 2100;

// The most bytes of what is written of one line of a log: its moment, mark and verdict, or its words.
const TEXT_MOST: usize = 4300;

// How many texts wait to be written at most.
const WAITING_MOST: usize = 256;

// The bytes that came since the last line feed, as long as they are at most `LOG_LINE_MOST`, and whether there are more.
#[derive(Drop)]
struct PartialLine {
    bytes: ArrayVec<u8, LOG_LINE_MOST>,
    is_long: bool,
}

impl PartialLine {
    // A line of which no byte came yet.
    fn new() -> PartialLine
        ensures { KeepsLine result [] }
    {
        PartialLine {
            bytes: ArrayVec::new(),
            is_long: false,
        }
    }

    // Appends further bytes. If there is no room for them, they are discarded and the line is too long.
    fn keep(&mut self, bytes: &[u8])
        ensures { (rest : List ℕ) → KeepsLine self.old rest → KeepsLine self.new (rest ++ bytes.now) }
    {
        if bytes.len() <= self.bytes.remaining_capacity() {
            append(&mut self.bytes, bytes);
        } else {
            self.is_long = true;
        }
    }

    // Begins the next line: no byte of it came yet.
    fn clear(&mut self)
        ensures { KeepsLine self.new [] }
    {
        self.bytes.clear();
        self.is_long = false;
    }
}

// How far a check has come: the bytes since the last line feed; the client, as far as the lines before it show it; the texts that wait to
// be written, one after the other, with the length of each; and how many texts went out whole.
#[derive(Drop)]
struct LogCheck {
    kept: PartialLine,
    client: LogClient,
    text: Outgoing,
    lengths: ArrayVec<usize, WAITING_MOST>,
    replies: u64,
}

/// Checks the lines of a log, as `station --log` writes them, until the end of a source, in at most `max_reads` reads of at
/// most 256 bytes. For each line it writes one with LF into a sink: the moment and the mark as they are in the log, and the verdict
/// on the bytes.
///
/// | Mark | Verdict |
/// |---|---|
/// | `>`, `<` | the verdict that `check` has for the line, and `overlong` for more than 512 bytes; after that of an impossible reply ` impossible` |
/// | `>\|`, `<\|` | `cleared` where the bytes end in a line feed without a CR before it, else `part` |
/// | `-` | the words as they are in the log |
///
/// For a line that hasn't the form of a log's lines, or has more than 2100 bytes, or whose text after the mark stands for more
/// than 514 bytes, it writes `no log line`. A reply is impossible if no request is outstanding for it and it can't repeat the reply that
/// ended requests last, so that it was altered, or that one was; what is outstanding is known from a beginning on that the log has whole
/// (`specs/LogClients.antt`). Bytes after the last line feed get no line. `replies` in the result, also in a fault,
/// counts the lines that went out whole. The lines of one read go out together, before the next read; earlier, where they are long. It
/// takes no memory.
///
/// It returns [`Served`] exactly where the last read was the end. Over ports that hadn't failed before, it fails with `Read` (42)
/// exactly where the source failed, with `Write` (43) exactly where the sink did, and with `TooManyReads` (44) exactly where all
/// reads were answered, none was the end, and no port failed. `Write` also says how many bytes of the next line went out.
pub fn run_check_log<S: Source, K: Sink>(
    source: &mut S,
    sink: &mut K,
    max_reads: u32,
) -> Result<Served, ServeFault>
    ensures { IsCheckingLog
        (ports_of S.Source source.old K.Sink sink.old)
        (ports_of S.Source source.new K.Sink sink.new)
        max_reads result }
{
    let mut check = LogCheck::new();
    let mut buf = [0u8; PIECE];
    for _ in 0..max_reads {
        match source.read(&mut buf) {
            Ok(0) => return Ok(Served {
                replies: check.replies,
            }),
            Ok(n) => {
                if let Err(bytes) = check.check_piece(sink, &buf[..n]) {
                    return Err(ServeFault::Write {
                        replies: check.replies,
                        bytes,
                    });
                }
            }
            Err(_) => return Err(ServeFault::Read {
                replies: check.replies,
            }),
        }
    }
    Err(ServeFault::TooManyReads {
        replies: check.replies,
    })
}

impl LogCheck {
    // A check of which nothing came yet.
    fn new() -> LogCheck
        ensures kept { KeepsLine result.kept [] }
        ensures nothing { NoneWait result }
        ensures replies { result.replies ≡ 0 }
        ensures client { result.client ≡ nothing_known }
    {
        LogCheck {
            kept: PartialLine::new(),
            client: LogClient::new(),
            text: Outgoing::new(),
            lengths: ArrayVec::new(),
            replies: 0,
        }
    }

    // Checks the lines of a log that end in a piece, writes what is written of each, and adds to `replies` how many texts went out
    // whole. After `Ok` what came after the last line feed is in `kept`, and no text waits. `Err(n)`: the sink took the first n
    // bytes of one more text, which aren't all, and failed; what comes after that line in the piece may not be looked at.
    fn check_piece<K: Sink>(&mut self, sink: &mut K, piece: &[u8]) -> Result<(), usize>
        requires count { self.old.replies + length piece.now < 2 ^ 64 }
        requires nothing { NoneWait self.old }
        ensures nothing { OnOk result (NoneWait self.new) }
        ensures failed { FailsWith result (K.failed sink.old) (K.failed sink.new) }
        ensures ok { OnOk result (TakesPiece self.old self.new piece.now (K.taken sink.old) (K.taken sink.new)) }
        ensures err { IfErr result (TakesPieceInPart self.old self.new piece.now (K.taken sink.old) (K.taken sink.new)) }
        ensures few { OnOk result (self.new.replies ≤ self.old.replies + length piece.now) }
    {
        let mut left = Some(piece);
        while let Some(bytes) = left {
            left = self.take_line(sink, bytes)?;
        }
        self.write_waiting(sink)?;
        Ok(())
    }

    // Takes bytes of a log through their first line feed, with which a line ends (`end_line`), and returns what follows it. Without a line
    // feed all bytes are kept, and nothing follows.
    fn take_line<'a, K: Sink>(
        &mut self,
        sink: &mut K,
        bytes: &'a [u8],
    ) -> Result<Option<&'a [u8]>, usize>
        requires { texts_in self.old + length bytes.now < 2 ^ 64 }
        ensures failed { FailsWith result (K.failed sink.old) (K.failed sink.new) }
        ensures ok { IfOk result (λ behind. TakesLine self.old self.new bytes.now (option_copied behind) (K.taken sink.old) (K.taken sink.new)) }
        ensures err { IfErr result (StopsWriting self.old self.new (K.taken sink.old) (K.taken sink.new)) }
        ensures few { IfOk result (λ behind. texts_in self.new + bytes_left (option_copied behind) ≤ texts_in self.old + length bytes.now) }
    {
        let (line, behind) = cut_at(b'\n', bytes);
        self.kept.keep(line);
        match behind {
            None => Ok(None),
            Some(rest) => {
                self.end_line(sink)?;
                Ok(Some(rest))
            }
        }
    }

    // Ends a line of the log, whose bytes are `kept`: what is written of it joins the texts that wait, and the next line begins. If
    // there is no room for one more text, those that wait are written first.
    fn end_line<K: Sink>(&mut self, sink: &mut K) -> Result<(), usize>
        requires { texts_in self.old + 1 < 2 ^ 64 }
        ensures failed { FailsWith result (K.failed sink.old) (K.failed sink.new) }
        ensures ok { OnOk result (JudgesMore self.old self.new (10 ∷ []) (K.taken sink.old) (K.taken sink.new)) }
        ensures err { IfErr result (StopsWriting self.old self.new (K.taken sink.old) (K.taken sink.new)) }
        ensures few { OnOk result (texts_in self.new ≤ texts_in self.old + 1) }
    {
        if self.has_room() {
            self.judge_line();
            return Ok(());
        }
        self.write_waiting(sink)?;
        self.judge_line();
        Ok(())
    }

    // Whether there is room for one more text, and for its length.
    fn has_room(&self) -> bool
        ensures { result ≡ true → HasRoom self.now }
    {
        self.text.remaining_capacity() >= TEXT_MOST && !self.lengths.is_full()
    }

    // Appends what is written of the line of which `kept` has the bytes to the texts that wait, and begins the next line.
    fn judge_line(&mut self)
        requires { HasRoom self.old }
        ensures judges { (rest : List ℕ) → KeepsLine self.old.kept rest → JudgesLine self.old self.new rest }
        ensures kept { KeepsLine self.new.kept [] }
        ensures replies { self.new.replies ≡ self.old.replies }
        ensures one { length self.new.lengths.items ≡ length self.old.lengths.items + 1 }
    {
        let before = self.text.len();
        push_log_verdict(&mut self.text, &mut self.client, &self.kept);
        self.lengths.push(self.text.len() - before);
        self.kept.clear();
    }

    // Writes all texts that wait, and counts those that went out whole. `Err(n)`: the sink took only the first n bytes of one of them,
    // which aren't all, and failed.
    fn write_waiting<K: Sink>(&mut self, sink: &mut K) -> Result<(), usize>
        requires { texts_in self.old < 2 ^ 64 }
        ensures nothing { OnOk result (NoneWait self.new) }
        ensures failed { FailsWith result (K.failed sink.old) (K.failed sink.new) }
        ensures ok { OnOk result (WritesWaiting self.old self.new (K.taken sink.old) (K.taken sink.new)) }
        ensures err { IfErr result (StopsWriting self.old self.new (K.taken sink.old) (K.taken sink.new)) }
        ensures few { OnOk result (self.new.replies ≡ texts_in self.old) }
    {
        match write_whole(sink, self.text.as_slice()) {
            Ok(()) => {
                self.replies += self.lengths.len() as u64;
                self.text.clear();
                self.lengths.clear();
                Ok(())
            }
            Err(taken) => Err(self.count_part(taken)),
        }
    }

    // Where the sink took the first `taken` bytes of the texts that wait: counts the texts that it took whole, and returns how many bytes
    // of the next text it took.
    fn count_part(&mut self, taken: usize) -> usize
        requires { texts_in self.old < 2 ^ 64 }
        ensures { (self.new.replies, result) ≡ whole_and_part self.old.replies taken self.old.lengths.items }
    {
        let (replies, bytes) = whole_and_part(self.replies, taken, self.lengths.as_slice());
        self.replies = replies;
        bytes
    }
}

// Where a sink took the first `taken` bytes of texts with these lengths: returns how many texts it took whole, `whole` earlier ones
// included, and how many bytes of the next text it took.
fn whole_and_part(whole: u64, taken: usize, lengths: &[usize]) -> (u64, usize)
    requires { whole + length lengths.now < 2 ^ 64 }
    ensures { result ≡ whole_and_part whole taken lengths.now }
{
    let mut count = whole;
    let mut bytes = taken;
    for length in lengths {
        if bytes < *length {
            return (count, bytes);
        }
        bytes -= *length;
        count += 1;
    }
    (count, bytes)
}

// Appends what is written of a complete line of the log, whose bytes are `kept`: its moment, mark and verdict, or `no log line` if it
// has more than 2100 bytes or doesn't read as a log line. The text ends in a line feed. The client takes the line.
fn push_log_verdict(text: &mut Outgoing, client: &mut LogClient, kept: &PartialLine)
    requires { length text.old.items + 4300 ≤ 8192 }
    ensures longer { length text.old.items ≤ length text.new.items }
    ensures verdict { (rest : List ℕ) → KeepsLine kept.now rest → AppendsText (λ t. IsLogVerdict client.old rest t client.new) text.old.items text.new.items }
{
    if kept.is_long {
        push_no_line(text, client);
        return;
    }
    match read_log_line(&kept.bytes) {
        Some(line) => {
            push_line_verdict(text, client.is_impossible(line.mark, &line.bytes), &line);
            client.take(line.mark, &line.bytes);
        }
        None => push_no_line(text, client),
    }
}

// Appends that a line is no log line. Nothing is known of the client any more.
fn push_no_line(text: &mut Outgoing, client: &mut LogClient)
    requires { length text.old.items + 4300 ≤ 8192 }
    ensures text { text.new.items ≡ text.old.items ++ codes "no log line\n" }
    ensures client { client.new ≡ nothing_known }
{
    append(text, b"no log line\n");
    *client = LogClient::new();
}

// Appends what is written of a log line: its moment and mark, the verdict on its bytes, what is remarked of it, of which `doubted` says
// whether it is an impossible reply, and a line feed.
fn push_line_verdict(text: &mut Outgoing, doubted: bool, line: &LogLine<'_>)
    requires short { length line.now.moment.now ≤ 2100 }
    requires room { length text.old.items + 4300 ≤ 8192 }
    ensures bytes { length line.now.bytes.items ≤ 514 }
    ensures verdict { AppendsText (IsMarkedVerdictLine doubted line.now.moment.now line.now.mark line.now.bytes.items) text.old.items text.new.items }
{
    append(text, line.moment);
    append(text, b" ");
    append(text, line.mark.text());
    append(text, b" ");
    push_marked_verdict(text, line.mark, &line.bytes);
    push_remark(text, doubted, line.mark, &line.bytes);
    append(text, b"\n");
}

// Appends what is remarked of a log line's bytes. There is room for it.
fn push_remark(text: &mut Outgoing, doubted: bool, mark: LogMark, bytes: &[u8])
    requires { length text.old.items + 20 ≤ 8192 }
    ensures items { text.new.items ≡ text.old.items ++ remark_text doubted mark bytes.now }
    ensures bound { length text.new.items ≤ length text.old.items + 20 }
{
    append(text, remark_text(doubted, mark, bytes));
}

// Appends what is written of a log line's bytes, by its mark: the verdict on a whole line, or on bytes that are no whole line; or
// the words about the connection or the log, as they are in the log. There is room for it.
fn push_marked_verdict(text: &mut Outgoing, mark: LogMark, bytes: &[u8])
    requires few { length bytes.now ≤ 514 }
    requires room { length text.old.items + 2100 ≤ 8192 }
    ensures items { AppendsText (IsMarkedVerdict mark bytes.now) text.old.items text.new.items }
    ensures bound { length text.new.items ≤ length text.old.items + 2100 }
{
    match mark {
        LogMark::Went | LogMark::Came => push_whole(text, bytes),
        LogMark::WentPart | LogMark::CamePart => push_part(text, bytes),
        LogMark::Link => append_escaped(text, bytes),
    }
}

// Appends the verdict on a line that went or came whole: `overlong` if it has more than 512 bytes, else that of `check`.
fn push_whole(text: &mut Outgoing, bytes: &[u8])
    requires { length text.old.items + 100 ≤ 8192 }
    ensures items { AppendsText (IsWholeVerdict bytes.now) text.old.items text.new.items }
    ensures bound { length text.new.items ≤ length text.old.items + 100 }
{
    if bytes.len() > 512 {
        push_verdict(text, Verdict::Overlong);
    } else {
        push_verdict(text, line_verdict(bytes));
    }
}

// Appends the verdict on bytes that are no whole line: `cleared` if they end in a line feed without a CR before it, else `part`.
fn push_part(text: &mut Outgoing, bytes: &[u8])
    requires { length text.old.items + 100 ≤ 8192 }
    ensures items { text.new.items ≡ text.old.items ++ part_verdict bytes.now }
    ensures bound { length text.new.items ≤ length text.old.items + 100 }
{
    if ends_cleared(bytes) {
        push_verdict(text, Verdict::Cleared);
    } else {
        append(text, b"part");
    }
}

// Whether the bytes end in a line feed without a CR before it.
fn ends_cleared(bytes: &[u8]) -> bool
    ensures { result ≡ ends_cleared bytes.now }
{
    let len = bytes.len();
    0 < len && bytes[len - 1] == b'\n' && (len == 1 || bytes[len - 2] != b'\r')
}
