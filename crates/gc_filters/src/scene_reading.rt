//! The reading of one line of a scene, of whatever kind: the forms of its lines are known here alone.

ghost use Rattle.std.specs.Prelude.{◌≡◌, ◌↔◌, IsTrue, MatchOption, codes};
ghost use Rattle.gc_texts.specs.Cuts.{behind};
ghost use Rattle.gc_texts.specs.LineForms.{IsReadAs};
ghost use Rattle.gc_texts.specs.Words.{second_word, third_word, fourth_word, after_two_words, after_three_words, after_four_words};
ghost use Rattle.gc_values.specs.Text.{IsText};
ghost use Rattle.gc_values.specs.Whole.{FitsLong, NamesWhole};
ghost use Rattle.gc_filters.specs.SceneLines.{Begins, IsAfter, IsAnswerLine, IsBlockedLine, IsDelayLine, IsDriftLine, IsFaultLine, IsLateReplyLine, IsNameLine, IsNoiseLine, IsSceneLine, IsSerialLine, IsSpan, IsStartLine, IsTargetLine, IsTimes, SaysRestart, Scripts, way_line};
ghost use Rattle.gc_filters.specs.SceneTroubles.{BeginsWith, IsLineRead, IsScriptRead, word_text};
ghost use Rattle.gc_filters.specs.declared.scene_trouble.SceneWord.{SceneWord};

use crate::scene_line::{Blocked, Drift, SceneLine, Span};
use crate::scene_trouble::{SceneTrouble, SceneWord};
use gc_catalogue::{RawFault, raw_call};
use gc_instrument::Target;
use gc_scenes::{Delay, Fault, Noise, Offset, Scripted, Way};
use gc_texts::{after_prefix, before, behind, is_word, read_double, u16_of, u32_of};
use gc_values::{Text, read_long};

// How many requests a fault meets whose line has no `for`: the greatest number of 32 bits. If its `after` isn't 0, it then never ends
// (`Span`).
const NO_END: u32 = 4294967295;

// The greatest number of a target: an instrument has at most 32 targets.
const TARGET_MAX: u32 = 32;

// The longest delay in milliseconds: an hour.
const DELAY_MAX: u32 = 3_600_000;

/// Reads one line of a scene. `Err`: it has the form of no such line, and this is at fault in it: `NoWord` if no line of a scene begins
/// with its first word; `Form` if it has too few fields or too many (`fits`); or the first field that doesn't read, or `Form` if it can't
/// be named.
pub(crate) fn read_scene_line(line: &[u8]) -> Result<SceneLine, SceneTrouble>
    ensures { IsLineRead (IsSceneLine line.now) line.now result }
{
    let Some(word) = word_of(before(b' ', line)) else {
        return Err(SceneTrouble::NoWord);
    };
    match read_behind(word, line) {
        Err(_) if !word.fits(fields_in(line)) => Err(SceneTrouble::Form(word)),
        read => read,
    }
}

// The word of a scene that these bytes spell. `None`: no line of a scene begins with them.
pub(crate) fn word_of(first: &[u8]) -> Option<SceneWord>
    ensures { IsReadAs (λ word. first.now ≡ word_text word) result }
{
    if is_word(b"serial", first) {
        return Some(SceneWord::Serial);
    }
    if is_word(b"name", first) {
        return Some(SceneWord::Name);
    }
    if is_word(b"target", first) {
        return Some(SceneWord::Target);
    }
    if is_word(b"fault", first) {
        return Some(SceneWord::Fault);
    }
    if is_word(b"answer", first) {
        return Some(SceneWord::Answer);
    }
    if is_word(b"blocked", first) {
        return Some(SceneWord::Blocked);
    }
    if is_word(b"drift", first) {
        return Some(SceneWord::Drift);
    }
    if is_word(b"noise", first) {
        return Some(SceneWord::Noise);
    }
    if is_word(b"repeats", first) {
        return Some(SceneWord::Repeats);
    }
    if is_word(b"behave", first) {
        return Some(SceneWord::Behave);
    }
    if is_word(b"delay", first) {
        return Some(SceneWord::Delay);
    }
    if is_word(b"busy", first) {
        return Some(SceneWord::Busy);
    }
    None
}

// How many fields a line has after its first word: one for each space.
fn fields_in(line: &[u8]) -> usize {
    line.iter().filter(|byte| **byte == b' ').count()
}

impl SceneWord {
    // Whether a line with this word may have so many fields. Of `name` and `answer`, whose last field may have spaces, and of `repeats`,
    // `behave` and `busy`, of which no field is named, this isn't asked, nor of `fault` whether it has too many.
    fn fits(self, fields: usize) -> bool {
        match self {
            SceneWord::Serial => fields == 1,
            SceneWord::Target | SceneWord::Blocked => fields == 3,
            SceneWord::Drift | SceneWord::Noise => fields == 4,
            SceneWord::Fault => fields >= 2,
            SceneWord::Delay => fields == 2,
            _ => true,
        }
    }
}

// Reads a line that begins with this word, as `read_scene_line` does, whatever the number of its fields.
fn read_behind(word: SceneWord, line: &[u8]) -> Result<SceneLine, SceneTrouble>
    requires { BeginsWith word line.now }
    ensures { IsLineRead (IsSceneLine line.now) line.now result }
{
    match word {
        SceneWord::Serial => Ok(SceneLine::Serial(read_serial(line)?)),
        SceneWord::Name => Ok(SceneLine::Name(read_name(line)?)),
        SceneWord::Target => Ok(SceneLine::Target(read_target(line)?)),
        SceneWord::Fault => read_fault_or_start(line),
        SceneWord::Answer => Ok(SceneLine::Answer(read_answer(line)?)),
        SceneWord::Blocked => Ok(SceneLine::Blocked(read_blocked(line)?)),
        SceneWord::Drift => Ok(SceneLine::Drift(read_drift(line)?)),
        SceneWord::Noise => Ok(SceneLine::Noise(read_noise(line)?)),
        SceneWord::Repeats => read_repeats(line),
        SceneWord::Behave => read_behave(line),
        SceneWord::Delay => Ok(SceneLine::Delay(read_delay(line)?)),
        SceneWord::Busy => read_busy(line),
    }
}

// The second word of a line.
fn second_word(line: &[u8]) -> &[u8]
    ensures { result.now ≡ second_word line.now }
{
    before(b' ', behind(b' ', line))
}

// What follows the first two words of a line.
fn after_two_words(line: &[u8]) -> &[u8]
    ensures { result.now ≡ after_two_words line.now }
{
    behind(b' ', behind(b' ', line))
}

// The third word of a line.
fn third_word(line: &[u8]) -> &[u8]
    ensures { result.now ≡ third_word line.now }
{
    before(b' ', after_two_words(line))
}

// What follows the first three words of a line.
fn after_three_words(line: &[u8]) -> &[u8]
    ensures { result.now ≡ after_three_words line.now }
{
    behind(b' ', after_two_words(line))
}

// The fourth word of a line.
fn fourth_word(line: &[u8]) -> &[u8]
    ensures { result.now ≡ fourth_word line.now }
{
    before(b' ', after_three_words(line))
}

// What follows the first four words of a line.
fn after_four_words(line: &[u8]) -> &[u8]
    ensures { result.now ≡ after_four_words line.now }
{
    behind(b' ', after_three_words(line))
}

// Reads `serial N`: a serial number, a whole number of 32 bits that may have a sign.
fn read_serial(line: &[u8]) -> Result<i32, SceneTrouble>
    requires { BeginsWith SceneWord.Serial line.now }
    ensures { IsLineRead (IsSerialLine line.now) line.now result }
{
    match long_of(behind(b' ', line)) {
        Some(serial) => Ok(serial),
        None => Err(SceneTrouble::Serial),
    }
}

// Reads a Long: a whole number of 32 bits, with or without a sign. `None`: the text writes none.
fn long_of(digits: &[u8]) -> Option<i32>
    ensures { IsReadAs (λ n. NamesWhole digits.now n × FitsLong n) result }
{
    read_long(digits).ok()
}

// Reads `name TEXT`: an instrument's name, of at most 64 bytes, without a double quote, a carriage return or a line feed.
fn read_name(line: &[u8]) -> Result<Text, SceneTrouble>
    requires { BeginsWith SceneWord.Name line.now }
    ensures { IsLineRead (IsNameLine line.now) line.now result }
{
    let Some(bytes) = after_prefix(b"name ", line) else {
        return Err(SceneTrouble::Form(SceneWord::Name));
    };
    match name_from(bytes) {
        Some(name) => Ok(name),
        None => Err(SceneTrouble::Name),
    }
}

// The name that these bytes are. `None`: they are more than 64, or one of them is a double quote, a carriage return or a line feed.
fn name_from(bytes: &[u8]) -> Option<Text>
    ensures { IsReadAs (λ name. (name ≡ bytes.now) × IsText name) result }
{
    Text::new(bytes).ok()
}

// Reads `target HZ V DISTANCE`: a target's angles in radians and its slope distance in metres, none of them further than 10^13 from
// zero.
fn read_target(line: &[u8]) -> Result<Target, SceneTrouble>
    requires { BeginsWith SceneWord.Target line.now }
    ensures { IsLineRead (IsTargetLine line.now) line.now result }
{
    let Some(hz) = read_double(second_word(line)) else {
        return Err(SceneTrouble::Hz);
    };
    let Some(v) = read_double(third_word(line)) else {
        return Err(SceneTrouble::V);
    };
    match read_double(after_three_words(line)) {
        Some(distance) => Ok(Target { hz, v, distance }),
        None => Err(SceneTrouble::Distance),
    }
}

// Reads a line `fault`: of a return code, or of the word `restart` in its place.
fn read_fault_or_start(line: &[u8]) -> Result<SceneLine, SceneTrouble>
    requires { BeginsWith SceneWord.Fault line.now }
    ensures { IsLineRead (IsSceneLine line.now) line.now result }
{
    if says_restart(line) {
        Ok(SceneLine::Start(read_start(line)?))
    } else {
        Ok(SceneLine::Fault(read_fault(line)?))
    }
}

// Whether the third word of a line is `restart`.
pub(crate) fn says_restart(line: &[u8]) -> bool
    ensures { IsTrue result ↔ SaysRestart line.now }
{
    is_word(b"restart", third_word(line))
}

// Reads `fault RPC RC [after COUNT] [for COUNT]`: a procedure, the return code that it is answered with, and which of its requests get
// this code. Without `for` the line may end in a space.
fn read_fault(line: &[u8]) -> Result<Fault, SceneTrouble>
    requires { BeginsWith SceneWord.Fault line.now }
    ensures { IsLineRead (IsFaultLine line.now) line.now result }
{
    let Some(rpc) = u16_of(second_word(line)) else {
        return Err(SceneTrouble::Rpc);
    };
    let Some(rc) = u16_of(third_word(line)) else {
        return Err(SceneTrouble::Rc);
    };
    match read_span(after_three_words(line)) {
        Some(span) => Ok(Fault::new(rpc, rc, span.after, span.times)),
        None => Err(SceneTrouble::Form(SceneWord::Fault)),
    }
}

// Reads `fault RPC restart [after COUNT] [for COUNT]`, whose third word is known: a procedure, and at which of its requests the
// instrument starts anew. Without `for` the line may end in a space. The return code of the fault is 0.
fn read_start(line: &[u8]) -> Result<Fault, SceneTrouble>
    requires begins { BeginsWith SceneWord.Fault line.now }
    requires restarts { SaysRestart line.now }
    ensures { IsLineRead (IsStartLine line.now) line.now result }
{
    let Some(rpc) = u16_of(second_word(line)) else {
        return Err(SceneTrouble::Rpc);
    };
    match read_span(after_three_words(line)) {
        Some(span) => Ok(Fault::new(rpc, 0, span.after, span.times)),
        None => Err(SceneTrouble::Form(SceneWord::Fault)),
    }
}

// What follows the first word of a line and the space behind it, if that word is `word`; empty where nothing follows. `None`: the line
// begins with another word.
fn behind_word<'a>(word: &[u8], line: &'a [u8]) -> Option<&'a [u8]>
    ensures { MatchOption result (Begins word.now line.now → ⊥) (λ rest. Begins word.now line.now × (rest.now ≡ behind 32 line.now)) }
{
    if !is_word(word, before(b' ', line)) {
        return None;
    }
    Some(behind(b' ', line))
}

// How many requests a fault meets: reads `for COUNT`, or nothing, which gives `NO_END`. `None`: the words have no such form.
fn read_times(words: &[u8]) -> Option<u32>
    ensures { IsReadAs (IsTimes words.now) result }
{
    if words.is_empty() {
        return Some(NO_END);
    }
    let count = behind_word(b"for", words)?;
    u32_of(count, u32::MAX)
}

// Reads `COUNT [for COUNT]`, the words that follow `after`. `None`: they have no such form.
fn read_after(words: &[u8]) -> Option<Span>
    ensures { IsReadAs (IsAfter words.now) result }
{
    let after = u32_of(before(b' ', words), u32::MAX)?;
    let times = read_times(behind(b' ', words))?;
    Some(Span { after, times })
}

// Reads nothing, `after COUNT`, `for COUNT`, or both. `None`: the words have no such form.
fn read_span(words: &[u8]) -> Option<Span>
    ensures { IsReadAs (IsSpan words.now) result }
{
    if let Some(rest) = behind_word(b"after", words) {
        return read_after(rest);
    }
    let times = read_times(words)?;
    Some(Span { after: 0, times })
}

// Reads `answer RPC RC[,PARAMS]`: a procedure that isn't in the table, and its reply (`scripted`). The comma may also stand without
// parameters.
fn read_answer(line: &[u8]) -> Result<Scripted, SceneTrouble>
    requires { BeginsWith SceneWord.Answer line.now }
    ensures { IsLineRead (IsAnswerLine line.now) line.now result }
{
    let from_rc = after_two_words(line);
    let Some(rpc) = u16_of(second_word(line)) else {
        return Err(SceneTrouble::Rpc);
    };
    let Some(rc) = u16_of(before(b',', from_rc)) else {
        return Err(SceneTrouble::Rc);
    };
    scripted(rpc, rc, behind(b',', from_rc))
}

// The reply with this code and these parameters to a procedure that isn't in the table. `InTable`: the procedure is in the table.
// `Params`: no request of it can have these parameters (`raw_call`). `Form`: they have more than the 490 bytes that a reply has room for.
fn scripted(rpc: u16, rc: u16, params: &[u8]) -> Result<Scripted, SceneTrouble>
    ensures { IsScriptRead rpc rc params.now result }
{
    match raw_call(rpc, params) {
        Ok(call) => match Scripted::new(call, rc) {
            Some(answer) => Ok(answer),
            None => Err(SceneTrouble::Form(SceneWord::Answer)),
        },
        Err(RawFault::InTable) => Err(SceneTrouble::InTable(rpc)),
        Err(_) => Err(SceneTrouble::Params),
    }
}

// Reads `blocked TARGET FROM TO`: a target, and the first and the last look in which it is hidden.
fn read_blocked(line: &[u8]) -> Result<Blocked, SceneTrouble>
    requires { BeginsWith SceneWord.Blocked line.now }
    ensures { IsLineRead (IsBlockedLine line.now) line.now result }
{
    let Some(target) = u32_of(second_word(line), TARGET_MAX) else {
        return Err(SceneTrouble::Target);
    };
    let Some(from) = u32_of(third_word(line), u32::MAX) else {
        return Err(SceneTrouble::From);
    };
    match u32_of(after_three_words(line), u32::MAX) {
        Some(to) => Ok(Blocked { target, from, to }),
        None => Err(SceneTrouble::To),
    }
}

// Reads `drift TARGET HZ V D`: a target, and the offset by which it moves with each measurement of it, in radians and metres.
fn read_drift(line: &[u8]) -> Result<Drift, SceneTrouble>
    requires { BeginsWith SceneWord.Drift line.now }
    ensures { IsLineRead (IsDriftLine line.now) line.now result }
{
    let Some(target) = u32_of(second_word(line), TARGET_MAX) else {
        return Err(SceneTrouble::Target);
    };
    let Some(hz) = read_double(third_word(line)) else {
        return Err(SceneTrouble::Hz);
    };
    let Some(v) = read_double(fourth_word(line)) else {
        return Err(SceneTrouble::V);
    };
    let Some(distance) = read_double(after_four_words(line)) else {
        return Err(SceneTrouble::Distance);
    };
    let by = Offset { hz, v, distance };
    Ok(Drift { target, by })
}

// Reads `noise HZ V D SEED`: the most by which measurements deviate, in radians and metres, and the seed.
fn read_noise(line: &[u8]) -> Result<Noise, SceneTrouble>
    requires { BeginsWith SceneWord.Noise line.now }
    ensures { IsLineRead (IsNoiseLine line.now) line.now result }
{
    let Some(hz) = read_double(second_word(line)) else {
        return Err(SceneTrouble::Hz);
    };
    let Some(v) = read_double(third_word(line)) else {
        return Err(SceneTrouble::V);
    };
    let Some(distance) = read_double(fourth_word(line)) else {
        return Err(SceneTrouble::Distance);
    };
    let Some(seed) = u32_of(after_four_words(line), u32::MAX) else {
        return Err(SceneTrouble::Seed);
    };
    Ok(Noise {
        hz,
        v,
        distance,
        seed,
    })
}

// Reads `repeats no`.
fn read_repeats(line: &[u8]) -> Result<SceneLine, SceneTrouble>
    requires { BeginsWith SceneWord.Repeats line.now }
    ensures { IsLineRead (IsSceneLine line.now) line.now result }
{
    if is_word(b"repeats no", line) {
        Ok(SceneLine::NoRepeats)
    } else {
        Err(SceneTrouble::Form(SceneWord::Repeats))
    }
}

// Reads a line `behave`: a way of real instruments, or late replies to a procedure.
fn read_behave(line: &[u8]) -> Result<SceneLine, SceneTrouble>
    requires { BeginsWith SceneWord.Behave line.now }
    ensures { IsLineRead (IsSceneLine line.now) line.now result }
{
    if let Some(way) = read_way(line) {
        return Ok(SceneLine::Behave(way));
    }
    match read_late(line) {
        Some(late) => Ok(SceneLine::Late(late)),
        None => Err(SceneTrouble::Form(SceneWord::Behave)),
    }
}

// Reads `behave WORD`: a way of real instruments, or all of them. `None`: the line has no such form.
fn read_way(line: &[u8]) -> Option<Way>
    ensures { IsReadAs (λ w. line.now ≡ way_line w) result }
{
    if is_word(b"behave faces", line) {
        return Some(Way::Faces);
    }
    if is_word(b"behave aims", line) {
        return Some(Way::Aims);
    }
    if is_word(b"behave takes", line) {
        return Some(Way::Takes);
    }
    if is_word(b"behave values", line) {
        return Some(Way::Values);
    }
    if is_word(b"behave clock", line) {
        return Some(Way::Clock);
    }
    if is_word(b"behave real", line) {
        return Some(Way::Real);
    }
    None
}

// Reads `behave busy-then-late RPC MS`: a procedure, and after how many milliseconds its reply comes, at most an hour. `None`: the line
// has no such form.
fn read_late(line: &[u8]) -> Option<Delay>
    ensures { IsReadAs (IsLateReplyLine line.now) result }
{
    let from_word = behind_word(b"behave", line)?;
    late_behind(from_word)
}

// Reads `busy-then-late RPC MS`, as `read_late`. `None`: the words have no such form.
fn late_behind(words: &[u8]) -> Option<Delay>
    ensures { IsReadAs (IsDelayLine (codes "busy-then-late") words.now) result }
{
    let from_rpc = behind_word(b"busy-then-late", words)?;
    let rpc = u16_of(before(b' ', from_rpc))?;
    let ms = u32_of(behind(b' ', from_rpc), DELAY_MAX)?;
    Some(Delay { rpc, ms })
}

// Reads `delay RPC MS`: a procedure, and a delay in milliseconds, of at most an hour.
fn read_delay(line: &[u8]) -> Result<Delay, SceneTrouble>
    requires { BeginsWith SceneWord.Delay line.now }
    ensures { IsLineRead (IsDelayLine (word_text SceneWord.Delay) line.now) line.now result }
{
    let Some(rpc) = u16_of(second_word(line)) else {
        return Err(SceneTrouble::Rpc);
    };
    match u32_of(after_two_words(line), DELAY_MAX) {
        Some(ms) => Ok(Delay { rpc, ms }),
        None => Err(SceneTrouble::Ms),
    }
}

// Reads `busy queue` or `busy drop`.
fn read_busy(line: &[u8]) -> Result<SceneLine, SceneTrouble>
    requires { BeginsWith SceneWord.Busy line.now }
    ensures { IsLineRead (IsSceneLine line.now) line.now result }
{
    if is_word(b"busy queue", line) {
        return Ok(SceneLine::Queues);
    }
    if is_word(b"busy drop", line) {
        return Ok(SceneLine::Drops);
    }
    Err(SceneTrouble::Form(SceneWord::Busy))
}
