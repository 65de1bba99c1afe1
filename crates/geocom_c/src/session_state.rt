//! A session in plain bytes: a state is read whole or not at all, and what a session leaves is written back.

ghost use Rattle.std.specs.Prelude.{◌≡◌, ◌≤◌, ℕ, List, [], None, Some, IfSome, Option};
ghost use Rattle.gc_client.specs.Rule.{IsWidth};
ghost use Rattle.gc_client.specs.declared.window.TheConstants.{WINDOW};
ghost use Rattle.gc_session.specs.declared.exchange.Exchange.{Exchange};
ghost use Rattle.gc_session.specs.declared.standing.Phase.{Phase};
ghost use Rattle.gc_session.specs.declared.standing.Standing.{Standing};
ghost use Rattle.gc_session.specs.Sessions.{Session, opening};
ghost use Rattle.geocom_c.specs.Rest.{kept_bytes};
ghost use Rattle.geocom_c.specs.SessionState.{AreCounts, HoldsExchange, HoldsStanding, IsOfNoSession, KeepsClient, RestsSince, StandsForSession, StoresSession, flag_byte, phase_byte};

use crate::rest::GeocomRest;
use crate::state::{GeocomClient, flag_of, fresh, load, store};
use gc_client::{Beginning, WINDOW};
use gc_session::{Exchange, Phase, Session, Settings, Standing};

/// A session. All moments and times are in milliseconds of one clock of the caller's.
#[repr(C)]
#[derive(Clone, Copy)]
pub struct GeocomSession {
    /// Its client, of width 7: what is outstanding, the bytes of an incomplete line, and how far the synchronization is.
    pub client: GeocomClient,
    /// How long a null procedure waits for its reply.
    pub timeout: u64,
    /// How long a new connection has to be quiet, and the first pause lasts.
    pub settle: u64,
    /// The last moment that the session was told.
    pub moment: u64,
    /// The longest wait of a request since nothing was outstanding, at least `timeout`.
    pub patience: u64,
    /// How often a connection was closed or couldn't be made, or the session resynchronized.
    pub interruptions: u64,
    /// How many sign-ons came since the first request was asked.
    pub sign_ons: u64,
    /// Since when nothing is wanted, if `is_idle` is 1.
    pub idle_since: u64,
    /// The deadline of the null procedure that the synchronization sent last on this connection; 0: none was sent.
    pub null_deadline: u64,
    /// Until when nothing is asked; 0: nothing holds requests back.
    pub hold_until: u64,
    /// From when a pause, or `settle`, counts.
    pub wait_since: u64,
    /// From when the time without a reply counts, after which the line is dead.
    pub no_reply_since: u64,
    /// The length of the current pause, or of the last one; 0: the next one lasts `settle`.
    pub pause: u64,
    /// How many requests that haven't timed out may be in flight, 1 to 7.
    pub width: u8,
    /// 0 without a connection, 1 in a pause before the next one, 2 before its line feed, 3 until it is quiet, 4 ready.
    pub phase: u8,
    /// 1 if nothing is wanted; otherwise 0.
    pub is_idle: u8,
    /// 1 if a request was asked; otherwise 0.
    pub has_asked: u8,
    /// 1 if a request was sent on this connection, and since then no reply line came; otherwise 0.
    pub awaits_reply: u8,
    /// 1 if something came that calls for another synchronization; otherwise 0.
    pub must_resynchronize: u8,
    /// How many requests were sent after the last call of the table that a reply ended, at most 7.
    pub requests_since_table_call: u8,
    /// How many requests the last line ended that ended any, 1 to 7.
    pub last_ended: u8,
    /// 1 if the caller was to read since what came last on this connection; otherwise 0.
    pub has_listened: u8,
}

// What `load` and `store` write as a phase.
const DOWN: u8 = 0;

const PAUSING: u8 = 1;

const CLEARING: u8 = 2;

const DRAINING: u8 = 3;

const READY: u8 = 4;

// The window's size, as a state has it.
const FULL: u8 = WINDOW as u8;

// A new session with these settings, without a connection.
pub(crate) fn new_session(width: u8, timeout: u64, quiet: u64) -> GeocomSession
    requires { IsWidth width }
    ensures { StandsForSession result (opening (record { width = width; timeout = timeout; quiet = quiet })) [] }
{
    GeocomSession {
        client: fresh(FULL),
        timeout: timeout.max(1),
        settle: quiet,
        moment: 0,
        patience: timeout.max(1),
        interruptions: 0,
        sign_ons: 0,
        idle_since: 0,
        null_deadline: 0,
        hold_until: 0,
        wait_since: 0,
        no_reply_since: 0,
        pause: 0,
        width: width.max(1).min(7),
        phase: DOWN,
        is_idle: 0,
        has_asked: 0,
        awaits_reply: 0,
        must_resynchronize: 0,
        requests_since_table_call: FULL,
        last_ended: 1,
        has_listened: 0,
    }
}

// The phase that a byte stands for. `None`: it stands for none.
fn phase_of(byte: u8) -> Option<Phase>
    ensures found { IfSome result (λ phase. byte ≡ phase_byte phase) }
    ensures only { (phase : Phase) → byte ≡ phase_byte phase → result ≡ Some phase }
{
    match byte {
        DOWN => Some(Phase::Down),
        PAUSING => Some(Phase::Pausing),
        CLEARING => Some(Phase::Clearing),
        DRAINING => Some(Phase::Draining),
        READY => Some(Phase::Ready),
        _ => None,
    }
}

// The byte of a phase.
pub(crate) fn phase_byte(phase: Phase) -> u8
    ensures { result ≡ phase_byte phase }
{
    match phase {
        Phase::Down => DOWN,
        Phase::Pausing => PAUSING,
        Phase::Clearing => CLEARING,
        Phase::Draining => DRAINING,
        Phase::Ready => READY,
    }
}

// Since when nothing is wanted, as a flag and a moment say. `None`: the flag is none.
fn rests_of(is_resting: u8, rested: u64) -> Option<Option<u64>>
    ensures found { IfSome result (λ rests. RestsSince is_resting rested rests) }
    ensures only { (rests : Option ℕ) → RestsSince is_resting rested rests → result ≡ Some rests }
{
    match is_resting {
        0 => Some(None),
        1 => Some(Some(rested)),
        _ => None,
    }
}

// The flag and the moment of since when nothing is wanted.
fn rests_bytes(rests: Option<u64>) -> (u8, u64)
    ensures { RestsSince result.0 result.1 rests }
{
    match rests {
        Some(since) => (1, since),
        None => (0, 0),
    }
}

// The exchange that a state's bytes stand for. `None`: they stand for none.
fn read_exchange(state: &GeocomSession) -> Option<Exchange>
    requires { state.now.client.answered ≤ 8 }
    ensures found { IfSome result (λ exchange. HoldsExchange state.now exchange) }
    ensures only { (exchange : Exchange) → HoldsExchange state.now exchange → result ≡ Some exchange }
{
    let asked = flag_of(state.awaits_reply)?;
    let doubtful = flag_of(state.must_resynchronize)?;
    if state.requests_since_table_call > FULL || state.last_ended < 1 || state.last_ended > FULL {
        return None;
    }
    Some(Exchange {
        word: Beginning::resume(usize::from(state.client.answered)),
        again: state.null_deadline,
        hold: state.hold_until,
        since: state.wait_since,
        alive: state.no_reply_since,
        asked,
        pause: state.pause,
        behind: usize::from(state.requests_since_table_call),
        last_ended: usize::from(state.last_ended),
        doubtful,
    })
}

// The standing that a state's bytes stand for. `None`: they stand for none.
fn read_standing(state: &GeocomSession) -> Option<Standing>
    requires { state.now.client.answered ≤ 8 }
    ensures found { IfSome result (λ standing. HoldsStanding state.now standing) }
    ensures only { (standing : Standing) → HoldsStanding state.now standing → result ≡ Some standing }
{
    let phase = phase_of(state.phase)?;
    let rests = rests_of(state.is_idle, state.idle_since)?;
    let has_asked = flag_of(state.has_asked)?;
    let listened = flag_of(state.has_listened)?;
    let exchange = read_exchange(state)?;
    Some(Standing {
        phase,
        moment: state.moment,
        patience: state.patience,
        stretch: state.interruptions,
        sign_ons: state.sign_ons,
        has_asked,
        rests,
        listened,
        exchange,
    })
}

// The session that a state's bytes stand for. `None`: they stand for no session.
pub(crate) fn load_session(state: &GeocomSession) -> Option<Session>
    ensures found { IfSome result (λ session. StandsForSession state.now session (kept_bytes state.now.client.rest)) }
    ensures only { (session : Session) (rest : List ℕ) → StandsForSession state.now session rest → result ≡ Some session }
    ensures none { result ≡ None → IsOfNoSession state.now }
{
    if state.width < 1 || state.width > FULL || state.client.width != FULL {
        return None;
    }
    let Some(client) = load(&state.client) else {
        return None;
    };
    let Some(standing) = read_standing(state) else {
        return None;
    };
    let settings = Settings {
        width: state.width,
        timeout: state.timeout,
        quiet: state.settle,
    };
    Some(Session::resume(settings, standing, client))
}

// Stores a standing in a state, all but its client and its settings.
fn write_standing(state: &mut GeocomSession, standing: &Standing)
    requires { AreCounts standing.now.exchange }
    ensures standing { HoldsStanding state.new standing.now }
    ensures client { KeepsClient state.old.client state.new.client }
{
    let exchange = &standing.exchange;
    let (is_resting, rested) = rests_bytes(standing.rests);
    state.client.answered = exchange.word.answered() as u8;
    state.moment = standing.moment;
    state.patience = standing.patience;
    state.interruptions = standing.stretch;
    state.sign_ons = standing.sign_ons;
    state.idle_since = rested;
    state.null_deadline = exchange.again;
    state.hold_until = exchange.hold;
    state.wait_since = exchange.since;
    state.no_reply_since = exchange.alive;
    state.pause = exchange.pause;
    state.phase = phase_byte(standing.phase);
    state.is_idle = is_resting;
    state.has_asked = u8::from(standing.has_asked);
    state.awaits_reply = u8::from(exchange.asked);
    state.must_resynchronize = u8::from(exchange.doubtful);
    state.requests_since_table_call = exchange.behind as u8;
    state.last_ended = exchange.last_ended as u8;
    state.has_listened = u8::from(standing.listened);
}

// Stores a session in a state. The bytes of an incomplete line stay as they are.
pub(crate) fn store_session(state: &mut GeocomSession, session: Session)
    requires { AreCounts session.standing.exchange }
    ensures { StoresSession state.old state.new session }
{
    let (settings, standing, client) = session.into_parts();
    write_standing(state, &standing);
    state.width = settings.width;
    state.timeout = settings.timeout;
    state.settle = settings.quiet;
    store(&mut state.client, client);
}

// Stores a session in a state, and discards the bytes of an incomplete line.
pub(crate) fn store_cut(state: &mut GeocomSession, session: Session)
    requires { AreCounts session.standing.exchange }
    ensures { IsWidth session.settings.width → StandsForSession state.new session [] }
{
    state.client.rest = GeocomRest::new();
    store_session(state, session);
}
