//! A session: everything between "this request, with this deadline" and "this settlement", over any number of connections.

ghost use Rattle.std.specs.Prelude.{◌≡◌, ◌≤◌, ◌<◌, true, false, length, ◌↔◌, Some, IsOk, IsErr, Err, OnOk};
ghost use Rattle.gc_lines.specs.Lines.{IsPlain};
ghost use Rattle.gc_catalogue.specs.Asked.{IsAskedReading, asked_line};
ghost use Rattle.gc_client.specs.Rule.{hears_line};
ghost use Rattle.gc_client.specs.Hearing.{HearsInto};
ghost use Rattle.gc_client.specs.Settlements.{AreSettledBy};
ghost use Rattle.gc_client.specs.declared.window.TheConstants.{WINDOW};
ghost use Rattle.gc_session.specs.Sessions.{IsActFor, all_of, anew, anew_settles, asked, at_step, came, closed, current_of, line_came, line_of, line_settles, may_send, next_of, opened, opening, passed, settled_by, stepped, null_line, null_asked, renewed, done, flushed, line_heard, is_ready, takes};
ghost use Rattle.gc_session.specs.Sessions;
ghost use Rattle.gc_session.specs.declared.next.Next.TheVariants.{Renew, Flush};
ghost use Rattle.gc_session.specs.declared.session.TheConstants.{OWN};
ghost use Rattle.gc_session.specs.declared.session.NotTaken.TheVariants.{OwnTarget};
ghost use Rattle.gc_session.specs.Exchange.{has_begun};
ghost use Rattle.gc_session.specs.declared.settings.Want.TheVariants.{Send};

use crate::exchange::{Exchange, later};
use crate::lines::{calls_for_renewal, heard_reply};
use crate::load::width_within;
use crate::next::Next;
use crate::settings::{Act, Settings, Want};
use crate::standing::{Phase, Standing};
use arrayvec::ArrayVec;
use gc_catalogue::{Asked, Call};
use gc_client::{Client, Hearing, Settlement, SlotsOf, WINDOW};
use gc_lines::Line;
use gc_texts::is_sign_on;
use std::marker::Model;

/// The target of a session's own null procedures, in their settlements.
pub const OWN: u32 = 4_294_967_295;

/// Why a request isn't taken. Nothing has changed then.
#[derive(Clone, Copy, PartialEq, Eq, Debug)]
pub enum NotTaken {
    /// It isn't a request's turn: what is next isn't [`Act::Ask`].
    NotNow,
    /// The target is that of the session's own requests, [`OWN`].
    OwnTarget,
}

/// A session: what its caller asks is sent once nothing hinders it, over whatever connections that takes, and settled once, in the order of
/// sending. It has neither a port nor a clock: its caller has both, and a loop (`crates/gc_cases/src/own_station` is an example).
///
/// 1. `step` with what is wanted and the moment, and do what it returns.
/// 2. Report what came of that: `opened` or `closed`; `came`, and then each line to `hear`.
/// 3. Go on at 1.
///
/// Each line that `step` or `ask` gives counts as sent: write it once, whole, with CR LF. If that fails, close the connection, and call
/// `closed`. Settlements with the target [`OWN`] are of the session's own null procedures.
#[derive(Drop)]
pub struct Session {
    pub(crate) settings: Settings,
    pub(crate) standing: Standing,
    pub(crate) client: Client<SlotsOf<Asked>>,
}

impl Model for Session {
    ghost use Rattle.std.specs.Prelude.{◌≡◌};
    ghost use Rattle.gc_client.specs.declared.window.TheConstants.{WINDOW};
    ghost use Rattle.gc_session.specs.Sessions;

    ghost Value = { Sessions.Session };

    ghost view = { λ s. record { settings = s.settings; standing = s.standing; client = s.client.ids } };

    ghost invariant = { λ s. s.client.width ≡ WINDOW };
}

impl Session {
    /// Starts a session, without a connection. A width outside of 1 to 7 counts as the nearest of these, and a timeout of 0 as 1.
    pub fn new(settings: Settings) -> Session
        ensures { result ≡ opening settings }
    {
        let settings = Settings {
            width: width_within(settings.width),
            timeout: settings.timeout.max(1),
            quiet: settings.quiet,
        };
        Session {
            settings,
            standing: Standing::new(&settings),
            client: Client::new(SlotsOf::new()),
        }
    }

    /// How many requests are outstanding, timed-out ones included.
    pub fn waiting(&self) -> usize
        ensures { result ≡ all_of self.now }
    {
        self.client.waiting()
    }

    /// How many outstanding requests haven't timed out.
    pub fn current(&self) -> usize
        ensures { result ≡ current_of self.now }
    {
        self.client.current()
    }

    // Notes the moment `now`, by which nothing came: requests whose deadline has come time out, and a pause or a draining may be over.
    fn pass(&mut self, now: u64)
        ensures { self.new ≡ passed now self.old }
    {
        let _ = self.client.expire(now);
        self.standing.pass(now);
        let settings = self.settings;
        self.standing.end_quiet_phase(&settings);
    }

    /// Reports that a connection was made: a line feed comes first on it.
    pub fn opened(&mut self, now: u64)
        ensures { self.new ≡ opened now self.old }
    {
        let _ = self.client.expire(now);
        self.standing.connect(now);
    }

    /// Reports that the connection ended, failed or was closed, or that none could be made. What is outstanding stays so.
    pub fn closed(&mut self, now: u64)
        ensures { self.new ≡ closed now self.old }
    {
        let _ = self.client.expire(now);
        let settings = self.settings;
        self.standing.disconnect(&settings, now);
    }

    /// Reports that bytes came by the moment `now`, at least one. Then hand each line that they end to `hear`.
    pub fn came(&mut self, now: u64)
        ensures { self.new ≡ came now self.old }
    {
        let _ = self.client.expire(now);
        self.standing.take(now);
    }

    // The line of the null procedure of the first id of the synchronization that isn't answered; no bytes if all are.
    fn null_line(&self) -> Line
        ensures { result.items ≡ null_line self.now.standing.exchange.word }
    {
        match self.standing.exchange.word.ask() {
            Some(line) => line,
            None => Line::new(),
        }
    }

    // Sends the null procedure of the first id of the synchronization that isn't answered.
    fn send_null(&mut self, line: &mut Line)
        ensures session { self.new ≡ null_asked self.old }
        ensures line { line.new.items ≡ null_line self.old.standing.exchange.word }
    {
        *line = self.null_line();
        self.standing
            .exchange
            .note_null(self.standing.moment, self.settings.timeout);
    }

    // Loses all that is outstanding, and synchronizes anew.
    fn renew(&mut self) -> ArrayVec<Settlement<Asked>, WINDOW>
        ensures session { self.new ≡ renewed self.old }
        ensures settled { AreSettledBy IsAskedReading result.items (settled_by Renew self.old) }
    {
        let settings = self.settings;
        self.standing.renew(&settings);
        self.client.restart()
    }

    // Does what is next. What is lost by that is written to `settled`, and the line that is to be written to `line`.
    fn make(
        &mut self,
        next: Next,
        settled: &mut ArrayVec<Settlement<Asked>, WINDOW>,
        line: &mut Line,
    )
        requires { next ≡ Flush → length self.old.client.waiting < WINDOW }
        ensures session { self.new ≡ done next self.old }
        ensures settled { AreSettledBy IsAskedReading settled.new.items (settled_by next self.old) }
        ensures line { line.new.items ≡ line_of next self.old }
    {
        settled.clear();
        line.clear();
        match next {
            Next::Clear => self.standing.note_cleared(),
            Next::Null => self.send_null(line),
            Next::Flush => self.flush(line),
            Next::Renew => {
                *settled = self.renew();
                self.send_null(line);
            }
            Next::Read => self.standing.listened = true,
            _ => {}
        }
    }

    // Sends a null procedure of the client.
    fn flush(&mut self, line: &mut Line)
        requires { length self.old.client.waiting < WINDOW }
        ensures session { self.new ≡ flushed self.old }
        ensures line { line.new.items ≡ line_of Flush self.old }
    {
        let deadline = later(self.standing.moment, self.settings.timeout);
        let null = Asked::Table(Call::NullProc);
        let Ok(()) = self.client.send_into(OWN, &null, deadline, line) else {
            unreachable!()
        };
        self.standing.exchange.note_request(self.standing.moment);
    }

    /// What the caller does next at the moment `now`, if this is wanted. A line that is to be written counts as sent from now on: it is
    /// written to `line`, without CR LF. If the session resynchronizes, all that is outstanding is lost: `settled` has the settlements, in
    /// the order of sending, and else none.
    pub fn step(
        &mut self,
        want: Want,
        now: u64,
        settled: &mut ArrayVec<Settlement<Asked>, WINDOW>,
        line: &mut Line,
    ) -> Act
        ensures session { self.new ≡ stepped want now self.old }
        ensures act { IsActFor want (at_step want now self.old) result }
        ensures settled { AreSettledBy IsAskedReading settled.new.items (settled_by (next_of want (at_step want now self.old)) (at_step want now self.old)) }
        ensures line { line.new.items ≡ line_of (next_of want (at_step want now self.old)) (at_step want now self.old) }
    {
        self.standing.attend(want, now);
        self.pass(now);
        let next = self.next(want);
        let act = self.act_for(next, want);
        self.make(next, settled, line);
        act
    }

    /// Whether it is a request's turn: `ask` would take one now.
    pub fn may_ask(&self) -> bool
        ensures { result ≡ may_send (next_of Send self.now) }
    {
        match self.next(Want::Send) {
            Next::Ask => true,
            _ => false,
        }
    }

    /// Sends a request, which has to be answered within `wait` milliseconds from the last moment that the session was told, and writes its
    /// line, without CR LF, into `line`. The target is returned with the settlement. `Err`: it isn't a request's turn, or the target is that
    /// of the session's own requests, and nothing has changed.
    pub fn ask(
        &mut self,
        target: u32,
        call: &Asked,
        wait: u64,
        line: &mut Line,
    ) -> Result<(), NotTaken>
        ensures session { self.new ≡ asked target call.now wait self.old }
        ensures taken { IsOk result ↔ (takes target self.old ≡ true) }
        ensures own { (result ≡ Err OwnTarget) ↔ (target ≡ OWN) }
        ensures line { OnOk result (line.new.items ≡ asked_line (Some self.old.client.next) call.now) }
        ensures plain { OnOk result (IsPlain line.new.items) }
        ensures refused { IsErr result → line.new.items ≡ line.old.items }
    {
        if target == OWN {
            return Err(NotTaken::OwnTarget);
        }
        if !self.may_ask() {
            return Err(NotTaken::NotNow);
        }
        let deadline = later(self.standing.moment, wait);
        let Ok(()) = self.client.send_into(target, call, deadline, line) else {
            unreachable!()
        };
        self.standing.note_request(wait);
        Ok(())
    }

    // Hears a line with the client, once the session has synchronized.
    fn hear_line(
        &mut self,
        line: &[u8],
        settled: &mut ArrayVec<Settlement<Asked>, WINDOW>,
    ) -> Hearing
        requires { length line.now ≤ 512 }
        ensures session { self.new ≡ line_heard line.now self.old }
        ensures heard { HearsInto self.old.client line.now result settled.new.items self.new.client }
        ensures settled { AreSettledBy IsAskedReading settled.new.items (hears_line self.old.client line.now).settlements }
    {
        let doubt = calls_for_renewal(&self.client, line);
        let hearing = self.client.hear(line, settled);
        let waiting = self.client.waiting();
        let (moment, settings) = (self.standing.moment, self.settings);
        self.standing.note_waiting(waiting, &settings);
        let exchange = &mut self.standing.exchange;
        exchange.note_doubt(doubt);
        exchange.note_heard(moment, heard_reply(hearing), settled.as_slice(), waiting);
        if !settled.is_empty() {
            exchange.pause = 0;
        }
        hearing
    }

    /// Hears a line that came by the last moment that the session was told, without its CR LF, of at most 512 bytes. Once the session has
    /// synchronized, what it settles is written to `settled`, in the order of sending, and else nothing is. Without a connection that is
    /// ready the line is discarded.
    pub fn hear(&mut self, line: &[u8], settled: &mut ArrayVec<Settlement<Asked>, WINDOW>)
        requires { length line.now ≤ 512 }
        ensures session { self.new ≡ line_came line.now self.old }
        ensures settled { AreSettledBy IsAskedReading settled.new.items (line_settles line.now self.old) }
    {
        settled.clear();
        let is_cut = is_sign_on(line);
        self.standing.note_sign_on(is_cut);
        if self.standing.phase != Phase::Ready {
            return;
        }
        if !self.standing.exchange.has_begun() {
            self.standing
                .exchange
                .hear_synchronizing(self.standing.moment, line);
        } else if !is_cut {
            let _ = self.hear_line(line, settled);
        }
    }

    /// Begins anew: all that is outstanding is lost, and is returned in the order of sending. If there is a connection, a line feed comes
    /// first on it. If the session had synchronized, it synchronizes again; else it goes on with the null procedure that it was at.
    pub fn restart(&mut self) -> ArrayVec<Settlement<Asked>, WINDOW>
        ensures session { self.new ≡ anew self.old }
        ensures settled { AreSettledBy IsAskedReading result.items (anew_settles (has_begun self.old.standing.exchange) self.old) }
    {
        let begun = self.standing.exchange.has_begun();
        self.standing.clear_anew();
        if begun {
            self.renew()
        } else {
            self.standing.ask_again();
            ArrayVec::new()
        }
    }

    /// Takes a session apart: its settings, its standing and its client.
    pub fn into_parts(self) -> (Settings, Standing, Client<SlotsOf<Asked>>)
        ensures settings { result.0 ≡ self.settings }
        ensures standing { result.1 ≡ self.standing }
        ensures client { result.2 ≡ record { width = WINDOW; ids = self.client } }
    {
        (self.settings, self.standing, self.client)
    }

    /// Makes a session again of the parts of another one.
    pub fn resume(settings: Settings, standing: Standing, client: Client<SlotsOf<Asked>>) -> Session
        requires { client.width ≡ WINDOW }
        ensures { result ≡ record { settings = settings; standing = standing; client = client.ids } }
    {
        Session {
            settings,
            standing,
            client,
        }
    }

    /// How far the session is.
    pub fn standing(&self) -> &Standing
        ensures { result.now ≡ self.now.standing }
    {
        &self.standing
    }

    /// Whether a request's turn comes as soon as there is room: the session has synchronized, its connection is quiet, and nothing called
    /// for another synchronization.
    pub fn is_ready(&self) -> bool
        ensures { result ≡ is_ready self.now }
    {
        self.standing.phase == Phase::Ready
            && self.standing.exchange.has_begun()
            && !self.standing.exchange.doubtful
    }
}
