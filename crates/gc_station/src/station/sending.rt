//! What a station sends: the line feed on a new connection, which ends a request that was cut off before, and requests. A request
//! whose write is cut counts as sent, and the connection is to be closed for that (`note_cut`).

ghost use Rattle.std.specs.Prelude.{◌≡◌, ◌<◌, ◌≤◌, [], ◌∷◌, false, length, Option};
ghost use Rattle.gc_lines.specs.Lines.{with_end};
ghost use Rattle.gc_links.specs.Acts.{AddsActs, put_act, IsPartIfErr};
ghost use Rattle.gc_station.specs.Deciding.{has_begun};
ghost use Rattle.gc_station.specs.Marks.{occasion_of};
ghost use Rattle.gc_station.specs.Model.{next_request_text, null_text, request_for, null_request, request_of_setup};
ghost use Rattle.gc_station.specs.Stations.{CanSend, MakesMoveAlone, cut_progress, station_asking};
ghost use Rattle.gc_station.specs.declared.progress.Action.TheVariants.{Clear, Ask, Prepare, Send, Flush};

use super::Station;
use crate::cause::Cause;
use crate::mark::Mark;
use crate::plan::Plan;
use gc_catalogue::{Asked, Call};
use gc_lines::{Line, with_end};
use gc_links::Link;
use gc_session::later;
use gc_texts::{Occasion, Task, Wish};

// A request that is to be sent: its command; for how many milliseconds it waits; and its mark, `None` for a null procedure.
#[derive(Clone, Copy)]
pub(crate) struct Outgoing {
    pub(crate) command: Wish,
    pub(crate) wait: u64,
    pub(crate) mark: Option<Mark>,
}

// What a request with this mark takes from the moment at which it is sent: that moment, and the values of files.
fn occasion_of(mark: &Mark) -> Occasion
    ensures { result ≡ occasion_of mark.now }
{
    Occasion {
        utc: mark.sent,
        values: mark.expected.values,
    }
}

// The request for the command of a task, with this mark. A task that sets the clock asks for the moment of the mark, and one that takes
// values of files for those of the mark (`call_at`).
fn request_for(task: &Task, mark: Mark) -> Outgoing
    ensures { result ≡ request_for mark task.entry.now }
{
    Outgoing {
        command: Wish {
            target: task.command.target,
            call: task.call_at(&occasion_of(&mark)),
        },
        wait: task.deadline,
        mark: Some(mark),
    }
}

// The request for a null procedure of the station's own: it is for no target, and waits for the plan's deadline.
fn null_request(plan: &Plan) -> Outgoing
    ensures { result ≡ null_request plan.now }
{
    Outgoing {
        command: Wish {
            target: 0,
            call: Asked::Table(Call::NullProc),
        },
        wait: plan.deadline,
        mark: None,
    }
}

// Writes a line and then CR LF, as one call of the link. `Err`: the write was cut, with the number of bytes that were sent.
fn put_line<L: Link>(link: &mut L, line: &Line) -> Result<(), usize>
    ensures tells { AddsActs (L.acts link.old) (L.acts link.new) (put_act result (with_end line.now.items) ∷ []) }
    ensures part { IsPartIfErr result (with_end line.now.items) }
{
    link.put(&with_end(line))
}

impl Station {
    // Notes, if a write was cut (`put` is `Err`, with the number of bytes that were sent), that the connection is to be closed for
    // that. `requests` is the number that `commands_before` returned before the write: sending a command moves it on.
    fn note_cut(&mut self, put: Result<(), usize>, requests: usize)
        ensures { self.new ≡ record self.old { progress = cut_progress put requests self.old.progress } }
    {
        if let Err(bytes) = put {
            self.progress.fail(Cause::Write { requests, bytes });
        }
    }

    // Sends the lone line feed that clears a new connection. A cut write is noted, by `note_cut`.
    pub(super) fn clear<L: Link>(&mut self, link: &mut L, plan: &Plan, commands: &[Task])
        ensures { MakesMoveAlone plan.now commands.now Clear (L.acts link.old) (L.acts link.new) self.old self.new }
    {
        let requests = self.commands_before(plan, commands);
        let put = link.put(b"\n");
        self.progress.note_cleared();
        self.note_cut(put, requests);
    }

    // Sends a request. `Err`: the write was cut, with the number of bytes that were sent. The request is outstanding then, too.
    fn ask<L: Link>(&mut self, link: &mut L, asking: &Outgoing) -> Result<(), usize>
        requires { CanSend self.old }
        ensures tells { AddsActs (L.acts link.old) (L.acts link.new) (put_act result (next_request_text self.old.client.ids asking.now.command.call) ∷ []) }
        ensures part { IsPartIfErr result (next_request_text self.old.client.ids asking.now.command.call) }
        ensures asks { self.new ≡ station_asking asking.now self.old }
    {
        let command = &asking.command;
        let deadline = later(self.progress.moment.elapsed, asking.wait);
        let mut line = Line::new();
        let Ok(()) = self
            .client
            .send_into(command.target, &command.call, deadline, &mut line)
        else {
            unreachable!()
        };
        self.marks.push(asking.mark);
        put_line(link, &line)
    }

    // Writes the request line of the first null procedure of the synchronization that isn't answered. `Err`: the write was cut,
    // with the number of bytes that were sent.
    fn put_null<L: Link>(&self, link: &mut L) -> Result<(), usize>
        requires { has_begun self.now.progress ≡ false }
        ensures tells { AddsActs (L.acts link.old) (L.acts link.new) (put_act result (null_text self.now.progress.exchange.word) ∷ []) }
        ensures part { IsPartIfErr result (null_text self.now.progress.exchange.word) }
    {
        let Some(line) = self.progress.exchange.word.ask() else {
            unreachable!()
        };
        put_line(link, &line)
    }

    // Sends the null procedure of the first id that isn't answered, and notes its deadline; and a cut write, by `note_cut`.
    pub(super) fn ask_null<L: Link>(&mut self, link: &mut L, plan: &Plan, commands: &[Task])
        requires { has_begun self.old.progress ≡ false }
        ensures { MakesMoveAlone plan.now commands.now Ask (L.acts link.old) (L.acts link.new) self.old self.new }
    {
        let requests = self.commands_before(plan, commands);
        let put = self.put_null(link);
        self.progress.note_null(plan);
        self.note_cut(put, requests);
    }

    // Sends the cycle's next command, and notes a cut write (`note_cut`). One that sets the clock asks for the moment of its mark.
    pub(super) fn send<L: Link>(&mut self, link: &mut L, plan: &Plan, commands: &[Task])
        requires ready { CanSend self.old }
        requires unsent { 0 < self.old.progress.unsent }
        requires within { self.old.progress.unsent ≤ length commands.now }
        ensures { MakesMoveAlone plan.now commands.now Send (L.acts link.old) (L.acts link.new) self.old self.new }
    {
        let requests = self.commands_before(plan, commands);
        let mark = self.mark_sent(plan, commands);
        let task = &commands[self.place(commands)];
        let next = self.upcoming_after(plan, 1, commands);
        let asking = request_for(task, mark);
        let put = self.ask(link, &asking);
        self.progress.note_sent(next);
        self.note_cut(put, requests);
    }

    // The request for the next command of the setup, if the list has one; otherwise for a null procedure.
    fn next_setup(&self, plan: &Plan, commands: &[Task]) -> Outgoing
        ensures { result ≡ request_of_setup plan.now commands.now self.now.client.ids.next self.now.recorded.counts self.now.progress }
    {
        let mut mark = self.mark_setup(commands);
        mark.id = self.client.next_id();
        mark.expected.before = self.recorded.counts.at(mark.expected.counter);
        let values = self.progress.moment.values;
        mark.expected.values = values;
        match commands.get(self.progress.prepared) {
            Some(task) => request_for(task, mark),
            None => null_request(plan),
        }
    }

    // Sends the next command of the setup, if the list has one; otherwise a null procedure. A cut write is noted (`note_cut`).
    pub(super) fn prepare<L: Link>(&mut self, link: &mut L, plan: &Plan, commands: &[Task])
        requires { CanSend self.old }
        ensures { MakesMoveAlone plan.now commands.now Prepare (L.acts link.old) (L.acts link.new) self.old self.new }
    {
        let requests = self.commands_before(plan, commands);
        let asking = self.next_setup(plan, commands);
        let put = self.ask(link, &asking);
        self.progress.note_setup(plan);
        self.note_cut(put, requests);
    }

    // Sends a null procedure: after requests that have all timed out, since its reply settles them, or before a command, as
    // `Action::Flush` says. A cut write is noted (`note_cut`).
    pub(super) fn flush<L: Link>(&mut self, link: &mut L, plan: &Plan, commands: &[Task])
        requires { CanSend self.old }
        ensures { MakesMoveAlone plan.now commands.now Flush (L.acts link.old) (L.acts link.new) self.old self.new }
    {
        let requests = self.commands_before(plan, commands);
        let put = self.ask(link, &null_request(plan));
        self.progress.note_request();
        self.note_cut(put, requests);
    }
}
