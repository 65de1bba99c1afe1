//! Asking: each command of a text is sent over a link, once the one before it is settled, and each settlement is written.
//! The place of a command, and of its request, is its number in the text, counted from 0.

ghost use Rattle.std.specs.Prelude.{◌≡◌, ◌+◌, ◌≤◌, [], ℕ, List, Err};
ghost use Rattle.gc_lines.specs.Assembler.{StandsFor};
ghost use Rattle.gc_lines.specs.Lines.{with_end};
ghost use Rattle.gc_ask.specs.AskRuns.{AskRuns, seen_of_link};
ghost use Rattle.gc_ask.specs.Asking.{AskingEnds, ready_for, written_request, waiting_for};
ghost use Rattle.gc_ask.specs.Listening.{AsksOneOver, ExchangesOver, HasReadNothing, LinkSteps, SpendsReads};
ghost use Rattle.gc_ask.specs.Listening.{seen_through};
ghost use Rattle.gc_ask.specs.Looping.{AsksAtBoth, RunsAtBoth};
ghost use Rattle.gc_texts.specs.declared.fault.RunFault.{RunFault};
ghost use Rattle.gc_texts.specs.declared.text.TheConstants.{TEXT_LIMIT};
ghost use Rattle.gc_texts.specs.WholeTexts.{input_of};

use crate::client_end::ClientEnd;
use crate::link::{AskedLink, Remote};
use crate::unused::Unused;
use gc_lines::{Line, Sink, Source};
use gc_texts::{Command, RunFault, read_command_text, write_settlements};
use std::alloc::Global;

// What is kept from one command to the next while commands are asked.
#[derive(Drop)]
pub(crate) struct AskState {
    // The client with its assembler.
    pub(crate) end: ClientEnd,
    // The bytes that were read and aren't used yet.
    pub(crate) ahead: Unused,
    // How many reads are still allowed.
    pub(crate) reads: u32,
}

impl AskState {
    // The state before the first command: no request waits, nothing was read, and all `max_reads` reads are left.
    pub(crate) fn new(max_reads: u32) -> AskState
        ensures client { result.end.client.ids ≡ ready_for 0 }
        ensures assembler { StandsFor result.end.assembler [] }
        ensures ahead { result.ahead ≡ [] }
        ensures reads { result.reads ≡ max_reads }
    {
        AskState {
            end: ClientEnd::new(),
            ahead: Unused::new(),
            reads: max_reads,
        }
    }

    // Returns the request line of the command at this place, without its CR LF. The client then waits for its reply, without a deadline.
    // No other request waits, so the client doesn't refuse this one.
    fn request(&mut self, place: usize, command: &Command) -> Line
        requires { self.old.end.client.ids ≡ ready_for place }
        ensures text { with_end result.items ≡ written_request place command.now }
        ensures client { self.new.end.client.ids ≡ waiting_for place command.now }
        ensures same { HasReadNothing self.old self.new }
    {
        let mut line = Line::new();
        let Ok(()) = self
            .end
            .client
            .send_into(command.target, &command.call, u64::MAX, &mut line)
        else {
            unreachable!()
        };
        line
    }

    // Sends the command at this place, and waits until it is settled, or the link has a fault, which is returned. After a
    // fault the client still waits for the command's reply.
    fn exchange<L: AskedLink>(
        &mut self,
        place: usize,
        command: &Command,
        link: &mut L,
    ) -> Result<(), RunFault>
        requires { self.old.end.client.ids ≡ ready_for place }
        ensures exchanges { ExchangesOver L.AskedLink place command.now self.old self.new link.old link.new result }
        ensures ends { LinkSteps L.AskedLink link.old link.new result }
        ensures spends { SpendsReads L.AskedLink link.old link.new self.old.reads self.new.reads }
        ensures too_many { result ≡ Err RunFault.TooManyReads → self.new.reads ≡ 0 }
    {
        let line = self.request(place, command);
        if let Err(fault) = link.send(place, &line, &mut self.reads) {
            return Err(fault);
        }
        self.end.hear_reply(link, &mut self.ahead, &mut self.reads)
    }

    // Asks the command at this place, and writes the line of its settlement. After a fault of the link the command is lost, and the line
    // says so. `Err`: the fault of the link, or `Output` if the sink failed, also where the link had a fault before.
    fn ask<L: AskedLink, K: Sink>(
        &mut self,
        place: usize,
        command: &Command,
        link: &mut L,
        sink: &mut K,
    ) -> Result<(), RunFault>
        requires ready { self.old.end.client.ids ≡ ready_for place }
        requires stands { (rest : List ℕ) × StandsFor self.old.end.assembler rest }
        ensures asks { AsksOneOver L.is_remote place command.now self.old self.new
            (seen_through L.AskedLink link.old K.Sink sink.old)
            (seen_through L.AskedLink link.new K.Sink sink.new)
            result }
        ensures ends { AskingEnds (LinkSteps L.AskedLink link.old link.new) (K.failed sink.old) (K.failed sink.new) result }
        ensures spends { SpendsReads L.AskedLink link.old link.new self.old.reads self.new.reads }
        ensures too_many { result ≡ Err RunFault.TooManyReads → self.new.reads ≡ 0 }
    {
        match self.exchange(place, command, link) {
            Ok(()) => write_settlements(sink, place, self.end.settled.as_slice()),
            Err(fault) => {
                let lost = self.end.client.restart();
                match write_settlements(sink, place, lost.as_slice()) {
                    Ok(()) => Err(fault),
                    Err(output) => Err(output),
                }
            }
        }
    }
}

/// Reads the whole command text of a source, and asks its commands over a link, in at most `max_reads` reads of it, of at
/// most 256 bytes each.
///
/// Each command is sent once the one before it is settled. Request k, counted from 0, has id k modulo 8. It is settled by the
/// first reply with this id, for k > 0 among the lines after the one that settled request k - 1. Other lines are ignored. The
/// line of each settlement goes to the sink as the reply comes.
///
/// Before anything is sent or written, `Read` comes where the source failed, `InputTooLong` where it gave more than 65,536
/// bytes, `Schedule` at the first line that has the form of no command, counted from 1, and `Memory` where memory was refused.
/// Then a fault of the link ends the run: `Read` where it can't be read; `Write` where it can't be written, which says how many
/// requests were sent whole, and how many bytes of the next; `LinkClosed` where it ends; and `TooManyReads` where all reads were
/// made, none was the end, and what came doesn't settle the request. The request is lost then, and its line is written before
/// the fault is returned. Nothing is sent afterwards. `Output` comes where the sink failed, also where it failed at the line of
/// the lost request.
pub fn run_ask<S: Source, I: Source, O: Sink, K: Sink>(
    alloc: Global,
    commands: &mut S,
    link_in: &mut I,
    link_out: &mut O,
    sink: &mut K,
    max_reads: u32,
) -> Result<(), RunFault>
    // Which text was read, and how its commands were asked: what the link took and gave, what the sink took, and which ports
    // have failed.
    ensures asks { AskRuns (input_of S.Source commands.old) (input_of S.Source commands.new) max_reads
        (seen_of_link I.Source link_in.old O.Sink link_out.old K.Sink sink.old)
        (seen_of_link I.Source link_in.new O.Sink link_out.new K.Sink sink.new)
        result }

    // At most 65,537 reads of the source were answered.
    ensures bounded { S.reads commands.new ≤ S.reads commands.old + (TEXT_LIMIT + 1) }

    // Where memory was refused, nothing was read of the link, sent or written.
    ensures memory { result ≡ Err RunFault.Memory → seen_of_link I.Source link_in.new O.Sink link_out.new K.Sink sink.new
        ≡ seen_of_link I.Source link_in.old O.Sink link_out.old K.Sink sink.old }
{
    let mut link = Remote {
        source: link_in,
        sink: link_out,
    };
    run_over(alloc, commands, &mut link, sink, max_reads)
}

/// Reads the whole command text of a source, and asks its commands over any link, in at most `max_reads` reads of the link's
/// two ends together. The faults come as `run_ask` says, and those of an instrument's end as `run_loop` says.
pub(crate) fn run_over<S: Source, L: AskedLink, K: Sink>(
    alloc: Global,
    commands: &mut S,
    link: &mut L,
    sink: &mut K,
    max_reads: u32,
) -> Result<(), RunFault>
    ensures asks { RunsAtBoth L.is_remote (input_of S.Source commands.old) (input_of S.Source commands.new) max_reads
        (seen_through L.AskedLink link.old K.Sink sink.old)
        (seen_through L.AskedLink link.new K.Sink sink.new)
        result }
    ensures bounded { S.reads commands.new ≤ S.reads commands.old + (TEXT_LIMIT + 1) }

    // Where memory was refused, nothing was read of the link, sent or written.
    ensures memory { result ≡ Err RunFault.Memory
        → seen_through L.AskedLink link.new K.Sink sink.new ≡ seen_through L.AskedLink link.old K.Sink sink.old }
    ensures held { L.held link.new ≡ L.held link.old }
{
    let commands = read_command_text(alloc, commands)?;
    ask_all(commands.as_slice(), link, sink, max_reads)
}

/// Asks commands in order, in at most `max_reads` reads of the link's two ends together. It ends at the first fault of the
/// link or of the sink. The faults come as `run_ask` says, and those of an instrument's end as `run_loop` says.
pub(crate) fn ask_all<L: AskedLink, K: Sink>(
    commands: &[Command],
    link: &mut L,
    sink: &mut K,
    max_reads: u32,
) -> Result<(), RunFault>
    // What the link gave, what the link and the sink took, why the asking ended, and which ports have failed.
    ensures asks { AsksAtBoth L.is_remote commands.now max_reads
        (seen_through L.AskedLink link.old K.Sink sink.old)
        (seen_through L.AskedLink link.new K.Sink sink.new)
        result }
    ensures held { L.held link.new ≡ L.held link.old }
{
    let mut asking = AskState::new(max_reads);
    for (place, command) in commands.iter().enumerate() {
        if let Err(fault) = asking.ask(place, command, link, sink) {
            return Err(fault);
        }
    }
    Ok(())
}
