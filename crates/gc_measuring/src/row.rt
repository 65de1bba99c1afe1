//! A row of a station: the record of a command that ended, in the layout of the station's records.

ghost use Rattle.std.specs.Prelude.{◌≡◌, ◌≤◌, length, option_map};
ghost use Rattle.gc_catalogue.specs.Asked.{procedure_of};
ghost use Rattle.gc_lines.specs.Ports.{FailsWith};
ghost use Rattle.gc_measuring.specs.Labels.{labels_seen};
ghost use Rattle.gc_measuring.specs.Measuring.{entry_in, text_in};
ghost use Rattle.gc_rows.specs.Columns.{entry_seen};
ghost use Rattle.gc_station.specs.Records.{Writes, record_seen};
ghost use Rattle.gc_texts.specs.Descriptions.{described_as, description_seen};

use crate::labels::Labels;
use gc_lines::{PortFailed, Sink};
use gc_options::Layout;
use gc_rows::{EndedCommand, When, write_record};
use gc_texts::{Description, Ending, Stamp, Wish, described_as, name_text};

// The description of the procedure that a command asks for, if it is among these.
fn description_of<'a>(command: &Wish, described: &'a [Description]) -> Option<&'a Description>
    ensures { option_map (λ d. description_seen d.now) result ≡ option_map description_seen (described_as (procedure_of command.now.call) described.now) }
{
    described_as(command.call.number(), described)
}

// A command that ended, as its record has it in a layout with these labels.
fn ended_of<'a>(
    layout: Layout,
    labels: &'a Labels,
    stamp: Stamp,
    command: &'a Wish,
    ending: Ending<'a>,
) -> EndedCommand<'a>
    ensures entry { entry_seen result ≡ entry_in layout (labels_seen labels.now) (record_seen stamp command.now ending.entry) }
    ensures name { length result.name.now ≤ 64 }
    ensures few { length result.columns.now ≤ 64 }
{
    EndedCommand {
        when: When {
            run: layout.run,
            stamp,
        },
        name: name_text(command.target, labels.names.as_slice()),
        command,
        ending,
        described: description_of(command, labels.described.as_slice()),
        columns: labels.columns.as_slice(),
    }
}

/// Writes the record of a command that ended, in a layout, with the name that its target has by these labels, empty if it has none, and,
/// if they describe its procedure, with the values of its answer under the names of the description. `Err`: the sink took a first part of
/// the record's bytes, not all of them, and has failed.
pub fn write_station_row<K: Sink>(
    sink: &mut K,
    layout: Layout,
    labels: &Labels,
    stamp: Stamp,
    command: &Wish,
    ending: Ending<'_>,
) -> Result<(), PortFailed>
    ensures writes { Writes (K.taken sink.old) (K.taken sink.new) (text_in layout (labels_seen labels.now) (record_seen stamp command.now ending.entry)) result }
    ensures fails { FailsWith result (K.failed sink.old) (K.failed sink.new) }
{
    let ended = ended_of(layout, labels, stamp, command, ending);
    match write_record(sink, layout.form, ended) {
        Ok(()) => Ok(()),
        Err(_) => Err(PortFailed),
    }
}
