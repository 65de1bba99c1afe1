//! A link to a place that looks for a file, and reads others: where the one is there, the end of the run is asked for; when another was
//! changed last, a cycle was asked for; the others have values for requests.

ghost use Rattle.std.specs.Prelude.{◌≡◌, ◌≤◌, ℕ, List, [], length, true, IfOk};
ghost use Rattle.gc_links.specs.Acts.{CameWithin, clock_act, read_act};
ghost use Rattle.gc_links.specs.Calls.{Makes};
ghost use Rattle.gc_links.specs.Placed.{acts_in, place_in, place_seen};
ghost use Rattle.gc_links.specs.Seeing.{AreSeen, AreValues, IsLook, IsSeen, IsSeenAt, IsTakenBy, IsTouch, path_at, signals_at};
ghost use Rattle.gc_values.specs.FileValues.{path_of};

use crate::calls::Calls;
use crate::device::Unusable;
use crate::history::{History, Note};
use crate::link::{Came, Link, Moment};
use crate::noting::{note_of_clock, note_of_open, note_of_put, note_of_read};
use crate::place::Place;
use crate::placed::PlacedLink;
use crate::signals::Signals;
use crate::system::System;
use arrayvec::ArrayVec;
use gc_lines::PortFailed;
use gc_values::{FILE_VALUES, FileValues, VALUE_BYTES, ValueFile, no_values, value_in};
use std::fs::File;
use std::net::{Net, TcpListener, TcpStream};
use std::rt::Files;
use std::time::Clock;

/// The files whose values a link's moments have, in the order of their values.
pub type ValueFiles = ArrayVec<ValueFile, FILE_VALUES>;

/// A link to a place, whose moments say whether a file is there by which somebody asks for the run's end, when the one was changed by which
/// somebody asks for a cycle, and have the values of others.
///
/// It looks for the first, and reads the others, each time that the link inside reports a moment. A file that can't be looked at, for any error, counts as
/// not there: a run doesn't end for a directory that can't be read. Without these files it makes no system call of its own.
#[derive(Drop)]
pub struct Watched<'a, R> {
    link: PlacedLink<'a, R>,
    // The paths of the files by which somebody asks for the run's end, and for a cycle.
    signals: Signals<'a>,
    // The files whose values its moments have.
    files: ValueFiles,
    // The moment at which the link was made.
    began: Moment,
    // The system, for the look for the one file and the reads of the others.
    system: System<'a, R>,
    /// The acts of the link since it was made, which proofs alone can read.
    pub history: History,
    ghost seen: { ∥ AreSeen (signals_at signals) files.items began (acts_in link) system.calls.made history.acts ∥₁ },
}

/// What is left of a link once it is closed, for proofs alone: the moment at which it was made, its acts since then, the system's
/// calls that did them, the looks for the file, and the files whose values were taken.
#[derive(Drop)]
pub struct LinkRecord {
    pub began: Moment,
    pub files: ValueFiles,
    pub history: History,
    pub calls: Calls,
    pub looks: Calls,
}

impl<'a, R> Watched<'a, R> {
    ghost use Rattle.gc_links.specs.LinksMeant.{IsMeantAt};
    ghost use Rattle.gc_links.specs.Placed.{calls_in};

    // Whether the link leads to this place, and looks for the files of these signals.
    fn leads_to(&self, place: Place<'_>, signals: Signals<'_>) -> bool
        ensures { result ≡ true → (place_in self.now.link ≡ place_seen place.entry) × (signals_at self.now.signals ≡ signals_at signals.entry) }
    {
        self.link.leads_to(place)
            && is_same_path(self.signals.until, signals.until)
            && is_same_path(self.signals.now, signals.now)
    }

    /// Whether the link leads to this place, and looks for the files of these signals. Then its acts are what the system's calls
    /// did at this place, and what was found of these files.
    pub fn is_for(&self, place: Place<'_>, signals: Signals<'_>) -> bool
        ensures { result ≡ true → ∥ IsMeantAt (place_seen place.entry) (signals_at signals.entry) self.now ∥₁ }
    {
        self.leads_to(place, signals)
    }

    /// The moment at which the link was made.
    pub fn began(&self) -> Moment
        ensures { result ≡ self.now.began }
    {
        self.began
    }

    /// Closes the link, and returns what is left of it.
    pub fn into_record(self) -> LinkRecord
        ensures { (result.began ≡ self.entry.began) × (result.files ≡ self.entry.files) × (result.history.acts ≡ self.entry.history.acts)
            × (result.calls.made ≡ calls_in self.entry.link) × (result.looks.made ≡ self.entry.system.calls.made) }
    {
        let Watched {
            link,
            signals: _,
            files,
            began,
            system,
            history,
        } = self;
        LinkRecord {
            began,
            files,
            history,
            calls: link.into_calls(),
            looks: system.into_calls(),
        }
    }
}

impl<'a, R: Net<Listener = TcpListener, Stream = TcpStream> + Files<File = File> + Clock> Watched<
    'a,
    R,
> {
    /// A link to a place, as [`PlacedLink::new`] makes it, that looks for the files of these signals, and whose moments have the values
    /// of these files. Its clock is read once. `None` as the reason: the clock can't be read.
    pub fn new(
        rt: &'a R,
        place: Place<'a>,
        signals: Signals<'a>,
        files: ValueFiles,
    ) -> Result<Watched<'a, R>, Option<Unusable>>
        ensures fresh { IfOk result (λ link. link.history.acts ≡ []) }
        ensures files { IfOk result (λ link. link.files ≡ files) }
    {
        let mut link = PlacedLink::new(rt, place)?;
        let Ok(began) = link.now() else {
            return Err(None);
        };
        Ok(Watched {
            link,
            signals,
            files,
            began,
            system: System::new(rt),
            history: History::new(),
        })
    }
}

// Whether these are one path, or both none.
fn is_same_path(a: Option<&str>, b: Option<&str>) -> bool
    ensures { result ≡ true → path_at a.entry ≡ path_at b.entry }
{
    match (a, b) {
        (Some(a), Some(b)) => a == b,
        (None, None) => true,
        _ => false,
    }
}

// Looks for the file at `until`. Returns whether it is there: `false` without a path.
fn look<R: Files>(system: &mut System<'_, R>, until: Option<&str>) -> bool
    ensures { Makes system.old.calls.made system.new.calls.made (λ look. IsLook (path_at until.entry) look result) }
{
    match until {
        Some(path) => system.look_for(path),
        None => false,
    }
}

// Reads the file at `now`, and returns when it was changed last, in milliseconds since 1970: 0 without a path, or if it can't be read.
fn take_touch<R: Files<File = File>>(system: &mut System<'_, R>, now: Option<&str>) -> u64
    ensures { Makes system.old.calls.made system.new.calls.made (λ reads. IsTouch (path_at now.entry) reads result) }
{
    let Some(path) = now else {
        return 0;
    };
    match system.read_file(path) {
        Some(file) => file.changed,
        None => 0,
    }
}

// Reads a file at the moment `now`, in milliseconds since 1970, and returns its value then; none, without reading, if its path isn't text,
// which it always is.
fn take_value<R: Files<File = File>>(
    system: &mut System<'_, R>,
    file: &ValueFile,
    now: u64,
) -> [u8; VALUE_BYTES]
    ensures { Makes system.old.calls.made system.new.calls.made
        (λ reads. IsTakenBy (path_of file.now) file.now.seconds now reads result) }
{
    let Ok(path) = str::from_utf8(file.path()) else {
        return [0; VALUE_BYTES];
    };
    match system.read_file(path) {
        Some(read) => value_in(read.bytes(), read.changed, now, file.seconds),
        None => [0; VALUE_BYTES],
    }
}

// Reads these files at the moment `now`, in milliseconds since 1970, and returns their values then.
fn take_values<R: Files<File = File>>(
    system: &mut System<'_, R>,
    files: &[ValueFile],
    now: u64,
) -> FileValues
    requires { length files.now ≤ 16 }
    ensures { Makes system.old.calls.made system.new.calls.made (λ reads. AreValues files.now now reads result) }
{
    let mut values = no_values();
    for (k, file) in files.iter().enumerate() {
        values[k] = take_value(system, file, now);
    }
    values
}

// The moment that the link inside reported, as the looks for the files of `signals` and the reads of `files` make it.
fn see<R: Files<File = File>>(
    system: &mut System<'_, R>,
    signals: Signals<'_>,
    files: &[ValueFile],
    moment: Moment,
) -> Moment
    requires { length files.now ≤ 16 }
    ensures { Makes system.old.calls.made system.new.calls.made (λ look. IsSeenAt (signals_at signals.entry) files.now look moment result) }
{
    let here = look(system, signals.until);
    let touched = take_touch(system, signals.now);
    let values = take_values(system, files, moment.utc);
    Moment {
        elapsed: moment.elapsed,
        utc: moment.utc,
        stops: moment.stops || here,
        touched,
        values,
    }
}

// The result of a reading of the clock, as the looks for the files of `signals` and the reads of `files` make it.
fn see_clock<R: Files<File = File>>(
    system: &mut System<'_, R>,
    signals: Signals<'_>,
    files: &[ValueFile],
    told: Result<Moment, PortFailed>,
) -> Result<Moment, PortFailed>
    requires { length files.now ≤ 16 }
    ensures { Makes system.old.calls.made system.new.calls.made (λ look. IsSeen (signals_at signals.entry) files.now (clock_act told) look (clock_act result)) }
{
    match told {
        Ok(moment) => Ok(see(system, signals, files, moment)),
        Err(failed) => Err(failed),
    }
}

// The outcome of a read, as the looks for the files of `signals` and the reads of `files` make it.
fn see_read<R: Files<File = File>>(
    system: &mut System<'_, R>,
    signals: Signals<'_>,
    files: &[ValueFile],
    came: Came,
) -> Came
    requires { length files.now ≤ 16 }
    ensures seen { Makes system.old.calls.made system.new.calls.made
        (λ look. (buf : List ℕ) → IsSeen (signals_at signals.entry) files.now (read_act came buf) look (read_act result buf)) }
    ensures within { (buf : List ℕ) → CameWithin came buf → CameWithin result buf }
{
    match came {
        Came::Bytes(n, moment) => Came::Bytes(n, see(system, signals, files, moment)),
        Came::Silence(moment) => Came::Silence(see(system, signals, files, moment)),
        Came::End => Came::End,
        Came::Failure => Came::Failure,
        Came::NoMoment => Came::NoMoment,
    }
}

// Each call is that of the link inside; the moments that it reports pass through `see`.
impl<'a, R: Net<Listener = TcpListener, Stream = TcpStream> + Files<File = File> + Clock> Link
    for Watched<'a, R> {
    ghost use Rattle.std.specs.Prelude.{Some};

    ghost acts = { λ w. Some w.history.acts };

    fn now(&mut self) -> Result<Moment, PortFailed> {
        let told = self.link.now();
        let told = see_clock(&mut self.system, self.signals, self.files.as_slice(), told);
        self.history = self.history.then(&note_of_clock(&told));
        told
    }

    fn read(&mut self, buf: &mut [u8], millis: u64) -> Came {
        let came = self.link.read(buf, millis);
        let came = see_read(&mut self.system, self.signals, self.files.as_slice(), came);
        self.history = self.history.then(&note_of_read(came, buf));
        came
    }

    fn put(&mut self, bytes: &[u8]) -> Result<(), usize> {
        let put = self.link.put(bytes);
        self.history = self.history.then(&note_of_put(put, bytes));
        put
    }

    fn close(&mut self) {
        self.link.close();
        self.history = self.history.then(&Note::Closed);
    }

    fn open(&mut self) -> Result<(), PortFailed> {
        let opened = self.link.open();
        self.history = self.history.then(&note_of_open(&opened));
        opened
    }
}
