//! The system's reasons: a runtime that notes which path or address the system refused last, and why.

ghost use Rattle.std.specs.Prelude.{◌≡◌, ◌≤◌, Ok, length, IfOk};

use crate::short_text::ShortText;
use crate::standard::Standard;
use std::alloc::Allocator;
use std::cell::Cell;
use std::fmt::Display;
use std::fs::{Files, Metadata, OpenOptions};
use std::io::{self, Write};
use std::net::{Net, SocketAddr};
use std::path::PathBuf;
use std::process::ExitCode;
use std::time::{Clock, Duration};

// The most bytes of a path, an address or a name that are noted.
const NAME_ROOM: usize = 120;

// An error of the system, with the first bytes of the path, address or name that it came of.
#[derive(Drop)]
struct NamedError {
    name: ShortText<NAME_ROOM>,
    why: io::Error,
}

/// A runtime that notes the last error of an opening, a bind, a connect or a look-up of the one inside, with the first 120 bytes of
/// its path, address or name. The next opening, bind or connect that succeeds clears the note.
#[derive(Drop)]
pub struct Noting<'a, R> {
    rt: &'a R,
    last: Cell<Option<NamedError>>,
    // Why the system refused that, without its name.
    reason: Cell<Option<io::Error>>,
}

impl<'a, R> Noting<'a, R> {
    /// A runtime over `rt` that has noted nothing yet.
    pub fn new(rt: &'a R) -> Noting<'a, R> {
        Noting {
            rt,
            last: Cell::new(None),
            reason: Cell::new(None),
        }
    }

    /// Why the system refused what is noted. `None`: nothing is noted.
    pub fn reason(&self) -> &Cell<Option<io::Error>> {
        &self.reason
    }

    // Notes the outcome of a call on `what`, a path, an address or a name, and returns it: a success clears the note, an error is
    // noted with `what`.
    fn note<N: Display + Drop, T: Drop>(&self, what: N, outcome: io::Result<T>) -> io::Result<T> {
        match outcome {
            Ok(value) => {
                self.forget();
                Ok(value)
            }
            Err(why) => {
                let mut name = ShortText::new();
                let _ = write!(name, "{what}");
                self.last.set(Some(NamedError { name, why }));
                self.reason.set(Some(why));
                Err(why)
            }
        }
    }

    /// Clears the note, so that an old error isn't reported as the reason of the next fault.
    pub fn forget(&self) {
        self.last.set(None);
        self.reason.set(None);
    }

    /// If a run ended (`ended`) with a status other than 0, and the messages are open, writes a line with what the system refused
    /// last, and why, if anything is noted, and clears the note. Returns `ended`, also if that line couldn't be written.
    pub fn report<E: Write>(
        &self,
        standard: Standard,
        ended: io::Result<ExitCode>,
        messages: &mut E,
    ) -> io::Result<ExitCode>
        ensures { IfOk result (λ status. ended ≡ Ok status) }
    {
        let status = ended?;
        if standard.messages && status != ExitCode::SUCCESS {
            // If this line can't be written, the fault's line is written all the same.
            let _ = self.tell_last(messages);
        }
        Ok(status)
    }

    /// Writes a line with what the system refused last, and why, if anything is noted, and clears the note. `Err`: that line couldn't be
    /// written; the note is cleared all the same.
    pub fn tell_last<E: Write>(&self, messages: &mut E) -> io::Result<()> {
        self.reason.set(None);
        match self.last.take() {
            Some(refusal) => {
                let why = refusal.why;
                write!(messages, "geocom: ")?;
                messages.write_all(refusal.name.bytes.as_slice())?;
                writeln!(messages, ": {why}")
            }
            None => Ok(()),
        }
    }
}

// The clock of the runtime inside; nothing of it is noted.
impl<'a, R: Clock> Clock for Noting<'a, R> {
    fn monotonic(&self) -> io::Result<Duration> {
        self.rt.monotonic()
    }

    fn since_1970(&self) -> io::Result<Duration> {
        self.rt.since_1970()
    }

    fn sleep(&self, duration: Duration) {
        self.rt.sleep(duration)
    }
}

// The net of the runtime inside; what becomes of each bind and connect is noted with its address.
impl<'a, R: Net> Net for Noting<'a, R> {
    type Stream = R::Stream;

    type Listener = R::Listener;

    fn bind(&self, addr: SocketAddr) -> io::Result<R::Listener> {
        self.note(addr, self.rt.bind(addr))
    }

    fn connect(&self, addr: SocketAddr) -> io::Result<R::Stream> {
        self.note(addr, self.rt.connect(addr))
    }

    fn connect_timeout(&self, addr: SocketAddr, timeout: Duration) -> io::Result<R::Stream> {
        self.note(addr, self.rt.connect_timeout(addr, timeout))
    }

    // Looks a name up, and notes an error with the name. A success clears no note.
    fn lookup_host(&self, host: &str, port: u16, found: &mut [SocketAddr]) -> io::Result<usize>
        ensures in_bounds { IfOk result (λ n. n ≤ length found.new) }
    {
        match self.rt.lookup_host(host, port, found) {
            Ok(n) => Ok(n),
            Err(why) => {
                let _ = self.note(host, Err::<(), io::Error>(why));
                Err(why)
            }
        }
    }
}

// The files of the runtime inside; what becomes of each opening is noted with its path, and of the other calls nothing.
impl<'a, R: Files> Files for Noting<'a, R> {
    type File = R::File;

    type Dir = R::Dir;

    fn open_file(&self, how: &OpenOptions, path: &str) -> io::Result<R::File> {
        self.note(path, self.rt.open_file(how, path))
    }

    fn open_dir(&self, path: &str) -> io::Result<R::Dir> {
        self.note(path, self.rt.open_dir(path))
    }

    fn metadata(&self, path: &str) -> io::Result<Metadata> {
        self.rt.metadata(path)
    }

    fn symlink_metadata(&self, path: &str) -> io::Result<Metadata> {
        self.rt.symlink_metadata(path)
    }

    fn copy(&self, from: &str, to: &str) -> io::Result<u64> {
        self.rt.copy(from, to)
    }

    fn rename(&self, from: &str, to: &str) -> io::Result<()> {
        self.rt.rename(from, to)
    }

    fn remove_file(&self, path: &str) -> io::Result<()> {
        self.rt.remove_file(path)
    }

    fn create_dir(&self, path: &str) -> io::Result<()> {
        self.rt.create_dir(path)
    }

    fn remove_dir(&self, path: &str) -> io::Result<()> {
        self.rt.remove_dir(path)
    }

    fn remove_dir_all<B: Allocator>(&self, alloc: B, path: &str) -> io::Result<()> {
        self.rt.remove_dir_all(alloc, path)
    }

    fn canonicalize<B: Allocator>(&self, alloc: B, path: &str) -> io::Result<PathBuf<B>> {
        self.rt.canonicalize(alloc, path)
    }

    fn chown(&self, path: &str, uid: Option<u32>, gid: Option<u32>) -> io::Result<()> {
        self.rt.chown(path, uid, gid)
    }
}
