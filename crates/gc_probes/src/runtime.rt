//! A runtime that takes the place of the system's, so that a case decides which moment it is, which connections can be made,
//! and which files there are.

use crate::stand_ins::not_found;
use std::alloc::Allocator;
use std::fs::{File, Files, Metadata, OpenOptions};
use std::io::{self, ErrorKind};
use std::net::{Net, SocketAddr, TcpListener, TcpStream};
use std::time::{Clock, Duration};

/// What a case decides of its runtime.
pub trait StandIn {
    /// How much time has passed by the monotonic clock. `Err`: that clock can't be read.
    fn elapsed(&self) -> io::Result<Duration>;

    /// The time of day, as the time since 1970. `Err`: it can't be read.
    fn since_1970(&self) -> io::Result<Duration>;

    /// Lets this much time pass.
    fn pass(&self, time: Duration);

    /// Makes a connection, whatever the address. `Err`: none can be made.
    fn connect(&self) -> io::Result<TcpStream>;

    /// Opens the file at a path. `Err`: it can't be opened.
    fn open(&self, path: &str) -> io::Result<File>;
}

/// A runtime with the clock, the connections and the files of `stand_in`. No port can be listened at, each name has two
/// addresses, and there is no folder, and no file but those that `stand_in` opens.
#[derive(Drop)]
pub struct CaseRuntime<T> {
    /// What the case decides.
    pub stand_in: T,
}

impl<T: StandIn> Clock for CaseRuntime<T> {
    fn monotonic(&self) -> io::Result<Duration> {
        self.stand_in.elapsed()
    }

    fn since_1970(&self) -> io::Result<Duration> {
        self.stand_in.since_1970()
    }

    fn sleep(&self, duration: Duration) {
        self.stand_in.pass(duration)
    }
}

impl<T: StandIn> Net for CaseRuntime<T> {
    type Stream = TcpStream;

    type Listener = TcpListener;

    // No port can be listened at.
    fn bind(&self, _addr: SocketAddr) -> io::Result<TcpListener> {
        Err(io::Error::from(ErrorKind::Unsupported))
    }

    // Makes no connection: a link connects with a time-out.
    fn connect(&self, _addr: SocketAddr) -> io::Result<TcpStream> {
        Err(io::Error::from(ErrorKind::Unsupported))
    }

    fn connect_timeout(&self, _addr: SocketAddr, _timeout: Duration) -> io::Result<TcpStream> {
        self.stand_in.connect()
    }

    // Finds two addresses for each name, or as many as `found` has room for if that is fewer. It leaves in `found` what is
    // there: no address decides which connection is made.
    fn lookup_host(&self, _host: &str, _port: u16, found: &mut [SocketAddr]) -> io::Result<usize> {
        Ok(found.len().min(2))
    }
}

impl<T: StandIn> Files for CaseRuntime<T> {
    type File = File;

    type Dir = File;

    fn open_file(&self, _how: &OpenOptions, path: &str) -> io::Result<File> {
        self.stand_in.open(path)
    }

    fn open_dir(&self, _path: &str) -> io::Result<File> {
        not_found()
    }

    fn metadata(&self, _path: &str) -> io::Result<Metadata> {
        not_found()
    }

    fn symlink_metadata(&self, _path: &str) -> io::Result<Metadata> {
        not_found()
    }

    fn copy(&self, _from: &str, _to: &str) -> io::Result<u64> {
        not_found()
    }

    fn rename(&self, _from: &str, _to: &str) -> io::Result<()> {
        not_found()
    }

    fn remove_file(&self, _path: &str) -> io::Result<()> {
        not_found()
    }

    fn create_dir(&self, _path: &str) -> io::Result<()> {
        not_found()
    }

    fn remove_dir(&self, _path: &str) -> io::Result<()> {
        not_found()
    }

    fn remove_dir_all<B: Allocator>(&self, _alloc: B, _path: &str) -> io::Result<()> {
        not_found()
    }
}
