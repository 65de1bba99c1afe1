//! What a run of the program leaves for proofs: what its ports gave and took. No code reads it.

ghost use Rattle.std.specs.Prelude.{◌≡◌, []};
ghost use Rattle.gc_console.specs.Stations.{HasNoRun};

use gc_files::Past;
use gc_links::LinkRecord;
use gc_logs::Transcript;
use gc_station::Kept;

/// What was noted of a station's run: what is left of its link, if there was one, what was seen at each of its acts, and what was
/// done to the file of its rows, if there was one.
#[derive(Drop)]
pub struct Acted {
    pub link: Option<LinkRecord>,
    pub kept: Kept,
    pub file: Option<Past>,
}

impl Acted {
    /// Of a run without a link and a file.
    pub fn nothing() -> Acted
        ensures { HasNoRun result }
    {
        Acted {
            link: None,
            kept: Kept::new(),
            file: None,
        }
    }
}

/// What was noted of a run of the program: the bytes that its input gave, those that its output and its messages took, and what a
/// station did.
#[derive(Drop)]
pub struct Traces {
    pub heard: Transcript,
    pub told: Transcript,
    pub said: Transcript,
    pub acted: Acted,
}

impl Traces {
    /// Of a run of which nothing is noted but what its messages took.
    pub fn of_messages(said: Transcript) -> Traces
        ensures said { result.said ≡ said }
        ensures none { HasNoRun result.acted }
    {
        Traces {
            heard: Transcript::new(),
            told: Transcript::new(),
            said,
            acted: Acted::nothing(),
        }
    }
}
