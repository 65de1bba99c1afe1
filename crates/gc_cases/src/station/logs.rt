//! A case's run over a link with a log; and, for a case without tasks, the log of a link that is only read, without a station.

use crate::station::running::{Outcome, Scene, run_scene};
use crate::station::script::{Script, TIME_AT_START};
use gc_links::{Link, Telling};
use gc_logs::Logged;
use gc_probes::PieceSink;

// The link of a case, with a log whose sink takes each line in one write, and fails after `writes` writes, or once memory runs
// out. Until the link reads a moment, the log's lines have the time `TIME_AT_START`, also where the link's time of day is ahead of that
// (`ahead`).
fn logged_link<'a>(scene: Scene<'a>, writes: u64) -> Logged<Script<'a>, PieceSink> {
    // More bytes for each write than a line of the log has.
    let sink = PieceSink::new(scene.alloc, 10_000, writes);
    Logged::new(Script::new(scene.steps, scene.setting), sink, TIME_AT_START)
}

/// Runs a station over a link with a log, and takes what came of it into `outcome`. A log whose sink failed is reported as
/// `lost`, provided that it is the first part of the log of the same run over a sink that takes all for which there is memory.
pub fn play_logged(scene: Scene<'_>, outcome: &mut Outcome) {
    play_over_sink(scene, scene.setting.log_writes, outcome);
    if outcome.is_log_lost() {
        compare_with_whole_log(scene, outcome);
    }
}

// Runs the station once more, over a sink that takes all for which there is memory, and has `outcome` report its own log as
// `lost`, if that is the first part of the log of this run.
fn compare_with_whole_log(scene: Scene<'_>, outcome: &mut Outcome) {
    let mut whole = Outcome::new(scene.alloc);
    play_over_sink(scene, u64::MAX, &mut whole);
    outcome.tell_lost_log(&whole);
}

// Runs the station once, with a log whose sink fails after `writes` writes, and takes what came of it into `outcome`.
fn play_over_sink(scene: Scene<'_>, writes: u64, outcome: &mut Outcome) {
    let mut link = Telling::new(logged_link(scene, writes));
    let (book, result) = run_scene(&mut link, scene);
    outcome.take(&link.link.link, &book, result.err());
    outcome.take_log(link.link.sink().taken(), link.link.has_lost_its_log());
}

/// Without a station: reads once for each step over a link with a log, closes the link, and takes the log into `outcome`. Where a
/// write of the log failed, `outcome` takes what was written before.
pub fn read_logged(scene: Scene<'_>, outcome: &mut Outcome) {
    let mut link = logged_link(scene, scene.setting.log_writes);
    // Room for more than the longest line: 512 bytes, CR and LF.
    let mut buf = [0u8; 600];
    for _ in scene.steps {
        let _ = link.read(&mut buf, 1);
    }
    link.close();
    outcome.take_log(link.sink().taken(), link.has_lost_its_log());
}
