//! The instrument of a scene with rules, on which a schedule can be played.

use crate::drill::Playable;
use crate::report_text::text_of;
use gc_scenes::SceneInstrument;
use gc_world::{Event, play_scene};
use std::alloc::{AllocError, Global};

impl Playable for SceneInstrument {
    ghost use Rattle.gc_filters.specs.SceneDrill.{scene_drill_text};

    ghost text = { scene_drill_text };

    // Plays as `play_scene` does.
    fn output(
        self,
        alloc: Global,
        events: &[Event],
        totals: bool,
        width: u8,
    ) -> Result<Vec<u8>, AllocError> {
        let report = play_scene(alloc, self, width, events)?;
        text_of(alloc, &report, totals)
    }
}
