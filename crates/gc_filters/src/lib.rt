//! The engines over a source and a sink alone: requests served, frames judged, schedules read and played, scenes read.
#![tactic(auto)]

mod answerer;
mod check;
mod check_log;
mod drill;
mod event;
mod exec;
pub mod laws;
mod log_client;
mod remark;
mod report_text;
mod scene;
mod scene_drill;
mod scene_line;
mod scene_parts;
mod scene_reading;
mod scene_trouble;
mod schedule;
mod verdict;

pub use answerer::Answerer;
pub use check::run_check;
pub use check_log::run_check_log;
pub use drill::{Playable, run_drill, run_drill_on, run_drill_width};
pub use exec::run_exec;
pub use scene::{FromScene, LateScene, read_scene};
pub use scene_line::{
    Blocked, Drift, LateForm, PlainForm, RuleForm, SceneKind, SceneLine, Span, StillForm, TimedForm,
};
pub use scene_trouble::{SceneTrouble, SceneWord, scene_trouble_of};
pub use schedule::read_schedule;
