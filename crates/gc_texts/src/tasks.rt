//! Tasks: the commands of a station's text, with how each is sent and where its target is. `mode.rt` says what the lines
//! before a command make hold for it, and `attempts.rt` which tasks the chains give.

ghost use Rattle.std.specs.Prelude.{◌≡◌, ◌≤◌, ◌==◌, ◌&&◌, List, [], length, map, IfOk, IfErr, IsTrue, IsFalse, OnOk, OnErr};
ghost use Rattle.std.specs.List.{list_any};
ghost use Rattle.gc_texts.specs.LineForms.{MemoryOnlyIf, NamesFaulty, RefusesLong};
ghost use Rattle.gc_texts.specs.NewColumns.{new_columns};
ghost use Rattle.gc_texts.specs.Names.{name_text};
ghost use Rattle.gc_texts.specs.Tasks.{LinesGave, Grows, HasFullList, Fits, IsFitting, IsInPlace, call_at, form_of_asked, placed, may_follow, tasks_seen, IsTasks, FirstFaultyTaskLine, ReachesASoundTaskLine, TaskFault};
ghost use Rattle.gc_texts.specs.Tasks.{GrowsByDescription, IsTaken, gives_direction, gives_distance, has_room_for, may_take};
ghost use Rattle.gc_texts.specs.declared.mode.Mode.{Mode};
ghost use Rattle.gc_texts.specs.ValueFiles.{AddsFilesOf, AreFilesOf};
ghost use Rattle.gc_values.specs.declared.file_value.TheConstants.{FILE_VALUES};
ghost use Rattle.gc_values.specs.declared.file_value.ValueFile.{ValueFile};
ghost use Rattle.gc_texts.specs.declared.text.TheConstants.{TEXT_LIMIT};

use crate::again::Again;
use crate::agree::Twice;
use crate::attempts::{Planned, lay_out};
use crate::codes::Codes;
use crate::description::{Description, described_as, is_described};
use crate::expectation::{COUNTERS, Expectation, counts};
use crate::fault::RunFault;
use crate::field::Field;
use crate::form::{Form, form_for, form_gives_direction, form_gives_distance};
use crate::line_forms::{cut_line, is_skipped};
use crate::mode::{Mode, Standing, first_mode, mode_after, task_at, values_asked};
use crate::name::{Name, is_named, name_text};
use crate::near::{Near, asked_gives_direction, asked_gives_distance, has_near, near_of};
use crate::new_columns::{COLUMNS_MAX, FieldName, append_fresh, are_of_one_sort, count_fresh};
use crate::occasion::Occasion;
use crate::stamp::date_time;
use crate::task_line::{TaskLine, read_task_line};
use crate::text::TEXT_LIMIT;
use crate::turn::Turn;
use crate::value_item::{
    Needs, append_files, are_sound, filled_call, has_values, sampled, values_from,
};
use crate::watching::is_unwatched;
use crate::wish::Wish;
use crate::wording::Wording;
use arrayvec::ArrayVec;
use gc_catalogue::{Asked, Call, RawCall};
use gc_values::{FILE_VALUES, ValueFile};
use std::alloc::{AllocError, Global};

/// A command of a station's setup or cycle, in one attempt of its chain, and how it is sent.
#[derive(Clone, Copy)]
pub struct Task {
    /// What is asked of which target.
    pub command: Wish,
    /// How long its request waits before it times out, in milliseconds.
    pub deadline: u64,
    /// Whether it is sent only if the command before it was answered well.
    pub chained: bool,
    /// Where its target is, if the text says so.
    pub near: Option<Near>,
    /// Whether its answers are watched: `false` where the text leaves its target unwatched, and where `every` is above 1.
    pub watched: bool,
    /// How its answers are read, if its procedure isn't in the table and the text describes it.
    pub form: Option<Form>,
    /// The return codes that are accepted of its answer, beside 0.
    pub accepted: Codes,
    /// The return codes of its answer by which the instrument says that it is busy. One that is accepted, too, doesn't.
    pub busy: Codes,
    /// What is expected of the values of its answer, if its line is one `expect`.
    pub expects: Option<Expectation>,
    /// Which of the text's items `>` is among these, counted from 0; below 16. `None`: none is.
    pub counter: Option<usize>,
    /// After which endings of its command the chain is repeated.
    pub again: Again,
    /// Which command of the text it is, and which attempt of its chain it belongs to.
    pub turn: Turn,
    /// For the first command of an attempt other than the first: how many commands this attempt and those after it have together. 0 for
    /// any other task.
    pub others: usize,
    /// In every how many cycles it has its turn, from the first on, as the line `every N cycles` says: 1 for a command of each cycle, and for
    /// one of the setup.
    pub every: u64,
    /// Whether its request is made anew each time that it is sent: it sets the instrument's clock to that moment, or takes values of files.
    pub now: bool,
    /// Which of the text's values of files its request takes.
    pub needs: Needs,
    /// Which sending of its chain it belongs to.
    pub twice: Twice,
}

/// What a station's text gives: its tasks, the names of targets, where targets are, which targets it leaves unwatched, and what it says of
/// procedures that aren't in the table.
#[derive(Drop)]
pub struct Tasks {
    /// How many of the tasks are the setup; these come first.
    pub setup: usize,
    /// The tasks, in order: those of the setup, and then those of the cycle.
    pub tasks: Vec<Task>,
    /// The names, in order: one at most for each target, and 64 at most.
    pub names: Vec<Name>,
    /// Where targets are, in order: once at most for each, and 64 at most.
    pub nears: Vec<Near>,
    /// The targets whose commands aren't watched, in order: each once at most, and 64 at most.
    pub unwatched: Vec<u32>,
    /// The descriptions of procedures that aren't in the table, in order: one at most of each procedure, and 16 at most.
    pub described: Vec<Description>,
    /// The columns that these have and the table's quantities don't, in the order in which the text first has them: each once, and 64 at
    /// most.
    pub columns: Vec<FieldName>,
}

impl Task {
    /// The request of the task if it is sent on this occasion: that of its command; or, if the task sets the clock, `SetDate` with the
    /// moment, cut to seconds, UTC; or, if it takes values of files, with these values. The years from 32767 on are all given as 32767.
    pub fn call_at(&self, occasion: &Occasion) -> Asked
        ensures { result ≡ call_at self.entry.now occasion.now }
    {
        if !self.now {
            return self.command.call;
        }
        match &self.command.call {
            Asked::Table(_) => Asked::Table(Call::SetDate(date_time(occasion.utc))),
            Asked::Raw(raw) => {
                let values = values_from(&occasion.values, self.needs.first);
                Asked::Raw(filled_call(raw, values))
            }
        }
    }

    // Appends the files whose values its request takes, if these are the next ones: `files` has those before. Of a task that is sent again
    // it has them already.
    fn append_files(&self, files: &mut ArrayVec<ValueFile, FILE_VALUES>)
        ensures { AddsFilesOf self.entry.now files.old.items files.new.items }
    {
        if self.needs.count == 0 || self.needs.first != files.len() {
            return;
        }
        let Asked::Raw(raw) = &self.command.call else {
            return
        };
        append_files(raw.params(), files);
    }
}

// Whether a described procedure may be asked for with the parameters of this request: they are of its kinds, each value of a file a Double,
// the items that stand for values have their form, and with numbers in their places the request may be asked for.
fn takes(description: &Description, raw: &RawCall) -> bool
    ensures found { IsTrue result → IsTaken description.now raw.now }
    ensures none { IsFalse result → IsTaken description.now raw.now → ⊥ }
{
    if !has_values(raw.params()) {
        return description.takes(raw.params());
    }
    if !are_sound(raw.params()) {
        return false;
    }
    match sampled(raw) {
        Some(sample) => description.takes(sample.params()),
        None => false,
    }
}

// Whether the answers of a task have a direction, by its call or by their form.
fn gives_direction(task: &Task) -> bool
    ensures { result ≡ gives_direction task.entry.now }
{
    asked_gives_direction(&task.command.call) || form_gives_direction(&task.form)
}

// Whether the answers of a task have a distance, by its call or by their form.
fn gives_distance(task: &Task) -> bool
    ensures { result ≡ gives_distance task.entry.now }
{
    asked_gives_distance(&task.command.call) || form_gives_distance(&task.form)
}

impl Tasks {
    /// The name of a target; empty where it has none.
    pub fn name_of(&self, target: u32) -> &[u8]
        ensures is { result.now ≡ name_text target self.now.names.items }
        ensures short { length result.now ≤ 64 }
    {
        name_text(target, self.names.as_slice())
    }

    /// The files whose values the tasks' requests take, in the order of the values.
    pub fn files(&self) -> ArrayVec<ValueFile, FILE_VALUES>
        ensures { (files : List ValueFile) → AreFilesOf self.now.tasks.items files → length files ≤ FILE_VALUES → AreFilesOf self.now.tasks.items result.items }
    {
        let mut files = ArrayVec::new();
        let tasks = self.tasks.as_slice();
        for task in tasks {
            task.append_files(&mut files);
        }
        files
    }

    /// Whether some task of this target has answers with a direction (`asked_gives_direction`, or by its form `form_gives_direction`).
    pub fn asks_direction_of(&self, target: u32) -> bool
        ensures { result ≡ list_any (λ task. (task.command.target == target) && gives_direction task) self.now.tasks.items }
    {
        self.tasks.iter().any(|task| task.command.target == target && gives_direction(task))
    }

    /// Whether some task of this target has answers with a distance (`asked_gives_distance`, or by its form `form_gives_distance`).
    pub fn asks_distance_of(&self, target: u32) -> bool
        ensures { result ≡ list_any (λ task. (task.command.target == target) && gives_distance task) self.now.tasks.items }
    {
        self.tasks.iter().any(|task| task.command.target == target && gives_distance(task))
    }
}

// The most targets that have a name.
const NAMES_MAX: usize = 64;

// The most targets whose place may be given.
const NEARS_MAX: usize = 64;

// The most targets that may be left unwatched.
const UNWATCHED_MAX: usize = 64;

// The most procedures that may be described.
const DESCRIBED_MAX: usize = 16;

// What the lines of a station's text gave so far.
#[derive(Drop)]
struct Given {
    // The commands of the setup.
    setup: Vec<Task>,
    // The commands of each cycle.
    cycle: Vec<Planned>,
    // The names of targets.
    names: Vec<Name>,
    // Where targets are.
    nears: Vec<Near>,
    // The targets that are left unwatched.
    unwatched: Vec<u32>,
    // The descriptions of procedures.
    described: Vec<Description>,
    // The columns that the table's quantities don't have.
    columns: Vec<FieldName>,
}

// Whether what is asked for is described by one of these, and has parameters of the kinds that this says.
fn fits(asked: &Asked, described: &[Description]) -> bool
    ensures found { IsTrue result → IsFitting described.now asked.now }
    ensures none { IsFalse result → IsFitting described.now asked.now → ⊥ }
{
    let Asked::Raw(raw) = asked else { return false };
    match described_as(raw.number(), described) {
        Some(description) => takes(description, raw),
        None => false,
    }
}

// Whether a command that takes so many values of files may follow lines of which this holds: one of a cycle may, if the text has at most
// 16 with them.
fn may_take(standing: Standing, values: usize) -> bool
    ensures { result ≡ may_take standing values }
{
    values == 0
        || (!standing.setup
            && standing.values <= FILE_VALUES
            && values <= FILE_VALUES - standing.values)
}

impl Given {
    // What was given before the first line: nothing.
    fn new(alloc: Global) -> Given
        ensures { (first : Mode) → LinesGave first [] result }
    {
        Given {
            setup: Vec::new(alloc),
            cycle: Vec::new(alloc),
            names: Vec::new(alloc),
            nears: Vec::new(alloc),
            unwatched: Vec::new(alloc),
            described: Vec::new(alloc),
            columns: Vec::new(alloc),
        }
    }

    // Whether the new columns among these fields and those before are at most 64.
    fn has_room_for(&self, fields: &[Field]) -> bool
        ensures { result ≡ has_room_for self.now.columns.items fields.now }
    {
        let columns = self.columns.as_slice();
        columns.len() <= COLUMNS_MAX && count_fresh(columns, fields) <= COLUMNS_MAX - columns.len()
    }

    // Whether a line may follow the lines that gave this. A line `name` may if there are fewer than 64 names and its target has
    // none yet; a line `near` if there are fewer than 64 places and its target has none yet; a line `unwatched` if fewer than 64
    // targets are unwatched and its target isn't yet; a line `procedure` if fewer than 16 procedures are described, its own isn't yet,
    // with its new columns there are at most 64, and columns that descriptions before it have are of the same sort there; a line with an
    // item `>` if fewer than 16 lines had one; one that takes values of files if it is of a cycle, and the text has at most 16 with it; any other
    // line always. `standing` says what holds of the lines before it.
    fn may_have(&self, standing: Standing, said: &TaskLine) -> bool
        requires { self.now.columns.items ≡ new_columns self.now.described.items }
        ensures { result ≡ may_follow self.now.names.items self.now.nears.items self.now.unwatched.items self.now.described.items standing said.now }
    {
        match said {
            TaskLine::Naming(name) => self.names.len() < NAMES_MAX
                && !is_named(name.target, self.names.as_slice()),
            TaskLine::Locating(near) => self.nears.len() < NEARS_MAX
                && !has_near(near.target, self.nears.as_slice()),
            TaskLine::Unwatching(target) => self.unwatched.len() < UNWATCHED_MAX
                && !is_unwatched(*target, self.unwatched.as_slice()),
            TaskLine::Describing(description) => self.described.len() < DESCRIBED_MAX
                && !is_described(description.rpc, self.described.as_slice())
                && self.has_room_for(description.values.as_slice())
                && are_of_one_sort(self.described.as_slice(), description.values.as_slice()),
            TaskLine::Command(command, wording, expects) => {
                (standing.counters < COUNTERS || !counts(expects))
                    && may_take(standing, values_asked(*wording, &command.call))
            }
            _ => true,
        }
    }

    // Whether a line may be where it is: it may follow the lines that gave this (`may_have`), and if it asks for a procedure that has to be
    // described, this has a description of it, and the parameters are of its kinds.
    fn allows(&self, standing: Standing, said: &TaskLine) -> bool
        requires { self.now.columns.items ≡ new_columns self.now.described.items }
        ensures found { IsTrue result → IsInPlace self.now.names.items self.now.nears.items self.now.unwatched.items self.now.described.items standing said.now }
        ensures none { IsFalse result → IsInPlace self.now.names.items self.now.nears.items self.now.unwatched.items self.now.described.items standing said.now → ⊥ }
    {
        if !self.may_have(standing, said) {
            return false;
        }
        match said {
            TaskLine::Command(command, Wording::Described, _) => {
                fits(&command.call, self.described.as_slice())
            }
            _ => true,
        }
    }

    // Appends a description, and its new columns. Fails if memory was refused.
    fn describe(&mut self, description: Description) -> Result<(), AllocError>
        ensures grows { OnOk result (GrowsByDescription description self.old self.new) }
        ensures wants { OnErr result (HasFullList self.old) }
    {
        append_fresh(&mut self.columns, description.values.as_slice())?;
        self.described.push(description)?;
        Ok(())
    }

    // Appends what a line gives, if it gives anything. `mode` is the mode before the line. Fails if memory was refused.
    fn append(&mut self, mode: Mode, said: TaskLine) -> Result<(), AllocError>
        ensures grows { OnOk result (Grows mode said self.old self.new) }
        ensures wants { OnErr result (HasFullList self.old) }
    {
        match said {
            TaskLine::Command(command, wording, expects) => {
                let task = task_at(mode, command, wording, expects);
                if mode.setup {
                    self.setup.push(task)?;
                } else {
                    self.cycle.push(Planned {
                        task,
                        retry: mode.retry,
                        agree: mode.agree,
                    })?;
                }
            }
            TaskLine::Naming(name) => self.names.push(name)?,
            TaskLine::Locating(near) => self.nears.push(near)?,
            TaskLine::Unwatching(target) => self.unwatched.push(target)?,
            TaskLine::Describing(description) => self.describe(description)?,
            _ => {}
        }
        Ok(())
    }
}

// How the answers of what is asked for are read, if the table hasn't its procedure and one of these describes it.
fn form_of_asked(asked: &Asked, described: &[Description]) -> Option<Form>
    ensures { result ≡ form_of_asked described.now asked.now }
{
    match asked {
        Asked::Table(_) => None,
        Asked::Raw(raw) => form_for(raw.number(), described),
    }
}

// A task with the place of its target: the first of `nears` that is of that target, and none if there is none. It is watched unless
// its target is one of `unwatched` or it hasn't its turn in each cycle, and its answers have the form that `described` says.
fn placed(task: Task, nears: &[Near], unwatched: &[u32], described: &[Description]) -> Task
    ensures { result ≡ placed nears.now unwatched.now described.now task }
{
    Task {
        near: near_of(task.command.target, nears),
        watched: !is_unwatched(task.command.target, unwatched) && task.every <= 1,
        form: form_of_asked(&task.command.call, described),
        ..task
    }
}

// Sets in each task the place of its target, whether it is watched, and the form of its answers, as `placed` does.
fn place_tasks(tasks: &mut Vec<Task>, nears: &[Near], unwatched: &[u32], described: &[Description])
    ensures { tasks.new.items ≡ map (placed nears.now unwatched.now described.now) tasks.old.items }
{
    for task in tasks.iter_mut() {
        *task = placed(*task, nears, unwatched, described);
    }
}

/// Reads a station's text, and returns its tasks, the names of targets, where targets are, which targets aren't watched, and what it says
/// of procedures that aren't in the table, with the columns that these add. Until a line says otherwise the commands have `deadline`, in
/// milliseconds, and are chained if `chained`.
///
/// The tasks are those of the setup, which are one chain, and after them those of the cycle: each chain as often as it may
/// be sent, one attempt after the other, each from the chain's first command on.
///
/// Empty lines and those that begin with `#` are skipped. Fails with `InputTooLong` if the text has more than 65,536 bytes, before any
/// line is read; with `Schedule` and the number of the line, counted from 1, at the first faulty line: one that has no form, or gives a
/// target a second name or place, or gives a 65th name or place, or leaves a target unwatched a second time, or a 65th target, or describes
/// a procedure a second time, or a 17th procedure, or adds a 65th column, or has one of another sort than a description before it, or asks
/// for a procedure outside the table that no line before it describes, or for one with parameters that aren't of its kinds, or is a 17th
/// with an item `>`, or takes values of files in the setup, or a 17th one; and with `Memory` if memory was refused, at a line that isn't faulty and follows no faulty one, or, after the last
/// line, for the attempts of the chains.
pub fn read_tasks(
    alloc: Global,
    text: &[u8],
    deadline: u64,
    chained: bool,
) -> Result<Tasks, RunFault>
    ensures found { IfOk result (λ all. IsTasks text.now deadline chained (tasks_seen all)) }
    ensures too_long { RefusesLong text.now result }
    ensures faulty { NamesFaulty (FirstFaultyTaskLine text.now) result }
    ensures memory { MemoryOnlyIf (ReachesASoundTaskLine text.now) result }
    ensures faults { IfErr result (λ e. TaskFault text.now e) }
{
    if text.len() > TEXT_LIMIT {
        return Err(RunFault::InputTooLong);
    }
    read_task_lines(alloc, text, deadline, chained)
}

// Reads the lines of a station's text that isn't too long, as `read_tasks` does. Fails with `Schedule` and `Memory`, as `read_tasks`.
fn read_task_lines(
    alloc: Global,
    text: &[u8],
    deadline: u64,
    chained: bool,
) -> Result<Tasks, RunFault>
    requires { length text.now ≤ TEXT_LIMIT }
    ensures found { IfOk result (λ all. IsTasks text.now deadline chained (tasks_seen all)) }
    ensures fault { IfErr result (λ e. TaskFault text.now e) }
{
    let mut given = Given::new(alloc);
    let mut mode = first_mode(deadline, chained);
    let mut left = Some(text);
    let mut number = 0u32;
    while let Some(text) = left {
        let (line, rest) = cut_line(text);
        left = rest;
        number += 1;
        if is_skipped(line) {
            continue;
        }
        let Some(said) = read_task_line(line) else {
            return Err(RunFault::Schedule { line: number });
        };
        if !given.allows(mode.standing(), &said) {
            return Err(RunFault::Schedule { line: number });
        }
        let next = mode_after(mode, &said);
        if given.append(mode, said).is_err() {
            return Err(RunFault::Memory);
        }
        mode = next;
    }
    let Given {
        setup: mut tasks,
        cycle,
        names,
        nears,
        unwatched,
        described,
        columns,
    } = given;
    let setup = tasks.len();
    if lay_out(&mut tasks, cycle.as_slice()).is_err() {
        return Err(RunFault::Memory);
    }
    place_tasks(
        &mut tasks,
        nears.as_slice(),
        unwatched.as_slice(),
        described.as_slice(),
    );
    Ok(Tasks {
        setup,
        tasks,
        names,
        nears,
        unwatched,
        described,
        columns,
    })
}
