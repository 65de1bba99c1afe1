//! That what a station's commands ask is allowed, as Rust's types say of every `Task`.
//! The functions here serve proofs alone: their contracts say this for the laws.

ghost use Rattle.gc_rehearsal.specs.Askable.{AreAskable, IsAskable};

use gc_catalogue::encode_asked;
use gc_texts::Task;

// What this command asks is allowed, as `commands_are_askable` has it of several.
fn command_is_askable(task: &Task)
    ensures { IsAskable task.entry.now }
{
    let _ = encode_asked(None, &task.command.call);
}

/// What each of these commands asks is allowed (`IsAskedFitting`), at whatever moment it is sent: a call's numbers lie in their
/// types, and a procedure that isn't in the table may be asked for with its parameters.
pub fn commands_are_askable(commands: &[Task])
    ensures { AreAskable commands.now }
{
    for task in commands {
        command_is_askable(task);
    }
}
