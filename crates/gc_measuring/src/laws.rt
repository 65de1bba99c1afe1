//! What is proved of the definitions themselves. The functions have no effect: their contracts are the laws.

ghost use Rattle.std.specs.Prelude.{◌≡◌, ◌<◌, ℕ, ◌*◌, List, Some, unsigned_abs};
ghost use Rattle.gc_measuring.specs.Angles.{half, last_places, scale_of};
ghost use Rattle.gc_measuring.specs.Choices.{IsTimeToMultiple, plan_of};
ghost use Rattle.gc_measuring.specs.ValueCounts.{AnswersHaveTheirCount};
ghost use Rattle.gc_measuring.specs.Wanted.{WantCountsOverConnections};
ghost use Rattle.gc_values.specs.Directions.{half_turn};
ghost use Rattle.gc_values.specs.Nearest.{RoundsHalfUp};
ghost use Rattle.gc_texts.specs.declared.tasks.Task.{Task};
ghost use Rattle.gc_options.specs.declared.choice.Choice.{Choice};
ghost use Rattle.gc_options.specs.declared.unit.Unit.{Unit};

/// If the cycle has had no answer yet, and as long as none comes and no command has no value of a file, the moment since which an answer is
/// wanted stays the same, whatever becomes of connections and cycles meanwhile.
pub fn a_want_counts_over_connections()
    ensures { WantCountsOverConnections }
{}

/// An angle is shown in a unit as the whole number of units of the last place that is nearest to it, and of two that are equally near
/// as the one further from 0. Half a turn is the same as for directions.
pub fn shown_angles_are_nearest()
    ensures nearest { (unit : Unit) (angle : ℕ) → RoundsHalfUp (angle * scale_of unit) half (last_places unit angle) }
    ensures half_turn { unsigned_abs half_turn ≡ half }
{}

/// Each answer to a call has as many values as `--check` counts for the call's procedure, when it compares them with a line `expect`.
pub fn answers_have_their_count()
    ensures { AnswersHaveTheirCount }
{}

/// Where cycles are due by the clock, the first one is due so long after the beginning of the run that it is then `at` after a whole
/// multiple of the period, counted from 1970, and less than a period.
pub fn the_first_cycle_is_due_by_the_clock()
    ensures { (choice : Choice) (run setup at : ℕ) (tasks : List Task) → choice.at ≡ Some at → 0 < choice.every
        → IsTimeToMultiple choice.every at run (plan_of choice run setup tasks).first }
{}
