//! The unit in which people read angles (`--unit`): a station's text has radians all the same.

ghost use Rattle.std.specs.Prelude.{◌≡◌};
ghost use Rattle.gc_options.specs.Units.{unit_in, unit_named};
ghost use Rattle.gc_options.specs.Words.{words_of};

use crate::arguments::{Argument, FLAG, Takes};
use crate::given::text_in;
use clap::ArgMatches;

/// A unit in which people read angles.
#[derive(Clone, Copy, PartialEq, Eq)]
pub enum Unit {
    /// A 200th of half a turn.
    Gon,
    /// A 180th of half a turn.
    Degree,
}

/// The option that names the unit.
pub(crate) const UNIT: Argument<'static> = Argument {
    name: "unit",
    takes: Takes::Text,
    value_name: &["UNIT"],
    needs: &["check"],
    help: "With --check: writes directions, too, and all angles in UNIT, `gon` or `degree`",
    ..FLAG
};

impl Unit {
    // The unit of this name, if there is one.
    fn named(name: &str) -> Option<Unit>
        ensures { result ≡ unit_named name.now }
    {
        if name == "gon" {
            Some(Unit::Gon)
        } else if name == "degree" {
            Some(Unit::Degree)
        } else {
            None
        }
    }
}

/// The unit that the words ask for; `Some(None)` if they ask for none. `None`: what they name is no unit.
pub fn unit_of(words: &ArgMatches) -> Option<Option<Unit>>
    ensures { result ≡ unit_in (words_of words.now) }
{
    match text_in(words, "unit") {
        None => Some(None),
        Some(name) => match Unit::named(name) {
            None => None,
            unit => Some(unit),
        },
    }
}
