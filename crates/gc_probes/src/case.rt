//! A case of a test, and how the cases of a text are cut from it.

use std::str::FromStr;

/// A case: a name, and lines of a key and a value each.
#[derive(Clone, Copy)]
pub struct Case<'a> {
    /// The case's name, which follows `==`.
    pub name: &'a str,
    // The lines of the case, as the text has them: those with a key and its value, and those that say nothing.
    lines: &'a str,
}

impl<'a> Case<'a> {
    /// The value of the first line with this key; an empty one if no line has it.
    pub fn value(&self, key: &str) -> &'a str {
        self.value_at(key, 0).unwrap_or("")
    }

    /// Whether the first line with this key has a value that isn't empty; `false` if no line has the key.
    pub fn has(&self, key: &str) -> bool {
        !self.value(key).is_empty()
    }

    /// The value of the line at a place, counted from 0, among the lines with this key. `None`: there are fewer such lines.
    pub fn value_at(&self, key: &str, place: usize) -> Option<&'a str> {
        self.lines
            .lines()
            .filter_map(|line| value_of(line, key))
            .nth(place)
    }

    /// The number that the first line with this key has as its value; `or` if there is no such line, or its value is no number
    /// of this type.
    pub fn number<T: FromStr + Drop>(&self, key: &str, or: T) -> T
    where
        T::Err: Drop,
    {
        self.value(key).parse::<T>().unwrap_or(or)
    }
}

// The value of a line that has this key; a line of the key alone has an empty one. `None`: the line has another key,
// or none.
fn value_of<'a>(line: &'a str, key: &str) -> Option<&'a str> {
    let rest = line.strip_prefix(key)?;
    if rest.is_empty() {
        return Some(rest);
    }
    rest.strip_prefix(' ')
}

/// The first case of a text, which the first `== ` begins, and the text after it: from the LF before the next case's `== ` on, or
/// an empty one if there is no further case. `None`: the text has no case.
pub fn cut_case(text: &str) -> Option<(Case<'_>, &str)> {
    let (_, cases) = text.split_once("== ")?;
    let case = cases.split_once("\n== ").map_or(cases, |cut| cut.0);
    let (name, lines) = case.split_once('\n').unwrap_or((case, ""));
    let rest = cases.get(case.len()..).unwrap_or("");
    Some((Case { name, lines }, rest))
}
