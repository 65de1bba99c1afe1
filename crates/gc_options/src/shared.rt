//! The options that `station` and `rehearse` have in common.

use crate::arguments::{Argument, FLAG, Takes};

pub(crate) const WIDTH: Argument<'static> = Argument {
    name: "width",
    takes: Takes::Signed(1, 7),
    value_name: &["W"],
    default: &["1"],
    help: "Lets W requests be in flight, not counting those that timed out, 1 to 7 (7 sends as 6 does); more than 1 only for plain readings",
    ..FLAG
};

pub(crate) const DEADLINE: Argument<'static> = Argument {
    name: "deadline",
    takes: Takes::Unsigned(1, 86_400_000),
    value_name: &["MS"],
    default: &["10000"],
    help: "Times a request out MS milliseconds after it was sent, 1 to 86400000, until a line `deadline MS` says otherwise",
    ..FLAG
};

pub(crate) const SETTLE: Argument<'static> = Argument {
    name: "settle",
    takes: Takes::Unsigned(1, 86_400_000),
    value_name: &["MS"],
    default: &["2000"],
    help: "Pauses MS milliseconds before it reconnects, and sends on the new connection once nothing came for as long, 1 to 86400000",
    ..FLAG
};

pub(crate) const RETRIES: Argument<'static> = Argument {
    name: "retries",
    takes: Takes::Text,
    value_name: &["N"],
    default: &["10"],
    help: "Reconnects at most N times in a row, 1 to 4294967295; `always`: without end",
    ..FLAG
};

pub(crate) const STALE: Argument<'static> = Argument {
    name: "stale",
    takes: Takes::Text,
    value_name: &["SECONDS"],
    default: &["never"],
    help: "Ends the run once some command of a cycle had no answer with quality `ok` or `warning` for SECONDS, 1 to 31536000 and not below --every; `never`: it goes on",
    ..FLAG
};

pub(crate) const CSV: Argument<'static> = Argument {
    name: "csv",
    help: "Writes comma-separated values, with a header",
    ..FLAG
};

pub(crate) const COLUMNS: Argument<'static> = Argument {
    name: "columns",
    help: "Writes comma-separated values, with a further column for each quantity",
    ..FLAG
};

pub(crate) const JSON: Argument<'static> = Argument {
    name: "json",
    excludes: &["csv", "columns"],
    help: "Writes each record as a JSON object on a line of its own",
    ..FLAG
};

pub(crate) const UNCHAINED: Argument<'static> = Argument {
    name: "unchained",
    help: "Sends each command by itself, until a line `chained` says otherwise",
    ..FLAG
};
