//! Reads a text: its rules, or why it has none.

ghost use Rattle.std.specs.Prelude.{◌≡◌, ◌+◌, ◌<◌, ◌≤◌, ◌↔◌, ℕ, length, Err, IfOk, IfErr, OnOk, ◌++◌, codes};
ghost use Rattle.gc_rehearsal.specs.Rules.{AreRules, Leads, IsFaultyRule};
ghost use Rattle.gc_rehearsal.specs.Refusals.{RefusesRules};
ghost use Rattle.gc_rehearsal.specs.declared.reading.Refusal.{Refusal};
ghost use Rattle.gc_texts.specs.declared.text.TheConstants.{TEXT_LIMIT};

use crate::rule::{RuleFault, read_rule};
use crate::rules::Rules;
use crate::spaced::is_blank;
use gc_texts::{TEXT_LIMIT, before, cut_line};

/// Why a text has no rules.
#[derive(Clone, Copy)]
pub enum Refusal {
    /// It has more than 65,536 bytes.
    TooLong,
    /// This line, counted from 1, is its first faulty one, and `fault` is what is wrong with it.
    Line { line: u32, fault: RuleFault },
}

// Reads the next line of a text whose earlier lines gave `rules`: returns these with the rule of the line, or the same if the
// line has nothing but spaces before its first `#` or, without one, its end. `Err`: what is wrong with the line.
fn read_line(rules: &Rules, line: &[u8]) -> Result<Rules, RuleFault>
    ensures found { IfOk result (λ new. Leads rules.now line.now new) }
    ensures fault { IfErr result (λ fault. IsFaultyRule rules.now line.now fault) }
{
    let text = before(b'#', line);
    if is_blank(text) {
        return Ok(*rules);
    }
    let rule = read_rule(text)?;
    if rules.frequency(rule.word).is_some() {
        return Err(RuleFault::Again(rule.word));
    }
    Ok(rules.with(rule))
}

/// Reads a text, and returns its rules: a line for each of its words, in any order, with comments after `#`. A word has one line at most.
///
/// Fails with `TooLong` if the text has more than 65,536 bytes, before any line is read, and with `Line` at the first faulty line.
pub fn read_rules(text: &[u8]) -> Result<Rules, Refusal>
    ensures found { IfOk result (λ rules. AreRules text.now rules) }
    ensures too_long { (result ≡ Err Refusal.TooLong) ↔ (TEXT_LIMIT < length text.now) }
    ensures fault { IfErr result (λ refusal. RefusesRules text.now refusal) }
{
    if text.len() > TEXT_LIMIT {
        return Err(Refusal::TooLong);
    }
    read_lines(text)
}

// Reads the lines of a text that isn't too long, and returns its rules. Fails with `Line` at the first faulty line.
fn read_lines(text: &[u8]) -> Result<Rules, Refusal>
    requires { length text.now ≤ TEXT_LIMIT }
    ensures found { IfOk result (λ rules. AreRules text.now rules) }
    ensures fault { IfErr result (λ refusal. RefusesRules text.now refusal) }
{
    let mut rules = Rules::none();
    let mut left = Some(text);
    let mut number = 0u32;
    while let Some(text) = left {
        let (line, rest) = cut_line(text);
        left = rest;
        number += 1;
        match read_line(&rules, line) {
            Ok(new) => rules = new,
            Err(fault) => return Err(Refusal::Line {
                line: number,
                fault,
            }),
        }
    }
    Ok(rules)
}
