//! The options that have a limit: a number from 1 on, or a word in its place. 0 is neither.

ghost use Rattle.std.specs.Prelude.{◌≡◌, ℕ, IfSome, IsSome, None};
ghost use Rattle.gc_options.specs.Limits.{HasLimits, LacksLimit, ReadsLimit, SaysLimit, limit_name, limit_refusal, limit_word, limitless, most_of};
ghost use Rattle.gc_options.specs.Words.{words_of};

use crate::given::text_in;
use clap::ArgMatches;

/// An option with a limit.
#[derive(Clone, Copy)]
pub enum Limit {
    /// `--cycles` of `station`: how many cycles are measured or missed.
    Cycles,
    /// `--cycles` of `rehearse`: how many a night has.
    NightCycles,
    /// `--retries`: how many times in a row it reconnects.
    Retries,
    /// `--stale`: for how many seconds the run goes on without an answer.
    Stale,
}

impl Limit {
    // The name of the option.
    fn name(self) -> &'static str
        ensures { result.now ≡ limit_name self }
    {
        match self {
            Limit::Cycles | Limit::NightCycles => "cycles",
            Limit::Retries => "retries",
            Limit::Stale => "stale",
        }
    }

    // The word in place of a number: that there is no limit, or of a night that it has as many cycles as a day has periods.
    fn word(self) -> &'static str
        ensures { result.now ≡ limit_word self }
    {
        match self {
            Limit::Cycles => "unlimited",
            Limit::NightCycles => "day",
            Limit::Retries => "always",
            Limit::Stale => "never",
        }
    }

    // What that word stands for.
    fn limitless(self) -> u64
        ensures { result ≡ limitless self }
    {
        match self {
            Limit::Cycles => u64::MAX,
            Limit::Retries => 4_294_967_295,
            Limit::NightCycles | Limit::Stale => 0,
        }
    }

    // The greatest number.
    fn most(self) -> u64
        ensures { result ≡ most_of self }
    {
        match self {
            Limit::Cycles => u64::MAX,
            Limit::NightCycles => 86_400,
            Limit::Retries => 4_294_967_295,
            Limit::Stale => 31_536_000,
        }
    }

    /// Why a command line is refused that has another text for the option.
    pub fn refusal(self) -> &'static str
        ensures { result.now ≡ limit_refusal self }
    {
        match self {
            Limit::Cycles =>
                "--cycles takes 'unlimited' or a number from 1 to 18446744073709551615",
            Limit::NightCycles => "--cycles takes 'day' or a number from 1 to 86400",
            Limit::Retries => "--retries takes 'always' or a number from 1 to 4294967295",
            Limit::Stale => "--stale takes 'never' or a number of seconds from 1 to 31536000",
        }
    }

    // The number that a text says, or that the option's word stands for. `None`: the text is neither.
    fn said_by(self, text: &str) -> Option<u64>
        ensures found { IfSome result (λ number. SaysLimit self text.now number) }
        ensures only { (number : ℕ) → SaysLimit self text.now number → IsSome result }
    {
        if text == self.word() {
            return Some(self.limitless());
        }
        let number = text.parse::<u64>().ok()?;
        if number == 0 || number > self.most() {
            return None;
        }
        Some(number)
    }
}

/// The number that the words give for an option with a limit, or that its word stands for. `None`: they give another text, or none.
pub(crate) fn limit_in(words: &ArgMatches, limit: Limit) -> Option<u64>
    ensures { ReadsLimit (words_of words.now) limit result }
{
    limit.said_by(text_in(words, limit.name())?)
}

/// An option for which the words say neither a number within its bounds nor its word: this one for cycles (`Cycles`, `NightCycles`),
/// `Retries` or `Stale`. `None`: there is none.
pub fn missing_limit(words: &ArgMatches, cycles: Limit) -> Option<Limit>
    ensures lacks { IfSome result (λ limit. LacksLimit (words_of words.now) cycles limit) }
    ensures none { result ≡ None → HasLimits (words_of words.now) cycles }
{
    if limit_in(words, cycles).is_none() {
        return Some(cycles);
    }
    if limit_in(words, Limit::Retries).is_none() {
        return Some(Limit::Retries);
    }
    if limit_in(words, Limit::Stale).is_none() {
        return Some(Limit::Stale);
    }
    None
}
