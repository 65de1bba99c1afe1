//! What the words behind a subcommand's name give for an argument: its text, whether it is set, and its number. Each number's
//! default is filled in by clap.

ghost use Rattle.std.specs.Prelude.{◌≡◌, option_map};
ghost use Rattle.gc_options.specs.Words.{words_of, text_in, has_flag, ReadsNumber, IsNumberOr};

use clap::ArgMatches;

/// The text that the words give for an argument, or its default. `None`: neither.
pub fn text_in<'a>(words: &ArgMatches<'a>, name: &str) -> Option<&'a str>
    ensures { option_map (λ text. text.now) result ≡ text_in (words_of words.now) name.now }
{
    words.get_str(name)
}

/// Whether the words have a flag.
pub fn has_flag(words: &ArgMatches, name: &str) -> bool
    ensures { result ≡ has_flag (words_of words.now) name.now }
{
    words.get_one::<bool>(name).unwrap_or(false)
}

/// The number of 8 bits that the words give for an option, or its default. `None`: there is none, or it has more bits.
pub fn byte_in(words: &ArgMatches, name: &str) -> Option<u8>
    ensures { ReadsNumber (words_of words.now) name.now 8 result }
{
    words.get_one::<u8>(name)
}

/// The number of 32 bits that the words give for an option, or its default. `None`: there is none, or it has more bits.
pub fn u32_in(words: &ArgMatches, name: &str) -> Option<u32>
    ensures { ReadsNumber (words_of words.now) name.now 32 result }
{
    words.get_one::<u32>(name)
}

/// The number of 64 bits that the words give for an option, or its default. `None`: there is none, or it has more bits.
pub fn u64_in(words: &ArgMatches, name: &str) -> Option<u64>
    ensures { ReadsNumber (words_of words.now) name.now 64 result }
{
    words.get_one::<u64>(name)
}

/// The number of 64 bits that the words give for an option, or its default, or else this one.
pub fn u64_or(words: &ArgMatches, name: &str, other: u64) -> u64
    ensures { IsNumberOr (words_of words.now) name.now 64 other result }
{
    u64_in(words, name).unwrap_or(other)
}

/// The number of 32 bits that the words give for an option, or its default, or else this one.
pub fn u32_or(words: &ArgMatches, name: &str, other: u32) -> u32
    ensures { IsNumberOr (words_of words.now) name.now 32 other result }
{
    u32_in(words, name).unwrap_or(other)
}

/// The number of 8 bits that the words give for an option, or its default, or else this one.
pub fn byte_or(words: &ArgMatches, name: &str, other: u8) -> u8
    ensures { IsNumberOr (words_of words.now) name.now 8 other result }
{
    byte_in(words, name).unwrap_or(other)
}
