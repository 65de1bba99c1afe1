//! The quality of an answer: whether a command that has it was answered well.

ghost use Rattle.std.specs.Prelude.{◌≡◌, ◌≤◌, length};
ghost use Rattle.gc_texts.specs.Qualities.{is_good, is_confirmed, quality_word};

/// How good an answer is, by its codes and by whether its values read.
#[derive(Clone, Copy)]
pub enum Quality {
    /// Both codes are 0, and its values read.
    Fine,
    /// Its communication code is 0, and its return code one that the text accepts.
    Warning,
    /// Its codes and values are as those of `Fine` or `Warning`, and its chain is sent once more in the same attempt: only the second answer
    /// shows whether they are right.
    Unconfirmed,
    /// Its communication code isn't 0, or its return code is neither 0 nor one that the text accepts.
    Refused,
}

impl Quality {
    /// Whether a command with an answer of this quality was answered well, so that its chain may go on.
    pub fn is_good(self) -> bool
        ensures { result ≡ is_good self }
    {
        match self {
            Quality::Fine | Quality::Warning | Quality::Unconfirmed => true,
            Quality::Refused => false,
        }
    }

    /// Whether an answer of this quality is good, and no other has yet to confirm it.
    pub fn is_confirmed(self) -> bool
        ensures { result ≡ is_confirmed self }
    {
        match self {
            Quality::Fine | Quality::Warning => true,
            Quality::Unconfirmed | Quality::Refused => false,
        }
    }

    /// The word of this quality in rows and in lines of JSON.
    pub fn word(self) -> &'static [u8]
        ensures is { result.now ≡ quality_word self }
        ensures short { length result.now ≤ 16 }
    {
        match self {
            Quality::Fine => b"ok",
            Quality::Warning => b"warning",
            Quality::Unconfirmed => b"unconfirmed",
            Quality::Refused => b"refused",
        }
    }
}
