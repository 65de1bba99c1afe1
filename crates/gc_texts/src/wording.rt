//! Wordings: how the line of a command says what to ask for.

ghost use Rattle.std.specs.Prelude.{◌≡◌};
ghost use Rattle.gc_texts.specs.Wordings.{sets_clock};

/// How the line of a command says what to ask for.
#[derive(Clone, Copy)]
pub enum Wording {
    /// By a procedure of the table, or after the word `raw`.
    Plain,
    /// By the number of a procedure that isn't in the table, which a line `procedure` before it has to describe.
    Described,
    /// By `5007 now`, which sets the clock to the moment at which the request is sent.
    Now,
}

impl Wording {
    // Whether the clock is set to the moment at which the request is sent.
    pub(crate) fn sets_clock(self) -> bool
        ensures { result ≡ sets_clock self }
    {
        match self {
            Wording::Now => true,
            Wording::Plain | Wording::Described => false,
        }
    }
}
