//! The three standard streams of the program.

ghost use Rattle.std.specs.Prelude.{◌≡◌};

/// An input, an output, and where messages go.
#[derive(Drop)]
pub struct Streams<I, O, E> {
    pub input: I,
    pub output: O,
    pub messages: E,
}

impl<I, O, E> Streams<I, O, E> {
    /// These streams with another output, and the output that they had.
    pub fn with_output<P>(self, output: P) -> (Streams<I, P, E>, O)
        ensures input { result.0.input ≡ self.input }
        ensures output { result.0.output ≡ output }
        ensures messages { result.0.messages ≡ self.messages }
        ensures before { result.1 ≡ self.output }
    {
        let Streams {
            input,
            output: before,
            messages,
        } = self;
        let streams = Streams {
            input,
            output,
            messages,
        };
        (streams, before)
    }
}
