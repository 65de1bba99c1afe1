//! The settings of a station.

ghost use Rattle.std.specs.Prelude.{◌≡◌};
ghost use Rattle.gc_options.specs.Stations.{form_of_rows, for_file, begun_at, with_status_line};

use crate::choice::Choice;
use crate::layout::Layout;
use gc_links::Moment;
use gc_rows::Form;

/// The settings of a station, apart from its place: how its records are laid out, and what an operator chose.
#[derive(Clone, Copy)]
pub struct Settings {
    pub layout: Layout,
    pub choice: Choice,
}

impl Settings {
    /// These settings, with a status line below the signs of life if somebody reads the messages at a terminal (`at_terminal`),
    /// unless the choice has no signs of life.
    pub fn with_status_line(self, at_terminal: bool) -> Settings
        ensures { result ≡ with_status_line at_terminal self }
    {
        let mut settings = self;
        settings.choice.watch = self.choice.watch.shown(at_terminal);
        settings
    }

    /// The form of the rows that go into a file: the one that was asked for, but comma-separated values in place of lines.
    pub fn form_of_rows(self) -> Form
        ensures { result ≡ form_of_rows self.layout.form }
    {
        match self.layout.form {
            Form::Lines | Form::Csv => Form::Csv,
            Form::Columns => Form::Columns,
            Form::Json => Form::Json,
        }
    }

    /// These settings with the records as rows of a file, in `form_of_rows`, and without a header: where the form has one, the
    /// file has it already.
    pub fn for_file(self) -> Settings
        ensures { result ≡ for_file self }
    {
        let mut settings = self;
        settings.layout.form = self.form_of_rows();
        settings.layout.headed = true;
        settings
    }

    /// These settings for a run that begins at this moment.
    pub fn begun(self, moment: Moment) -> Settings
        ensures { result ≡ begun_at moment.utc self }
    {
        let mut settings = self;
        settings.layout.run = moment.utc;
        settings
    }
}
