//! What came of a case is compared with what the case expects, and reported where these differ.

use crate::case::Case;
use crate::escapes::spells;
use crate::told::Told;

impl<'a> Case<'a> {
    /// Whether the value under a key is this text, as it is written there, with its backslashes. Without such a line the value is
    /// empty.
    pub fn is(&self, key: &str, value: &str) -> bool {
        self.value(key) == value
    }

    /// Compares what came for a key with what the case has there, and appends a line with what came to `wrong` if they differ. A
    /// case without such a line expects no bytes.
    pub fn compare(&self, key: &str, came: &[u8], wrong: &mut Told) {
        if !spells(self.value(key), came) {
            self.tell_wrong(key, came, wrong);
        }
    }

    /// Does as `compare` does, and appends the line also where what came lacks a part.
    pub fn compare_told(&self, key: &str, came: &Told, wrong: &mut Told) {
        if !came.is(self.value(key)) {
            self.tell_wrong(key, came.as_bytes(), wrong);
        }
    }

    /// Appends a line with what came for a key to `wrong`, as a value spells it: `NAME: KEY is CAME`.
    pub fn tell_wrong(&self, key: &str, came: &[u8], wrong: &mut Told) {
        self.begin_wrong(key, wrong);
        wrong.escaped(came);
        wrong.text("\n");
    }

    // Appends the beginning of such a line to `wrong`: `NAME: KEY is `.
    pub(crate) fn begin_wrong(&self, key: &str, wrong: &mut Told) {
        wrong.text(self.name);
        wrong.text(": ");
        wrong.text(key);
        wrong.text(" is ");
    }
}
