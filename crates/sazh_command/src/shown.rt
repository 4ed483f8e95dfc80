//! Texts with words in them, as a terminal is shown them.

use std::fmt;

/// A text whose control characters are escaped, line ends among them unless they are kept.
#[derive(Clone, Copy)]
pub struct Shown<'a> {
    pub text: &'a str,
    pub keeps_lines: bool,
}

impl<'a> fmt::Display for Shown<'a> {
    fn fmt<W: fmt::Write>(&self, f: &mut fmt::Formatter<W>) -> fmt::Result {
        for c in self.text.chars() {
            if c.is_control() && !(c == '\n' && self.keeps_lines) {
                write!(f, "{}", c.escape_default())?;
            } else {
                f.write_char(c)?;
            }
        }
        Ok(())
    }
}

/// Whether a line ends within one of the words.
pub fn any_holds_line_end(words: &[String]) -> bool {
    words.iter().any(|word| word.as_str().contains('\n'))
}
