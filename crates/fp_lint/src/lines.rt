//! The lines of a text.

/// Counts the lines of a text, from its start on.
#[derive(Drop)]
pub(crate) struct Lines<'a> {
    text: &'a [u8],
    /// The number of octets passed so far.
    place: usize,
    /// The line of the next octet, from 1.
    line: usize,
    /// Whether the last octet was a carriage return.
    after_return: bool,
}

impl<'a> Lines<'a> {
    /// The lines of a text.
    pub(crate) fn new(text: &'a [u8]) -> Lines<'a> {
        Lines {
            text,
            place: 0,
            line: 1,
            after_return: false,
        }
    }

    /// The line of a record: of its first octet, after any empty lines. The reader of the records began it after this
    /// number of octets of the text. A line ends with LF, CR LF or CR. You must ask for the records in their order.
    pub(crate) fn of_record(&mut self, octets: usize) -> usize {
        let text = self.text;
        for place in self.place..text.len() {
            let octet = text[place];
            let ends_line = octet == b'\n' || octet == b'\r';
            if place >= octets && !ends_line {
                self.place = place;
                return self.line;
            }
            if ends_line && !(octet == b'\n' && self.after_return) {
                self.line = self.line.saturating_add(1);
            }
            self.after_return = octet == b'\r';
        }
        self.place = text.len();
        self.line
    }
}
