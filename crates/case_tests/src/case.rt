// Cases, as they stand in a file.

/// A case: its name, the lines of its fields, and its texts, as the file spells them.
#[derive(Clone, Copy)]
pub struct Case<'a> {
    name: &'a str,
    fields: &'a str,
    texts: &'a str,
}

impl<'a> Case<'a> {
    /// The case of a text that begins with its name, and has no end of its last line.
    pub fn of(text: &'a str) -> Case<'a> {
        let (name, rest) = text.split_once('\n').unwrap_or((text, ""));
        let (fields, texts) = rest.split_once("\n--- ").unwrap_or((rest, ""));
        Case {
            name,
            fields,
            texts,
        }
    }

    /// What it shows.
    pub fn name(self) -> &'a str {
        self.name
    }

    /// What stands behind the name of a field, such as `words: `.
    pub fn field(self, name: &str) -> Option<&'a str> {
        for line in self.fields.split('\n') {
            if let Some(value) = line.strip_prefix(name) {
                return Some(value);
            }
        }
        None
    }

    /// The lines of a text, without the end of the last one. A text without lines is `Some(None)`.
    pub fn text(self, name: &str) -> Option<Option<&'a str>> {
        for text in self.texts.split("\n--- ") {
            match text.split_once('\n') {
                Some((title, lines)) => if title == name {
                    return Some(Some(lines));
                },
                None => if text == name {
                    return Some(None);
                },
            }
        }
        None
    }
}
