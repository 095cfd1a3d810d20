//! The sections of a test program's input.

use std::alloc::Global;
use std::io::{self, BufRead};
use std::mem;

/// A title, the lines that begin with `given`, and the rows.
#[derive(Drop)]
pub struct Section {
    pub title: String,
    pub given: Vec<String>,
    pub rows: Vec<String>,
}

impl Section {
    fn new(alloc: Global) -> Section {
        Section {
            title: String::new(alloc),
            given: Vec::new(alloc),
            rows: Vec::new(alloc),
        }
    }

    /// Adds a line: the first is the title.
    fn add(&mut self, line: String) -> io::Result<()> {
        if self.title.is_empty() {
            self.title = line;
        } else if line.as_str().starts_with("given ") {
            self.given.push(line)?;
        } else {
            self.rows.push(line)?;
        }
        Ok(())
    }
}

/// The sections of an input, with empty lines between them. A line that begins with `#` is passed over.
pub fn read_sections<R: BufRead + Drop>(alloc: Global, input: R) -> io::Result<Vec<Section>> {
    let mut sections = Vec::new(alloc);
    let mut section = Section::new(alloc);
    for line in input.lines(alloc) {
        let line = line?;
        if line.is_empty() {
            sections.push(mem::replace(&mut section, Section::new(alloc)))?;
        } else if !line.as_str().starts_with("#") {
            section.add(line)?;
        }
    }
    sections.push(section)?;
    Ok(sections)
}
