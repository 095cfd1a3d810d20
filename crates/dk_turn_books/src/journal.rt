//! A journal of lines, which keeps its history in memory.
ghost use Rattle.std.specs.Prelude.{◌<◌};
ghost use Rattle.std.specs.List.{All};

use dk_turn::{Book, Step};

/// A line, and the pass that appended it.
#[derive(Clone, Copy)]
pub struct Line {
    pub by: u32,
    pub value: u64,
}

/// Each value is positive.
#[derive(Drop)]
pub struct Journal {
    pub lines: Vec<Line>,
    pub ghost positive: { All (λ l. 0 < l.value) lines.items },
}

impl Book for Journal {
    type Entry = Line;

    ghost history = { λ j. j.lines.items };

    ghost number = { λ l. l.by };
}

/// Appends a line, and answers its place. With no memory it appends none.
#[derive(Drop)]
pub struct Append {
    pub value: u64,
}

impl Step<Journal> for Append {
    ghost use Rattle.std.specs.Prelude.{◌<◌};
    ghost use Rattle.dk_turn_books.specs.Lines.{appends};

    type Reply = Option<usize>;

    ghost may = { λ s pass history. 0 < s.value };

    ghost gives = { λ s pass before reply added. appends pass s.value before reply added };

    fn apply(self, pass: u32, book: &mut Journal) -> Option<usize> {
        let place = book.lines.len();
        let line = Line {
            by: pass,
            value: self.value,
        };
        book.lines.push(line).ok()?;
        Some(place)
    }
}

/// Reads the line at a place that the pass has seen.
#[derive(Drop)]
pub struct Recall {
    pub place: usize,
}

impl Step<Journal> for Recall {
    ghost use Rattle.std.specs.Prelude.{◌<◌, length};
    ghost use Rattle.dk_turn_books.specs.Lines.{recalls};

    type Reply = Line;

    ghost may = { λ s pass history. s.place < length history };

    ghost gives = { λ s pass before reply added. recalls s.place before reply added };

    fn apply(self, _pass: u32, book: &mut Journal) -> Line {
        book.lines[self.place]
    }
}

/// How many of the values that are asked for make the value at a place that the pass has seen.
#[derive(Drop)]
pub struct Portion<'a> {
    pub place: &'a usize,
    pub total: u64,
}

impl<'a> Step<Journal> for Portion<'a> {
    ghost use Rattle.std.specs.Prelude.{◌≡◌, ◌<◌, ◌/◌, [], length, slice_index_or};
    ghost use Rattle.dk_turn_books.specs.Lines.{is_positive, portion};

    type Reply = u64;

    ghost may = { λ s pass history. is_positive s.place.now history };

    ghost gives = { λ s pass before reply added. (added ≡ []) × portion s.place.now s.total before reply };

    fn apply(self, _pass: u32, book: &mut Journal) -> u64 {
        self.total / book.lines[*self.place].value
    }
}
