//! What the rows of a section without a host speak of: the play before it.

use crate::plays::{Files, Played, TORN, play};
use crate::stops::Trial;
use dk_rows::{Section, Words};
use dk_types::Side;
use std::alloc::Global;
use std::sync::Wait;
use std::thread::Threads;

/// The place of the format in a file.
const FORMAT_AT: usize = 10;

/// The last play, with its files, its rows and which call of its home fails, or none at 0; the files that rows have named, and the
/// worlds after so many commits; and what was told of it last.
#[derive(Drop)]
pub struct Desk<'a, R> {
    rt: &'a R,
    alloc: Global,
    files: Files,
    rows: &'a [String],
    failing: u64,
    played: Option<Played>,
    kept: Vec<(String, Files)>,
    worlds: Vec<String>,
    told: Vec<String>,
}

impl<'a, R: Threads + Wait + Sync> Desk<'a, R> {
    pub fn new(rt: &'a R, alloc: Global) -> Desk<'a, R> {
        let (zero, one) = (Vec::new(alloc), Vec::new(alloc));
        Desk {
            rt,
            alloc,
            files: Files { zero, one },
            rows: &[],
            failing: 0,
            played: None,
            kept: Vec::new(alloc),
            worlds: Vec::new(alloc),
            told: Vec::new(alloc),
        }
    }

    /// The answers of a section's rows: of a new play, or of the play before it.
    pub fn answers(&mut self, section: &'a Section) -> &[String] {
        if section.given.is_empty() {
            self.told = self.told_of(section.rows.as_slice());
            return &self.told;
        }
        self.played = self.played_on(section);
        match &self.played {
            Some(played) => &played.answers,
            None => &[],
        }
    }

    /// What is told of the last play, row by row, until there is no answer.
    fn told_of(&mut self, rows: &[String]) -> Vec<String> {
        let mut told = Vec::new(self.alloc);
        for row in rows {
            let row = row.as_str();
            let call = row.split_once(" = ").unwrap_or((row, "")).0;
            let Some(answer) = self.told(&mut Words::of(call)) else {
                break;
            };
            if told.push(answer).is_err() {
                break;
            }
        }
        told
    }

    fn told(&mut self, call: &mut Words<'_>) -> Option<String> {
        match call.word()? {
            "keep" => self.keep(call),
            "world" => self.world(call),
            "left" => self.left(),
            "files" => self.files(),
            "stops" => self.stops(call),
            "spent" => format!(in self.alloc; "{}", self.played.as_ref()?.home.spent()).ok(),
            "calls" => format!(in self.alloc; "{}", self.played.as_ref()?.calls()).ok(),
            _ => None,
        }
    }

    fn played_on(&mut self, section: &'a Section) -> Option<Played> {
        self.files = Files::of(self.alloc, b"", b"")?;
        self.rows = section.rows.as_slice();
        self.failing = 0;
        for line in &section.given {
            self.give(&mut Words::of(line.as_str()))?;
        }
        play(self.rt, self.alloc, &self.files, self.failing, self.rows)
    }

    /// `given host`, `given files NAME`, `given format NUMBER`, or `given failing ROW`: the last call of the home in a row.
    fn give(&mut self, line: &mut Words<'_>) -> Option<()> {
        line.word()?;
        match line.word()? {
            "host" => {}
            "files" => self.files = self.named(line.word()?)?,
            "format" => *self.files.zero.get_mut(FORMAT_AT)? = u8::try_from(line.number()?).ok()?,
            "failing" => self.failing = self.last_call(line.number()?)?,
            _ => return None,
        }
        Some(())
    }

    /// A copy of the files of this name.
    fn named(&self, name: &str) -> Option<Files> {
        for (kept, files) in &self.kept {
            if kept.as_str() == name {
                return Files::of(self.alloc, &files.zero, &files.one);
            }
        }
        None
    }

    /// The number of the last call of the home in a row.
    fn last_call(&self, row: u64) -> Option<u64> {
        let rows = self.rows.get(..usize::try_from(row).ok()?)?;
        Some(play(self.rt, self.alloc, &self.files, 0, rows)?.calls())
    }

    /// `keep NAME`: the files that are left get a name.
    fn keep(&mut self, call: &mut Words<'_>) -> Option<String> {
        let name = String::from_str(self.alloc, call.word()?).ok()?;
        let home = self.played.as_ref()?.home.inner();
        let files = Files::of(
            self.alloc,
            home.contents(Side::Zero),
            home.contents(Side::One),
        )?;
        self.kept.push((name, files)).ok()?;
        Some(String::new(self.alloc))
    }

    /// `world TEXT`: the world after the next number of commits, from 0 on.
    fn world(&mut self, call: &mut Words<'_>) -> Option<String> {
        let text = String::from_str(self.alloc, call.rest()).ok()?;
        self.worlds.push(text).ok()?;
        Some(String::new(self.alloc))
    }

    /// `left`: how many commits a stop behind the last call leaves in each torn image, if each has their world.
    fn left(&self) -> Option<String> {
        let played = self.played.as_ref()?;
        let mut text = String::new(self.alloc);
        for torn in TORN {
            let (commits, world) = played.left(played.calls(), torn)?.world(self.alloc)?;
            if *self.worlds.get(usize::try_from(commits).ok()?)? != world {
                return None;
            }
            write!(text, "{commits} ").ok()?;
        }
        Some(text)
    }

    /// `files`: their lengths, in bytes, and the epochs of the store as it was opened, and as it stands.
    fn files(&self) -> Option<String> {
        let played = self.played.as_ref()?;
        let home = played.home.inner();
        let zero = home.contents(Side::Zero).len();
        let one = home.contents(Side::One).len();
        let (first, last) = played.epochs;
        format!(in self.alloc; "{zero} {one} epochs {first} {last}").ok()
    }

    /// `stops BEFORE`: what was lost of the play, whose files hold so many commits.
    fn stops(&self, call: &mut Words<'_>) -> Option<String> {
        let trial = Trial {
            rt: self.rt,
            alloc: self.alloc,
            files: &self.files,
            rows: self.rows,
            worlds: &self.worlds,
            before: call.number()?,
        };
        trial.stops()
    }
}
