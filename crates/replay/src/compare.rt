// Holding the answers and digests of a list against the record's own.
use crate::build::first_gear;
use crate::entry::{ENTRY_LEN, Entry};
use crate::image::digest;
use crate::perform::perform;
use gear::answer::{Answer, Outcome, Reply};
use gear::record::Gear;

// Why nothing is left to compare: the input ended, or the next entry is malformed.
#[derive(Clone, Copy, PartialEq, Eq, Debug)]
pub enum End {
    Over,
    Malformed,
}

#[derive(Clone, Copy)]
pub struct Progress {
    pub gear: Gear,
    pub compared: u64,
    pub differ: u64,
    // The number of the first call that differs, from 1.
    pub first: Option<u64>,
    // Where the next entry begins.
    pub offset: u64,
    pub end: Option<End>,
}

// An answer as a list tells it: the numbers of oracle/FORMAT.md, which the entry has too.
#[derive(Clone, Copy, PartialEq, Eq)]
struct Told {
    tag: u8,
    number: u16,
}

impl From<Answer> for Told {
    fn from(answer: Answer) -> Told {
        let (tag, number) = match answer {
            Ok(Reply::Done) => (0, 0),
            Ok(Reply::Value(value)) => (1, value),
            Ok(Reply::Nothing) => (2, 0),
            Err(refusal) => (3, u16::from(u8::from(refusal))),
            Ok(Reply::Incapable(need)) => (4, u16::from(u8::from(need))),
        };
        Told { tag, number }
    }
}

// The entry's answer and digest are those of the outcome.
fn agrees(entry: Entry, outcome: Outcome) -> bool {
    let told = Told {
        tag: entry.byte(32),
        number: entry.word(33),
    };
    told == Told::from(outcome.answer)
        && entry.byte(35) == 0
        && entry.long(36) == digest(outcome.gear)
}

impl Progress {
    pub fn start() -> Progress {
        Progress {
            gear: first_gear(),
            compared: 0,
            differ: 0,
            first: None,
            offset: 0,
            end: None,
        }
    }

    fn judge(&mut self, entry: Entry, outcome: Outcome) {
        self.gear = outcome.gear;
        self.compared = self.compared.saturating_add(1);
        self.offset = self.offset.saturating_add(ENTRY_LEN as u64);
        if !agrees(entry, outcome) {
            self.differ = self.differ.saturating_add(1);
            self.first = self.first.or(Some(self.compared));
        }
    }

    // A list begins with kind 0.
    fn is_begun(&self, entry: Entry) -> bool {
        0 < self.compared || entry.kind() == 0
    }

    fn compare(&mut self, entry: Entry) {
        match perform(self.gear, entry) {
            Some(outcome) if self.is_begun(entry) => self.judge(entry, outcome),
            _ => self.end = Some(End::Malformed),
        }
    }

    // Every whole entry of `list`; bytes left over are an entry cut short.
    pub fn compare_all(&mut self, list: &[u8]) {
        let (entries, rest) = list.as_chunks::<ENTRY_LEN>();
        for entry in entries {
            if self.end.is_some() {
                return;
            }
            self.compare(Entry(entry));
        }
        if !rest.is_empty() {
            self.end = self.end.or(Some(End::Malformed));
        }
    }
}
