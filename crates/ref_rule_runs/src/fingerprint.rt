//! A number that tells two states apart.
use lists::items::Items;
use ref_rule::state::{
    By, Count, Disk, Drain, Entry, Hold, LoadedMode, Mark, Phase, Role, Section, State, View,
};
use std::hash::{DefaultHasher, Hasher};

#[derive(Drop)]
struct Print {
    hasher: DefaultHasher,
}

impl Print {
    fn add(&mut self, word: u64) {
        self.hasher.write_u64(word);
    }

    fn entry(&mut self, e: &Entry) {
        self.add(e.place as u64);
        self.add(e.serial as u64);
        self.add(e.call.kind as u64);
        self.add(e.call.caller as u64);
        self.add(e.call.number as u64);
        self.add(match e.by {
            By::Draw => 1,
            By::Publish => 2,
            By::Done => 3,
            By::Execute(of) => (of as u64).wrapping_add(4),
        });
        self.add(e.got as u64);
    }

    fn hold(&mut self, h: &Hold) {
        self.add(h.disk as u64);
        self.add(h.place as u64);
        self.add(h.call.kind as u64);
        self.add(h.call.caller as u64);
        self.add(h.call.number as u64);
        self.add(h.executed as u64);
    }

    fn section(&mut self, section: &Section) {
        match section {
            Section::Out => self.add(1),
            Section::In => self.add(2),
            Section::Placed(e) => self.entry(e),
        }
    }

    fn lists(&mut self, view: &View) {
        self.add(view.holds.len() as u64);
        for h in view.holds.as_slice() {
            self.hold(h);
        }
        self.add(view.turns.len() as u64);
        for t in view.turns.as_slice() {
            self.add(t.slot as u64);
            self.add(t.out as u64);
        }
        self.add(view.entries.len() as u64);
        for e in view.entries.as_slice() {
            self.entry(e);
        }
    }

    fn view(&mut self, view: &View) {
        self.add(match view.role {
            Role::Seat => 1,
            Role::Part => 2,
            Role::Spent => 3,
        });
        self.add(view.number as u64);
        self.add(view.word);
        self.section(&view.section);
        self.add(match view.loaded {
            LoadedMode::NotLoaded => 1,
            LoadedMode::Live(disk) => (disk as u64).wrapping_add(0x100),
            LoadedMode::Killed(disk) => (disk as u64).wrapping_add(0x200),
        });
        self.lists(view);
        self.add(view.left as u64);
        self.add(view.seen as u64);
    }

    fn words(&mut self, words: &Items<u64>) {
        self.add(words.len() as u64);
        for word in words.as_slice() {
            self.add(*word);
        }
    }

    fn counts(&mut self, counts: &Items<Count>) {
        self.add(counts.len() as u64);
        for c in counts.as_slice() {
            self.add(c.ups);
            self.add(c.downs);
        }
    }

    fn marks(&mut self, marks: &Items<Mark>) {
        self.add(marks.len() as u64);
        for mark in marks.as_slice() {
            match mark {
                Mark::Unseen => self.add(1),
                Mark::Noted(word) => self.add(word.wrapping_add(3)),
                Mark::Passed => self.add(2),
            }
        }
    }

    fn disk(&mut self, disk: &Disk) {
        self.add(disk.mode);
        self.add(disk.shared);
        self.counts(&disk.own);
    }

    fn looked(&mut self, looked: &Items<Option<Count>>) {
        self.add(looked.len() as u64);
        for found in looked.as_slice() {
            match found {
                Some(c) => {
                    self.add(c.ups);
                    self.add(c.downs);
                }
                None => self.add(u64::MAX),
            }
        }
    }

    fn drain(&mut self, drain: &Drain) {
        self.add(match drain.phase {
            Phase::Live => 1,
            Phase::Killed => 2,
            Phase::Folded => 3,
            Phase::Drained => 4,
            Phase::Armed => 5,
        });
        self.add(drain.done_placed as u64);
        self.counts(&drain.bases);
        self.looked(&drain.looked);
        self.marks(&drain.marks);
    }

    fn editor(&mut self, s: &State) {
        for words in s.editor.confs.as_slice() {
            self.words(words);
        }
        for p in s.editor.published.as_slice() {
            self.add(p.place as u64);
            self.add(p.call.number as u64);
        }
        for p in s.editor.pending.as_slice() {
            self.add(p.0 as u64);
            self.add(p.1);
        }
        self.marks(&s.editor.marks);
        for drain in s.editor.drains.as_slice() {
            self.drain(drain);
        }
    }
}

/// The number of a state.
pub fn fingerprint(s: &State) -> u64 {
    let mut print = Print {
        hasher: DefaultHasher::new(),
    };
    print.add(s.given as u64);
    print.add(s.serial as u64);
    for words in s.sides.as_slice() {
        print.words(words);
    }
    for disk in s.disks.as_slice() {
        print.disk(disk);
    }
    print.words(&s.turns);
    for view in s.views.as_slice() {
        print.view(view);
    }
    print.editor(s);
    print.hasher.finish()
}
