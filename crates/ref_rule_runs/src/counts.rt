//! What is counted over all seats and parts.
use ref_rule::Tag;
use ref_rule::kinds::BARE;
use ref_rule::state::{By, Entry, Hold, Section, State, View};

#[derive(Clone, Copy)]
pub enum EntryTest {
    Any,
    Got,
    Published,
    At(u32),
    GotAt(u32),
    /// At this place, with this call.
    GotBy(u32, Tag),
    SubmitGot(u32),
    /// At this place, with the caller and the number of this call.
    SubmitNamed(u32, Tag),
    BareGot(u32),
    ExecuteOf(u32),
}

impl EntryTest {
    fn passes(&self, e: &Entry) -> bool {
        let bare = e.call.kind == BARE;
        match *self {
            EntryTest::Any => true,
            EntryTest::Got => e.got,
            EntryTest::Published => matches!(e.by, By::Publish),
            EntryTest::At(k) => e.place == k,
            EntryTest::GotAt(k) => e.place == k && e.got,
            EntryTest::GotBy(k, call) => e.place == k && e.got && e.call == call,
            EntryTest::SubmitGot(k) => e.place == k && e.got && !bare,
            EntryTest::SubmitNamed(k, call) => {
                let named = e.call.caller == call.caller && e.call.number == call.number;
                e.place == k && e.got && !bare && named
            }
            EntryTest::BareGot(k) => e.place == k && e.got && bare,
            EntryTest::ExecuteOf(k) => match e.by {
                By::Execute(of) => of == k,
                _ => false,
            },
        }
    }
}

#[derive(Clone, Copy)]
pub enum HoldTest {
    Any,
    On(u32),
    GotBy(u32),
    Waiting(u32),
    Executed(u32),
    Bare(u32),
}

impl HoldTest {
    fn passes(&self, h: &Hold) -> bool {
        let bare = h.call.kind == BARE;
        match *self {
            HoldTest::Any => true,
            HoldTest::On(disk) => h.disk == disk,
            HoldTest::GotBy(k) => h.place == k,
            HoldTest::Waiting(k) => h.place == k && !bare && !h.executed,
            HoldTest::Executed(k) => h.place == k && !bare && h.executed,
            HoldTest::Bare(k) => h.place == k && bare,
        }
    }
}

// The entries of one seat or part, that of its open section among them.
fn kept(view: &View, test: &EntryTest) -> usize {
    let finished = view
        .entries
        .as_slice()
        .iter()
        .filter(|e| test.passes(e))
        .count();
    let own = match &view.section {
        Section::Placed(e) if test.passes(e) => 1,
        _ => 0,
    };
    finished.saturating_add(own)
}

pub fn entries(s: &State, test: EntryTest) -> usize {
    let mut n: usize = 0;
    for view in s.views.as_slice() {
        n = n.saturating_add(kept(view, &test));
    }
    n
}

pub fn holds(s: &State, test: HoldTest) -> usize {
    let mut n: usize = 0;
    for view in s.views.as_slice() {
        let here = view
            .holds
            .as_slice()
            .iter()
            .filter(|h| test.passes(h))
            .count();
        n = n.saturating_add(here);
    }
    n
}
