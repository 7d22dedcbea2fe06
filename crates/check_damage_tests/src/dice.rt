// Random numbers from a fixed seed.
use rand_core::utils::NextWord;
use rand_pcg::Pcg32;
use run_check_tests::{Finished, Part};

#[derive(Drop)]
pub(crate) struct Dice {
    words: Pcg32,
}

impl Dice {
    pub(crate) fn new(seed: u64) -> Self {
        Dice {
            words: Pcg32::new(seed, 54),
        }
    }

    // A number below so many, or 0.
    pub(crate) fn roll(&mut self, sides: u32) -> u32 {
        let word = self.words.next_word();
        if sides == 0 { 0 } else { word % sides }
    }

    // One of these, or the other where there is none.
    pub(crate) fn one_of<T: Copy>(&mut self, from: &[T], other: T) -> T {
        let sides = u32::try_from(from.len()).unwrap_or(1);
        let at = self.roll(sides) as usize;
        from.get(at).copied().unwrap_or(other)
    }

    // A place of the run, or one of the two behind it.
    pub(crate) fn place(&mut self, run: &Finished) -> u32 {
        self.roll(run.places.min(100).saturating_add(2))
    }

    // A place near to this one.
    pub(crate) fn near(&mut self, place: u32) -> u32 {
        place.saturating_add(self.roll(11)).saturating_sub(5)
    }

    // A record or line.
    pub(crate) fn entry(&mut self, run: &Finished) -> (Part, usize) {
        let part = self.one_of(
            &[Part::Admin, Part::Admin, Part::Io, Part::Io, Part::Journal],
            Part::Io,
        );
        (part, self.index(count_of(run, part)))
    }

    // A record.
    pub(crate) fn record(&mut self, run: &Finished) -> (Part, usize) {
        let part = self.one_of(&[Part::Admin, Part::Io], Part::Io);
        (part, self.index(count_of(run, part)))
    }

    pub(crate) fn index(&mut self, count: usize) -> usize {
        self.roll(u32::try_from(count).unwrap_or(1)) as usize
    }
}

// How many records or lines there are.
pub(crate) fn count_of(run: &Finished, part: Part) -> usize {
    match part {
        Part::Admin => run.admin.len(),
        Part::Io => run.io.len(),
        Part::Journal => run.lines.len(),
    }
}

// The place of a record or line.
pub(crate) fn place_of(run: &Finished, part: Part, at: usize) -> u32 {
    let place = match part {
        Part::Admin => run.admin.get(at).map(|record| record.place),
        Part::Io => run.io.get(at).map(|record| record.place),
        Part::Journal => run.lines.get(at).map(|line| line.place),
    };
    place.unwrap_or(0)
}
