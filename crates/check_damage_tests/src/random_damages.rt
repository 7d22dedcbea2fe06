// Random damages of a finished run.
use crate::dice::{Dice, count_of, place_of};
use run_check_tests::{
    ANSWERED, CONTROL, Damage, EXECUTE, Finished, HELD, NO_EVENT, POLL, Part, SUBMIT, Says, Shift,
    WAITING,
};
use std::test::Fail;

// Kinds with their answers, as records may have them, but for the last.
const CALLS: [(u8, u8); 8] = [
    (SUBMIT, HELD),
    (SUBMIT, ANSWERED),
    (SUBMIT, WAITING),
    (EXECUTE, ANSWERED),
    (POLL, ANSWERED),
    (POLL, NO_EVENT),
    (CONTROL, ANSWERED),
    (CONTROL, HELD),
];

// What a journal may say, but for the last.
const SAYS: [Says; 6] = [
    Says::Ok,
    Says::Done,
    Says::Errno("EEXIST"),
    Says::Errno("EBUSY"),
    Says::Errno("ENOTEMPTY"),
    Says::Errno("EIO"),
];

// Damages that were made one after another.
#[derive(Drop)]
pub(crate) struct Story {
    pub(crate) run: Finished,
    pub(crate) damages: Vec<Damage>,
}

impl Story {
    fn hit(&mut self, damage: Damage) -> Result<(), Fail> {
        self.damages.push(damage)?;
        self.run.damage(damage)
    }

    // A place more or less, a place that is another's, another number of places.
    fn spoil_places(&mut self, dice: &mut Dice) -> Result<(), Fail> {
        let (part, at) = dice.entry(&self.run);
        match dice.roll(4) {
            0 => self.hit(Damage::Gone(part, at)),
            1 => self.hit(Damage::Twice(part, at)),
            2 => {
                let place = dice.place(&self.run);
                self.hit(Damage::Place(part, at, place))
            }
            _ => {
                let places = dice.near(self.run.places);
                self.hit(Damage::Count(places))
            }
        }
    }

    // Another order of the same calls.
    fn reorder(&mut self, dice: &mut Dice) -> Result<(), Fail> {
        let (part, at) = dice.entry(&self.run);
        // The end of the drain, more often than others.
        let (part, at) = dice.one_of(&[(part, at), (part, at), (Part::Journal, 3)], (part, at));
        let place = place_of(&self.run, part, at);
        let other = dice.near(place).min(self.run.places.saturating_sub(1));
        let any = dice.place(&self.run).min(self.run.places.saturating_sub(1));
        match dice.roll(6) {
            0 => self.hit(Damage::Places(Shift::Move(place, any))),
            1 => self.hit(Damage::Places(Shift::Swap(place, any))),
            2 | 3 => self.hit(Damage::Places(Shift::Swap(place, other))),
            _ => self.hit(Damage::Places(Shift::Move(place, other))),
        }
    }

    // A record or line less or more, and all places as if it had never been or always.
    fn add_or_take(&mut self, dice: &mut Dice) -> Result<(), Fail> {
        let (part, any) = dice.entry(&self.run);
        let last = count_of(&self.run, part).saturating_sub(1);
        let at = if dice.roll(3) == 0 { last } else { any };
        let place = place_of(&self.run, part, at);
        if dice.roll(2) == 0 {
            self.hit(Damage::Gone(part, at))?;
            return self.hit(Damage::Places(Shift::Close(place)));
        }
        let next = place.saturating_add(1);
        self.hit(Damage::Places(Shift::Open(next)))?;
        self.hit(Damage::Twice(part, at))?;
        self.hit(Damage::Place(part, at.saturating_add(1), next))
    }

    // Two records of a file changed with one another, with their places or without.
    fn swap(&mut self, dice: &mut Dice) -> Result<(), Fail> {
        let (part, at) = dice.entry(&self.run);
        let other = dice.index(count_of(&self.run, part));
        let a = place_of(&self.run, part, at);
        let b = place_of(&self.run, part, other);
        self.hit(Damage::Swap(part, at, other))?;
        if dice.roll(2) == 0 {
            return Ok(());
        }
        self.hit(Damage::Places(Shift::Swap(a, b)))
    }

    // No completion.
    fn clear(&mut self, part: Part, at: usize) -> Result<(), Fail> {
        self.hit(Damage::Outcome(part, at, 0))?;
        self.hit(Damage::Head(part, at, 0))?;
        self.hit(Damage::Queue(part, at, 0))?;
        self.hit(Damage::Command(part, at, 0))?;
        self.hit(Damage::Status(part, at, 0))
    }

    // Another kind or answer, most often one that a record may have.
    fn spoil_call(&mut self, dice: &mut Dice) -> Result<(), Fail> {
        let (part, at) = dice.record(&self.run);
        let (kind, answer) = dice.one_of(&CALLS, (SUBMIT, HELD));
        if dice.roll(3) != 0 {
            self.hit(Damage::Kind(part, at, kind))?;
        }
        self.hit(Damage::Answer(part, at, answer))?;
        if answer != ANSWERED && dice.roll(8) != 0 {
            return self.clear(part, at);
        }
        Ok(())
    }

    // A field of a completion.
    fn spoil_completion(&mut self, dice: &mut Dice) -> Result<(), Fail> {
        let (part, at) = dice.record(&self.run);
        let word = dice.one_of(&[0, 1, 2, 3, 4, 5, 0x0600, 0x8004], 0);
        match dice.roll(5) {
            0 => self.hit(Damage::Outcome(part, at, u64::from(word))),
            1 => self.hit(Damage::Head(part, at, word)),
            2 => self.hit(Damage::Queue(part, at, word)),
            3 => self.hit(Damage::Command(part, at, word)),
            _ => self.hit(Damage::Status(part, at, word)),
        }
    }

    // The data, or the number of a record.
    fn spoil_data(&mut self, dice: &mut Dice) -> Result<(), Fail> {
        let (part, any) = dice.record(&self.run);
        let (part, at) = dice.one_of(
            &[(part, any), (Part::Admin, 8), (Part::Io, 4), (Part::Io, 7)],
            (part, any),
        );
        match dice.roll(4) {
            0 => {
                let number = dice.roll(9);
                self.hit(Damage::Number(part, at, number))
            }
            1 => {
                let length = dice.one_of(&[0, 1, 3, 4, 5, 511, 512, 513], 0);
                self.hit(Damage::Length(part, at, length))
            }
            _ => {
                let byte = dice.one_of(&[0, 0, 3, 3, 100, 511, 512], 0);
                let to = dice.one_of(b"vw\x00\x01", 0);
                self.hit(Damage::Byte(part, at, byte, to))
            }
        }
    }

    // A line of the journal.
    fn spoil_line(&mut self, dice: &mut Dice) -> Result<(), Fail> {
        let at = dice.index(self.run.lines.len());
        if dice.roll(3) == 0 {
            let line = dice.roll(9);
            return self.hit(Damage::Line(at, line));
        }
        let says = dice.one_of(&SAYS, Says::Ok);
        self.hit(Damage::Says(at, says))
    }

    fn spoil(&mut self, dice: &mut Dice) -> Result<(), Fail> {
        match dice.roll(12) {
            0 => self.spoil_places(dice),
            1 => self.swap(dice),
            2 | 3 => self.spoil_call(dice),
            4 => self.spoil_completion(dice),
            5 => self.spoil_data(dice),
            6 => self.spoil_line(dice),
            7 | 8 => self.add_or_take(dice),
            _ => self.reorder(dice),
        }
    }
}

// A run with one damage or two.
pub(crate) fn random_story(run: Finished, dice: &mut Dice) -> Result<Story, Fail> {
    let damages = Vec::new(run.alloc);
    let mut story = Story { run, damages };
    story.spoil(dice)?;
    if dice.roll(2) == 0 {
        story.spoil(dice)?;
    }
    Ok(story)
}
