ghost use Rattle.std.specs.Prelude.{◌≡◌, ◌≤◌, ◌+◌, ℕ};
ghost use Rattle.sqe_cqe.specs.Answers.{Answers, HasShape};
ghost use Rattle.sqe_cqe.specs.declared.rows.TheConstants.{MAX_NSID};

use crate::rows::{Ana, Offers, Seen};

/// A look at one configuration, which is all that the code of commands knows of it.
///
/// What stands behind a look is one value of a kind that each implementation chooses. All answers are a function of it,
/// and no call changes it, so all calls on one look answer from one configuration. Subsystems, ports and controllers go
/// by position; at a position that is out of use a look answers what it likes, and always the same. No call takes memory.
pub trait Look {
    /// The kind of value that stands behind a look.
    ghost Behind: { Type 0 };

    /// What stands behind the look. A look that borrows a `&mut` keeps that reference's ghost name here.
    ghost behind: { Self → Behind };

    /// What it answers.
    ghost told: { Behind → Answers };

    /// How many shared words were loaded.
    ghost loads: { Self → ℕ };

    /// Whether a controller is ready. Loads at most one word.
    fn ready(&mut self, ctrl: u16) -> bool
        ensures value { result ≡ (told (behind self.old)).ready ctrl }
        ensures behind { behind self.new ≡ behind self.old }
        ensures loads { loads self.new ≤ loads self.old + 1 };

    /// What stands at an NSID of a subsystem. Loads at most twelve words.
    fn ns(&mut self, sub: u8, nsid: u32) -> Seen
        ensures value { result ≡ (told (behind self.old)).ns sub nsid }
        ensures behind { behind self.new ≡ behind self.old }
        ensures shape { HasShape result }
        ensures loads { loads self.new ≤ loads self.old + 12 };

    /// The state of an ANA group at a port. Loads at most one word.
    fn ana(&mut self, port: u8, group: u32) -> Ana
        ensures value { result ≡ (told (behind self.old)).ana port group }
        ensures behind { behind self.new ≡ behind self.old }
        ensures loads { loads self.new ≤ loads self.old + 1 };

    /// Whether an ANA group is made at a port.
    fn group_made(&mut self, port: u8, group: u32) -> bool
        ensures value { result ≡ (told (behind self.old)).group_made port group }
        ensures behind { behind self.new ≡ behind self.old };

    /// The serial of the last namespace change of an NSID, or 0.
    fn ns_stamp(&mut self, sub: u8, nsid: u32) -> u32
        ensures value { result ≡ (told (behind self.old)).ns_stamp sub nsid }
        ensures behind { behind self.new ≡ behind self.old };

    /// The serial of the last ANA change of a subsystem or a port, or 0.
    fn ana_stamp(&mut self, sub: u8, port: u8) -> u32
        ensures value { result ≡ (told (behind self.old)).ana_stamp sub port }
        ensures behind { behind self.new ≡ behind self.old };

    /// How many ANA changes there were since the configuration was loaded.
    fn ana_count(&mut self) -> u64
        ensures value { result ≡ (told (behind self.old)).ana_count }
        ensures behind { behind self.new ≡ behind self.old };

    /// The serial: how many changes were published.
    fn serial(&mut self) -> u32
        ensures value { result ≡ (told (behind self.old)).serial }
        ensures behind { behind self.new ≡ behind self.old };

    /// The status that bars a controller from an opcode at an NSID, or 0. Loads at most one word.
    fn bars(&mut self, ctrl: u16, sub: u8, nsid: u32, opcode: u8) -> u16
        ensures value { result ≡ (told (behind self.old)).bars ctrl sub nsid opcode }
        ensures behind { behind self.new ≡ behind self.old }
        ensures loads { loads self.new ≤ loads self.old + 1 };

    /// What the target offers, by the fields of Identify.
    fn offers(&mut self) -> Offers
        ensures value { result ≡ (told (behind self.old)).offers }
        ensures nsids { result.nsids ≤ MAX_NSID }
        ensures behind { behind self.new ≡ behind self.old };

    /// The attributes of a namespace (NSATTR), 0 for none.
    fn marks(&mut self, sub: u8, nsid: u32) -> u8
        ensures value { result ≡ (told (behind self.old)).marks sub nsid }
        ensures behind { behind self.new ≡ behind self.old };

    /// The change count of an ANA group.
    fn group_count(&mut self, port: u8, sub: u8, group: u32) -> u64
        ensures value { result ≡ (told (behind self.old)).group_count port sub group }
        ensures behind { behind self.new ≡ behind self.old };
}
