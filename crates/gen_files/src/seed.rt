// What a generated plan is made from.
ghost use Rattle.std.specs.Prelude.{◌≡◌, ◌≤◌, ◌↔◌, true, IfSome, IsSome, IsTrue, IsUtf8};
ghost use Rattle.gen_files.specs.Seeds.{is_base, is_base_name};

use mem_bdev::Name;
use plan_files::is_name;
use std::marker::Model;

/// How many rounds of four commands an I/O queue has at most.
pub const MAX_ROUNDS: u32 = 4_096;

/// How many bytes the name has at most that the names of the files begin with.
pub const MAX_BASE_NAME: usize = 200;

/// What a generated plan is made from: how many rounds of four commands each I/O queue has, from 1
/// to 4,096, and the name of 1 to 200 bytes from 21h to 7Eh that the names of its files begin with.
/// Contracts see the two.
#[derive(Drop)]
pub struct Seed {
    rounds: u32,
    name: Name,
}

impl Model for Seed {
    ghost use Rattle.gen_files.specs.Seeds.{Base};

    ghost Value = { Base };

    ghost use Rattle.std.specs.Prelude.{◌≡◌, ◌≤◌, true, IsUtf8};
    ghost use Rattle.gen_files.specs.Seeds.{is_base};

    ghost view = { λ s. record { rounds = s.rounds; name = s.name } };

    ghost invariant = { λ s. (1 ≤ s.rounds) × (s.rounds ≤ 4096) × (is_base s.rounds s.name ≡ true) × IsUtf8 s.name };
}

// Whether it is a name that the endings of the files fit behind.
#[tactic(auto, unfolding(crate::specs::Seeds::is_base_name))]
fn is_base_name(name: &[u8]) -> bool
    ensures { result ≡ is_base_name name.now }
{
    is_name(name) && name.len() <= MAX_BASE_NAME
}

// Whether a plan is made from these.
fn is_base(rounds: u32, name: &[u8]) -> bool
    ensures value { result ≡ is_base rounds name.now }
    ensures some { IsTrue result → 1 ≤ rounds }
    ensures few { IsTrue result → rounds ≤ MAX_ROUNDS }
    ensures text { is_base rounds name.now ≡ true → IsUtf8 name.now }
{
    1 <= rounds && rounds <= MAX_ROUNDS && is_base_name(name)
}

impl Seed {
    /// A seed; `None` exactly where the number of rounds isn't from 1 to 4,096, or the name isn't 1
    /// to 200 bytes from 21h to 7Eh. Takes no memory.
    pub fn new(rounds: u32, name: Name) -> Option<Self>
        ensures value { IfSome result (λ s. s ≡ record { rounds = rounds; name = name }) }
        ensures exact { IsSome result ↔ (is_base rounds name ≡ true) }
    {
        if is_base(rounds, name.as_bytes()) {
            Some(Seed { rounds, name })
        } else {
            None
        }
    }

    /// How many rounds of four commands each I/O queue has.
    pub fn rounds(&self) -> u32
        ensures value { result ≡ self.now.rounds }
        ensures some { 1 ≤ result }
        ensures few { result ≤ MAX_ROUNDS }
    {
        self.rounds
    }

    /// Lends the name.
    pub fn name(&self) -> &[u8]
        ensures { result.now ≡ self.now.name }
    {
        self.name.as_bytes()
    }

    /// Lends the name as a text.
    pub fn text(&self) -> &str
        ensures { result.now ≡ self.now.name }
    {
        self.name.as_text().unwrap()
    }
}
