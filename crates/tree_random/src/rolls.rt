// Steps of a run, rolled by a generator of numbers: edits of folders, with numbers for names, and
// what a target does beside them.
use configfs_tree::Attr;

const NSIDS: [u32; 6] = [0, 1, 2, 3, 2048, 2049];

const GROUPS: [u32; 6] = [0, 1, 2, 3, 128, 129];

const PORTS: [u16; 10] = [0, 1, 2, 3, 4, 5, 6, 7, 9, 65_535];

const PATHS: [&str; 6] = [
    "",
    "/dev/ram0",
    "/dev/ram1",
    "/dev/none",
    "a b",
    "/dev/ram0",
];

const ENABLES: [&str; 5] = ["0", "1", "1", "1", "2"];

const GRPIDS: [&str; 6] = ["1", "2", "128", "129", "0", "02"];

const UUIDS: [&str; 4] = [
    "00000000-0000-0000-0000-000000000000",
    "00112233-4455-6677-8899-aabbccddeeff",
    "ffffffff-ffff-ffff-ffff-fffffffffff1",
    "00112233-4455",
];

const STATES: [&str; 6] = [
    "optimized",
    "non-optimized",
    "inaccessible",
    "persistent-loss",
    "change",
    "none",
];

const TRTYPES: [&str; 4] = ["loop", "tcp", "loop", "pci"];

const ADRFAMS: [&str; 4] = ["", "ipv4", "loop", "IPv4"];

const TRADDRS: [&str; 3] = ["", "10.0.0.1", "fe80::1"];

const TRSVCIDS: [&str; 3] = ["", "4420", "12345678901234567890123456789012"];

const TREQS: [&str; 4] = ["not specified", "required", "not required", "maybe"];

const SERIALS: [&str; 4] = ["", "a", "12345678901234567890", "123456789012345678901"];

const MODELS: [&str; 4] = [
    "",
    "Linux",
    "m",
    "12345678901234567890123456789012345678901",
];

const ANYS: [&str; 3] = ["0", "1", "yes"];

/// A folder, with numbers in place of the names of hosts and subsystems.
#[derive(Clone, Copy)]
pub enum At {
    Host(u64),
    Sub(u64),
    Space(u64, u32),
    Port(u16),
    Group(u16, u32),
}

/// An edit of a folder.
#[derive(Clone, Copy)]
pub enum Do {
    Mkdir(At),
    Rmdir(At),
    Set(At, Attr, &'static str),
}

/// A step: an edit, or what a target does beside edits where its conditions hold.
#[derive(Clone, Copy)]
pub enum Step {
    Edit(Do),
    /// The drain of a namespace ends.
    EndDrain(u64, u32),
    /// The link of a subsystem to a host is made, or taken away where it is there.
    TurnAllowed(u64, u64),
    /// The link of a port to a subsystem is made, or taken away where it is there.
    TurnLink(u16, u64),
    /// A controller is attached.
    Attach(u64, u16),
    /// The counts of changes start again.
    EndLoad,
}

/// A generator of numbers with a seed. A controller is attached in one of `sides` steps, or never
/// where that is 0.
#[derive(Drop)]
pub struct Dice {
    pub state: u64,
    pub sides: u64,
}

impl Dice {
    fn roll(&mut self, sides: u64) -> u64 {
        self.state = self
            .state
            .wrapping_mul(6_364_136_223_846_793_005)
            .wrapping_add(1_442_695_040_888_963_407);
        let high = self.state >> 33;
        if sides == 0 { 0 } else { high % sides }
    }

    fn number(&mut self, from: &[u32]) -> u32 {
        let at = self.roll(from.len() as u64) as usize;
        from.get(at).copied().unwrap_or(0)
    }

    fn text(&mut self, from: &[&'static str]) -> &'static str {
        let at = self.roll(from.len() as u64) as usize;
        from.get(at).copied().unwrap_or("")
    }

    fn port(&mut self) -> u16 {
        let at = self.roll(PORTS.len() as u64) as usize;
        PORTS.get(at).copied().unwrap_or(0)
    }

    fn folder(&mut self) -> At {
        match self.roll(5) {
            0 => At::Host(self.roll(70)),
            1 => At::Sub(self.roll(18)),
            2 => At::Space(self.roll(4), self.number(&NSIDS)),
            3 => At::Port(self.port()),
            _ => At::Group(self.port(), self.number(&GROUPS)),
        }
    }

    fn set_sub(&mut self) -> Do {
        let at = At::Sub(self.roll(18));
        match self.roll(3) {
            0 => Do::Set(at, Attr::AllowAnyHost, self.text(&ANYS)),
            1 => Do::Set(at, Attr::Serial, self.text(&SERIALS)),
            _ => Do::Set(at, Attr::ModelName, self.text(&MODELS)),
        }
    }

    fn set_space(&mut self) -> Do {
        let at = At::Space(self.roll(4), self.number(&NSIDS));
        match self.roll(8) {
            0 => Do::Set(at, Attr::AnaGrpid, self.text(&GRPIDS)),
            1 => Do::Set(at, Attr::DeviceUuid, self.text(&UUIDS)),
            2 => Do::Set(at, Attr::DeviceNguid, self.text(&UUIDS)),
            3 => Do::Set(at, Attr::DevicePath, self.text(&PATHS)),
            4 => Do::Set(at, Attr::DevicePath, self.text(&PATHS)),
            _ => Do::Set(at, Attr::Enable, self.text(&ENABLES)),
        }
    }

    fn set_port(&mut self) -> Do {
        let at = At::Port(self.port());
        match self.roll(7) {
            0 => Do::Set(at, Attr::Adrfam, self.text(&ADRFAMS)),
            1 => Do::Set(at, Attr::Traddr, self.text(&TRADDRS)),
            2 => Do::Set(at, Attr::Trsvcid, self.text(&TRSVCIDS)),
            3 => Do::Set(at, Attr::Treq, self.text(&TREQS)),
            _ => Do::Set(at, Attr::Trtype, self.text(&TRTYPES)),
        }
    }

    fn set(&mut self) -> Do {
        match self.roll(6) {
            0 => self.set_sub(),
            1 => self.set_port(),
            2 => self.set_port(),
            3 => {
                let at = At::Group(self.port(), self.number(&GROUPS));
                Do::Set(at, Attr::AnaState, self.text(&STATES))
            }
            _ => self.set_space(),
        }
    }

    fn edit(&mut self) -> Do {
        match self.roll(8) {
            0 => Do::Mkdir(self.folder()),
            1 => Do::Mkdir(self.folder()),
            2 => Do::Mkdir(self.folder()),
            3 => Do::Rmdir(self.folder()),
            _ => self.set(),
        }
    }

    /// The next step.
    pub fn step(&mut self) -> Step {
        if self.sides > 0 && self.roll(self.sides) == 0 {
            return Step::Attach(self.roll(18), self.port());
        }
        match self.roll(256) {
            0 => Step::EndLoad,
            1..32 => Step::EndDrain(self.roll(4), self.number(&NSIDS)),
            32..64 => Step::TurnAllowed(self.roll(18), self.roll(70)),
            64..96 => Step::TurnLink(self.port(), self.roll(18)),
            _ => Step::Edit(self.edit()),
        }
    }
}
