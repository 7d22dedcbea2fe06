// The words of a configuration beside those of a fresh opening.
use configfs_tree::Change;
use listed_words::configured::Configured;
use ns_table::opening::opened_words;
use std::alloc::Global;
use std::process::Abort;

/// The stamps of the subsystems and of the ports, kept by the rules of changes alone.
#[derive(Drop)]
pub struct Stamped {
    serial: u64,
    subs: [u64; 16],
    ports: [u64; 8],
}

impl Stamped {
    /// Before any change.
    pub fn new() -> Self {
        Stamped {
            serial: 0,
            subs: [0; 16],
            ports: [0; 8],
        }
    }

    fn note_sub(&mut self, sub: Option<u8>) {
        if let Some(sub) = sub {
            if sub < 16 {
                self.subs[sub as usize] = self.serial;
            }
        }
    }

    fn note_port(&mut self, port: Option<u8>) {
        if let Some(port) = port {
            if port < 8 {
                self.ports[port as usize] = self.serial;
            }
        }
    }

    /// Notes what a change stamps.
    pub fn note(&mut self, change: &Change) {
        if change.published {
            self.serial = self.serial.wrapping_add(1);
            self.note_sub(change.ana_subsystem);
            self.note_port(change.ana_port);
        }
    }
}

// The word that a position is to have, where a fresh opening has this one: the stamps are those
// that were noted.
fn wanted(part: &Configured, stamped: &Stamped, at: usize, fresh: u64) -> u64 {
    if at >= 96 && at < 112 {
        return stamped.subs[at - 96];
    }
    if at >= 112 && at < 120 {
        return stamped.ports[at - 112];
    }
    if at >= 1_144 && at < 361_592 && (at - 1_144) % 11 == 10 {
        let number = (at - 1_144) / 11;
        let sub = (number / 2_048) as u8;
        let nsid = (number % 2_048 + 1) as u32;
        return u64::from(part.stamps.space(sub, nsid));
    }
    fresh
}

/// All words are those of a fresh opening of the configuration as it is, but for the stamps, which
/// are those that were noted.
pub fn check_words(rt: &impl Abort, alloc: Global, part: &Configured, stamped: &Stamped) {
    let fresh = opened_words(alloc, &part.tree, &part.controllers, &part.disks);
    let fresh = fresh.expect(rt, "memory");
    let words = part.words.as_slice();
    assert_eq!(rt; words.len(), fresh.len());
    for at in 0..words.len() {
        let want = wanted(part, stamped, at, fresh[at]);
        assert!(rt; words[at] == want, "word {at}: {} for {want}", words[at]);
    }
}
