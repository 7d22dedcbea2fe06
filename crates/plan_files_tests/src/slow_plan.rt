// A plain slow reader of plans: it cuts the file into lines and the lines into words, all of them
// before it looks at any, and looks through all that came before at each line.
use crate::texts::Text;
use std::alloc::Global;
use std::process::Abort;

// The pieces of a text between the bytes `at`.
fn pieces(rt: &impl Abort, alloc: Global, text: &[u8], at: u8) -> Vec<Vec<u8>> {
    let mut all = Vec::new(alloc);
    let mut piece = Vec::new(alloc);
    for byte in text {
        if *byte == at {
            assert!(rt; all.push(piece).is_ok(), "memory");
            piece = Vec::new(alloc);
        } else {
            assert!(rt; piece.push(*byte).is_ok(), "memory");
        }
    }
    assert!(rt; all.push(piece).is_ok(), "memory");
    all
}

// What the lines so far have said.
#[derive(Drop)]
struct Said {
    simple: u64,
    disks: u64,
    disk_bytes: u64,
    queues: u64,
    other_ports: u64,
    config: u64,
    script: u64,
    journal: u64,
    paths: Vec<Vec<u8>>,
    files: Vec<Vec<u8>>,
    fault: Text,
}

fn is_name(word: &[u8]) -> bool {
    !word.is_empty() && word.len() < 256 && word.iter().all(|b| *b > 32 && *b < 127)
}

// A number of at most 17 digits, which is enough for any that a plan may have.
fn number(word: &[u8]) -> Option<u64> {
    if word.is_empty() || word.len() > 17 {
        return None;
    }
    let mut value = 0u64;
    for (i, byte) in word.iter().enumerate() {
        if *byte < 48 || *byte > 57 {
            return None;
        }
        if i == 0 && *byte == 48 && word.len() > 1 {
            return None;
        }
        value = value
            .saturating_mul(10)
            .saturating_add((*byte as u64).saturating_sub(48));
    }
    Some(value)
}

fn is_among(all: &[Vec<u8>], one: &[u8]) -> bool {
    all.iter().any(|a| a.as_slice() == one)
}

fn keep(rt: &impl Abort, alloc: Global, all: &mut Vec<Vec<u8>>, one: &[u8]) {
    let copy = Vec::from_slice(alloc, one).expect(rt, "memory");
    assert!(rt; all.push(copy).is_ok(), "memory");
}

impl Said {
    fn new(alloc: Global) -> Self {
        Said {
            simple: 0,
            disks: 0,
            disk_bytes: 0,
            queues: 0,
            other_ports: 0,
            config: 0,
            script: 0,
            journal: 0,
            paths: Vec::new(alloc),
            files: Vec::new(alloc),
            fault: Text::new(alloc),
        }
    }

    // Whether a file name is one, and new.
    fn file(&mut self, rt: &impl Abort, alloc: Global, name: &[u8]) -> bool {
        if !is_name(name) || is_among(&self.files, name) {
            return false;
        }
        keep(rt, alloc, &mut self.files, name);
        true
    }

    // Takes a disk; false where the line is bad. A passed limit is kept as the fault.
    fn disk(
        &mut self,
        rt: &impl Abort,
        alloc: Global,
        path: &[u8],
        shift: Option<u64>,
        blocks: Option<u64>,
    ) -> bool {
        let size = match shift {
            Some(9) => 512u64,
            Some(12) => 4096,
            _ => return false,
        };
        let blocks = blocks.unwrap_or(0);
        if blocks == 0 || blocks > 4_503_599_627_370_495 {
            return false;
        }
        if !is_name(path) || is_among(&self.paths, path) {
            return false;
        }
        keep(rt, alloc, &mut self.paths, path);
        self.disks = self.disks.saturating_add(1);
        if self.simple > 0 && self.disks > 1 {
            return false;
        }
        let bytes = blocks.saturating_mul(size);
        self.disk_bytes = self.disk_bytes.saturating_add(bytes);
        if self.disks > 64 {
            self.fault.limit(rt, b"disks", self.disks);
        } else if bytes > 16_777_216 {
            self.fault.limit(rt, b"disk-bytes", bytes);
        } else if self.disk_bytes > 268_435_456 {
            self.fault.limit(rt, b"all-disk-bytes", self.disk_bytes);
        }
        true
    }

    fn queue(
        &mut self,
        rt: &impl Abort,
        alloc: Global,
        port: Option<u64>,
        capsules: &[u8],
        responses: &[u8],
    ) -> bool {
        let port = port.unwrap_or(65_536);
        if port > 65_535 {
            return false;
        }
        if !self.file(rt, alloc, capsules) || !self.file(rt, alloc, responses) {
            return false;
        }
        self.queues = self.queues.saturating_add(1);
        if port != 1 {
            self.other_ports = self.other_ports.saturating_add(1);
        }
        if self.simple > 0 && (self.queues > 1 || self.other_ports > 0) {
            return false;
        }
        if self.queues > 31 {
            self.fault.limit(rt, b"queues", self.queues);
        }
        true
    }

    fn simple(&mut self) -> bool {
        self.simple = self.simple.saturating_add(1);
        let files = self.config > 0 || self.script > 0 || self.journal > 0;
        let many = self.disks > 1 || self.queues > 1 || self.other_ports > 0;
        self.simple == 1 && !files && !many
    }

    // A file beside the queues' files, of which there is one of each kind.
    fn named(&mut self, rt: &impl Abort, alloc: Global, kind: &[u8], name: &[u8]) -> bool {
        if kind == b"config".as_slice() {
            self.config = self.config.saturating_add(1);
        } else if kind == b"script".as_slice() {
            self.script = self.script.saturating_add(1);
        } else if kind == b"journal".as_slice() {
            self.journal = self.journal.saturating_add(1);
        } else {
            return false;
        }
        let twice = self.config > 1 || self.script > 1 || self.journal > 1;
        self.simple == 0 && !twice && self.file(rt, alloc, name)
    }

    // Takes a line; false where it is bad.
    fn line(&mut self, rt: &impl Abort, alloc: Global, words: &[Vec<u8>]) -> bool {
        match words {
            [kind] => kind.as_slice() == b"simple".as_slice() && self.simple(),
            [kind, name] => self.named(rt, alloc, kind, name),
            [kind, a, b, c] if kind.as_slice() == b"disk".as_slice() => {
                self.disk(rt, alloc, a, number(b), number(c))
            }
            [kind, a, b, c] if kind.as_slice() == b"queue".as_slice() => {
                self.queue(rt, alloc, number(a), b, c)
            }
            _ => false,
        }
    }

    // Whether something is missing at the end.
    fn lacks(&self) -> bool {
        if self.simple > 0 {
            self.disks == 0 || self.queues == 0
        } else {
            self.config == 0 || self.journal == 0
        }
    }
}

fn line_fault(rt: &impl Abort, alloc: Global, line: u64) -> Text {
    let mut fault = Text::new(alloc);
    fault.place(rt, b"line", line);
    fault
}

// What a good line begins with, by kind, in the order in which plans are told.
const KINDS: [&str; 6] = ["simple", "disk", "config", "script", "journal", "queue"];

// The good lines, kind after kind.
fn told(rt: &impl Abort, alloc: Global, lines: &[Vec<u8>]) -> Text {
    let mut out = Text::new(alloc);
    for kind in KINDS {
        for line in lines.iter().skip(1) {
            if line.starts_with(kind.as_bytes()) {
                out.put(rt, line);
                out.put(rt, b"\n");
            }
        }
    }
    out
}

// The first fault of a plan, or the lines that spell it.
pub(crate) fn slow_plan(rt: &impl Abort, alloc: Global, file: &[u8]) -> Text {
    let mut lines = pieces(rt, alloc, file, 10);
    if lines.last().is_some_and(|l| l.is_empty()) {
        let _ = lines.pop();
    }
    let mut said = Said::new(alloc);
    let mut count = 0u64;
    for line in lines.iter() {
        count = count.saturating_add(1);
        if count == 1 {
            if line.as_slice() != b"nvmet-plan 1".as_slice() {
                return line_fault(rt, alloc, 1);
            }
            continue;
        }
        if line.is_empty() || line.first().is_some_and(|b| *b == 35) {
            continue;
        }
        let words = pieces(rt, alloc, line, 32);
        if !said.line(rt, alloc, &words) {
            return line_fault(rt, alloc, count);
        }
        if !said.fault.bytes.is_empty() {
            return said.fault;
        }
    }
    if count == 0 || said.lacks() {
        return line_fault(rt, alloc, count.saturating_add(1));
    }
    told(rt, alloc, &lines)
}
