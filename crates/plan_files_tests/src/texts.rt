// Files that are built of pieces, and answers as texts, so that two readers are compared byte by
// byte.
use plan_files::{Capsule, CapsuleError, Plan, PlanError, quota, room};
use std::alloc::Global;
use std::process::Abort;

// A text that grows.
#[derive(Drop)]
pub(crate) struct Text {
    alloc: Global,
    pub(crate) bytes: Vec<u8>,
}

impl Text {
    pub(crate) fn new(alloc: Global) -> Self {
        Text {
            alloc,
            bytes: Vec::new(alloc),
        }
    }

    pub(crate) fn put(&mut self, rt: &impl Abort, bytes: &[u8]) {
        assert!(rt; self.bytes.extend_from_slice(bytes).is_ok(), "memory");
    }

    pub(crate) fn number(&mut self, rt: &impl Abort, number: u64) {
        let text = format!(in self.alloc; "{number}").expect(rt, "memory");
        self.put(rt, text.as_str().as_bytes());
    }

    // A line of a word, one space and a name.
    pub(crate) fn file(&mut self, rt: &impl Abort, word: &[u8], name: &[u8]) {
        self.put(rt, word);
        self.put(rt, b" ");
        self.put(rt, name);
        self.put(rt, b"\n");
    }

    pub(crate) fn disk(&mut self, rt: &impl Abort, path: &[u8], shift: u64, blocks: u64) {
        self.put(rt, b"disk ");
        self.put(rt, path);
        self.put(rt, b" ");
        self.number(rt, shift);
        self.put(rt, b" ");
        self.number(rt, blocks);
        self.put(rt, b"\n");
    }

    pub(crate) fn queue(&mut self, rt: &impl Abort, port: u64, capsules: &[u8], responses: &[u8]) {
        self.put(rt, b"queue ");
        self.number(rt, port);
        self.put(rt, b" ");
        self.file(rt, capsules, responses);
    }

    // A passed limit.
    pub(crate) fn limit(&mut self, rt: &impl Abort, what: &[u8], count: u64) {
        self.put(rt, b"limit ");
        self.put(rt, what);
        self.put(rt, b" ");
        self.number(rt, count);
    }

    // A place of a fault.
    pub(crate) fn place(&mut self, rt: &impl Abort, word: &[u8], place: u64) {
        self.put(rt, word);
        self.put(rt, b" ");
        self.number(rt, place);
    }

    pub(crate) fn counts(&mut self, rt: &impl Abort, capsules: u64, room: u64, quota: u64) {
        self.place(rt, b"capsules", capsules);
        self.place(rt, b" room", room);
        self.place(rt, b" quota", quota);
    }
}

// The lines of a plan after the first, in one order.
fn put_plan(rt: &impl Abort, out: &mut Text, plan: &Plan) {
    if plan.simple {
        out.put(rt, b"simple\n");
    }
    for disk in plan.disks.as_slice() {
        out.disk(rt, disk.path.as_bytes(), disk.shift as u64, disk.blocks);
    }
    if let Some(name) = &plan.config {
        out.file(rt, b"config", name.as_bytes());
    }
    if let Some(name) = &plan.script {
        out.file(rt, b"script", name.as_bytes());
    }
    if let Some(name) = &plan.journal {
        out.file(rt, b"journal", name.as_bytes());
    }
    for queue in plan.queues.as_slice() {
        let port = queue.port as u64;
        out.queue(
            rt,
            port,
            queue.capsules.as_bytes(),
            queue.responses.as_bytes(),
        );
    }
}

// The place of the fault, the limit, or the lines that spell the plan.
pub(crate) fn told_plan(rt: &impl Abort, alloc: Global, answer: &Result<Plan, PlanError>) -> Text {
    let mut out = Text::new(alloc);
    match answer {
        Ok(plan) => put_plan(rt, &mut out, plan),
        Err(PlanError::BadLine { line }) => out.place(rt, b"line", *line as u64),
        Err(PlanError::TooLong { what, count }) => out.limit(rt, what.word().as_bytes(), *count),
        Err(PlanError::Memory) => out.put(rt, b"memory"),
    }
    out
}

// The place of the fault, the limit, or the counts of the capsules.
pub(crate) fn told_capsules(
    rt: &impl Abort,
    alloc: Global,
    answer: &Result<Vec<Capsule>, CapsuleError>,
) -> Text {
    let mut out = Text::new(alloc);
    match answer {
        Ok(capsules) => {
            if capsules.len() > 65_536 {
                out.put(rt, b"too many");
                return out;
            }
            let quota = quota(capsules) as u64;
            out.counts(rt, capsules.len() as u64, room(capsules), quota);
        }
        Err(CapsuleError::Cut { offset }) => out.place(rt, b"offset", *offset),
        Err(CapsuleError::TooLong { what, count }) => {
            out.limit(rt, what.word().as_bytes(), *count)
        }
        Err(CapsuleError::Memory) => out.put(rt, b"memory"),
    }
    out
}
