//! Opens a core and takes steps on it.
use crate::fingerprint::fingerprint;
use ref_rule::{Answer, Core, Kind, allowed, step};
use std::alloc::Global;
use std::process::Abort;

/// A core of three seats with 200 places each, two disks of eight slots each, and sides of three
/// words. It is opened again where memory is refused once.
pub fn opened(rt: &impl Abort, alloc: Global) -> Core {
    let quotas = [200, 200, 200];
    match Core::opened(alloc, &quotas, 2, 3) {
        Ok(core) => core,
        Err(_) => Core::opened(alloc, &quotas, 2, 3).expect(rt, "memory"),
    }
}

// The answer of the step, which is allowed.
fn taken_again(rt: &impl Abort, alloc: Global, core: &mut Core, seat: u32, kind: &Kind) -> Answer {
    assert!(rt; allowed(core, seat, kind), "the step is still allowed");
    step(alloc, core, seat, kind).expect(rt, "memory")
}

/// The answer of the step, or none where it isn't allowed. Where memory is refused once, the step
/// is taken again.
pub fn tried(
    rt: &impl Abort,
    alloc: Global,
    core: &mut Core,
    seat: u32,
    kind: &Kind,
) -> Option<Answer> {
    if !allowed(core, seat, kind) {
        return None;
    }
    if let Ok(answer) = step(alloc, core, seat, kind) {
        return Some(answer);
    }
    Some(taken_again(rt, alloc, core, seat, kind))
}

/// The same. Where memory is refused, the core is as before.
pub fn tried_with_care(
    rt: &impl Abort,
    alloc: Global,
    core: &mut Core,
    seat: u32,
    kind: &Kind,
) -> Option<Answer> {
    if !allowed(core, seat, kind) {
        return None;
    }
    let before = fingerprint(core.state());
    if let Ok(answer) = step(alloc, core, seat, kind) {
        return Some(answer);
    }
    let after = fingerprint(core.state());
    assert!(rt; after == before, "refused memory changes nothing");
    Some(taken_again(rt, alloc, core, seat, kind))
}
