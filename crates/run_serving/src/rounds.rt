// All queues, one after another.
ghost use Rattle.std.specs.Prelude.{◌≡◌, ◌≤◌, ◌<◌, ◌+◌, ◌*◌, ◌^◌, true, false, length, ℕ};
ghost use Rattle.tree_target.specs.Kept.{HasQueue, IsIdle};
ghost use Rattle.run_serving.specs.Goes.{AnySize, HasAll, HasEnded, HasFront, HasNothing, IsFrontLong, MakesRound};
ghost use Rattle.run_serving.specs.Readiness.{AreReady, AreServable, all_capsules, files_of, front_of, nothing_of};

use crate::files::{MAX_POLLS, poll_to_end, serve_front, serve_rest};
use crate::output::Output;
use run_transcript::CapsuleFile;
use tree_target::{Target, bindings_are_own};

// Serves the fronts of files, file after file, from the queue of this number on. Gives the next
// place.
pub(crate) fn serve_fronts(
    target: &mut Target,
    queue: u32,
    files: &[CapsuleFile],
    place: u32,
    outputs: &mut [Output],
) -> u32
    requires low { 1 ≤ queue }
    requires same { length outputs.old ≡ length files.now }
    requires queues { queue + length files.now ≡ length target.old.bindings + 1 }
    requires few_queues { queue + length files.now ≤ 32 }
    requires idle { (q : ℕ) → IsIdle target.old q }
    requires servable { AreServable files.now }
    requires ready { AreReady nothing_of files.now outputs.old }
    requires places { place + 65536 * length files.now < 2 ^ 32 }
    ensures few { result ≤ place + 65536 * length files.now }
    ensures idle { (q : ℕ) → IsIdle target.new q }
    ensures queues { length target.new.bindings ≡ length target.old.bindings }
    ensures ready { AreReady front_of files.now outputs.new }
    ensures serves { MakesRound IsFrontLong false queue (files_of files.now) HasNothing target.old
        outputs.old place HasFront target.new outputs.new result }
{
    let [file, files @ ..] = files else {
        return place;
    };
    bindings_are_own();
    let next = serve_front(target, queue, file, place, &mut outputs[0]);
    serve_fronts(target, queue + 1, files, next, &mut outputs[1..])
}

// Serves files behind their fronts, file after file, from the queue of this number on. Gives the
// next place.
pub(crate) fn serve_rests(
    target: &mut Target,
    queue: u32,
    files: &[CapsuleFile],
    place: u32,
    outputs: &mut [Output],
) -> u32
    requires low { 1 ≤ queue }
    requires same { length outputs.old ≡ length files.now }
    requires queues { queue + length files.now ≡ length target.old.bindings + 1 }
    requires few_queues { queue + length files.now ≤ 32 }
    requires idle { (q : ℕ) → IsIdle target.old q }
    requires servable { AreServable files.now }
    requires ready { AreReady front_of files.now outputs.old }
    requires places { place + 131072 * length files.now < 2 ^ 32 }
    ensures few { result ≤ place + 131072 * length files.now }
    ensures idle { (q : ℕ) → IsIdle target.new q }
    ensures queues { length target.new.bindings ≡ length target.old.bindings }
    ensures ready { AreReady all_capsules files.now outputs.new }
    ensures serves { MakesRound AnySize false queue (files_of files.now) HasFront target.old
        outputs.old place HasAll target.new outputs.new result }
{
    let [file, files @ ..] = files else {
        return place;
    };
    bindings_are_own();
    let next = serve_rest(target, queue, file, place, &mut outputs[0]);
    serve_rests(target, queue + 1, files, next, &mut outputs[1..])
}

// Makes the final polls of connected admin queues, queue after queue, from the queue of this number
// on. Gives the next place.
pub(crate) fn poll_all(
    target: &mut Target,
    queue: u32,
    files: &[CapsuleFile],
    place: u32,
    outputs: &mut [Output],
) -> u32
    requires low { 1 ≤ queue }
    requires same { length outputs.old ≡ length files.now }
    requires queues { queue + length files.now ≡ length target.old.bindings + 1 }
    requires few_queues { queue + length files.now ≤ 32 }
    requires idle { (q : ℕ) → IsIdle target.old q }
    requires servable { AreServable files.now }
    requires ready { AreReady all_capsules files.now outputs.old }
    requires places { place + MAX_POLLS * length files.now < 2 ^ 32 }
    ensures few { result ≤ place + MAX_POLLS * length files.now }
    ensures serves { MakesRound AnySize true queue (files_of files.now) HasAll target.old
        outputs.old place HasEnded target.new outputs.new result }
{
    let [file, files @ ..] = files else {
        return place;
    };
    bindings_are_own();
    let next = poll_to_end(target, queue, file, place, &mut outputs[0]);
    poll_all(target, queue + 1, files, next, &mut outputs[1..])
}
