// How far a queue's records were made again, and which call is next.
ghost use Rattle.std.specs.Prelude.{◌≡◌, ◌<◌, ℕ, List, option_map, slice_get, IfSome};
ghost use Rattle.plan_files.specs.Capsules.{Capsule};
ghost use Rattle.tree_target.specs.Model as model;
ghost use Rattle.tree_target.specs.Stands.{StandsFor};
ghost use Rattle.tree_target.specs.Kept.{is_admin_in};
ghost use Rattle.run_transcript.specs.Turns.{after_call, next_call, next_capsule, is_admin_at};
ghost use Rattle.check_records.specs.Cursors.{IsFirstStep, IsInside, IsNextStep, behind, capsules_of, polled, progress_at, step_call};
ghost use Rattle.check_records.specs.Told.{call_told};

use run_records::Kind;
use run_transcript::CapsuleFile;
use sqe_cqe::FABRICS;
use tree_target::{Reply, Target};

/// Where a queue stands between two of its calls: nothing is owed; its command is held; its last
/// capsule's command is through; its last poll with nothing left to serve found no event.
#[derive(Clone, Copy, Debug, PartialEq, Eq)]
pub enum Stage {
    Ready,
    Holding,
    Through,
    Ended,
}

/// How many capsules of its file a queue has taken, and where it stands.
#[derive(Clone, Copy, Debug, PartialEq, Eq)]
pub struct Cursor {
    pub taken: u32,
    pub stage: Stage,
}

/// A call of a queue by its kind and number, as its record names it.
#[derive(Clone, Copy, Debug, PartialEq, Eq)]
pub struct Step {
    pub kind: Kind,
    pub number: u32,
}

// A poll, where the queue is a connected admin queue.
fn poll(target: &Target, queue: u32, taken: u32) -> Option<Step>
    ensures { result ≡ polled (is_admin_in target.now queue) taken }
{
    if target.is_admin(queue) {
        return Some(Step {
            kind: Kind::Poll,
            number: taken,
        });
    }
    None
}

// The first call of the next capsule, or a poll where none is left.
fn first_step(target: &Target, queue: u32, file: &CapsuleFile, taken: u32) -> Option<Step>
    ensures next { (t : model.Target) → StandsFor target.now t →
        next_capsule (is_admin_at t queue) queue taken (slice_get (capsules_of file.now) taken)
        ≡ option_map (step_call queue (capsules_of file.now) taken) result }
    ensures step { IfSome result (λ s. IsFirstStep file.now taken s) }
{
    let Some(capsule) = file.capsules.get(taken as usize) else {
        return poll(target, queue, taken);
    };
    let kind = if capsule.sqe.opcode == FABRICS {
        Kind::Control
    } else {
        Kind::Submit
    };
    Some(Step {
        kind,
        number: taken,
    })
}

impl Cursor {
    /// The next call of a queue.
    pub fn next(&self, target: &Target, queue: u32, file: &CapsuleFile) -> Option<Step>
        requires { IsInside (capsules_of file.now) self.now }
        ensures next { (t : model.Target) → StandsFor target.now t →
            next_call t queue (capsules_of file.now) (progress_at self.now)
            ≡ option_map (step_call queue (capsules_of file.now) self.now.taken) result }
        ensures step { IfSome result (λ s. IsNextStep file.now self.now s) }
    {
        match self.stage {
            Stage::Ready => first_step(target, queue, file, self.taken),
            Stage::Holding => Some(Step {
                kind: Kind::Execute,
                number: self.taken - 1,
            }),
            Stage::Through => {
                if target.is_admin(queue) {
                    return poll(target, queue, self.taken);
                }
                first_step(target, queue, file, self.taken)
            }
            Stage::Ended => None,
        }
    }

    /// Goes on behind a call that replied so.
    pub fn advance(&mut self, kind: Kind, reply: &Reply)
        requires { self.old.taken < 4294967295 }
        ensures at { self.new ≡ behind self.old kind reply.now }
        ensures progress { (queue number : ℕ) (file : List Capsule) (taken : ℕ) →
            progress_at self.new ≡ after_call (progress_at self.old)
            (call_told queue file taken kind number) reply.now }
    {
        match kind {
            Kind::Submit => {
                self.taken += 1;
                self.stage = match reply {
                    Reply::Held => Stage::Holding,
                    _ => Stage::Through,
                };
            }
            Kind::Execute => self.stage = Stage::Through,
            Kind::Poll => {
                self.stage = match (self.stage, reply) {
                    (Stage::Through, _) => Stage::Ready,
                    (_, Reply::NoEvent) => Stage::Ended,
                    _ => Stage::Ready,
                };
            }
            Kind::Control => {
                self.taken += 1;
                self.stage = Stage::Ready;
            }
        }
    }
}
