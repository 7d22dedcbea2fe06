// What a plan's lines promise to the target that is made of it.
ghost use Rattle.tree_target.specs.PlanDisks.{PlansFitTargets};

/// A law, with nothing to run: the disks of a plan that was read (`read_plan` says that its bytes
/// are the plan) are those of a tree, each can be made, and its path is one that a namespace may
/// have. There are not more queues than a target has. A simple plan has one disk and one queue.
pub fn plans_fit_targets()
    ensures { PlansFitTargets }
{}
