ghost use Rattle.std.specs.Prelude.{◌≡◌, ◌↔◌, ℕ, List, Err};
ghost use Rattle.plan_files.specs.CapsuleFaults as capsule;
ghost use Rattle.plan_files.specs.CapsuleReading.{capsules_of};
ghost use Rattle.plan_files.specs.PlanFaults as plan;
ghost use Rattle.plan_files.specs.PlanReading.{plan_in};
ghost use Rattle.plan_files.specs.declared.capsules.CapsuleError.{CapsuleError};
ghost use Rattle.plan_files.specs.declared.plan.PlanError.{PlanError};

/// A law, with nothing to run: the error of a plan file is its first fault. The lines before it may stand together, and
/// the line that it names may not stand with them, passes a limit, or is the one after the last, where something is
/// missing; each such place is the error.
pub fn plans_fail_at_their_first_fault()
    ensures { (bytes : List ℕ) (e : PlanError) → (plan_in bytes ≡ Err e) ↔ plan.FirstFault bytes e }
{}

/// A law, with nothing to run: the error of a capsule file is its first fault. Whole capsules within the limits fill the
/// bytes before it, and the next one is cut or passes a limit; each such place is the error.
pub fn capsule_files_fail_at_their_first_fault()
    ensures { (bytes : List ℕ) (e : CapsuleError) → (capsules_of bytes ≡ Err e)
        ↔ capsule.FirstFault bytes e }
{}
