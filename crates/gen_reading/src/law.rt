ghost use Rattle.std.specs.Prelude.{◌≡◌, ◌≤◌, ℕ, List, true, Ok};
ghost use Rattle.gen_files.specs.Commands.{admin_queue_bytes, io_queue_bytes};
ghost use Rattle.gen_files.specs.Seeds.{is_base_name};
ghost use Rattle.gen_files.specs.Texts.{plan_text, script_text};
ghost use Rattle.plan_files.specs.CapsuleReading.{capsules_of};
ghost use Rattle.plan_files.specs.PlanReading.{plan_in};
ghost use Rattle.gen_reading.specs.Capsules.{admin_capsules, io_capsules};
ghost use Rattle.gen_reading.specs.Plans.{plan_of};
ghost use Rattle.gen_reading.specs.Scripts.{script_of};
ghost use Rattle.script_edits.specs.Script.{script_in};

/// A law, with nothing to run: a generated queue file is read without a fault. What is read of the
/// admin queue's is Connect, Property Set, four event requests and sixteen reads of a log page; what
/// is read of an I/O queue's is Connect and four commands a round, each with its data.
pub fn queue_files_are_read()
    ensures admin { capsules_of admin_queue_bytes ≡ Ok admin_capsules }
    ensures io { (rounds : ℕ) → (qid : ℕ) → rounds ≤ 4096 → qid ≤ 3
        → capsules_of (io_queue_bytes rounds qid) ≡ Ok (io_capsules rounds qid) }
{}

/// A law, with nothing to run: the plan of a name that files may begin with is read without a fault.
/// It says two disks, the configuration, the script, the journal and four queues at port 1.
pub fn plans_are_read()
    ensures { (name : List ℕ) → is_base_name name ≡ true
        → plan_in (plan_text name) ≡ Ok (plan_of name) }
{}

/// A law, with nothing to run: the script is read without a fault. It disables namespace 2 and enables
/// it again, eight times.
pub fn scripts_are_read()
    ensures { script_in script_text ≡ Ok script_of }
{}
