ghost use Rattle.std.specs.Prelude.{◌≡◌, ◌≤◌};
ghost use Rattle.run_outcomes.specs.Numbers.{capsules_no, responses_no};

/// A file of a run: the plan 0, the configuration 1, the script 2, the journal 3, the capsules of
/// queue q 2 + 2q, its responses 3 + 2q, the sink 100.
#[derive(Clone, Copy, Debug, PartialEq, Eq)]
pub struct FileNo(pub u32);

/// The plan.
pub const PLAN: FileNo = FileNo(0);

/// The configuration.
pub const CONFIG: FileNo = FileNo(1);

/// The script.
pub const SCRIPT: FileNo = FileNo(2);

/// The journal.
pub const JOURNAL: FileNo = FileNo(3);

/// The sink.
pub const SINK: FileNo = FileNo(100);

/// The capsules of a queue; queues are numbered from 1 to 31.
pub fn capsules_number(queue: u32) -> FileNo
    requires { queue ≤ 31 }
    ensures { result ≡ capsules_no queue }
{
    FileNo(2 + 2 * queue)
}

/// The responses of a queue; queues are numbered from 1 to 31.
pub fn responses_number(queue: u32) -> FileNo
    requires { queue ≤ 31 }
    ensures { result ≡ responses_no queue }
{
    FileNo(3 + 2 * queue)
}
