// The numbers of a run's summary that are counted queue by queue.
ghost use Rattle.std.specs.Prelude.{◌≡◌, ◌≤◌, ℕ, ◌+◌, ◌^◌, []};
ghost use Rattle.run_prints.specs.Totals.{Adds, AreBelow, AreTotals};

use run_serving::Output;

/// The numbers of all queues together: commands submitted, executed and refused, events, event
/// requests that were left waiting, and data in bytes, taken from the host and given to it.
#[derive(Clone, Copy)]
pub struct Totals {
    pub submitted: u128,
    pub executed: u128,
    pub refused: u128,
    pub events: u128,
    pub waiting: u128,
    pub taken: u128,
    pub given: u128,
}

// One number more.
fn more(total: u128, n: u64) -> u128
    requires { total ≤ 2 ^ 127 }
    ensures value { result ≡ total + n }
    ensures small { result ≤ total + 2 ^ 64 }
{
    total + u128::from(n)
}

// With the numbers of one queue more. They don't pass 128 bits, since no list has 2^64 queues.
fn add(t: &Totals, o: &Output) -> Totals
    requires { AreBelow t.now (2 ^ 127) }
    ensures adds { Adds t.now o.now result }
    ensures below { (n : ℕ) → AreBelow t.now n → AreBelow result (n + 2 ^ 64) }
{
    Totals {
        submitted: more(t.submitted, u64::from(o.submitted)),
        executed: more(t.executed, u64::from(o.executed)),
        refused: more(t.refused, u64::from(o.refused)),
        events: more(t.events, u64::from(o.events)),
        waiting: more(t.waiting, u64::from(o.waiting)),
        taken: more(t.taken, o.taken),
        given: more(t.given, o.given),
    }
}

fn none() -> Totals
    ensures are { AreTotals [] result }
    ensures below { AreBelow result 0 }
{
    Totals {
        submitted: 0,
        executed: 0,
        refused: 0,
        events: 0,
        waiting: 0,
        taken: 0,
        given: 0,
    }
}

/// The numbers of these queues together.
pub fn totals_of(outputs: &[Output]) -> Totals
    ensures { AreTotals outputs.now result }
{
    let mut totals = none();
    for output in outputs {
        totals = add(&totals, output);
    }
    totals
}
