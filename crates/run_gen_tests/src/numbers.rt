// The summary of the run of a generated plan, worked out from its number of rounds.
use std::alloc::Global;
use std::test::Fail;

/// How many places the run of a plan of so many rounds has.
///
/// Four Connects and one Property Set; 20 admin commands, which are answered when they are submitted,
/// and a poll after each; one more poll at the end, which gives no event; 16 edits and 8 ends of
/// drains; and 12 commands a round, each submitted and executed.
pub fn places(rounds: u16) -> u64 {
    5 + 20 + 20 + 1 + 16 + 8 + 24 * u64::from(rounds)
}

/// The summary of the run of a plan of so many rounds.
///
/// A round of a queue writes one block and reads two, of 512 bytes in odd and of 4,096 bytes in even
/// rounds. Each of the 16 log pages has 4,096 bytes. All edits are made while the admin queue has no
/// event request, so its first one gets the one event, and three are left.
pub fn summary(alloc: Global, rounds: u16) -> Result<String, Fail> {
    let places = places(rounds);
    let executed = 12 * u64::from(rounds);
    let submitted = 20 + executed;
    let even = u64::from(rounds / 2);
    let odd = u64::from(rounds - rounds / 2);
    let taken = 3 * (512 * odd + 4096 * even);
    let given = 16 * 4096 + 2 * taken;
    Ok(format!(in alloc;
        "places {places}\nedits 16 accepted 0 refused\ndrains 8\n\
        commands {submitted} submitted {executed} executed 0 refused\n\
        events 1 answered 3 waiting\nbytes {taken} in {given} out\nconfig 0 passed over\n"
    )?)
}
