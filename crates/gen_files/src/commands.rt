// The queue files of a generated plan.
ghost use Rattle.std.specs.Prelude.{◌≡◌, ◌≤◌, ◌<◌, ◌+◌, ◌-◌, ◌*◌, ◌^◌, ◌++◌, IfOk, OnOk, [], ℕ, length};
ghost use Rattle.sqe_cqe.specs.declared.sqe.Sqe.{Sqe};
ghost use Rattle.gen_files.specs.Entries.{capsule_bytes, event_entry, log_entry};
ghost use Rattle.gen_files.specs.Commands.{admin_queue_bytes, block_of, blocks_of, command_bytes, command_data, command_entry, commands, draws, entries_from, io_queue_bytes, moved_by, next_draw, nsid_of, opcode_of, pattern};

use crate::entries::{
    enable_entry, event_entry, log_entry, plain_entry, push_capsule, push_connect,
};
use sqe_cqe::{READ, Sqe, WRITE, WRITE_ZEROES};
use std::alloc::{AllocError, Global};

// The drawn number after this one.
fn next_draw(x: u32) -> u32
    requires { x < 2 ^ 31 }
    ensures value { result ≡ next_draw x }
    ensures small { result < 2 ^ 31 }
{
    ((u64::from(x) * 1_103_515_245 + 12_345) % 2_147_483_648) as u32
}

// After so many steps from a seed.
fn draw_after(seed: u32, steps: u32) -> u32
    requires { seed < 2 ^ 31 }
    ensures value { result ≡ draws seed steps }
    ensures small { result < 2 ^ 31 }
{
    let mut x = seed;
    for _n in 0..steps {
        x = next_draw(x);
    }
    x
}

fn opcode_of(k: u32) -> u8
    ensures { result ≡ opcode_of k }
{
    match k % 4 {
        2 => WRITE,
        3 => WRITE_ZEROES,
        _ => READ,
    }
}

fn nsid_of(k: u32) -> u32
    ensures { result ≡ nsid_of k }
{
    1 + k / 4 % 2
}

// The block size of the namespace's disk, in bytes.
fn block_of(k: u32) -> u32
    ensures value { result ≡ block_of k }
    ensures small { result ≤ 4096 }
{
    if nsid_of(k) == 1 { 512 } else { 4_096 }
}

// How many blocks it has.
fn blocks_of(k: u32) -> u32
    ensures value { result ≡ blocks_of k }
    ensures some { 1 ≤ result }
{
    if nsid_of(k) == 1 { 2_048 } else { 256 }
}

// How many bytes of data a command moves.
fn moved_by(k: u32) -> u32
    ensures { result ≡ moved_by k }
{
    if k % 4 == 3 { 0 } else { block_of(k) }
}

#[tactic(auto, unfolding(crate::specs::Commands::command_entry))]
fn command_entry(k: u32, drawn: u32) -> Sqe
    requires { k < 65535 }
    ensures { result ≡ command_entry k drawn }
{
    Sqe {
        nsid: nsid_of(k),
        sgl_len: moved_by(k),
        cdw10: drawn / 256 % blocks_of(k),
        ..plain_entry(opcode_of(k), (k + 1) as u16)
    }
}

// The pattern from k on, of so many bytes.
fn pattern(alloc: Global, k: u32, size: u32) -> Result<Vec<u8>, AllocError>
    requires small { k < 65535 }
    requires short { size ≤ 4096 }
    ensures { IfOk result (λ v. v.items ≡ pattern k size) }
{
    let mut bytes = Vec::with_capacity(alloc, size as usize)?;
    for j in 0..size {
        bytes.push(((k + j) % 256) as u8)?;
    }
    Ok(bytes)
}

// The data of a Write; none of another command.
#[tactic(auto, unfolding(crate::specs::Commands::command_data))]
fn command_data(alloc: Global, k: u32) -> Result<Vec<u8>, AllocError>
    requires { k < 65535 }
    ensures { IfOk result (λ v. v.items ≡ command_data k) }
{
    if k % 4 == 2 {
        pattern(alloc, k, block_of(k))
    } else {
        Ok(Vec::new(alloc))
    }
}

// Appends command k.
fn push_command(alloc: Global, to: &mut Vec<u8>, k: u32, drawn: u32) -> Result<(), AllocError>
    requires { k < 65535 }
    ensures { OnOk result (to.new.items ≡ to.old.items ++ command_bytes k drawn) }
{
    let payload = command_data(alloc, k)?;
    push_capsule(to, &command_entry(k, drawn), &payload)?;
    Ok(())
}

// Appends so many commands of an I/O queue.
fn push_commands(
    alloc: Global,
    to: &mut Vec<u8>,
    rounds: u32,
    qid: u32,
    count: u32,
) -> Result<(), AllocError>
    requires rounds { rounds ≤ 4096 }
    requires first { 1 ≤ qid }
    requires last { qid ≤ 3 }
    requires count { count ≤ 16384 }
    ensures { OnOk result (to.new.items ≡ to.old.items ++ commands rounds qid count) }
{
    let mut drawn = draw_after(rounds, (qid - 1) * (4 * rounds));
    for k in 0..count {
        drawn = next_draw(drawn);
        push_command(alloc, to, k, drawn)?;
    }
    Ok(())
}

/// The file of the I/O queue with this identifier, 1 to 3: Connect to controller 1, and four
/// commands a round. Its memory is found first.
#[tactic(auto, unfolding(crate::specs::Commands::io_queue_bytes))]
pub fn io_queue(alloc: Global, rounds: u32, qid: u16) -> Result<Vec<u8>, AllocError>
    requires rounds { rounds ≤ 4096 }
    requires first { 1 ≤ qid }
    requires last { qid ≤ 3 }
    ensures { IfOk result (λ v. v.items ≡ io_queue_bytes rounds qid) }
{
    // A round is four entries and one block, a Write's, of 512 or 4,096 bytes in turn.
    let room = 64 + 1_024 + rounds as usize * (4 * 64) + (rounds as usize + 1) / 2 * (512 + 4_096);
    let mut bytes = Vec::with_capacity(alloc, room)?;
    push_connect(&mut bytes, qid, 127, 1)?;
    push_commands(alloc, &mut bytes, rounds, u32::from(qid), 4 * rounds)?;
    Ok(bytes)
}

// Appends so many event requests, the first of them with this command identifier.
fn push_events(to: &mut Vec<u8>, first: u16, count: u16) -> Result<(), AllocError>
    requires { first + count ≤ 65535 }
    ensures { OnOk result (to.new.items ≡ to.old.items ++ entries_from event_entry first count) }
{
    for n in 0..count {
        push_capsule(to, &event_entry(first + n), &[])?;
    }
    Ok(())
}

// Appends so many reads of the changed namespace list, the first of them with this identifier.
fn push_logs(to: &mut Vec<u8>, first: u16, count: u16) -> Result<(), AllocError>
    requires { first + count ≤ 65535 }
    ensures { OnOk result (to.new.items ≡ to.old.items ++ entries_from log_entry first count) }
{
    for n in 0..count {
        push_capsule(to, &log_entry(first + n), &[])?;
    }
    Ok(())
}

/// The file of the admin queue: Connect, the controller is enabled, four event requests, sixteen
/// reads of the changed namespace list. Its memory is found first.
#[tactic(auto, unfolding(crate::specs::Commands::admin_queue_bytes))]
pub fn admin_queue(alloc: Global) -> Result<Vec<u8>, AllocError>
    ensures { IfOk result (λ v. v.items ≡ admin_queue_bytes) }
{
    let mut bytes = Vec::with_capacity(alloc, 22 * 64 + 1_024)?;
    push_connect(&mut bytes, 0, 31, 65_535)?;
    push_capsule(&mut bytes, &enable_entry(1), &[])?;
    push_events(&mut bytes, 2, 4)?;
    push_logs(&mut bytes, 6, 16)?;
    Ok(bytes)
}
