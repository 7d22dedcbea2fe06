// Plans, line after line.
ghost use Rattle.std.specs.Prelude.{◌≡◌, ◌≢◌, ◌⊎◌, ◌*◌, ◌^◌, ◌<◌, ◌≤◌, ◌+◌, ◌∷◌, ◌||◌, ◌&&◌, ◌==◌, not, true, length, IfOk, IfErr, OnOk, OnErr, Ok, Err};
ghost use Rattle.std.specs.List.{list_any, list_all};
ghost use Rattle.std.specs.Str.{bytes_eq};
ghost use Rattle.text_lines.specs.Lines.{is_passed_over, lines_of};
ghost use Rattle.plan_files.specs.Spelling.{fits};
ghost use Rattle.plan_files.specs.Plans.{IsPlan, no_plan, with_item, has_name, is_free, is_new, agrees, is_complete, item_bytes, total_of, within};
ghost use Rattle.plan_files.specs.declared.items.Plan as file;
ghost use Rattle.plan_files.specs.PlanFaults.{FirstFault};
ghost use Rattle.plan_files.specs.declared.plan.PlanError as file_error;
ghost use Rattle.plan_files.specs.PlanReading.{Fails, Leaves, Gives, item_taken, line_taken, plan_from, plan_in};
ghost use Rattle.plan_files.specs.declared.plan.PlanError.TheVariants.{Memory, BadLine, TooLong};

use crate::items::{Item, Plan, QueueLine};
use crate::limits::What;
use crate::line_items::line_item;
use lists::items::Items;
use mem_bdev::{MAX_DISK_BYTES, Name};
use std::alloc::{AllocError, Global};
use text_lines::{cut_line, is_passed_over};
use thiserror::Error;

/// How many disks a plan has at most.
pub const MAX_DISKS: usize = 64;

/// How many bytes all disks of a plan have at most: 256 MiB.
pub const MAX_ALL_DISK_BYTES: u64 = 268_435_456;

/// How many queues a plan has at most.
pub const MAX_QUEUES: usize = 31;

/// Why a plan was not read.
#[derive(Clone, Copy, Debug, PartialEq, Eq, Error)]
pub enum PlanError {
    /// A line is bad: of no known form, one too many of its kind, with a disk path or a file name
    /// that stands already, or forbidden by `simple`. The number counts from 1, passed over lines
    /// among them, and stands still at 4,294,967,295. What is missing at the end is missed on the
    /// line after the last.
    #[error("line {line} is bad")]
    BadLine { line: u32 },
    /// A limit is passed; the count is the counted number where it first passes it.
    #[error("the limit on {what} is passed: {count}")]
    TooLong { what: What, count: u64 },
    /// No memory for the plan.
    #[error("out of memory")]
    Memory,
}

impl From<AllocError> for PlanError {
    ghost from_gives = { λ _ e. e ≡ Memory };

    fn from(_e: AllocError) -> PlanError {
        PlanError::Memory
    }
}

fn bad_line(line: u32) -> PlanError
    ensures { result ≡ BadLine line }
{
    PlanError::BadLine { line }
}

fn too_long(what: What, count: u64) -> PlanError
    ensures { result ≡ TooLong what count }
{
    PlanError::TooLong { what, count }
}

fn has_name(slot: &Option<Name>, name: &[u8]) -> bool
    ensures { result ≡ has_name slot.now name.now }
{
    match slot {
        None => false,
        Some(n) => n.as_bytes() == name,
    }
}

fn names_queue(queue: &QueueLine, name: &[u8]) -> bool
    ensures { result ≡ (bytes_eq queue.now.capsules name.now
        || bytes_eq queue.now.responses name.now) }
{
    queue.capsules.as_bytes() == name || queue.responses.as_bytes() == name
}

fn names_a_queue(queues: &[QueueLine], name: &[u8]) -> bool
    ensures { result ≡ list_any (λ q. bytes_eq q.capsules name.now || bytes_eq q.responses name.now)
        queues.now }
{
    queues.iter().any(|q| names_queue(q, name))
}

// Whether no earlier line has this file name.
#[tactic(auto, unfolding(crate::specs::Plans::is_free))]
fn is_free(plan: &Plan, name: &[u8]) -> bool
    ensures { result ≡ is_free plan.now name.now }
{
    !(has_name(&plan.config, name)
        || has_name(&plan.script, name)
        || has_name(&plan.journal, name)
        || names_a_queue(plan.queues.as_slice(), name))
}

fn has_path(plan: &Plan, path: &[u8]) -> bool
    ensures { result ≡ list_any (λ e. bytes_eq e.path path.now) plan.now.disks }
{
    plan.disks
        .as_slice()
        .iter()
        .any(|d| d.path.as_bytes() == path)
}

fn is_new_queue(plan: &Plan, q: &QueueLine) -> bool
    ensures { result ≡ (is_free plan.now q.now.capsules && is_free plan.now q.now.responses
        && not (bytes_eq q.now.capsules q.now.responses)) }
{
    is_free(plan, q.capsules.as_bytes())
        && is_free(plan, q.responses.as_bytes())
        && q.capsules.as_bytes() != q.responses.as_bytes()
}

// Whether an item is not one too many, and has no path or name that stands already.
#[tactic(auto, unfolding(crate::specs::Plans::is_new))]
fn is_new(plan: &Plan, item: &Item) -> bool
    ensures { result ≡ is_new plan.now item.now }
{
    match item {
        Item::Simple => !plan.simple,
        Item::Disk(d) => !has_path(plan, d.path.as_bytes()),
        Item::Config(name) => plan.config.is_none() && is_free(plan, name.as_bytes()),
        Item::Script(name) => plan.script.is_none() && is_free(plan, name.as_bytes()),
        Item::Journal(name) => plan.journal.is_none() && is_free(plan, name.as_bytes()),
        Item::Queue(q) => is_new_queue(plan, q),
    }
}

fn all_by_port_one(queues: &[QueueLine]) -> bool
    ensures { result ≡ list_all (λ q. q.port == 1) queues.now }
{
    queues.iter().all(|q| q.port == 1)
}

// Whether a plan has nothing that a simple plan may not have.
#[tactic(auto, unfolding(crate::specs::Plans::agrees))]
fn agrees(plan: &Plan) -> bool
    ensures { result ≡ agrees plan.now }
{
    if !plan.simple {
        return true;
    }
    let no_files = plan.config.is_none() && plan.script.is_none() && plan.journal.is_none();
    let few = plan.disks.as_slice().len() <= 1 && plan.queues.as_slice().len() <= 1;
    no_files && few && all_by_port_one(plan.queues.as_slice())
}

// Whether nothing is missing.
#[tactic(auto, unfolding(crate::specs::Plans::is_complete))]
fn is_complete(plan: &Plan) -> bool
    ensures { result ≡ is_complete plan.now }
{
    if plan.simple {
        return plan.disks.as_slice().len() == 1 && plan.queues.as_slice().len() == 1;
    }
    plan.config.is_some() && plan.journal.is_some()
}

fn disk_bytes(shift: u8, blocks: u64) -> u64
    requires known { (shift ≡ 9) ⊎ (shift ≡ 12) }
    requires small { blocks < 2 ^ 52 }
    ensures { result ≡ blocks * 2 ^ shift }
{
    if shift == 9 {
        return blocks * 512;
    }
    blocks * 4096
}

// The bytes of the disk that an item adds.
fn item_bytes(item: &Item) -> u64
    requires { fits item.now ≡ true }
    ensures { result ≡ item_bytes item.now }
{
    match item {
        Item::Disk(d) => disk_bytes(d.shift, d.blocks),
        _ => 0,
    }
}

// The first limit that the plan passes, where its newest disk has so many bytes.
#[tactic(auto, unfolding(crate::specs::Plans::within))]
fn within(plan: &Plan, bytes: u64, before: u64) -> Result<u64, PlanError>
    requires total { total_of plan.now.disks ≡ before + bytes }
    requires small { before ≤ MAX_ALL_DISK_BYTES }
    ensures exact { Leaves plan.now result (within plan.now bytes) }
    ensures total { IfOk result (λ total. (total ≡ total_of plan.now.disks)
        × (total ≤ MAX_ALL_DISK_BYTES)) }
{
    let disks = plan.disks.as_slice().len();
    if disks > MAX_DISKS {
        return Err(too_long(What::Disks, disks as u64));
    }
    if bytes > MAX_DISK_BYTES {
        return Err(too_long(What::DiskBytes, bytes));
    }
    let total = before + bytes;
    if total > MAX_ALL_DISK_BYTES {
        return Err(too_long(What::AllDiskBytes, total));
    }
    let queues = plan.queues.as_slice().len();
    if queues > MAX_QUEUES {
        return Err(too_long(What::Queues, queues as u64));
    }
    Ok(total)
}

// Adds an item to a plan.
fn add(plan: &mut Plan, item: Item) -> Result<(), PlanError>
    ensures added { OnOk result (plan.new ≡ with_item plan.old item) }
    ensures memory { OnErr result (result ≡ Err Memory) }
{
    match item {
        Item::Simple => plan.simple = true,
        Item::Disk(d) => plan.disks.push(d)?,
        Item::Config(name) => plan.config = Some(name),
        Item::Script(name) => plan.script = Some(name),
        Item::Journal(name) => plan.journal = Some(name),
        Item::Queue(q) => plan.queues.push(q)?,
    }
    Ok(())
}

fn empty_plan(alloc: Global) -> Plan
    ensures { result ≡ no_plan }
{
    Plan {
        simple: false,
        disks: Items::new(alloc),
        config: None,
        script: None,
        journal: None,
        queues: Items::new(alloc),
    }
}

// Adds an item that stands on this line. The answer is the bytes of all disks then.
#[tactic(auto, unfolding(crate::specs::PlanReading::item_taken))]
fn take_item(plan: &mut Plan, before: u64, line: u32, item: Item) -> Result<u64, PlanError>
    requires total { before ≡ total_of plan.old.disks }
    requires small { before ≤ MAX_ALL_DISK_BYTES }
    requires fits { fits item ≡ true }
    ensures exact { Leaves plan.new result (item_taken line plan.old item) }
    ensures total { IfOk result (λ total. (total ≡ total_of plan.new.disks)
        × (total ≤ MAX_ALL_DISK_BYTES)) }
{
    if !is_new(plan, &item) {
        return Err(bad_line(line));
    }
    let bytes = item_bytes(&item);
    add(plan, item)?;
    if !agrees(plan) {
        return Err(bad_line(line));
    }
    within(plan, bytes, before)
}

// Adds what a line says. The answer is the bytes of all disks then.
#[tactic(auto, unfolding(crate::specs::PlanReading::line_taken))]
fn take_line(
    alloc: Global,
    plan: &mut Plan,
    before: u64,
    number: u32,
    line: &[u8],
) -> Result<u64, PlanError>
    requires total { before ≡ total_of plan.old.disks }
    requires small { before ≤ MAX_ALL_DISK_BYTES }
    ensures exact { Leaves plan.new result (line_taken number plan.old line.now) }
    ensures total { IfOk result (λ total. (total ≡ total_of plan.new.disks)
        × (total ≤ MAX_ALL_DISK_BYTES)) }
{
    if is_passed_over(line) {
        return Ok(before);
    }
    match line_item(alloc, line)? {
        None => Err(bad_line(number)),
        Some(item) => take_item(plan, before, number, item),
    }
}

// The plan that the lines after the first make.
fn plan_after(alloc: Global, lines: &[u8]) -> Result<Plan, PlanError>
    ensures { Gives result (plan_from 2 no_plan (lines_of lines.now)) }
{
    let mut plan = empty_plan(alloc);
    let mut total = 0;
    let mut number = 2u32;
    let mut rest = lines;
    while !rest.is_empty() {
        let (line, after) = cut_line(rest);
        total = take_line(alloc, &mut plan, total, number, line)?;
        number = number.saturating_add(1);
        rest = after;
    }
    if !is_complete(&plan) {
        return Err(bad_line(number));
    }
    Ok(plan)
}

// The plan in a file's bytes, or its first fault.
#[tactic(auto, unfolding(crate::specs::PlanReading::plan_in))]
fn whole_plan(alloc: Global, bytes: &[u8]) -> Result<Plan, PlanError>
    ensures { Gives result (plan_in bytes.now) }
{
    if bytes.is_empty() {
        return Err(bad_line(1));
    }
    let (head, lines) = cut_line(bytes);
    if head != b"nvmet-plan 1".as_slice() {
        return Err(bad_line(1));
    }
    plan_after(alloc, lines)
}

/// The plan in a file's bytes.
///
/// The first line is `nvmet-plan 1`. The others are, in any order, `simple`, `disk PATH SHIFT
/// BLOCKS`, `config FILE`, `script FILE`, `journal FILE` and `queue PORT CAPSULES RESPONSES`; an
/// empty line and one that begins with `#` are passed over. The answer is exact: the plan, or the
/// first bad line or passed limit, whichever stands earlier; in one line a bad form comes first.
pub fn read_plan(alloc: Global, bytes: &[u8]) -> Result<Plan, PlanError>
    // What is read is spelled so.
    ensures spelled { IfOk result (λ plan. IsPlan bytes.now plan) }
    // What is spelled so is read, unless memory runs out.
    ensures only { (plan : file.Plan) → IsPlan bytes.now plan → Gives result (Ok plan) }
    // Which fault it is.
    ensures exact { Gives result (plan_in bytes.now) }
    // The error is the file's first fault, and its first fault the error, unless memory runs out.
    ensures fault { IfErr result (λ e. e ≢ Memory → FirstFault bytes.now e) }
    ensures faults { (e : file_error.PlanError) → FirstFault bytes.now e → Gives result (Err e) }
{
    whole_plan(alloc, bytes)
}
