// Random edits are published, and what stands there is looked at in sections.
ghost use Rattle.std.specs.Prelude.{◌≡◌, ◌+◌, ◌<◌, length};
ghost use Rattle.patched_tables.specs.Keeping.{Keeps, Rests, disks};
ghost use Rattle.patched_tables.specs.Patching.{patch_at};

use crate::begun::configured;
use crate::listed::{Stamped, check_words};
use crate::rolls::{Dice, Turn};
use crate::served::{follow, is_admitted, served};
use compared_sections::comparing::{Found, Question, compare};
use configfs_tree::{Change, Errno, Refused};
use edit_words::edits::EditWords;
use io_commands::Admit;
use listed_words::configured::Configured;
use ns_table::layout::WORDS;
use patched_tables::meaning::{Patches, Table};
use patched_tables::opened::open_patched;
use patched_tables::publishing::publish_patch;
use rcu_sections::editor::Editor;
use same_looks::admissions::command;
use sqe_cqe::{Bound, Ctrl, Sqe};
use std::alloc::Global;
use std::marker::Brand;
use std::process::Abort;
use std::sync::ledger::{Blank, Ledger};
use std::test::Fail;
use table_rule::ticks::Steps;
use target_table::table::Seat;
use tree_target::{Target, TreeLook};

// How many edits are asked for.
const EDITS: u32 = 200;

const SEED: u64 = 60;

// What a controller's queue is connected to.
const BOUND: Bound = Bound {
    ctrl: 1,
    qid: 1,
    sub: 0,
    port: 0,
};

// Ends the drain and makes the edit of a turn.
fn take_turn(
    rt: &impl Abort,
    alloc: Global,
    configured: Configured,
    turn: &Turn,
    words: &mut EditWords,
) -> (Configured, Result<Change, Refused>) {
    let configured = match &turn.drain {
        Some((sub, nsid)) => configured.drained(sub, *nsid),
        None => configured,
    };
    assert!(rt; turn.edit.is_fitting(), "an edit that may be read");
    configured.edited(alloc, &turn.edit, words)
}

// Whether a change is published.
fn is_published(answer: &Result<Change, Refused>) -> bool {
    match answer {
        Ok(change) => change.published,
        Err(_) => false,
    }
}

// Room for the words of an edit.
fn no_words(rt: &impl Abort, alloc: Global) -> EditWords {
    EditWords::new(alloc).expect(rt, "memory")
}

// Keeps the words of an edit that is published; another one has none.
fn keep(rt: &impl Abort, patches: &mut Vec<EditWords>, words: EditWords, is_published: bool) {
    if is_published {
        patches.push(words).expect(rt, "memory");
    } else {
        assert!(rt; words.words().is_empty(), "nothing was published");
    }
}

// Takes the next turn.
fn gather(
    rt: &impl Abort,
    alloc: Global,
    part: Configured,
    dice: &mut Dice,
    patches: &mut Vec<EditWords>,
) -> Configured {
    let turn = dice.turn(rt, alloc);
    let mut words = no_words(rt, alloc);
    let (after, answer) = take_turn(rt, alloc, part, &turn, &mut words);
    keep(rt, patches, words, is_published(&answer));
    after
}

// By its number, from 1, the words that each published edit turns. Number 0 has none.
fn gathered(rt: &impl Abort, alloc: Global, part: Configured) -> Vec<EditWords> {
    let mut part = part;
    let mut patches = Vec::new(alloc);
    patches.push(no_words(rt, alloc)).expect(rt, "memory");
    let mut dice = Dice { state: SEED };
    for _ in 0..EDITS {
        part = gather(rt, alloc, part, &mut dice, &mut patches);
    }
    patches
}

// What was counted in a run.
#[derive(Clone, Copy, PartialEq, Eq, Debug)]
struct Tally {
    accepted: u32,
    refused: u32,
    published: u32,
    held: u32,
}

// What stands beside the configuration: the sequential target over the same one, the controller for
// which pages are read, and what was counted.
#[derive(Drop)]
struct Beside {
    stamped: Stamped,
    target: Target,
    ctrl: Ctrl,
    tally: Tally,
}

// The first controller.
fn ctrl_of(rt: &impl Abort, part: &Configured) -> Ctrl {
    let first = part.controllers.rows().first();
    first.expect(rt, "a controller").ctrl
}

fn begun(rt: &impl Abort, alloc: Global, part: &Configured) -> Beside {
    let ctrl = ctrl_of(rt, part);
    let target = served(rt, alloc);
    Beside {
        stamped: Stamped::new(),
        target,
        ctrl,
        tally: Tally {
            accepted: 0,
            refused: 0,
            published: 0,
            held: 0,
        },
    }
}

// The errno of a refusal.
fn errno_of(answer: &Result<Change, Refused>) -> Option<Errno> {
    match answer {
        Err(Refused::Errno(errno)) => Some(*errno),
        _ => None,
    }
}

// Counts an edit.
fn count(tally: &mut Tally, answer: &Result<Change, Refused>) {
    match answer {
        Ok(_) => tally.accepted = tally.accepted.wrapping_add(1),
        Err(_) => tally.refused = tally.refused.wrapping_add(1),
    }
}

// Notes what an edit that was accepted stamps.
fn note(stamped: &mut Stamped, answer: &Result<Change, Refused>) {
    if let Ok(change) = answer {
        stamped.note(change);
    }
}

// The edit of a turn gets this answer from the target, too, and the words after it are those of a
// fresh opening.
fn check_turn(
    rt: &impl Abort,
    alloc: Global,
    part: &Configured,
    beside: &mut Beside,
    turn: &Turn,
    answer: &Result<Change, Refused>,
) {
    let errno = follow(rt, alloc, &mut beside.target, turn);
    assert_eq!(rt; errno, errno_of(answer));
    count(&mut beside.tally, answer);
    note(&mut beside.stamped, answer);
    check_words(rt, alloc, part, &beside.stamped);
}

// Takes a turn on both. Whether its edit is published.
fn followed(
    rt: &impl Abort,
    alloc: Global,
    part: Configured,
    beside: &mut Beside,
    turn: &Turn,
) -> (Configured, bool) {
    let mut words = no_words(rt, alloc);
    let (after, answer) = take_turn(rt, alloc, part, turn, &mut words);
    check_turn(rt, alloc, &after, beside, turn, &answer);
    (after, is_published(&answer))
}

// The words of a patch.
fn patch_of<'p>(rt: &impl Abort, patches: &'p [EditWords], number: u32) -> &'p [(u32, u64)]
    ensures { result.now ≡ patch_at patches.now number }
{
    assert!(rt; (number as usize) < patches.len());
    patches[number as usize].words()
}

// Publishes the patch after the one with this number.
fn publish_next<I: Patches, L: Ledger>(
    rt: &impl Abort,
    table: &Table<I>,
    editor: &mut Editor<u64>,
    patches: &[EditWords],
    number: u32,
    steps: &mut Steps<L>,
)
    requires own { editor.old.seat.base.table_id ≡ table.now.table.shared.table_id }
    requires plan { (table.now.table.shared.key.rows ≡ WORDS) × (length I.opened ≡ WORDS)
        × (table.now.table.shared.key.disks ≡ disks) }
    requires patches { patches.now ≡ I.patches }
    requires few { number < 1000 }
    requires keeps { Keeps I.opened I.patches (patch_at I.patches number)
        editor.old.seat.base.me.0 }
    ensures own { editor.new.seat.base.table_id ≡ editor.old.seat.base.table_id }
    ensures keeps { Keeps I.opened I.patches (patch_at I.patches (number + 1))
        editor.new.seat.base.me.0 }
{
    let last = patch_of(rt, patches, number);
    let patch = patch_of(rt, patches, number + 1);
    assert!(rt; editor.seat.left() > 0);
    let drew = publish_patch(table, editor, WORDS, last, patch, number + 1, steps);
    assert!(rt; drew.is_some());
}

// Nothing differs in what was found.
fn check_found(rt: &impl Abort, found: &Found) {
    assert_eq!(rt; found.word, None);
    assert_eq!(rt; found.looks, Ok(()));
}

// A command by the number of its turn.
fn entry(turn: u32, nsid: u32) -> Sqe {
    let opcode = match turn % 5 {
        0 => 0x00,
        1 | 2 => 0x01,
        3 => 0x02,
        _ => 0x08,
    };
    let bytes = if opcode == 0x01 || opcode == 0x02 {
        512
    } else {
        0
    };
    command(opcode, nsid, bytes)
}

// Submits the command to the target, which admits it alike, and counts it where it is held.
fn admit(rt: &impl Abort, alloc: Global, beside: &mut Beside, e: &Sqe, admitted: &Admit) {
    if is_admitted(rt, alloc, &mut beside.target, e, admitted) {
        beside.tally.held = beside.tally.held.wrapping_add(1);
    }
}

// Compares all in a section of the reader, at the place and with the serial that are due. Submits
// the command to the target, and executes it where it is held.
fn check<I: Patches, L: Ledger>(
    rt: &impl Abort,
    alloc: Global,
    table: &Table<I>,
    reader: &mut Seat<u64>,
    part: &Configured,
    beside: &mut Beside,
    number: u32,
    e: &Sqe,
    steps: &mut Steps<L>,
)
    requires own { reader.old.base.table_id ≡ table.now.table.shared.table_id }
    requires rows { table.now.table.shared.key.rows ≡ WORDS }
    requires rests { Rests reader.old.number reader.old.base.me.0 }
    ensures own { reader.new.base.table_id ≡ reader.old.base.table_id }
    ensures rests { Rests reader.new.number reader.new.base.me.0 }
{
    let mut look = TreeLook::new(&part.tree, &part.controllers, &part.disks, &part.stamps);
    let q = Question {
        ctrl: &beside.ctrl,
        bound: BOUND,
        entry: e,
        since: part.stamps.serial() / 2,
        whole: true,
        words: &part.words,
    };
    assert!(rt; reader.left() > 0);
    let (at, serial, found) = compare(table, reader, number, &q, &mut look, steps);
    check_found(rt, &found);
    assert_eq!(rt; at, number.wrapping_add(serial));
    assert_eq!(rt; serial, beside.tally.published);
    admit(rt, alloc, beside, e, &found.admitted);
}

// Publishes the next patch, where the edit was published: how many were.
fn published<I: Patches, L: Ledger>(
    rt: &impl Abort,
    table: &Table<I>,
    editor: &mut Editor<u64>,
    patches: &[EditWords],
    number: u32,
    is_published: bool,
    steps: &mut Steps<L>,
) -> u32
    requires own { editor.old.seat.base.table_id ≡ table.now.table.shared.table_id }
    requires plan { (table.now.table.shared.key.rows ≡ WORDS) × (length I.opened ≡ WORDS)
        × (table.now.table.shared.key.disks ≡ disks) }
    requires patches { patches.now ≡ I.patches }
    requires keeps { Keeps I.opened I.patches (patch_at I.patches number)
        editor.old.seat.base.me.0 }
    ensures own { editor.new.seat.base.table_id ≡ editor.old.seat.base.table_id }
    ensures keeps { Keeps I.opened I.patches (patch_at I.patches result)
        editor.new.seat.base.me.0 }
{
    if !is_published {
        return number;
    }
    assert!(rt; number < 1000);
    publish_next(rt, table, editor, patches, number, steps);
    number + 1
}

// All turns on a table that was opened: what was counted.
fn take_turns<I: Patches, L: Ledger>(
    rt: &impl Abort,
    alloc: Global,
    table: &Table<I>,
    editor: &mut Editor<u64>,
    reader: &mut Seat<u64>,
    patches: &[EditWords],
    steps: &mut Steps<L>,
) -> Tally
    requires own { (editor.old.seat.base.table_id ≡ table.now.table.shared.table_id)
        × (reader.old.base.table_id ≡ table.now.table.shared.table_id) }
    requires plan { (table.now.table.shared.key.rows ≡ WORDS) × (length I.opened ≡ WORDS)
        × (table.now.table.shared.key.disks ≡ disks) }
    requires patches { patches.now ≡ I.patches }
    requires keeps { Keeps I.opened I.patches (patch_at I.patches 0) editor.old.seat.base.me.0 }
    requires rests { Rests reader.old.number reader.old.base.me.0 }
{
    let mut part = configured(rt, alloc);
    let mut beside = begun(rt, alloc, &part);
    let mut dice = Dice { state: SEED };
    let mut others = Dice { state: SEED };
    let e = entry(0, 1);
    check(rt, alloc, table, reader, &part, &mut beside, 0, &e, steps);
    let mut number = 0;
    for turn in 0..EDITS {
        let next = dice.turn(rt, alloc);
        let (after, is_published) = followed(rt, alloc, part, &mut beside, &next);
        part = after;
        number = published(rt, table, editor, patches, number, is_published, steps);
        beside.tally.published = number;
        let e = entry(turn, others.nsid());
        check(
            rt,
            alloc,
            table,
            reader,
            &part,
            &mut beside,
            turn + 1,
            &e,
            steps,
        );
    }
    beside.tally
}

// The words that the table is opened with.
fn opened(rt: &impl Abort, alloc: Global) -> Vec<u64> {
    let part = configured(rt, alloc);
    part.words.as_slice().to_vec(alloc).expect(rt, "memory")
}

// Opens a table with these words, and takes all turns on it: what was counted.
fn run<I: Patches, L: Ledger>(
    rt: &impl Abort,
    alloc: Global,
    rows: Vec<u64>,
    patches: &[EditWords],
    blank: Blank,
) -> Tally
    requires name { (blank.name ≡ L.name) × (blank.parts ≡ L.parts) × (L.parts ≡ 5) }
    requires rows { rows.items ≡ I.opened }
    requires patches { patches.now ≡ I.patches }
{
    assert_eq!(rt; rows.len(), WORDS as usize);
    assert!(rt; patch_of(rt, patches, 0).is_empty());
    let opened = open_patched::<I>(alloc, rows, 400, 400);
    let (table, mut editor, mut reader) = opened.expect(rt, "memory");
    let mut steps = Steps::<L>::start(blank);
    take_turns(
        rt,
        alloc,
        &table,
        &mut editor,
        &mut reader,
        patches,
        &mut steps,
    )
}

/// Before and after each of 200 edits the look of a section and the look at the tree answer alike
/// for every NSID, every group and every controller, give the same pages and logs, and admit alike.
/// All words are those of a fresh opening. A refused edit publishes nothing, with the target's errno, and a
/// command that is admitted in the section gets its answer from the target too.
#[test]
fn looks_in_sections_are_the_trees(rt: HostRuntime) -> Result<(), Fail> {
    let alloc = rt.alloc();
    let rows = opened(&rt, alloc);
    let patches = gathered(&rt, alloc, configured(&rt, alloc));
    let tally = run::<Brand, Brand>(&rt, alloc, rows, &patches, Blank::new(5));
    assert!(rt; tally.published > 40 && tally.refused > 40, "{tally:?}");
    assert!(rt; tally.held > 5, "{tally:?}");
    let edits = tally.accepted.wrapping_add(tally.refused);
    assert_eq!(rt; edits, EDITS, "{tally:?}");
    Ok(())
}
