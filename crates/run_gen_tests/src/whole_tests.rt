// Generated plans with their files, run and checked.
use crate::generated::{answer, first_other};
use crate::numbers::{places, summary};
use crate::wanted::wanted_files;
use plan_files::MemFiles;
use std::alloc::Global;
use std::sync::Wait;
use std::test::Fail;
use std::thread::Threads;

const GENERATED: &[u8] =
    b"places 238\nedits 16 accepted 0 refused\ndrains 8\ncommands 104 submitted 84 executed 0 refused\nevents 1 answered 3 waiting\nbytes 43008 in 151552 out\nconfig 0 passed over\n";

#[test]
fn seven_rounds_have_these_numbers(rt: HostRuntime) -> Result<(), Fail> {
    let alloc = rt.alloc();
    let mut files = MemFiles::new(alloc, Vec::new(alloc));
    let (status, out) = answer(&rt, alloc, &["gen", "7", "g"], &mut files)?;
    assert_eq!(rt; status, 0);
    assert_eq!(rt; out.bytes(), GENERATED);
    assert_eq!(rt; files.count(), 7);
    assert_eq!(rt; files.content("g.q1").map(|bytes| bytes.len()), Some(2432));
    assert_eq!(rt; files.content("g.q2").map(|bytes| bytes.len()), Some(17216));
    let (status, out) = answer(&rt, alloc, &["run", "g.plan"], &mut files)?;
    assert_eq!(rt; status, 0);
    assert_eq!(rt; out.bytes(), GENERATED);
    let (status, out) = answer(&rt, alloc, &["check", "g.plan"], &mut files)?;
    assert_eq!(rt; status, 0);
    assert_eq!(rt; out.bytes(), b"legal 238\n".as_slice());
    // The seven files, four of responses and the journal.
    assert_eq!(rt; files.count(), 12);
    Ok(())
}

// What isn't as wanted of a plan of so many rounds: how it is generated, run and checked, with the
// texts and the files; nothing where all is.
fn differs<R: Wait + Threads + Sync>(
    rt: &R,
    alloc: Global,
    rounds: u16,
    name: &str,
) -> Result<&'static str, Fail> {
    let mut files = MemFiles::new(alloc, Vec::new(alloc));
    let number = format!(in alloc; "{rounds}")?;
    let wanted = wanted_files(alloc, rounds, name)?;
    let summary = summary(alloc, rounds)?;
    let (status, out) = answer(rt, alloc, &["gen", number.as_str(), name], &mut files)?;
    if status != 0 || out.bytes() != summary.as_bytes() {
        return Ok("the summary of gen");
    }
    let other = first_other(alloc, &files, name, &wanted)?;
    if other != "" || files.count() != 7 {
        return Ok(other);
    }
    let plan = format!(in alloc; "{name}.plan")?;
    let (status, out) = answer(rt, alloc, &["run", plan.as_str()], &mut files)?;
    if status != 0 || out.bytes() != summary.as_bytes() {
        return Ok("the summary of run");
    }
    let legal = format!(in alloc; "legal {}\n", places(rounds))?;
    let (status, out) = answer(rt, alloc, &["check", plan.as_str()], &mut files)?;
    if status != 0 || out.bytes() != legal.as_bytes() {
        return Ok("the line of check");
    }
    first_other(alloc, &files, name, &wanted)
}

// The data of a Write begin again at 0 after 256 bytes, and the blocks of a disk after 256 or 2,048
// of them.
#[test]
fn each_number_of_rounds_has_its_files_and_its_run(rt: HostRuntime) -> Result<(), Fail> {
    for rounds in [1, 2, 3, 17, 255, 256] {
        let differs = differs(&rt, rt.alloc(), rounds, "g")?;
        assert_eq!(rt; differs, "", "{rounds} rounds");
    }
    Ok(())
}

#[test]
fn names_begin_with_what_was_given(rt: HostRuntime) -> Result<(), Fail> {
    let mut long = String::new(rt.alloc());
    for _ in 0..100 {
        long.push_str("a/")?;
    }
    for name in [
        "g",
        "!",
        "~",
        "#",
        "a-b",
        "dir/g.plan",
        "\"q\"",
        long.as_str(),
    ] {
        let differs = differs(&rt, rt.alloc(), 2, name)?;
        assert_eq!(rt; differs, "", "the name {name}");
    }
    Ok(())
}

#[test]
fn the_largest_number_of_rounds(rt: HostRuntime) -> Result<(), Fail> {
    let alloc = rt.alloc();
    let mut files = MemFiles::new(alloc, Vec::new(alloc));
    let (status, out) = answer(&rt, alloc, &["gen", "4096", "g"], &mut files)?;
    assert_eq!(rt; status, 0);
    assert_eq!(rt;
        out.bytes(),
        b"places 98374\nedits 16 accepted 0 refused\ndrains 8\ncommands 49172 submitted 49152 executed 0 refused\nevents 1 answered 3 waiting\nbytes 28311552 in 56688640 out\nconfig 0 passed over\n".as_slice()
    );
    assert_eq!(rt; summary(alloc, 4096)?.as_bytes(), out.bytes());
    let wanted = wanted_files(alloc, 4096, "g")?;
    assert_eq!(rt; first_other(alloc, &files, "g", &wanted)?, "");
    assert_eq!(rt;
        files.content("g.q4").map(|bytes| bytes.len()),
        Some(10_486_848)
    );
    Ok(())
}

// Numbers and names that aren't those of a generated plan: no file is written.
#[test]
fn no_other_number_or_name_is_taken(rt: HostRuntime) -> Result<(), Fail> {
    let alloc = rt.alloc();
    let mut files = MemFiles::new(alloc, Vec::new(alloc));
    let mut long = String::new(alloc);
    for _ in 0..201 {
        long.push_str("n")?;
    }
    let rows = [
        ("0", "g"),
        ("00", "g"),
        ("07", "g"),
        ("+7", "g"),
        ("-7", "g"),
        ("4097", "g"),
        ("18446744073709551617", "g"),
        ("7 ", "g"),
        ("7h", "g"),
        ("", "g"),
        ("7", ""),
        ("7", "-g"),
        ("7", "g g"),
        ("7", "g\n"),
        ("7", "\u{e9}"),
        ("7", long.as_str()),
    ];
    for (number, name) in rows {
        let (status, out) = answer(&rt, alloc, &["gen", number, name], &mut files)?;
        assert_eq!(rt; status, 1, "gen {number} {name}");
        assert!(rt; out.bytes().starts_with(b"usage: nvmetd "));
    }
    assert_eq!(rt; files.count(), 0);
    Ok(())
}
