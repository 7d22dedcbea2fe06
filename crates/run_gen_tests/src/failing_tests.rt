// Names that exist already, and files and sinks that fail.
use crate::generated::{answer, answer_within, first_other};
use crate::numbers::summary;
use crate::wanted::{ENDINGS, wanted_files};
use plan_files::{MemFiles, MemSink};
use std::alloc::Global;
use std::test::Fail;

const GEN: &[&str] = &["gen", "3", "g"];

// Files where each name that is written, and some others, hold something already; these calls fail.
fn old_files(alloc: Global, fails: &[u64]) -> Result<MemFiles, Fail> {
    let mut files = MemFiles::new(alloc, Vec::from_slice(alloc, fails)?);
    for ending in ENDINGS.iter().chain([".journal", ".r1", ""].iter()) {
        let name = format!(in alloc; "g{ending}")?;
        files.put(name.as_str(), b"old")?;
    }
    Ok(files)
}

// Whether the other names hold what they held, and none is new.
fn are_others_kept(files: &MemFiles) -> bool {
    files.count() == 10
        && files.content("g.journal") == Some(b"old".as_slice())
        && files.content("g.r1") == Some(b"old".as_slice())
        && files.content("g") == Some(b"old".as_slice())
}

// How many of the files hold what is wanted of them, before the first that doesn't, where this one
// and all later ones hold what they held.
fn written_before_old(
    alloc: Global,
    files: &MemFiles,
    wanted: &[Vec<u8>],
) -> Result<Option<usize>, Fail> {
    let mut written: usize = 0;
    let mut ended = false;
    for (ending, bytes) in ENDINGS.iter().zip(wanted) {
        let name = format!(in alloc; "g{ending}")?;
        let content = files.content(name.as_str());
        if content == Some(bytes.as_slice()) && !ended {
            written = written.saturating_add(1);
        } else if content == Some(b"old".as_slice()) {
            ended = true;
        } else {
            return Ok(None);
        }
    }
    Ok(Some(written))
}

// What a name holds already is no matter: it is replaced whole. The same is written each time.
#[test]
fn the_same_files_are_written_over_what_is_there(rt: HostRuntime) -> Result<(), Fail> {
    let alloc = rt.alloc();
    let wanted = wanted_files(alloc, 3, "g")?;
    let mut files = old_files(alloc, &[])?;
    for time in ["first", "second"] {
        let (status, out) = answer(&rt, alloc, GEN, &mut files)?;
        assert_eq!(rt; status, 0, "{time}");
        assert_eq!(rt; out.bytes(), summary(alloc, 3)?.as_bytes(), "{time}");
        assert_eq!(rt; first_other(alloc, &files, "g", &wanted)?, "", "{time}");
        assert!(rt; are_others_kept(&files), "{time}");
    }
    // A larger plan, and then the smaller one again, of which nothing longer is left.
    let (status, _) = answer(&rt, alloc, &["gen", "9", "g"], &mut files)?;
    assert_eq!(rt; status, 0);
    let (status, _) = answer(&rt, alloc, GEN, &mut files)?;
    assert_eq!(rt; status, 0);
    assert_eq!(rt; first_other(alloc, &files, "g", &wanted)?, "");
    Ok(())
}

// The files are written in their order, one call each, and nothing is read: where one call fails, the
// files before hold their bytes, and it and the later ones what they held.
#[test]
fn a_write_that_fails_is_the_last_call(rt: HostRuntime) -> Result<(), Fail> {
    let alloc = rt.alloc();
    let wanted = wanted_files(alloc, 3, "g")?;
    for (number, ending) in ENDINGS.iter().enumerate() {
        let mut files = old_files(alloc, &[number as u64])?;
        let (status, out) = answer(&rt, alloc, GEN, &mut files)?;
        assert_eq!(rt; status, 4, "{ending}");
        let line = format!(in alloc; "cannot write g{ending}\n")?;
        assert_eq!(rt; out.bytes(), line.as_bytes());
        let written = written_before_old(alloc, &files, &wanted)?;
        assert_eq!(rt; written, Some(number), "{ending}");
        assert!(rt; are_others_kept(&files), "{ending}");
    }
    Ok(())
}

// The same where no name was there: those after the fault aren't made.
#[test]
fn no_name_is_made_after_a_write_that_fails(rt: HostRuntime) -> Result<(), Fail> {
    let alloc = rt.alloc();
    for (number, ending) in ENDINGS.iter().enumerate() {
        let mut files = MemFiles::new(alloc, vec![in alloc; number as u64]?);
        let (status, _) = answer(&rt, alloc, GEN, &mut files)?;
        assert_eq!(rt; (status, files.count()), (4, number), "{ending}");
    }
    let mut files = MemFiles::new(alloc, vec![in alloc; 7]?);
    let (status, _) = answer(&rt, alloc, GEN, &mut files)?;
    assert_eq!(rt; (status, files.count()), (0, 7));
    Ok(())
}

// A sink that fails at the first byte of the summary, at every 19th and at the last: that is a fault
// of its own, and the files are written all the same.
#[test]
fn a_sink_that_fails_leaves_the_files_written(rt: HostRuntime) -> Result<(), Fail> {
    let alloc = rt.alloc();
    let wanted = wanted_files(alloc, 3, "g")?;
    let text = summary(alloc, 3)?;
    let bytes = text.as_bytes();
    for room in 0..bytes.len() {
        if room % 19 == 0 || room + 1 == bytes.len() {
            let mut files = old_files(alloc, &[])?;
            let (status, out) = answer_within(&rt, alloc, GEN, &mut files, room)?;
            assert_eq!(rt; status, 4, "room {room}");
            assert_eq!(rt; out.bytes(), &bytes[..room]);
            assert_eq!(rt;
                first_other(alloc, &files, "g", &wanted)?,
                "",
                "room {room}"
            );
            assert!(rt; are_others_kept(&files), "room {room}");
        }
    }
    Ok(())
}

// A sink that fails at each byte of another line changes no status.
#[test]
fn a_sink_that_fails_under_a_fault_changes_no_status(rt: HostRuntime) -> Result<(), Fail> {
    let alloc = rt.alloc();
    let mut front = Vec::new(alloc);
    for (room, byte) in b"cannot write g.script\n".iter().enumerate() {
        let mut files = old_files(alloc, &[2])?;
        let (status, out) = answer_within(&rt, alloc, GEN, &mut files, room)?;
        assert_eq!(rt; status, 4, "room {room}");
        assert_eq!(rt; out.bytes(), front.as_slice());
        front.push(*byte)?;
    }
    Ok(())
}

// With ample memory a plan is generated. With an allocation refused the line says so, and the files
// before the one that there was no memory for are written.
#[test]
fn a_generation_with_refused_memory(rt: HostRuntime) -> Result<(), Fail> {
    let alloc = rt.alloc();
    let mut files = MemFiles::new(alloc, Vec::new(alloc));
    let Ok(mut out) = MemSink::new(alloc, 4096, Vec::new(alloc)) else {
        return Ok(());
    };
    let Ok(name) = mem_bdev::Name::copied(alloc, b"g") else {
        return Ok(());
    };
    let Some(seed) = gen_files::Seed::new(3, name) else {
        return Err(Fail::from("a seed"));
    };
    let answer = run_gen::generate(alloc, &seed, &mut files, &mut out);
    if answer.is_ok() {
        assert_eq!(rt; files.count(), 7);
        return Ok(());
    }
    assert!(rt; matches!(answer, Err(run_outcomes::Fault::Memory)));
    assert_eq!(rt; out.bytes(), b"out of memory\n".as_slice());
    assert!(rt; files.count() < 7);
    Ok(())
}
