// Generated files against sizes and bytes worked out from the formats.
use crate::*;
use mem_bdev::Name;
use std::alloc::Global;
use std::process::Abort;
use std::test::Fail;

fn seed(rt: &impl Abort, alloc: Global, rounds: u32, name: &str) -> Option<Seed> {
    let name = Name::copied(alloc, name.as_bytes()).expect(rt, "memory");
    Seed::new(rounds, name)
}

#[test]
fn seven_files_of_these_sizes(rt: HostRuntime) -> Result<(), Fail> {
    let seed = seed(&rt, rt.alloc(), 7, "g").expect(&rt, "a seed");
    let files = make_files(rt.alloc(), &seed)?;
    let wanted = [
        (0, "g.plan", 177),
        (1, "g.json", 670),
        (2, "g.script", 656),
        (4, "g.q1", 2_432),
        (6, "g.q2", 17_216),
        (8, "g.q3", 17_216),
        (10, "g.q4", 17_216),
    ];
    assert_eq!(rt; files.len(), wanted.len());
    for (file, (number, name, size)) in files.iter().zip(&wanted) {
        assert_eq!(rt; file.number, *number);
        assert_eq!(rt; file.name.as_text(), Some(*name));
        assert_eq!(rt; file.bytes.len(), *size, "{name}");
    }
    Ok(())
}

#[test]
fn a_plan_is_a_text(rt: HostRuntime) -> Result<(), Fail> {
    let text = plan_text(rt.alloc(), b"big")?;
    let wanted = "nvmet-plan 1\ndisk /dev/ram0 9 2048\ndisk /dev/ram1 12 256\n\
        config big.json\nscript big.script\njournal big.journal\n\
        queue 1 big.q1 big.r1\nqueue 1 big.q2 big.r2\nqueue 1 big.q3 big.r3\n\
        queue 1 big.q4 big.r4\n";
    assert_eq!(rt; text.as_slice(), wanted.as_bytes());
    Ok(())
}
