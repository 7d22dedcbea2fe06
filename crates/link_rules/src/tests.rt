// The table of edits on links, and what lines of scripts say, by scripts written as data.
use crate::test_rows::*;
use crate::*;
use configfs_tree::{Refused, Tree, may_be_disks};
use lists::items::Items;
use mem_bdev::{DiskLine, Name};
use script_lines::{Line, read_lines};
use std::alloc::Global;
use std::process::Abort;

// What comes of a line.
fn told_of(rt: &impl Abort, alloc: Global, tree: &mut Tree, line: &Line) -> &'static str {
    let Some(e) = read_edit(alloc, line).expect(rt, "memory") else {
        return "no edit";
    };
    match apply(alloc, tree, &e) {
        Ok(_) => "ok",
        Err(Refused::Memory) => "memory",
        Err(Refused::Errno(errno)) => errno.name(),
    }
}

// What comes of a script of one line.
fn told(rt: &impl Abort, alloc: Global, tree: &mut Tree, script: &str) -> &'static str {
    let Ok(lines) = read_lines(alloc, script.as_bytes()) else {
        return "no line";
    };
    match lines.as_slice() {
        [line] => told_of(rt, alloc, tree, line),
        _ => "no line",
    }
}

fn run(rt: &impl Abort, alloc: Global, tree: &mut Tree, rows: &[Row]) {
    for (i, row) in rows.iter().enumerate() {
        let answer = told(rt, alloc, tree, row.0);
        assert!(rt; answer == row.1, "row {i}: {answer}");
    }
}

// The empty tree over one disk.
fn start(rt: &impl Abort, alloc: Global) -> Tree {
    let lines = [DiskLine {
        path: Name::copied(alloc, b"/dev/ram0").expect(rt, "memory"),
        shift: 9,
        blocks: 16,
    }];
    assert!(rt; may_be_disks(&lines));
    Tree::new(alloc, &lines).expect(rt, "memory")
}

#[test]
fn links_by_the_table(rt: HostRuntime) {
    let alloc = rt.alloc();
    let mut tree = start(&rt, alloc);
    run(&rt, alloc, &mut tree, HOSTS);
    let sub = tree.subsystem_at(b"s").expect(&rt, "there");
    assert!(rt; admits_host(&tree, sub, b"h") && !admits_host(&tree, sub, b"g"));
    run(&rt, alloc, &mut tree, PORTS);
    let port = tree.port_at(1).expect(&rt, "there");
    assert!(rt; serves(&tree, port, sub));
    run(&rt, alloc, &mut tree, UNLINKED);
    assert!(rt; !admits_host(&tree, sub, b"h") && !serves(&tree, port, sub));
    run(&rt, alloc, &mut tree, FOLDERS);
}

#[test]
fn lines_that_are_no_edit(rt: HostRuntime) {
    let alloc = rt.alloc();
    let mut tree = start(&rt, alloc);
    for line in NO_EDITS {
        let answer = told(&rt, alloc, &mut tree, line);
        assert!(rt; answer == "no edit", "{line}: {answer}");
    }
}

// The line that makes the host of so many letters.
fn host_line(rt: &impl Abort, alloc: Global, letters: usize) -> Line {
    let mut path = Vec::from_slice(alloc, b"hosts/").expect(rt, "memory");
    for _ in 0..letters {
        assert!(rt; path.push(b'a').is_ok(), "memory");
    }
    let mut words = Vec::new(alloc);
    let verb = Name::copied(alloc, b"mkdir").expect(rt, "memory");
    assert!(rt; words.push(verb).is_ok(), "memory");
    assert!(rt; words.push(Name::from_vec(path)).is_ok(), "memory");
    Line {
        number: 1,
        words: Items::from_vec(words),
    }
}

#[test]
fn names_at_their_longest(rt: HostRuntime) {
    let alloc = rt.alloc();
    let mut tree = start(&rt, alloc);
    let most = host_line(&rt, alloc, 223);
    assert!(rt; told_of(&rt, alloc, &mut tree, &most) == "ok");
    let more = host_line(&rt, alloc, 224);
    assert!(rt; told_of(&rt, alloc, &mut tree, &more) == "no edit");
}
