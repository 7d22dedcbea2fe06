use super::*;
use configfs_tree::FolderEdit;
use link_rules::{Edit, LinkEdit};
use script_lines::LineError;
use std::alloc::Global;
use std::test::Fail;

// The word of an edit.
fn word(edit: &Edit) -> &'static str {
    match edit {
        Edit::Folder(FolderEdit::Mkdir(_)) => "mkdir",
        Edit::Folder(FolderEdit::Rmdir(_)) => "rmdir",
        Edit::Folder(FolderEdit::Set(_, _, _)) => "set",
        Edit::Link(LinkEdit::AllowHost(_, _) | LinkEdit::LinkSubsystem(_, _)) => "link",
        Edit::Link(LinkEdit::DisallowHost(_, _) | LinkEdit::UnlinkSubsystem(_, _)) => "unlink",
    }
}

// What reading gives, as a text: `2 mkdir, ` for an edit, or the fault.
fn told(alloc: Global, script: &[u8]) -> Result<String, Fail> {
    let mut text = String::new(alloc);
    match read_script(alloc, script) {
        Ok(edits) => {
            for edit in edits.iter() {
                let word = word(&edit.edit);
                let line = edit.line;
                text.push_str(&format!(in alloc; "{line} {word}, ")?)?;
            }
        }
        Err(LineError::BadLine { line }) => text.push_str(&format!(in alloc; "bad {line}")?)?,
        Err(LineError::TooLong { what, count }) => {
            text.push_str(&format!(in alloc; "{} {count}", what.word())?)?
        }
        Err(LineError::Memory) => text.push_str("memory")?,
    }
    Ok(text)
}

const ROWS: &[(&[u8], &str)] = &[
    (b"", ""),
    (b"\n# mkdir\n\n", ""),
    (b"mkdir hosts/h", "1 mkdir, "),
    (
        b"#c\n\nmkdir hosts/h\nlink subsystems/s/allowed_hosts/h\nrmdir hosts/h\n",
        "3 mkdir, 4 link, 5 rmdir, ",
    ),
    (
        b"set subsystems/s attr_model a  b\nunlink ports/1/subsystems/s\n",
        "1 set, 2 unlink, ",
    ),
    // Line 5 has byte 1Fh, but line 3 says no edit.
    (
        b"mkdir hosts/h\n#\nmkdir host/h\nmkdir hosts/i\nmkdir \x1f\n",
        "bad 3",
    ),
    (b"mkdir hosts/h\n#\x1f\nmkdir \x1f\nmkdir host/h\n", "bad 3"),
    (b"mkdir hosts/h\n mkdir hosts/i\n", "bad 2"),
    (b"mkdir hosts/h\r\n", "bad 1"),
    (b"set ports/1 enable 1\n", "bad 1"),
];

#[test]
fn edits_and_their_lines(rt: HostRuntime) -> Result<(), Fail> {
    for (script, want) in ROWS {
        let told = told(rt.alloc(), script)?;
        assert_eq!(rt; told.as_str(), *want);
    }
    Ok(())
}

// So many lines `#`, then one with an edit and so many more bytes of its value.
const LIMITS: &[(usize, usize, &str)] = &[
    (0, 990, "1 set, "),
    (0, 991, "bad 1"),
    (65_535, 1, "65536 set, "),
    (65_535, 991, "bad 65536"),
    (65_536, 1, "lines 65537"),
    (65_536, 991, "lines 65537"),
];

#[test]
fn limits_at_both_sides(rt: HostRuntime) -> Result<(), Fail> {
    for (before, more, want) in LIMITS {
        let mut script = Vec::new(rt.alloc());
        for _ in 0..*before {
            script.extend_from_slice(b"#\n")?;
        }
        // These are 34 bytes.
        script.extend_from_slice(b"set subsystems/subsys1 attr_model ")?;
        script.extend_from_slice(&vec![in rt.alloc(); b'x'; *more]?)?;
        let told = told(rt.alloc(), &script)?;
        assert_eq!(rt; told.as_str(), *want);
    }
    Ok(())
}
