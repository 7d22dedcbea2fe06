use super::*;
use std::alloc::Global;
use std::test::Fail;

// What reading gives, as a text: `2[mkdir][hosts/h] ` for a line, or its fault.
fn told(alloc: Global, script: &[u8]) -> Result<String, Fail> {
    let mut text = String::new(alloc);
    match read_lines(alloc, script) {
        Ok(lines) => {
            for line in lines.iter() {
                text.push_str(&format!(in alloc; "{}", line.number)?)?;
                for word in line.words.as_slice() {
                    let word = word.as_text().unwrap_or("?");
                    text.push_str(&format!(in alloc; "[{word}]")?)?;
                }
                text.push_str(" ")?;
            }
        }
        Err(LineError::BadLine { line }) => text.push_str(&format!(in alloc; "bad {line}")?)?,
        Err(LineError::TooLong { what, count }) => {
            text.push_str(&format!(in alloc; "{} {count}", what.word())?)?
        }
        Err(LineError::Memory) => text.push_str("memory")?,
    }
    Ok(text)
}

const ROWS: &[(&[u8], &str)] = &[
    (b"", ""),
    (b"\n\n#\n# set\n", ""),
    (b"mkdir hosts/h", "1[mkdir][hosts/h] "),
    (
        b"#c\n\nmkdir hosts/h\nrmdir hosts/h\n",
        "3[mkdir][hosts/h] 4[rmdir][hosts/h] ",
    ),
    (b"set f a v\n", "1[set][f][a][v] "),
    (b"set f a  v  w \n", "1[set][f][a][ v  w ] "),
    (b"set f a \n", "1[set][f][a][] "),
    (b"set f a\n", "1[set][f][a][] "),
    (b"set f \n", "1[set][f][][] "),
    (b"set f\n", "1[set][f] "),
    (b"set\n", "1[set] "),
    (b"sets f a v w\n", "1[sets][f][a][v][w] "),
    (b" #x  y \n", "1[][#x][][y][] "),
    (b"~ !\n", "1[~][!] "),
    (b"a\n\x1f\nb\x7f\n", "bad 2"),
    (b"a\n#\x1f\nb\x7f\n", "bad 3"),
    (b"a\r\n", "bad 1"),
    (b"\xc3\xa4", "bad 1"),
];

#[test]
fn lines_and_their_words(rt: HostRuntime) -> Result<(), Fail> {
    for (script, want) in ROWS {
        let told = told(rt.alloc(), script)?;
        assert_eq!(rt; told.as_str(), *want);
    }
    Ok(())
}

// So many lines of one byte before the last, so many bytes in the last, and what reading gives, as far as it is a fault.
const LIMITS: &[(usize, usize, &str)] = &[
    (0, 1_024, ""),
    (0, 1_025, "bad 1"),
    (2, 1_025, "bad 3"),
    (65_535, 1, ""),
    (65_536, 0, ""),
    (65_535, 1_025, "bad 65536"),
    (65_536, 1, "lines 65537"),
    (65_536, 1_025, "lines 65537"),
];

#[test]
fn limits_at_both_sides(rt: HostRuntime) -> Result<(), Fail> {
    for (before, last, want) in LIMITS {
        let mut script = Vec::new(rt.alloc());
        for _ in 0..*before {
            script.extend_from_slice(b"#\n")?;
        }
        script.extend_from_slice(&vec![in rt.alloc(); b'x'; *last]?)?;
        let told = told(rt.alloc(), &script)?;
        assert_eq!(rt;
            told.starts_with(*want),
            true,
            "{before} lines, {last} bytes"
        );
        let is_fault = told.starts_with("bad") || told.starts_with("lines");
        assert_eq!(rt; is_fault, !want.is_empty(), "{before} lines, {last} bytes");
    }
    Ok(())
}

#[test]
fn errors_in_print(rt: HostRuntime) -> Result<(), Fail> {
    let alloc = rt.alloc();
    let bad = format!(in alloc; "{}", LineError::BadLine { line: 3 })?;
    assert!(rt; bad.as_str() == "line 3 is bad");
    let memory = format!(in alloc; "{}", LineError::Memory)?;
    assert!(rt; memory.as_str() == "out of memory");
    Ok(())
}
