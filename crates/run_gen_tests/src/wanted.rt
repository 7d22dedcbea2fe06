// The seven files of a generated plan, made from the format field by field.
use std::alloc::Global;
use std::test::Fail;

/// The endings of the files' names, in the order of writing.
pub const ENDINGS: [&str; 7] = [".plan", ".json", ".script", ".q1", ".q2", ".q3", ".q4"];

const CONFIGURATION: &str =
    "{\"hosts\":[],\"ports\":[{\"addr\":{\"adrfam\":\"\",\"traddr\":\"\",\"treq\":\"not specified\",\"trsvcid\":\"\",\"trtype\":\"loop\"},\"ana_groups\":[{\"ana\":{\"state\":\"optimized\"},\"grpid\":1}],\"portid\":1,\"referrals\":[],\"subsystems\":[\"gen\"]}],\"subsystems\":[{\"allowed_hosts\":[],\"attr\":{\"allow_any_host\":\"1\",\"model\":\"Linux\",\"serial\":\"00000000000000000001\"},\"namespaces\":[{\"ana_grpid\":1,\"device\":{\"nguid\":\"00000000-0000-0000-0000-000000000000\",\"path\":\"/dev/ram0\",\"uuid\":\"00000000-0000-0000-0000-000000000000\"},\"enable\":1,\"nsid\":1},{\"ana_grpid\":1,\"device\":{\"nguid\":\"00000000-0000-0000-0000-000000000000\",\"path\":\"/dev/ram1\",\"uuid\":\"00000000-0000-0000-0000-000000000000\"},\"enable\":1,\"nsid\":2}],\"nqn\":\"gen\"}]}";

fn plan(alloc: Global, name: &str) -> Result<Vec<u8>, Fail> {
    let mut text = format!(in alloc;
        "nvmet-plan 1\ndisk /dev/ram0 9 2048\ndisk /dev/ram1 12 256\n"
    )?;
    for (word, ending) in [
        ("config", "json"),
        ("script", "script"),
        ("journal", "journal"),
    ] {
        let line = format!(in alloc; "{word} {name}.{ending}\n")?;
        text.push_str(line.as_str())?;
    }
    for q in 1..=4 {
        let line = format!(in alloc; "queue 1 {name}.q{q} {name}.r{q}\n")?;
        text.push_str(line.as_str())?;
    }
    Ok(text.into_bytes())
}

fn script(alloc: Global) -> Result<Vec<u8>, Fail> {
    let mut text = String::new(alloc);
    for _ in 0..8 {
        for value in ["0", "1"] {
            text.push_str("set subsystems/gen/namespaces/2 enable ")?;
            text.push_str(value)?;
            text.push_str("\n")?;
        }
    }
    Ok(text.into_bytes())
}

// Appends an entry with flags 40h: its opcode, command identifier and NSID field, the length of its
// SGL and its dwords 10, 11 and 12. All else is 0.
fn put_entry(
    to: &mut Vec<u8>,
    opcode: u8,
    cid: u16,
    nsid: u32,
    length: u32,
    dwords: [u32; 3],
) -> Result<(), Fail> {
    to.extend_from_slice(&[opcode, 0x40])?;
    to.extend_from_slice(&cid.to_le_bytes())?;
    to.extend_from_slice(&nsid.to_le_bytes())?;
    to.extend_from_slice(&[0; 24])?;
    to.extend_from_slice(&length.to_le_bytes())?;
    to.extend_from_slice(&[0; 4])?;
    for dword in dwords {
        to.extend_from_slice(&dword.to_le_bytes())?;
    }
    to.extend_from_slice(&[0; 12])?;
    Ok(())
}

// Appends a name and zeros behind it, 256 bytes in all.
fn put_name(to: &mut Vec<u8>, name: &[u8]) -> Result<(), Fail> {
    to.extend_from_slice(name)?;
    for _ in name.len()..256 {
        to.push(0)?;
    }
    Ok(())
}

// Appends a Connect of this queue identifier and size, with the controller of its data.
fn put_connect(to: &mut Vec<u8>, qid: u16, size: u32, cntlid: u16) -> Result<(), Fail> {
    put_entry(to, 0x7f, 0, 1, 1024, [u32::from(qid) << 16, size, 0])?;
    to.extend_from_slice(&[0; 16])?;
    to.extend_from_slice(&cntlid.to_le_bytes())?;
    to.extend_from_slice(&[0; 238])?;
    put_name(to, b"gen")?;
    put_name(to, b"hostnqn")?;
    put_name(to, b"")?;
    Ok(())
}

fn admin_queue(alloc: Global) -> Result<Vec<u8>, Fail> {
    let mut bytes = Vec::new(alloc);
    put_connect(&mut bytes, 0, 31, 0xffff)?;
    put_entry(&mut bytes, 0x7f, 1, 0, 0, [0, 0x14, 0x0046_0001])?;
    for cid in 2..6 {
        put_entry(&mut bytes, 0x0c, cid, 0, 0, [0; 3])?;
    }
    for cid in 6..22 {
        put_entry(&mut bytes, 0x02, cid, 0, 4096, [0x03ff_0004, 0, 0])?;
    }
    Ok(bytes)
}

// The drawn number after this one.
fn next_draw(x: u64) -> u64 {
    (x.wrapping_mul(1_103_515_245)).wrapping_add(12_345) % 0x8000_0000
}

// The files of the three I/O queues, one after another.
fn io_queues(alloc: Global, rounds: u16) -> Result<Vec<Vec<u8>>, Fail> {
    let mut files = Vec::new(alloc);
    let mut x = u64::from(rounds);
    for qid in 1..4 {
        let mut bytes = Vec::new(alloc);
        put_connect(&mut bytes, qid, 127, 1)?;
        for k in 0..rounds.saturating_mul(4) {
            x = next_draw(x);
            put_command(&mut bytes, k, x / 256)?;
        }
        files.push(bytes)?;
    }
    Ok(files)
}

// Appends command k, at the block of the drawn number modulo the disk's blocks: two Reads, a Write
// and a Write Zeroes of namespace 1, then as many of namespace 2.
fn put_command(to: &mut Vec<u8>, k: u16, drawn: u64) -> Result<(), Fail> {
    let cid = k.saturating_add(1);
    let (nsid, block, slba) = match k % 8 {
        0..4 => (1, 512, drawn % 2048),
        _ => (2, 4096, drawn % 256),
    };
    let slba = u32::try_from(slba).unwrap_or(0);
    match k % 4 {
        0 | 1 => put_entry(to, 0x02, cid, nsid, block, [slba, 0, 0]),
        2 => {
            put_entry(to, 0x01, cid, nsid, block, [slba, 0, 0])?;
            let [mut byte, _] = k.to_le_bytes();
            for _ in 0..block {
                to.push(byte)?;
                byte = byte.wrapping_add(1);
            }
            Ok(())
        }
        _ => put_entry(to, 0x08, cid, nsid, 0, [slba, 0, 0]),
    }
}

/// The contents of the seven files, in the order of writing.
pub fn wanted_files(alloc: Global, rounds: u16, name: &str) -> Result<Vec<Vec<u8>>, Fail> {
    let mut files = Vec::new(alloc);
    files.push(plan(alloc, name)?)?;
    files.push(Vec::from_slice(alloc, CONFIGURATION.as_bytes())?)?;
    files.push(script(alloc)?)?;
    files.push(admin_queue(alloc)?)?;
    for file in io_queues(alloc, rounds)? {
        files.push(file)?;
    }
    Ok(files)
}
