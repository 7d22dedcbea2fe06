// The plan, the configuration and the script of a generated plan.
ghost use Rattle.std.specs.Prelude.{◌≡◌, ◌++◌, IfOk, OnOk};
ghost use Rattle.std.specs.List.{flat_map, range_with_len};
ghost use Rattle.gen_files.specs.Texts.{configuration_text, disk_lines, file_lines, named_line, plan_text, queue_line, queue_lines, round_trip, script_text};

use std::alloc::{AllocError, Global};

// Appends a line that names a file of the plan.
#[tactic(auto, unfolding(crate::specs::Texts::named_line))]
fn push_named(to: &mut Vec<u8>, before: &[u8], name: &[u8], after: &[u8]) -> Result<(), AllocError>
    ensures { OnOk result (to.new.items ≡ to.old.items
        ++ named_line before.now name.now after.now) }
{
    to.extend_from_slice(before)?;
    to.extend_from_slice(name)?;
    to.extend_from_slice(after)?;
    Ok(())
}

// Appends the line of a queue, by its digit.
#[tactic(auto, unfolding(crate::specs::Texts::queue_line))]
fn push_queue_line(to: &mut Vec<u8>, name: &[u8], digit: &[u8]) -> Result<(), AllocError>
    ensures { OnOk result (to.new.items ≡ to.old.items ++ queue_line name.now digit.now) }
{
    to.extend_from_slice(b"queue 1 ")?;
    to.extend_from_slice(name)?;
    to.extend_from_slice(b".q")?;
    to.extend_from_slice(digit)?;
    to.extend_from_slice(b" ")?;
    to.extend_from_slice(name)?;
    to.extend_from_slice(b".r")?;
    to.extend_from_slice(digit)?;
    to.extend_from_slice(b"\n")?;
    Ok(())
}

// Appends the lines of the four queues.
#[tactic(auto, unfolding(crate::specs::Texts::queue_lines))]
fn push_queue_lines(to: &mut Vec<u8>, name: &[u8]) -> Result<(), AllocError>
    ensures { OnOk result (to.new.items ≡ to.old.items ++ queue_lines name.now) }
{
    push_queue_line(to, name, b"1")?;
    push_queue_line(to, name, b"2")?;
    push_queue_line(to, name, b"3")?;
    push_queue_line(to, name, b"4")?;
    Ok(())
}

// Appends the lines of the configuration, the script and the journal.
#[tactic(auto, unfolding(crate::specs::Texts::file_lines))]
fn push_file_lines(to: &mut Vec<u8>, name: &[u8]) -> Result<(), AllocError>
    ensures { OnOk result (to.new.items ≡ to.old.items ++ file_lines name.now) }
{
    push_named(to, b"config ", name, b".json\n")?;
    push_named(to, b"script ", name, b".script\n")?;
    push_named(to, b"journal ", name, b".journal\n")?;
    Ok(())
}

// The lines of the disks, after the first line.
#[tactic(auto, unfolding(crate::specs::Texts::disk_lines))]
fn disk_lines() -> &'static [u8]
    ensures { result.now ≡ disk_lines }
{
    b"nvmet-plan 1\ndisk /dev/ram0 9 2048\ndisk /dev/ram1 12 256\n"
}

/// The plan: two disks, the other files, and four queues at port 1.
#[tactic(auto, unfolding(crate::specs::Texts::plan_text))]
pub fn plan_text(alloc: Global, name: &[u8]) -> Result<Vec<u8>, AllocError>
    ensures { IfOk result (λ v. v.items ≡ plan_text name.now) }
{
    let mut text = Vec::from_slice(alloc, disk_lines())?;
    push_file_lines(&mut text, name)?;
    push_queue_lines(&mut text, name)?;
    Ok(text)
}

#[tactic(auto, unfolding(crate::specs::Texts::configuration_text))]
fn configuration() -> &'static [u8]
    ensures { result.now ≡ configuration_text }
{
    b"{\"hosts\":[],\"ports\":[{\"addr\":{\"adrfam\":\"\",\"traddr\":\"\",\"treq\":\"not specified\",\"trsvcid\":\"\",\"trtype\":\"loop\"},\"ana_groups\":[{\"ana\":{\"state\":\"optimized\"},\"grpid\":1}],\"portid\":1,\"referrals\":[],\"subsystems\":[\"gen\"]}],\"subsystems\":[{\"allowed_hosts\":[],\"attr\":{\"allow_any_host\":\"1\",\"model\":\"Linux\",\"serial\":\"00000000000000000001\"},\"namespaces\":[{\"ana_grpid\":1,\"device\":{\"nguid\":\"00000000-0000-0000-0000-000000000000\",\"path\":\"/dev/ram0\",\"uuid\":\"00000000-0000-0000-0000-000000000000\"},\"enable\":1,\"nsid\":1},{\"ana_grpid\":1,\"device\":{\"nguid\":\"00000000-0000-0000-0000-000000000000\",\"path\":\"/dev/ram1\",\"uuid\":\"00000000-0000-0000-0000-000000000000\"},\"enable\":1,\"nsid\":2}],\"nqn\":\"gen\"}]}"
}

/// The configuration, as nvmetcli saves it.
pub fn configuration_text(alloc: Global) -> Result<Vec<u8>, AllocError>
    ensures { IfOk result (λ v. v.items ≡ configuration_text) }
{
    Vec::from_slice(alloc, configuration())
}

// The two lines that disable namespace 2 and enable it again.
#[tactic(auto, unfolding(crate::specs::Texts::round_trip))]
fn round_trip() -> &'static [u8]
    ensures { result.now ≡ round_trip }
{
    b"set subsystems/gen/namespaces/2 enable 0\nset subsystems/gen/namespaces/2 enable 1\n"
}

/// The script: namespace 2 is disabled and enabled again, eight times.
#[tactic(auto, unfolding(crate::specs::Texts::script_text))]
pub fn script_text(alloc: Global) -> Result<Vec<u8>, AllocError>
    ensures { IfOk result (λ v. v.items ≡ script_text) }
{
    let mut text = Vec::new(alloc);
    for _n in 0..8u32 {
        text.extend_from_slice(round_trip())?;
    }
    Ok(text)
}
