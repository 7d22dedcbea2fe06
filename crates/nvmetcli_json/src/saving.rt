// From a tree to the text of its configuration.
ghost use Rattle.std.specs.Prelude.{◌≡◌, ◌<◌, ℕ, true, Ok, IfOk, IfSome, IsTrue, IsUtf8, string_bytes, option_copied, map};
ghost use Rattle.std.specs.List.{list_all};
ghost use Rattle.std.specs.FinMap as maps;
ghost use Rattle.uuid.specs.Text.{hyphenated_text, lower};
ghost use Rattle.configfs_rows.specs.Values.{is_text};
ghost use Rattle.sqe_cqe.specs.Anas.{ana_text};
ghost use Rattle.serde_json.specs.Data.{string, null, array};
ghost use Rattle.serde_json.specs.View.{view, items_of};
ghost use Rattle.nvmetcli_json.specs.Counting.{passed_over};
ghost use Rattle.nvmetcli_json.specs.Loading.{IsJson, edits_in};
ghost use Rattle.nvmetcli_json.specs.Written.{has_short_id, tree_written};
ghost use Rattle.nvmetcli_json.specs.Saving.{flag_text, uuid_data, host_data, set_is_text, device_data, namespace_data, namespaces_are_text, attributes_data, names_data, namespaces_data, subsystem_data, group_data, groups_data, if_set, addresses_data, port_data, tree_data, list_of, saved, subsystem_is_text, port_is_text};

use configfs_tree::{
    Groups, Names, NamespaceRow, Namespaces, Nqn, PortRow, Ports, SubsystemRow, Subsystems, Tree,
};
use serde_json::{Value, json};
use sqe_cqe::Ana;
use std::alloc::{AllocError, Global};
use uuid::Uuid;

// A text of printable bytes as a value.
fn text(alloc: Global, bytes: &[u8]) -> Result<Value, AllocError>
    requires { IsTrue (is_text bytes.now) }
    ensures { IfOk result (λ v. view v ≡ string bytes.now) }
{
    match str::from_utf8(bytes) {
        Ok(text) => Value::try_from_str(alloc, text),
        Err(_) => unreachable!(),
    }
}

fn flag_value(alloc: Global, flag: bool) -> Result<Value, AllocError>
    ensures { IfOk result (λ v. view v ≡ string (flag_text flag)) }
{
    if flag {
        return Value::try_from_str(alloc, "1");
    }
    Value::try_from_str(alloc, "0")
}

fn uuid_value(alloc: Global, bytes: [u8; 16]) -> Result<Value, AllocError>
    ensures { IfOk result (λ v. view v ≡ uuid_data bytes) }
{
    let mut buffer = Uuid::encode_buffer();
    let text = Uuid::from_bytes(bytes)
        .hyphenated()
        .encode_lower(&mut buffer);
    Value::try_from_str(alloc, text)
}

// An NQN.
fn name(alloc: Global, nqn: &Nqn) -> Result<Value, AllocError>
    ensures { IfOk result (λ v. view v ≡ string nqn.now) }
{
    nqn.certify();
    text(alloc, nqn.as_bytes())
}

// A host.
#[tactic(auto, unfolding(crate::specs::Saving::host_data))]
fn host(alloc: Global, nqn: &Nqn) -> Result<Value, AllocError>
    ensures { IfOk result (λ v. view v ≡ host_data nqn.now) }
{
    let nqn = name(alloc, nqn)?;
    json!(in alloc; {"nqn": nqn})
}

// The device of a namespace.
#[tactic(auto, unfolding(crate::specs::Saving::device_data))]
fn device(alloc: Global, row: &NamespaceRow) -> Result<Value, AllocError>
    requires { IsTrue (set_is_text row.now.device_path) }
    ensures { IfOk result (λ v. view v ≡ device_data row.now) }
{
    let nguid = uuid_value(alloc, row.nguid)?;
    let uuid = uuid_value(alloc, row.uuid)?;
    match &row.device_path {
        None => json!(in alloc; {"nguid": nguid, "uuid": uuid}),
        Some(path) => {
            let path = text(alloc, path.as_bytes())?;
            json!(in alloc; {"nguid": nguid, "path": path, "uuid": uuid})
        }
    }
}

// A namespace.
#[tactic(auto, unfolding(crate::specs::Saving::namespace_data))]
fn namespace(alloc: Global, nsid: u32, row: &NamespaceRow) -> Result<Value, AllocError>
    requires { IsTrue (set_is_text row.now.device_path) }
    ensures { IfOk result (λ v. view v ≡ namespace_data nsid row.now) }
{
    let device = device(alloc, row)?;
    let enable = if row.enabled { 1u8 } else { 0u8 };
    json!(in alloc; {"ana_grpid": (row.group), "device": device, "enable": enable, "nsid": nsid})
}

// The namespaces of a subsystem.
#[tactic(auto, unfolding(crate::specs::Saving::namespaces_data, crate::specs::Saving::namespaces_are_text))]
fn namespaces(alloc: Global, rows: &Namespaces) -> Result<Value, AllocError>
    requires { namespaces_are_text rows.now ≡ true }
    ensures { IfOk result (λ v. view v ≡ namespaces_data rows.now) }
{
    let mut shown = Vec::new(alloc);
    for (nsid, row) in rows.entries() {
        let value = namespace(alloc, *nsid, row)?;
        shown.push(value)?;
    }
    Ok(Value::Array(shown))
}

// Names of links.
#[tactic(auto, unfolding(crate::specs::Saving::names_data))]
fn names(alloc: Global, rows: &Names) -> Result<Value, AllocError>
    ensures { IfOk result (λ v. view v ≡ names_data rows.now) }
{
    let mut shown = Vec::new(alloc);
    for nqn in rows.iter() {
        let value = name(alloc, nqn)?;
        shown.push(value)?;
    }
    Ok(Value::Array(shown))
}

// The attributes of a subsystem.
#[tactic(auto, unfolding(crate::specs::Saving::attributes_data))]
fn attributes(alloc: Global, row: &SubsystemRow) -> Result<Value, AllocError>
    requires serial { IsTrue (is_text row.now.serial) }
    requires model { IsTrue (is_text row.now.model_name) }
    ensures { IfOk result (λ v. view v ≡ attributes_data row.now) }
{
    let any = flag_value(alloc, row.allow_any_host)?;
    let model = text(alloc, row.model_name.as_bytes())?;
    let serial = text(alloc, row.serial.as_bytes())?;
    json!(in alloc; {"allow_any_host": any, "model": model, "serial": serial})
}

// A subsystem.
#[tactic(auto, unfolding(crate::specs::Saving::subsystem_data, crate::specs::Saving::subsystem_is_text))]
fn subsystem(alloc: Global, row: &SubsystemRow) -> Result<Value, AllocError>
    requires { subsystem_is_text row.now ≡ true }
    ensures { IfOk result (λ v. view v ≡ subsystem_data row.now) }
{
    let hosts = names(alloc, &row.allowed_hosts)?;
    let attributes = attributes(alloc, row)?;
    let namespaces = namespaces(alloc, &row.namespaces)?;
    let nqn = name(alloc, &row.nqn)?;
    json!(in alloc; {"allowed_hosts": hosts, "attr": attributes, "namespaces": namespaces, "nqn": nqn})
}

// The state of an ANA group.
fn state_value(alloc: Global, state: Ana) -> Result<Value, AllocError>
    ensures { IfOk result (λ v. view v ≡ string (ana_text state)) }
{
    Value::try_from_str(alloc, state.text())
}

// An ANA group.
#[tactic(auto, unfolding(crate::specs::Saving::group_data))]
fn group(alloc: Global, group: u32, state: Ana) -> Result<Value, AllocError>
    ensures { IfOk result (λ v. view v ≡ group_data group state) }
{
    let state = state_value(alloc, state)?;
    json!(in alloc; {"ana": {"state": state}, "grpid": group})
}

// The ANA groups of a port.
#[tactic(auto, unfolding(crate::specs::Saving::groups_data))]
fn groups(alloc: Global, rows: &Groups) -> Result<Value, AllocError>
    ensures { IfOk result (λ v. view v ≡ groups_data rows.now) }
{
    let mut shown = Vec::new(alloc);
    for (number, state) in rows.iter() {
        let value = group(alloc, *number, *state)?;
        shown.push(value)?;
    }
    Ok(Value::Array(shown))
}

// The addresses of a port.
#[tactic(auto, unfolding(crate::specs::Saving::addresses_data, crate::specs::Saving::port_is_text))]
fn addresses(alloc: Global, row: &PortRow) -> Result<Value, AllocError>
    requires { port_is_text row.now ≡ true }
    ensures { IfOk result (λ v. view v ≡ addresses_data row.now) }
{
    let adrfam = text(alloc, row.adrfam.as_bytes())?;
    let traddr = text(alloc, row.traddr.as_bytes())?;
    let treq = text(alloc, row.treq.as_bytes())?;
    let trsvcid = text(alloc, row.trsvcid.as_bytes())?;
    if row.trtype.as_bytes().is_empty() {
        return json!(in alloc; {"adrfam": adrfam, "traddr": traddr, "treq": treq, "trsvcid": trsvcid});
    }
    let trtype = text(alloc, row.trtype.as_bytes())?;
    json!(in alloc; {"adrfam": adrfam, "traddr": traddr, "treq": treq, "trsvcid": trsvcid, "trtype": trtype})
}

// A port.
#[tactic(auto, unfolding(crate::specs::Saving::port_data, crate::specs::Saving::port_is_text))]
fn port(alloc: Global, row: &PortRow) -> Result<Value, AllocError>
    requires { port_is_text row.now ≡ true }
    ensures shows { IfOk result (λ v. view v ≡ port_data row.now) }
    ensures id { row.now.id < 65536 }
{
    let id = row.id;
    let addresses = addresses(alloc, row)?;
    let groups = groups(alloc, &row.groups)?;
    let links = names(alloc, &row.links)?;
    json!(in alloc; {"addr": addresses, "ana_groups": groups, "portid": id, "referrals": [], "subsystems": links})
}

// The hosts.
fn hosts(alloc: Global, rows: &Names) -> Result<Value, AllocError>
    ensures { IfOk result (λ v. view v ≡ list_of host_data (maps.keys rows.now)) }
{
    let mut shown = Vec::new(alloc);
    for nqn in rows.iter() {
        let value = host(alloc, nqn)?;
        shown.push(value)?;
    }
    Ok(Value::Array(shown))
}

// The ports.
fn ports(alloc: Global, rows: &Ports) -> Result<Value, AllocError>
    requires { list_all port_is_text (maps.values rows.now) ≡ true }
    ensures shows { IfOk result (λ v. view v ≡ list_of port_data (maps.values rows.now)) }
    ensures ids { IfOk result (λ _. list_all has_short_id (maps.values rows.now) ≡ true) }
{
    let mut shown = Vec::new(alloc);
    for (_, row) in rows.entries() {
        let value = port(alloc, row)?;
        shown.push(value)?;
    }
    Ok(Value::Array(shown))
}

// The subsystems.
fn subsystems(alloc: Global, rows: &Subsystems) -> Result<Value, AllocError>
    requires { list_all subsystem_is_text (maps.values rows.now) ≡ true }
    ensures { IfOk result (λ v. view v ≡ list_of subsystem_data (maps.values rows.now)) }
{
    let mut shown = Vec::new(alloc);
    for (_, row) in rows.entries() {
        let value = subsystem(alloc, row)?;
        shown.push(value)?;
    }
    Ok(Value::Array(shown))
}

// The configuration of a tree as a value.
#[tactic(auto, unfolding(crate::specs::Saving::tree_data))]
fn tree_value(alloc: Global, t: &Tree) -> Result<Value, AllocError>
    requires subsystems { list_all subsystem_is_text
        (maps.values t.now.settings.subsystems) ≡ true }
    requires ports { list_all port_is_text (maps.values t.now.settings.ports) ≡ true }
    ensures shows { IfOk result (λ v. view v ≡ tree_data t.now) }
    ensures ids { IfOk result (λ _. list_all has_short_id
        (maps.values t.now.settings.ports) ≡ true) }
{
    let hosts = hosts(alloc, t.hosts())?;
    let ports = ports(alloc, t.ports())?;
    let subsystems = subsystems(alloc, t.subsystems())?;
    json!(in alloc; {"hosts": hosts, "ports": ports, "subsystems": subsystems})
}

/// The text of a tree's configuration in nvmetcli's JSON, without a space and with the members of
/// each object in byte order. A draining namespace is written as one that isn't enabled.
pub fn save(alloc: Global, t: &Tree) -> Result<Vec<u8>, AllocError>
    ensures text { IfOk result (λ bytes. bytes.items ≡ saved t.now) }
    ensures json { IfOk result (λ bytes. IsJson bytes.items (tree_data t.now)) }
    // `load` reads these edits from it, and passes nothing over.
    ensures edits { IfOk result (λ _. edits_in (tree_data t.now) ≡ Ok (tree_written t.now)) }
    ensures whole { passed_over (tree_data t.now) ≡ 0 }
{
    t.certify();
    let value = tree_value(alloc, t)?;
    value.to_vec(alloc)
}
