// Hosts, subsystems, namespaces, ports and ANA groups, each with the edits that it brings.
ghost use Rattle.std.specs.Prelude.{◌≡◌, ◌++◌, ◌∷◌, [], ℕ, Bool, List, codes, OnOk, false, None};
ghost use Rattle.serde_json.specs.View.{view};
ghost use Rattle.nvmetcli_json.specs.Faults.{Gives, may};
ghost use Rattle.nvmetcli_json.specs.Edits.{Loads, Adds, set_some};
ghost use Rattle.nvmetcli_json.specs.Loading.{edits_in, host_in, device_in, ana_in, some_number, namespace_in, enabling, attributes_in, allowed_in, subsystem_in, addresses_in, state_in, group_in, linked_in, referral_in, port_in, unless_empty, made_group};
ghost use Rattle.configfs_tree.specs.declared.edits.Folder.TheVariants as folder;

use crate::edits::Edits;
use crate::error::{JsonError, at_member, misfit};
use crate::kinds::{decimal_name, nqn, number_below};
use crate::members::{
    Element, attribute, attribute_or, each_member, flag_member, nqn_member, number_member,
};
use configfs_tree::{Attr, Folder, Nqn};
use link_rules::{Edit, LinkEdit};
use mem_bdev::Name;
use serde_json::Value;
use std::alloc::{AllocError, Global};

// A host.
#[tactic(auto, unfolding(crate::specs::Loading::host_in, crate::specs::Faults::in_object))]
fn host(alloc: Global, v: &Value, out: &mut Edits) -> Result<(), JsonError>
    ensures { Adds out.old out.new result (host_in (view v.now)) }
{
    if !v.is_object() {
        return Err(misfit(alloc));
    }
    let nqn = nqn_member(alloc, v)?;
    out.make(Folder::Host(nqn))?;
    Ok(())
}

// The attributes of a device.
#[tactic(auto, unfolding(crate::specs::Loading::device_in, crate::specs::Faults::in_object))]
fn device(alloc: Global, sub: &Nqn, nsid: u32, v: &Value, out: &mut Edits) -> Result<(), JsonError>
    ensures { Adds out.old out.new result (device_in sub.now nsid (view v.now)) }
{
    if !v.is_object() {
        return Err(misfit(alloc));
    }
    let nguid = attribute(alloc, "nguid", v)?;
    let path = attribute(alloc, "path", v)?;
    let uuid = attribute(alloc, "uuid", v)?;
    out.set(
        Folder::Namespace(sub.copied(), nsid),
        Attr::DeviceNguid,
        nguid,
    )?;
    out.set(
        Folder::Namespace(sub.copied(), nsid),
        Attr::DevicePath,
        path,
    )?;
    out.set(
        Folder::Namespace(sub.copied(), nsid),
        Attr::DeviceUuid,
        uuid,
    )?;
    Ok(())
}

#[tactic(auto, unfolding(crate::specs::Faults::may, crate::specs::Faults::under), using(crate::proofs::Steps::fails_below))]
fn device_member(
    alloc: Global,
    sub: &Nqn,
    nsid: u32,
    v: &Value,
    out: &mut Edits,
) -> Result<(), JsonError>
    ensures { Adds out.old out.new result (may (codes "device") [] (device_in sub.now nsid)
        (view v.now)) }
{
    let Some(d) = v.get("device") else {
        return Ok(());
    };
    match device(alloc, sub, nsid, d, out) {
        Ok(()) => Ok(()),
        Err(e) => Err(at_member(alloc, "device", e)),
    }
}

// A number as the text of an attribute.
fn some_number(alloc: Global, limit: u64, v: &Value) -> Result<Option<Name>, JsonError>
    ensures { Gives result (some_number limit (view v.now)) }
{
    let n = number_below(alloc, limit, v)?;
    let text = decimal_name(alloc, n)?;
    Ok(Some(text))
}

// The group that a member `ana` names.
#[tactic(auto, unfolding(crate::specs::Loading::ana_in, crate::specs::Faults::in_object, crate::specs::Faults::may, crate::specs::Faults::under), using(crate::proofs::Steps::fails_below))]
fn ana(alloc: Global, v: &Value) -> Result<Option<Name>, JsonError>
    ensures { Gives result (ana_in (view v.now)) }
{
    if !v.is_object() {
        return Err(misfit(alloc));
    }
    let Some(d) = v.get("grpid") else {
        return Ok(None);
    };
    match some_number(alloc, 1 << 32, d) {
        Ok(text) => Ok(text),
        Err(e) => Err(at_member(alloc, "grpid", e)),
    }
}

#[tactic(auto, unfolding(crate::specs::Faults::may, crate::specs::Faults::under), using(crate::proofs::Steps::fails_below))]
fn ana_member(alloc: Global, v: &Value) -> Result<Option<Name>, JsonError>
    ensures { Gives result (may (codes "ana") None ana_in (view v.now)) }
{
    let Some(d) = v.get("ana") else {
        return Ok(None);
    };
    match ana(alloc, d) {
        Ok(text) => Ok(text),
        Err(e) => Err(at_member(alloc, "ana", e)),
    }
}

// The edit that enables a namespace.
fn enable(
    alloc: Global,
    sub: &Nqn,
    nsid: u32,
    enabled: bool,
    out: &mut Edits,
) -> Result<(), AllocError>
    ensures { OnOk result (out.new ≡ out.old ++ enabling (folder.Namespace sub.now nsid) enabled) }
{
    if !enabled {
        return Ok(());
    }
    let value = Name::copied(alloc, b"1")?;
    out.set(
        Folder::Namespace(sub.copied(), nsid),
        Attr::Enable,
        Some(value),
    )
}

// A namespace.
#[tactic(auto, unfolding(crate::specs::Loading::namespace_in, crate::specs::Faults::in_object))]
fn namespace(alloc: Global, sub: &Nqn, v: &Value, out: &mut Edits) -> Result<(), JsonError>
    ensures { Adds out.old out.new result (namespace_in sub.now (view v.now)) }
{
    if !v.is_object() {
        return Err(misfit(alloc));
    }
    let number = number_member(alloc, "nsid", 1 << 32, v)?;
    let nsid = number as u32;
    let ana = ana_member(alloc, v)?;
    let group = attribute_or(alloc, "ana_grpid", ana, v)?;
    out.make(Folder::Namespace(sub.copied(), nsid))?;
    device_member(alloc, sub, nsid, v, out)?;
    let enabled = flag_member(alloc, "enable", v)?;
    out.set(Folder::Namespace(sub.copied(), nsid), Attr::AnaGrpid, group)?;
    enable(alloc, sub, nsid, enabled, out)?;
    Ok(())
}

// The attributes of a subsystem.
#[tactic(auto, unfolding(crate::specs::Loading::attributes_in, crate::specs::Faults::in_object))]
fn attributes(alloc: Global, sub: &Nqn, v: &Value, out: &mut Edits) -> Result<(), JsonError>
    ensures { Adds out.old out.new result (attributes_in sub.now (view v.now)) }
{
    if !v.is_object() {
        return Err(misfit(alloc));
    }
    let any = attribute(alloc, "allow_any_host", v)?;
    let model = attribute(alloc, "model", v)?;
    let serial = attribute(alloc, "serial", v)?;
    out.set(Folder::Subsystem(sub.copied()), Attr::AllowAnyHost, any)?;
    out.set(Folder::Subsystem(sub.copied()), Attr::ModelName, model)?;
    out.set(Folder::Subsystem(sub.copied()), Attr::Serial, serial)?;
    Ok(())
}

#[tactic(auto, unfolding(crate::specs::Faults::may, crate::specs::Faults::under), using(crate::proofs::Steps::fails_below))]
fn attributes_member(alloc: Global, sub: &Nqn, v: &Value, out: &mut Edits) -> Result<(), JsonError>
    ensures { Adds out.old out.new result (may (codes "attr") [] (attributes_in sub.now)
        (view v.now)) }
{
    let Some(d) = v.get("attr") else {
        return Ok(());
    };
    match attributes(alloc, sub, d, out) {
        Ok(()) => Ok(()),
        Err(e) => Err(at_member(alloc, "attr", e)),
    }
}

// A host that a subsystem allows.
#[tactic(auto, unfolding(crate::specs::Loading::allowed_in))]
fn allowed(alloc: Global, sub: &Nqn, v: &Value, out: &mut Edits) -> Result<(), JsonError>
    ensures { Adds out.old out.new result (allowed_in sub.now (view v.now)) }
{
    let host = nqn(alloc, v)?;
    out.push(Edit::Link(LinkEdit::AllowHost(sub.copied(), host)))?;
    Ok(())
}

#[derive(Clone, Copy)]
struct Hosts;

impl Element for Hosts {
    ghost reads = { λ _. host_in };

    fn add(&self, alloc: Global, v: &Value, out: &mut Edits) -> Result<(), JsonError> {
        host(alloc, v, out)
    }
}

#[derive(Clone, Copy)]
struct AllowedHosts<'a> {
    sub: &'a Nqn,
}

impl<'a> Element for AllowedHosts<'a> {
    ghost reads = { λ s. allowed_in s.sub.now };

    fn add(&self, alloc: Global, v: &Value, out: &mut Edits) -> Result<(), JsonError> {
        allowed(alloc, self.sub, v, out)
    }
}

#[derive(Clone, Copy)]
struct Namespaces<'a> {
    sub: &'a Nqn,
}

impl<'a> Element for Namespaces<'a> {
    ghost reads = { λ s. namespace_in s.sub.now };

    fn add(&self, alloc: Global, v: &Value, out: &mut Edits) -> Result<(), JsonError> {
        namespace(alloc, self.sub, v, out)
    }
}

// A subsystem. The edits of its attributes come before those of the hosts that it allows, and
// a fault of the hosts comes first.
#[tactic(auto, unfolding(crate::specs::Loading::subsystem_in, crate::specs::Faults::in_object))]
fn subsystem(alloc: Global, v: &Value, out: &mut Edits) -> Result<(), JsonError>
    ensures { Adds out.old out.new result (subsystem_in (view v.now)) }
{
    if !v.is_object() {
        return Err(misfit(alloc));
    }
    let sub = nqn_member(alloc, v)?;
    let mut first = Edits::new(alloc);
    let attributes = attributes_member(alloc, &sub, v, &mut first);
    out.make(Folder::Subsystem(sub.copied()))?;
    out.append(first)?;
    each_member(alloc, "allowed_hosts", &AllowedHosts { sub: &sub }, v, out)?;
    attributes?;
    each_member(alloc, "namespaces", &Namespaces { sub: &sub }, v, out)?;
    Ok(())
}

#[derive(Clone, Copy)]
struct Subsystems;

impl Element for Subsystems {
    ghost reads = { λ _. subsystem_in };

    fn add(&self, alloc: Global, v: &Value, out: &mut Edits) -> Result<(), JsonError> {
        subsystem(alloc, v, out)
    }
}

// An address, unless it is an empty transport type.
fn not_empty(value: Option<Name>) -> Option<Name>
    ensures { result ≡ unless_empty value }
{
    match value {
        None => None,
        Some(text) => {
            if text.as_bytes().is_empty() {
                return None;
            }
            Some(text)
        }
    }
}

// The addresses of a port.
#[tactic(auto, unfolding(crate::specs::Loading::addresses_in, crate::specs::Faults::in_object))]
fn addresses(alloc: Global, id: u16, v: &Value, out: &mut Edits) -> Result<(), JsonError>
    ensures { Adds out.old out.new result (addresses_in id (view v.now)) }
{
    if !v.is_object() {
        return Err(misfit(alloc));
    }
    let adrfam = attribute(alloc, "adrfam", v)?;
    let traddr = attribute(alloc, "traddr", v)?;
    let treq = attribute(alloc, "treq", v)?;
    let trsvcid = attribute(alloc, "trsvcid", v)?;
    let trtype = attribute(alloc, "trtype", v)?;
    out.set(Folder::Port(id), Attr::Adrfam, adrfam)?;
    out.set(Folder::Port(id), Attr::Traddr, traddr)?;
    out.set(Folder::Port(id), Attr::Treq, treq)?;
    out.set(Folder::Port(id), Attr::Trsvcid, trsvcid)?;
    out.set(Folder::Port(id), Attr::Trtype, not_empty(trtype))?;
    Ok(())
}

#[tactic(auto, unfolding(crate::specs::Faults::may, crate::specs::Faults::under), using(crate::proofs::Steps::fails_below))]
fn addresses_member(alloc: Global, id: u16, v: &Value, out: &mut Edits) -> Result<(), JsonError>
    ensures { Adds out.old out.new result (may (codes "addr") [] (addresses_in id) (view v.now)) }
{
    let Some(d) = v.get("addr") else {
        return Ok(());
    };
    match addresses(alloc, id, d, out) {
        Ok(()) => Ok(()),
        Err(e) => Err(at_member(alloc, "addr", e)),
    }
}

// The state of an ANA group.
#[tactic(auto, unfolding(crate::specs::Loading::state_in, crate::specs::Faults::in_object))]
fn state(alloc: Global, v: &Value) -> Result<Option<Name>, JsonError>
    ensures { Gives result (state_in (view v.now)) }
{
    if !v.is_object() {
        return Err(misfit(alloc));
    }
    attribute(alloc, "state", v)
}

#[tactic(auto, unfolding(crate::specs::Faults::may, crate::specs::Faults::under), using(crate::proofs::Steps::fails_below))]
fn state_member(alloc: Global, v: &Value) -> Result<Option<Name>, JsonError>
    ensures { Gives result (may (codes "ana") None state_in (view v.now)) }
{
    let Some(d) = v.get("ana") else {
        return Ok(None);
    };
    match state(alloc, d) {
        Ok(text) => Ok(text),
        Err(e) => Err(at_member(alloc, "ana", e)),
    }
}

// The edit that makes an ANA group, which group 1 doesn't need.
fn make_group(id: u16, group: u32, out: &mut Edits) -> Result<(), AllocError>
    ensures { OnOk result (out.new ≡ out.old ++ made_group id group) }
{
    if group == 1 {
        return Ok(());
    }
    out.make(Folder::AnaGroup(id, group))
}

// An ANA group.
#[tactic(auto, unfolding(crate::specs::Loading::group_in, crate::specs::Faults::in_object))]
fn group(alloc: Global, id: u16, v: &Value, out: &mut Edits) -> Result<(), JsonError>
    ensures { Adds out.old out.new result (group_in id (view v.now)) }
{
    if !v.is_object() {
        return Err(misfit(alloc));
    }
    let number = number_member(alloc, "grpid", 1 << 32, v)?;
    let group = number as u32;
    let state = state_member(alloc, v)?;
    make_group(id, group, out)?;
    out.set(Folder::AnaGroup(id, group), Attr::AnaState, state)?;
    Ok(())
}

// A subsystem that a port links.
#[tactic(auto, unfolding(crate::specs::Loading::linked_in))]
fn linked(alloc: Global, id: u16, v: &Value, out: &mut Edits) -> Result<(), JsonError>
    ensures { Adds out.old out.new result (linked_in id (view v.now)) }
{
    let sub = nqn(alloc, v)?;
    out.push(Edit::Link(LinkEdit::LinkSubsystem(id, sub)))?;
    Ok(())
}

#[derive(Clone, Copy)]
struct Groups {
    id: u16,
}

impl Element for Groups {
    ghost reads = { λ s. group_in s.id };

    fn add(&self, alloc: Global, v: &Value, out: &mut Edits) -> Result<(), JsonError> {
        group(alloc, self.id, v, out)
    }
}

#[derive(Clone, Copy)]
struct Links {
    id: u16,
}

impl Element for Links {
    ghost reads = { λ s. linked_in s.id };

    fn add(&self, alloc: Global, v: &Value, out: &mut Edits) -> Result<(), JsonError> {
        linked(alloc, self.id, v, out)
    }
}

#[derive(Clone, Copy)]
struct Referrals;

impl Element for Referrals {
    ghost reads = { λ _. referral_in };

    #[tactic(auto, unfolding(crate::specs::Loading::referral_in))]
    fn add(&self, _alloc: Global, _v: &Value, _out: &mut Edits) -> Result<(), JsonError> {
        Ok(())
    }
}

// A port.
#[tactic(auto, unfolding(crate::specs::Loading::port_in, crate::specs::Faults::in_object))]
fn port(alloc: Global, v: &Value, out: &mut Edits) -> Result<(), JsonError>
    ensures { Adds out.old out.new result (port_in (view v.now)) }
{
    if !v.is_object() {
        return Err(misfit(alloc));
    }
    let number = number_member(alloc, "portid", 65_536, v)?;
    let id = number as u16;
    out.make(Folder::Port(id))?;
    addresses_member(alloc, id, v, out)?;
    each_member(alloc, "ana_groups", &Groups { id }, v, out)?;
    each_member(alloc, "referrals", &Referrals, v, out)?;
    each_member(alloc, "subsystems", &Links { id }, v, out)?;
    Ok(())
}

#[derive(Clone, Copy)]
struct Ports;

impl Element for Ports {
    ghost reads = { λ _. port_in };

    fn add(&self, alloc: Global, v: &Value, out: &mut Edits) -> Result<(), JsonError> {
        port(alloc, v, out)
    }
}

// A whole configuration.
#[tactic(auto, unfolding(crate::specs::Loading::edits_in, crate::specs::Faults::in_object))]
pub(crate) fn configuration(alloc: Global, v: &Value, out: &mut Edits) -> Result<(), JsonError>
    ensures { Adds out.old out.new result (edits_in (view v.now)) }
{
    if !v.is_object() {
        return Err(misfit(alloc));
    }
    each_member(alloc, "hosts", &Hosts, v, out)?;
    each_member(alloc, "subsystems", &Subsystems, v, out)?;
    each_member(alloc, "ports", &Ports, v, out)?;
    Ok(())
}
