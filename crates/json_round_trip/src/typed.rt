// What the types of a tree's rows say, gathered over the whole tree.
ghost use Rattle.std.specs.Prelude.{◌<◌, ℕ};
ghost use Rattle.std.specs.List.{All};
ghost use Rattle.std.specs.FinMap as maps;
ghost use Rattle.configfs_rows.specs.declared.namespaces.NamespaceRow as space;
ghost use Rattle.configfs_rows.specs.declared.ports.PortRow as port;
ghost use Rattle.json_round_trip.specs.Reloads.{HasAllIdentifiers, HasIdentifiers, IsIdentifier, IsTyped};

use configfs_tree::{NamespaceRow, Namespaces, PortRow, Ports, SubsystemRow, Subsystems, Tree};

// An identifier is of 16 bytes, which a clause can't say of an array before they are read.
fn certify_identifier(bytes: &[u8; 16])
    ensures { IsIdentifier bytes.now }
{
    'bytes: for i in 0..16 {
        let _ = bytes[i];
    }
}

// The UUID and the NGUID of a namespace have 16 bytes.
fn certify_namespace(row: &NamespaceRow)
    ensures { HasIdentifiers row.now }
{
    certify_identifier(&row.uuid);
    certify_identifier(&row.nguid);
}

fn certify_namespaces(rows: &Namespaces)
    ensures { All (λ (e : ℕ × space.NamespaceRow). HasIdentifiers e.1) (maps.entries rows.now) }
{
    for (_, row) in rows.entries() {
        certify_namespace(row);
    }
}

fn certify_subsystem(row: &SubsystemRow)
    ensures { HasAllIdentifiers row.now }
{
    certify_namespaces(&row.namespaces);
}

fn certify_subsystems(rows: &Subsystems)
    ensures { All HasAllIdentifiers (maps.values rows.now) }
{
    for (_, row) in rows.entries() {
        certify_subsystem(row);
    }
}

// The number of a port has 16 bits.
fn certify_port(row: &PortRow)
    ensures { row.now.id < 65536 }
{
    let _id = row.id;
}

fn certify_ports(rows: &Ports)
    ensures { All (λ (p : port.PortRow). p.id < 65536) (maps.values rows.now) }
{
    for (_, row) in rows.entries() {
        certify_port(row);
    }
}

/// Each tree has rows as their types say; it does nothing else.
pub fn certify_types(t: &Tree)
    ensures { IsTyped t.now }
{
    certify_subsystems(t.subsystems());
    certify_ports(t.ports());
}
