// Subsystems and ports by their names and numbers, with their positions.
ghost use Rattle.std.specs.Prelude.{◌≡◌, MatchOption, None};
ghost use Rattle.std.specs.FinMap as maps;
ghost use Rattle.link_rules.specs.Found.{PortFound, SubsystemFound};

use configfs_tree::{Nqn, PortRow, SubsystemRow, Tree, port_positions, subsystem_positions};

// The subsystem of a name.
pub(crate) fn subsystem_of<'t>(t: &'t Tree, sub: &Nqn) -> Option<&'t SubsystemRow>
    ensures { MatchOption result (maps.get t.now.settings.subsystems sub.now ≡ None)
        (λ s. SubsystemFound t.now sub.now s.now) }
{
    t.certify();
    subsystem_positions(t);
    t.subsystems().get(sub)
}

// The port of an ID.
pub(crate) fn port_of(t: &Tree, id: u16) -> Option<&PortRow>
    ensures { MatchOption result (maps.get t.now.settings.ports id ≡ None)
        (λ p. PortFound t.now id p.now) }
{
    t.certify();
    port_positions(t);
    t.ports().get(id)
}
