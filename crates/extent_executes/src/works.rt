//! What a command does to an extent.
ghost use Rattle.std.specs.Prelude.{ℕ, ◌≡◌, Some, List};
ghost use Rattle.ref_state.specs.declared.kinds.Tag.{Tag as TagOf};
ghost use Rattle.ref_state.specs.declared.state.Hold.{Hold as HoldOf};
ghost use Rattle.ref_state.specs.Steps.{first};
ghost use Rattle.table_rule.specs.Meant.{is_named, target, Legal};

use table_rule::meaning::Means;

/// The job of one held command, extent by extent. Which command it is stands in its type.
pub trait Work<S, M: Means<S>> {
    ghost tag: { TagOf };

    ghost hold: { HoldOf };

    /// The extent of this slot after the command's Execute, of the extent before it. The Execute
    /// follows a legal history in which the command is held.
    fn apply(&self, slot: u32, value: S) -> S
        ensures { (log : List TagOf) → Legal M.means log
            → M.means.stands value slot (target M.means log)
            → first (λ (y : TagOf × ℕ). is_named Self.tag y.0) (M.means.commands
            (target M.means log)) ≡ Some (Self.hold.call, Self.hold.disk)
            → M.means.stands result slot (M.means.next (target M.means log) Self.tag) };
}
