//! The rule of the table, and what each step tells.
ghost use Rattle.std.specs.Prelude.{ℕ};
ghost use Rattle.ref_state.specs.declared.kinds.Take.{Take as TakeOf};
ghost use Rattle.ref_state.specs.declared.kinds.Take.TheVariants.{Nothing};

use crate::meaning::{Called, Drained, Held, Means};
use atomic_table::{Join, Play, Split, TableRule};
use lists::items::Items;
use ref_state::kinds::Tag;
use ref_state::state::{Editor, View};
use std::collections::LinkedList;
use std::marker::{Brand, PhantomData};

/// All calls of a caller. One seat at most has it. No value of it is made.
pub struct Claim {
    pub caller: u32,
    pub own: LinkedList<Tag>,
}

/// What a seat or a part knows. No value of it is made.
pub struct Told {
    /// What it keeps.
    pub view: View,
    /// What the editor's seat keeps beside: nothing on other seats.
    pub notes: Editor,
    /// How many seats there are.
    pub seats: u32,
    /// The number of the next seat that is made, and the quotas of those that aren't made yet,
    /// which the first seat has.
    pub dealt: u32,
    pub undealt: LinkedList<u32>,
    /// The history as far as it has seen it.
    pub known: LinkedList<Tag>,
    /// Beginnings of the history that joined seats had seen.
    pub heard: LinkedList<LinkedList<Tag>>,
    /// The callers whose calls it may draw, with all their calls so far.
    pub claims: LinkedList<Claim>,
    /// Each word that it looked at, with what it found, the newest first.
    pub found: LinkedList<(u64, u64)>,
}

/// What is fixed when the table is made: the quota of each seat, the numbers of disks and of slots,
/// and how many words a side has.
#[derive(Drop)]
pub struct Plan {
    pub quotas: Items<u32>,
    pub disks: u32,
    pub slots: u32,
    pub rows: u32,
}

/// The fact that holds of the words, slots and seats of a table between any two steps: they show a
/// sound core and a legal history of the target `M`.
pub struct Law<M> {
    meaning: PhantomData<M>,
}

impl<S, M: Means<S>> TableRule<Option<S>, Told, Plan> for Law<M> {
    ghost use Rattle.table_rule.specs.Shown.{Shows, first};

    ghost holds = { λ key. Shows M.means key };

    ghost first = { λ key. first M.means key };
}

/// What `enter_section` tells.
pub struct Enter;

impl<S> Play<Option<S>, Told> for Enter {
    ghost use Rattle.table_rule.specs.Plays.{enters};

    ghost then = { enters };
}

/// What `leave_section` tells.
pub struct Leave;

impl<S> Play<Option<S>, Told> for Leave {
    ghost use Rattle.table_rule.specs.Plays.{leaves};

    ghost then = { leaves };
}

/// What `look_section` tells.
pub struct Look;

impl<S> Play<Option<S>, Told> for Look {
    ghost use Rattle.table_rule.specs.Plays.{looks};

    ghost then = { looks };
}

/// What `store_row` tells.
pub struct Store;

impl<S> Play<Option<S>, Told> for Store {
    ghost use Rattle.table_rule.specs.Plays.{stores};

    ghost then = { stores };
}

/// What `load_row` tells.
pub struct Load<M> {
    meaning: PhantomData<M>,
}

impl<S, M: Means<S>> Play<Option<S>, Told> for Load<M> {
    ghost use Rattle.table_rule.specs.Plays.{loads};

    ghost then = { loads M.means };
}

/// What `draw_place` for the call `C` tells.
pub struct Draw<M, C> {
    meaning: PhantomData<M>,
    called: PhantomData<C>,
}

impl<S, M: Means<S>, C: Called> Play<Option<S>, Told> for Draw<M, C> {
    ghost use Rattle.table_rule.specs.Plays.{draws};

    ghost then = { draws M.means C.tag };
}

/// What `publish` by the call `C` tells.
pub struct Publish<M, C> {
    meaning: PhantomData<M>,
    called: PhantomData<C>,
}

impl<S, M: Means<S>, C: Called> Play<Option<S>, Told> for Publish<M, C> {
    ghost use Rattle.table_rule.specs.Plays.{publishes};

    ghost then = { publishes M.means C.tag };
}

/// What `learn` tells.
pub struct Learn<M> {
    meaning: PhantomData<M>,
}

impl<S, M: Means<S>> Play<Option<S>, Told> for Learn<M> {
    ghost use Rattle.table_rule.specs.Plays.{learns};

    ghost then = { learns M.means };
}

/// A seat is made.
pub struct Deal;

impl Split<Told> for Deal {
    ghost use Rattle.table_rule.specs.Shown.{dealing, dealt_seat};

    ghost left = { dealing };

    ghost right = { dealt_seat };
}

/// What a part takes.
pub trait Taken {
    ghost take: { TakeOf };
}

impl Taken for Brand {
    ghost take = { Nothing };
}

/// A part is split off a seat, which takes what `C` says.
pub struct Cut<C> {
    taken: PhantomData<C>,
}

impl<C: Taken> Split<Told> for Cut<C> {
    ghost use Rattle.table_rule.specs.Shown.{cutting, part_of};

    ghost left = { cutting C.take };

    ghost right = { part_of C.take };
}

/// A part or a seat is joined into a seat.
pub struct Gather;

impl Join<Told> for Gather {
    ghost use Rattle.table_rule.specs.Shown.{joining, gone};

    ghost both = { joining };

    ghost spent = { gone };
}

/// What `load_mode` tells.
pub struct LoadMode;

impl<S> Play<Option<S>, Told> for LoadMode {
    ghost use Rattle.table_rule.specs.Plays.{loads_mode};

    ghost then = { loads_mode };
}

/// What a get on the own counter tells.
pub struct GetOwn;

impl<S> Play<Option<S>, Told> for GetOwn {
    ghost use Rattle.table_rule.specs.Plays.{adds_own};
    ghost use Rattle.std.specs.Prelude.{true};

    ghost then = { adds_own true };
}

/// What a put on the own counter tells.
pub struct PutOwn;

impl<S> Play<Option<S>, Told> for PutOwn {
    ghost use Rattle.table_rule.specs.Plays.{adds_own};
    ghost use Rattle.std.specs.Prelude.{false};

    ghost then = { adds_own false };
}

/// What a get on the shared count tells.
pub struct GetShared;

impl<S> Play<Option<S>, Told> for GetShared {
    ghost use Rattle.table_rule.specs.Plays.{adds_shared};
    ghost use Rattle.std.specs.Prelude.{true};

    ghost then = { adds_shared true };
}

/// What a put on the shared count tells.
pub struct PutShared;

impl<S> Play<Option<S>, Told> for PutShared {
    ghost use Rattle.table_rule.specs.Plays.{adds_shared};
    ghost use Rattle.std.specs.Prelude.{false};

    ghost then = { adds_shared false };
}

/// What `take_turn` tells.
pub struct TakeTurn<M> {
    meaning: PhantomData<M>,
}

impl<S, M: Means<S>> Play<Option<S>, Told> for TakeTurn<M> {
    ghost use Rattle.table_rule.specs.Plays.{takes_turn};

    ghost then = { takes_turn M.means };
}

/// What `give_turn` tells.
pub struct GiveTurn;

impl<S> Play<Option<S>, Told> for GiveTurn {
    ghost use Rattle.table_rule.specs.Plays.{gives_turn};

    ghost then = { gives_turn };
}

/// What `place_execute` for `H` tells.
pub struct Execute<M, H> {
    meaning: PhantomData<M>,
    held: PhantomData<H>,
}

impl<S, M: Means<S>, H: Held> Play<Option<S>, Told> for Execute<M, H> {
    ghost use Rattle.table_rule.specs.Plays.{executes};

    ghost then = { executes M.means H.tag H.hold };
}

/// What `kill` tells.
pub struct Kill;

impl<S> Play<Option<S>, Told> for Kill {
    ghost use Rattle.table_rule.specs.Plays.{kills};

    ghost then = { kills };
}

/// What `look_counter` tells.
pub struct LookCounter;

impl<S> Play<Option<S>, Told> for LookCounter {
    ghost use Rattle.table_rule.specs.Plays.{counts};

    ghost then = { counts };
}

/// What `fold` tells.
pub struct Fold;

impl<S> Play<Option<S>, Told> for Fold {
    ghost use Rattle.table_rule.specs.Plays.{folds};

    ghost then = { folds };
}

/// What `look_zero` tells.
pub struct LookZero;

impl<S> Play<Option<S>, Told> for LookZero {
    ghost use Rattle.table_rule.specs.Plays.{looks_zero};

    ghost then = { looks_zero };
}

/// What `live_shared` tells.
pub struct LiveShared;

impl<S> Play<Option<S>, Told> for LiveShared {
    ghost use Rattle.table_rule.specs.Plays.{arms};

    ghost then = { arms };
}

/// What `live_mode` tells.
pub struct LiveMode;

impl<S> Play<Option<S>, Told> for LiveMode {
    ghost use Rattle.table_rule.specs.Plays.{revives};

    ghost then = { revives };
}

/// What `place_done` for `C` tells.
pub struct End<M, C> {
    meaning: PhantomData<M>,
    drained: PhantomData<C>,
}

impl<S, M: Means<S>, C: Drained> Play<Option<S>, Told> for End<M, C> {
    ghost use Rattle.table_rule.specs.Plays.{ends};

    ghost then = { ends M.means C.tag C.disk };
}
