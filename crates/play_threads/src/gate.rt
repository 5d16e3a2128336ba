//! The gate and its seats.
ghost use Rattle.std.specs.Prelude.{◌≡◌, ℕ, suc, ◌+◌, ◌%◌, ◌^◌, ◌<◌, ◌≤◌, [], ◌∷◌, ◌++◌, length, IfOk, OnErr, vec_capacity};
ghost use Rattle.atomic_table.specs.Table.{step};
ghost use mathlib.Core.Option.{none};
ghost use Rattle.play_threads.specs.declared.board.Stage.TheVariants.{Keeps, Rests, Waits, Inside, Spent};
ghost use Rattle.play_threads.specs.Board.{Begins, keeper as keeper_of, seated, drew, passed, AtRest, Entered, Visited, Added, Gave, Adds, AllAt, IsClosed};

use crate::board::{Draws, GateRule, Looks, Noted, Notes, Passes, Seats, View};
use crate::{GateCell, OutOfMemory};
use atomic_table::{Seat, Shared, Table};
use std::alloc::{AllocError, Global};
use std::marker::Brand;
use std::sync::Wait;

const TICKET: usize = 0;

const SERVING: usize = 1;

const LENGTH: usize = 2;

/// The table of a gate with this cell: its words and its slot.
pub type Board<C> = Table<
    C,
    View<(<C as GateCell>::Ask, <C as GateCell>::Answer)>,
    (),
    GateRule<C>,
    Global,
>;

/// What all seats share of it.
pub type Steps<C> = Shared<
    C,
    View<(<C as GateCell>::Ask, <C as GateCell>::Answer)>,
    (),
    GateRule<C>,
>;

/// A seat at it, with what it has seen.
pub type Holder<C> = Seat<C, View<(<C as GateCell>::Ask, <C as GateCell>::Answer)>>;

/// A caller's seat at one gate: it has seen some of the history, and the places of the caller's own
/// calls in it. It keeps neither: both are for contracts alone.
pub struct GateSeat<C: GateCell> {
    pub(crate) seat: Holder<C>,
    caller: u32,
    ghost at_rest: { AtRest seat.me caller },
}

impl<C: GateCell> Drop for GateSeat<C> {
    fn drop(self) {
        let GateSeat { seat, caller: _ } = self;
        drop(seat);
    }
}

fn draw<C: GateCell>(steps: &Steps<C>, seat: &mut Holder<C>) -> u64
    requires own { (seat.old.table_id ≡ steps.now.table_id) × (steps.now.table_id.words ≡ 3) × (steps.now.table_id.slots ≡ 1) }
    requires rests { seat.old.me.0.stage ≡ Rests }
    ensures same { seat.new.table_id ≡ seat.old.table_id }
    ensures drew { drew (step 1 0 1 0 none) seat.old.me result seat.new.me }
{
    steps.fetch_add::<Draws>(seat, TICKET, 1)
}

// Waits for the ticket's turn, and takes the cell.
fn wait<C: GateCell, R: Wait>(rt: &R, steps: &Steps<C>, seat: &mut Holder<C>, ticket: u64)
    requires own { (seat.old.table_id ≡ steps.now.table_id) × (steps.now.table_id.words ≡ 3) × (steps.now.table_id.slots ≡ 1) }
    requires waits { (seat.old.me.0.stage ≡ Waits) × (seat.old.me.1 ≡ []) × (ticket ≡ seat.old.me.0.ticket % 2 ^ 64) }
    ensures same { seat.new.table_id ≡ seat.old.table_id }
    ensures entered { Entered C.led seat.old.me seat.new.me × (seat.new.me.0.ticket ≡ seat.old.me.0.ticket) }
{
    for _ in rt.forever() {
        let found = steps.load::<Looks<C>>(seat, SERVING);
        if found == ticket {
            return;
        }
        steps.park(rt, SERVING, (found % (1 << 32)) as u32);
    }
    unreachable!()
}

// The cell answers, in the slot that the seat holds.
fn visit<C: GateCell>(
    steps: &Steps<C>,
    seat: &mut Holder<C>,
    caller: u32,
    ask: &C::Ask,
) -> Result<C::Answer, OutOfMemory>
    requires own { seat.old.table_id ≡ steps.now.table_id }
    requires holds { (c : C) × (seat.old.me.1 ≡ (0, c) ∷ []) }
    ensures same { (seat.new.table_id ≡ seat.old.table_id) × (seat.new.id ≡ seat.old.id) }
    ensures ok { IfOk result (λ a. Visited C.led seat.old.me ((caller, (ask.now, a)) ∷ []) seat.new.me) }
    ensures fits { IfOk result (λ a. C.fits ask.now a) }
    ensures err { OnErr result (Visited C.led seat.old.me [] seat.new.me) }
    ensures lacks { OnErr result C.lacks }
{
    seat.slot_mut(steps, 0).act(caller, ask)
}

// Puts the call at the end of the history, of whose length the word has the low bits.
fn note<C: GateCell, J: Noted<(C::Ask, C::Answer)>>(
    steps: &Steps<C>,
    seat: &mut Holder<C>,
    ask: &C::Ask,
    answer: &C::Answer,
)
    requires own { (seat.old.table_id ≡ steps.now.table_id) × (steps.now.table_id.words ≡ 3) × (steps.now.table_id.slots ≡ 1) }
    requires inside { seat.old.me.0.stage ≡ Inside }
    requires is { J.is (ask.now, answer.now) }
    ensures same { seat.new.table_id ≡ seat.old.table_id }
    ensures noted { (x : C.Ask × C.Answer) × J.is x × (seat.new.me ≡ (seated Inside seat.old.me.0.caller seat.old.me.0.ticket (seat.old.me.0.seen ++ (seat.old.me.0.caller, x) ∷ []) (seat.old.me.0.places ++ length seat.old.me.0.seen ∷ []), seat.old.me.1)) }
{
    let _ = ask;
    let _ = answer;
    let _ = steps.fetch_add::<Notes<J>>(seat, LENGTH, 1);
}

// Gives the cell back, and lets the next one in. Nobody is woken where nobody has drawn a ticket by
// then: whoever draws one after that look sees that it is served.
fn pass_on<C: GateCell>(steps: &Steps<C>, seat: &mut Holder<C>, ticket: u64)
    requires own { (seat.old.table_id ≡ steps.now.table_id) × (steps.now.table_id.words ≡ 3) × (steps.now.table_id.slots ≡ 1) }
    requires inside { (seat.old.me.0.stage ≡ Inside) × (ticket ≡ seat.old.me.0.ticket % 2 ^ 64) }
    requires seen { (c : C) × (seat.old.me.1 ≡ (0, c) ∷ []) × C.led seat.old.me.0.seen c }
    ensures same { seat.new.table_id ≡ seat.old.table_id }
    ensures passed { seat.new.me ≡ (seated Rests seat.old.me.0.caller 0 seat.old.me.0.seen seat.old.me.0.places, []) }
{
    let next = ticket.wrapping_add(1);
    steps.store::<Passes>(seat, SERVING, next);
    if steps.peek(TICKET) != next {
        steps.wake_all(SERVING);
    }
}

// Draws a ticket, and waits until the seat has the cell.
fn enter<C: GateCell, R: Wait>(rt: &R, steps: &Steps<C>, seat: &mut Holder<C>) -> u64
    requires own { (seat.old.table_id ≡ steps.now.table_id) × (steps.now.table_id.words ≡ 3) × (steps.now.table_id.slots ≡ 1) }
    requires rests { (seat.old.me.0.stage ≡ Rests) × (seat.old.me.1 ≡ []) }
    ensures same { seat.new.table_id ≡ seat.old.table_id }
    ensures entered { Entered C.led seat.old.me seat.new.me }
    ensures ticket { result ≡ seat.new.me.0.ticket % 2 ^ 64 }
{
    let ticket = draw(steps, seat);
    wait(rt, steps, seat, ticket);
    ticket
}

// One call.
fn call<C: GateCell, R: Wait>(
    rt: &R,
    steps: &Steps<C>,
    seat: &mut Holder<C>,
    caller: u32,
    ask: &C::Ask,
) -> Result<C::Answer, OutOfMemory>
    requires own { (seat.old.table_id ≡ steps.now.table_id) × (steps.now.table_id.words ≡ 3) × (steps.now.table_id.slots ≡ 1) }
    requires rests { (seat.old.me.0.stage ≡ Rests) × (seat.old.me.1 ≡ []) × (seat.old.me.0.caller ≡ caller) }
    ensures same { seat.new.table_id ≡ seat.old.table_id }
    ensures ok { IfOk result (λ a. Added seat.old.me (ask.now, a) seat.new.me) }
    ensures fits { IfOk result (λ a. C.fits ask.now a) }
    ensures err { OnErr result (Gave seat.old.me seat.new.me) }
    ensures lacks { OnErr result C.lacks }
{
    let ticket = enter(rt, steps, seat);
    match visit(steps, seat, caller, ask) {
        Ok(answer) => {
            note::<C, Brand>(steps, seat, ask, &answer);
            pass_on(steps, seat, ticket);
            Ok(answer)
        }
        Err(refused) => {
            pass_on(steps, seat, ticket);
            Err(refused)
        }
    }
}

/// A lock of a cell, with a seat for each caller, numbered from 0.
pub struct Gate<C: GateCell> {
    table: Board<C>,
    seats: u32,
    ghost shape: { (table.shared.table_id.words ≡ 3) × (table.shared.table_id.slots ≡ 1) },
}

impl<C: GateCell + Drop> Drop for Gate<C> {
    fn drop(self) {
        let Gate { table, seats: _ } = self;
        drop(table);
    }
}

impl<C: GateCell> Gate<C> {
    /// Waits for the seat's turn, and calls the cell. The call stands in the history with this
    /// caller, after all that the seat had seen, and between the two no call is the caller's.
    /// `OutOfMemory` where the cell lacks memory; no call is added then.
    pub fn act<R: Wait>(
        &self,
        rt: &R,
        me: &mut GateSeat<C>,
        ask: &C::Ask,
    ) -> Result<C::Answer, OutOfMemory>
        requires own { me.old.seat.table_id ≡ self.now.table.shared.table_id }
        ensures own { (me.new.seat.table_id ≡ me.old.seat.table_id) × (me.new.caller ≡ me.old.caller) }
        ensures ok { IfOk result (λ a. Adds me.old.seat.me.0.seen me.old.seat.me.0.places (me.old.caller, (ask.now, a)) me.new.seat.me.0.seen me.new.seat.me.0.places) }
        ensures fits { IfOk result (λ a. C.fits ask.now a) }
        ensures err { OnErr result (Begins me.old.seat.me.0.seen me.new.seat.me.0.seen × (me.new.seat.me.0.places ≡ me.old.seat.me.0.places)) }
        ensures lacks { OnErr result C.lacks }
    {
        call(rt, &self.table.shared, &mut me.seat, me.caller, ask)
    }
}

/// The seat that made the others, and takes them in at the end. It is no caller.
#[derive(Drop)]
pub struct Keeper<C: GateCell> {
    seat: Holder<C>,
    made: u32,
    ghost kept: { seat.me ≡ (keeper_of made [], []) },
}

// Makes the next seat.
fn next_seat<C: GateCell>(steps: &Steps<C>, keeper: &mut Holder<C>, made: u32) -> GateSeat<C>
    requires own { (keeper.old.table_id ≡ steps.now.table_id) × (steps.now.table_id.words ≡ 3) × (steps.now.table_id.slots ≡ 1) }
    requires keeps { keeper.old.me ≡ (keeper_of made [], []) }
    requires few { made + 2 ≤ 2 ^ 32 }
    ensures same { keeper.new.table_id ≡ keeper.old.table_id }
    ensures keeps { keeper.new.me ≡ (keeper_of (made + 1) [], []) }
    ensures seat { (result.seat.table_id ≡ keeper.old.table_id) × (result.caller ≡ made) × (result.seat.me.0.seen ≡ []) × (result.seat.me.0.places ≡ []) }
{
    let seat = steps.split_seat::<Seats>(keeper);
    GateSeat { seat, caller: made }
}

impl<C: GateCell> GateSeat<C> {
    // Is taken in, where it is its turn.
    fn join(self, steps: &Steps<C>, keeper: &mut Holder<C>, made: u32)
        requires own { (keeper.old.table_id ≡ steps.now.table_id) × (self.seat.table_id ≡ steps.now.table_id) × (steps.now.table_id.words ≡ 3) × (steps.now.table_id.slots ≡ 1) }
        requires keeps { keeper.old.me ≡ (keeper_of made keeper.old.me.0.ended, []) }
        requires next { self.caller ≡ length keeper.old.me.0.ended }
        ensures same { keeper.new.table_id ≡ keeper.old.table_id }
        ensures keeps { keeper.new.me ≡ (keeper_of made (keeper.old.me.0.ended ++ (self.seat.me.0.seen, self.seat.me.0.places) ∷ []), []) }
    {
        let GateSeat { seat, caller: _ } = self;
        steps.join_seat::<Seats>(keeper, seat);
    }
}

impl<C: GateCell> Gate<C> {
    /// A gate round this cell, to which no call led, with so many seats, of the callers from 0 on,
    /// and the keeper that takes them in at the end. `OutOfMemory` where the table can't be made.
    pub fn new(
        alloc: Global,
        cell: C,
        seats: u32,
    ) -> Result<(Gate<C>, Vec<GateSeat<C>>, Keeper<C>), OutOfMemory>
    where
        C: Drop,
        requires empty { C.led [] cell }
        ensures count { IfOk result (λ g. (g.0.seats ≡ seats) × (length g.1.items ≡ seats) × (g.2.made ≡ seats) × (g.2.seat.table_id ≡ g.0.table.shared.table_id)) }
        ensures each { IfOk result (λ g. AllAt (λ k s. (s.seat.table_id ≡ g.0.table.shared.table_id) × (s.caller ≡ k) × (s.seat.me.0.seen ≡ []) × (s.seat.me.0.places ≡ [])) g.1.items) }
    {
        let count = seats as usize;
        let Ok(mut row) = Vec::with_capacity(alloc, count) else {
            return Err(AllocError);
        };
        let Ok(mut cells) = Vec::with_capacity(alloc, 1) else {
            return Err(AllocError);
        };
        cells.push_reserved(cell);
        let Ok((table, mut keeper)) = Table::new(alloc, &[0, 0, 0], cells, &()) else {
            return Err(AllocError);
        };
        for k in 0..seats {
            row.push_reserved(next_seat(&table.shared, &mut keeper, k));
        }
        let gate = Gate { table, seats };
        let keeper = Keeper {
            seat: keeper,
            made: seats,
        };
        Ok((gate, row, keeper))
    }

    /// The cell. One history led to it: there each caller's calls stand at the places that its seat
    /// has seen, in their order and each once, and no others. All seats of this gate are given back,
    /// in the order of their callers.
    pub fn close(self, seats: Vec<GateSeat<C>>, keeper: Keeper<C>) -> C
        requires keeper { (keeper.made ≡ self.seats) × (keeper.seat.table_id ≡ self.table.shared.table_id) }
        requires all { length seats.items ≡ self.seats }
        requires own { AllAt (λ k s. (s.seat.table_id ≡ self.table.shared.table_id) × (s.caller ≡ k)) seats.items }
        ensures closed { IsClosed C.led (λ s. s.seat.me.0.seen) (λ s. s.seat.me.0.places) seats.items result }
    {
        let Gate { table, seats: made } = self;
        let Keeper {
            seat: mut keeper,
            made: _,
        } = keeper;
        for seat in seats {
            seat.join(&table.shared, &mut keeper, made);
        }
        let mut closed = table.close_with(keeper);
        let cell = closed.take(0);
        closed.free();
        cell
    }
}
