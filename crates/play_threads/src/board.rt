//! The words, the slot and the views, and what each step tells.
ghost use Rattle.std.specs.Prelude.{[]};
ghost use Rattle.play_threads.specs.Board.{Kept, keeper, drew, looked, noted, passed, made_one, new_seat, took_in, nobody};

use crate::GateCell;
use atomic_table::{Join, Play, Split, TableRule};
use std::collections::LinkedList;
use std::marker::{Brand, PhantomData};

/// Where a seat is in a call.
pub enum Stage {
    /// It makes the seats, and takes them in at the end.
    Keeps,
    /// It is at no call.
    Rests,
    /// It has a ticket, and waits for its turn.
    Waits,
    /// It has the cell.
    Inside,
    /// It was taken in.
    Spent,
}

/// What a seat knows. No value of it is made.
pub struct View<E> {
    pub stage: Stage,
    pub caller: u64,
    /// The ticket of its call, where it waits or is inside.
    pub ticket: u64,
    /// The history so far, and the places of the caller's own calls in it.
    pub seen: LinkedList<(u64, E)>,
    pub places: LinkedList<u64>,
    /// How many seats the keeper made, and what those had seen that it took in.
    pub made: u64,
    pub ended: LinkedList<(LinkedList<(u64, E)>, LinkedList<u64>)>,
}

/// The rule of a gate's table: what ties the words, the slot and what the seats know.
pub struct GateRule<C> {
    cell: PhantomData<C>,
}

impl<C: GateCell> TableRule<C, View<(C::Ask, C::Answer)>, ()> for GateRule<C> {
    ghost holds = { λ _. Kept C.led };

    ghost first = { λ _. keeper 0 [] };
}

pub(crate) struct Draws;

impl<S, E> Play<S, View<E>> for Draws {
    ghost then = { drew };
}

pub(crate) struct Looks<C> {
    cell: PhantomData<C>,
}

impl<C: GateCell> Play<C, View<(C::Ask, C::Answer)>> for Looks<C> {
    ghost then = { looked C.led };
}

/// Which call is noted. Each call of `note` picks it.
pub trait Noted<E> {
    /// It is this one.
    ghost is: { E → Type 0 };
}

impl<E> Noted<E> for Brand {
    ghost is = { λ _. Unit {0} };
}

pub(crate) struct Notes<J> {
    of: PhantomData<J>,
}

impl<S, E, J: Noted<E>> Play<S, View<E>> for Notes<J> {
    ghost then = { noted J.is };
}

pub(crate) struct Passes;

impl<S, E> Play<S, View<E>> for Passes {
    ghost then = { passed };
}

pub(crate) struct Seats;

impl<E> Split<View<E>> for Seats {
    ghost left = { made_one };

    ghost right = { new_seat };
}

impl<E> Join<View<E>> for Seats {
    ghost both = { took_in };

    ghost spent = { nobody };
}
