ghost use Rattle.flight_turn.specs.Seats.{IsSeatOf};

use crate::{Busy, Turn, TurnSeat};
use dp_base::Kin;
use std::sync::atomic::{AtomicU64, Ordering};
use std::test::Fail;
use std::thread;

/// A flight that counts how often it was taken.
#[derive(Debug, Drop)]
struct Tally {
    owner: u64,
    takes: u64,
}

impl Kin for Tally {
    ghost use Rattle.std.specs.Prelude.{ℕ};

    ghost Mark = { ℕ };

    ghost mark = { λ t. t.owner };
}

// One seat takes and gives while the other is told by whom the turn is held.
#[test]
fn one_seat_after_another(rt: HostRuntime) -> Result<(), Fail> {
    let tally = Tally { owner: 7, takes: 0 };
    let (turn, mut seats) = Turn::new(rt.alloc(), tally, 2)?;
    let (Some(mut second), Some(mut first)) = (seats.pop(), seats.pop()) else {
        panic!(rt; "there are two seats")
    };
    let Ok(mut flight) = turn.try_take(&mut first) else {
        panic!(rt; "the turn was free")
    };
    let busy = turn.try_take(&mut second);
    flight.takes = 5;
    turn.give(&mut first, flight);
    let Ok(flight) = turn.try_take(&mut second) else {
        panic!(rt; "the turn was given")
    };
    let takes = flight.takes;
    let back = turn.try_take(&mut first);
    turn.give(&mut second, flight);
    assert_eq!(rt; takes, 5);
    assert!(rt; matches!(busy, Err(Busy { holder: 1 })));
    assert!(rt; matches!(back, Err(Busy { holder: 2 })));
    let text = format!(in rt.alloc(); "{}", Busy { holder: 2 })?;
    assert_eq!(rt; text.as_str(), "seat 2 holds the turn");
    Ok(())
}

// The greater number stays, whoever raised it.
#[test]
fn the_want_is_raised_by_two_seats(rt: HostRuntime) -> Result<(), Fail> {
    let tally = Tally { owner: 7, takes: 0 };
    let (turn, mut seats) = Turn::new(rt.alloc(), tally, 2)?;
    let (Some(mut second), Some(mut first)) = (seats.pop(), seats.pop()) else {
        panic!(rt; "there are two seats")
    };
    let none = turn.want(&mut first);
    turn.raise_want(&mut first, 4);
    let four = turn.want(&mut second);
    turn.raise_want(&mut second, 9);
    turn.raise_want(&mut first, 6);
    let nine = turn.want(&mut first);
    assert_eq!(rt; (none, four, nine), (0, 4, 9));
    Ok(())
}

const SEATS: u32 = 8;

const TAKES: u64 = 1_250;

/// What the holders count, who should be alone.
#[derive(Drop)]
struct Inside {
    now: AtomicU64,
    clashes: AtomicU64,
    takes: AtomicU64,
}

fn take_once(turn: &Turn<Tally>, seat: &mut TurnSeat<Tally>, inside: &Inside)
    requires { IsSeatOf (λ t. t.owner) turn.now seat.old }
    ensures { IsSeatOf (λ t. t.owner) turn.now seat.new }
{
    for _ in 0..u64::MAX {
        if let Ok(mut flight) = turn.try_take(seat) {
            if inside.now.fetch_add(1, Ordering::SeqCst) > 0 {
                inside.clashes.fetch_add(1, Ordering::SeqCst);
            }
            flight.takes = flight.takes.wrapping_add(1);
            inside.takes.fetch_max(flight.takes, Ordering::SeqCst);
            inside.now.fetch_sub(1, Ordering::SeqCst);
            turn.give(seat, flight);
            return;
        }
    }
}

fn take_often(turn: &Turn<Tally>, seat: &mut TurnSeat<Tally>, inside: &Inside)
    requires { IsSeatOf (λ t. t.owner) turn.now seat.old }
    ensures { IsSeatOf (λ t. t.owner) turn.now seat.new }
{
    for _ in 0..TAKES {
        take_once(turn, seat, inside);
    }
}

// Eight threads take one turn 10,000 times. The holder alone writes to the flight.
#[test]
fn eight_seats_race_for_one_turn(rt: HostRuntime) -> Result<(), Fail> {
    let tally = Tally { owner: 7, takes: 0 };
    let (turn, mut seats) = Turn::new(rt.alloc(), tally, SEATS)?;
    let inside = Inside {
        now: AtomicU64::new(0),
        clashes: AtomicU64::new(0),
        takes: AtomicU64::new(0),
    };
    let (shared, counts) = (&turn, &inside);
    let race = |_: usize, seat: &mut TurnSeat<Tally>|
        requires { IsSeatOf (λ t. t.owner) shared.now seat.old }
    { take_often(shared, seat, counts) };
    thread::for_each_mut(&rt, seats.as_mut_slice(), SEATS as usize, &race);
    let clashes = inside.clashes.load(Ordering::SeqCst);
    let takes = inside.takes.load(Ordering::SeqCst);
    assert_eq!(rt; (clashes, takes), (0, 10_000));
    Ok(())
}
