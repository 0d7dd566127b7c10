//! What makes a turn, and its four calls.
ghost use Rattle.std.specs.Prelude.{◌≡◌, ◌≢◌, ◌+◌, ◌<◌, ◌≤◌, true, false, max, length, Some, IfOk, IfErr, All};
ghost use Rattle.flight_turn.specs.Seats.{IsSeatOf, IsStep, StaysAtTurn, StaysAtWant, HasTaken};
ghost use Rattle.flight_turn.specs.Seats.{IsMaker, IsFresh, AreFresh, AreNew};
ghost use Rattle.flight_turn.specs.Seats.{number, holds, left, read, recorded, raised_to, seats_of, turn_mark};

use crate::plays::{Ask, GiveBack, Make, Raise, TakeIn, Try};
use crate::rule::{About, Place};
use crate::seat::TurnSeat;
use crate::turn::{Busy, Turn};
use atomic_table::Table;
use dp_base::{Kin, Memory};
use std::alloc::Global;
use std::snapshot::Snapshot;

/// Word 0 of the table.
const TURN: usize = 0;

/// Word 1 of the table.
const WANT: usize = 1;

/// The one slot of the table.
const FLIGHT: usize = 0;

impl<F: Kin + Drop> Turn<F> {
    /// A turn with this flight, which nobody holds, and its seats, numbered from 1 in their order.
    /// There are 1 to 64.
    pub fn new(alloc: Global, flight: F, seats: u32) -> Result<(Turn<F>, Vec<TurnSeat<F>>), Memory>
        requires { (1 ≤ seats) × (seats ≤ 64) }
        ensures seats { IfOk result (λ r. length r.1.items ≡ seats) }
        ensures each { IfOk result (λ r. All (IsSeatOf F.mark r.0) r.1.items) }
        ensures fresh { IfOk result (λ r. AreNew r.1.items) }
        ensures mark { IfOk result (λ r. turn_mark F.mark r.0 ≡ F.mark flight) }
        ensures numbers { IfOk result (λ r. seats_of r.0 ≡ seats) }
    {
        let seats = u64::from(seats);
        let about = About {
            flight: Snapshot::of(&flight),
            seats,
        };
        let mut slots = Vec::with_capacity(alloc, 1)?;
        slots.push(Some(flight))?;
        let Ok((table, maker)) = Table::new(alloc, &[0, 0], slots, &about) else {
            return Err(Memory);
        };
        let turn = Turn { table };
        let made = turn.seat_all(alloc, maker, seats)?;
        Ok((turn, made))
    }

    // The seat that makes the others goes into the last of them.
    fn seat_all(
        &self,
        alloc: Global,
        mut maker: Place<F>,
        seats: u64,
    ) -> Result<Vec<TurnSeat<F>>, Memory>
        requires seats { (1 ≤ seats) × (seats ≤ 64) × (seats_of self.now ≡ seats) }
        requires maker { IsMaker self.now 1 maker }
        ensures len { IfOk result (λ r. length r.items ≡ seats) }
        ensures each { IfOk result (λ r. AreFresh self.now r.items) }
    {
        let mut made = Vec::with_capacity(alloc, seats as usize)?;
        for number in 1..seats {
            made.push(self.make(&mut maker, number))?;
        }
        let mut last = self.make(&mut maker, seats);
        self.table
            .shared
            .join_seat::<TakeIn>(&mut last.place, maker);
        made.push(last)?;
        Ok(made)
    }

    fn make(&self, maker: &mut Place<F>, number: u64) -> TurnSeat<F>
        requires number { (1 ≤ number) × (number ≤ seats_of self.now) }
        requires maker { IsMaker self.now number maker.old }
        ensures maker { IsMaker self.now (number + 1) maker.new }
        ensures made { IsFresh self.now number result }
    {
        TurnSeat {
            place: self.table.shared.split_seat::<Make>(maker),
            number,
        }
    }

    /// Tries to take the turn, in one step that waits for nobody.
    #[tactic(auto, using(crate::proofs::Keeps::alike_mark))]
    pub fn try_take(&self, seat: &mut TurnSeat<F>) -> Result<F, Busy>
        requires seat { IsSeatOf F.mark self.now seat.old }
        ensures seat { IsSeatOf F.mark self.now seat.new }
        ensures same { IsStep seat.old seat.new × StaysAtWant seat.old seat.new }
        ensures taken { IfOk result (λ _. (read seat.new ≡ 0) × HasTaken seat.old seat.new) }
        ensures mark { IfOk result (λ flight. F.mark flight ≡ turn_mark F.mark self.now) }
        ensures busy { IfErr result (λ b. (read seat.new ≡ b.holder) × (0 < b.holder)) }
        ensures refused { IfErr result (λ _. holds seat.new ≡ holds seat.old) }
        ensures holder { IfErr result (λ b. b.holder ≤ seats_of self.now) }
        ensures another { IfErr result (λ b. holds seat.old ≡ false → b.holder ≢ number seat.old) }
        ensures itself { IfErr result (λ b. holds seat.old ≡ true → b.holder ≡ number seat.old) }
    {
        let shared = &self.table.shared;
        let found = shared.compare_exchange::<Try>(&mut seat.place, TURN, 0, seat.number);
        if found != 0 {
            return Err(Busy { holder: found });
        }
        Ok(shared.exchange(&mut seat.place, FLIGHT, None).unwrap())
    }

    /// Gives the turn back, with its flight.
    pub fn give(&self, seat: &mut TurnSeat<F>, flight: F)
        requires seat { IsSeatOf F.mark self.now seat.old }
        requires held { holds seat.old ≡ true }
        requires mark { F.mark flight ≡ turn_mark F.mark self.now }
        ensures seat { IsSeatOf F.mark self.now seat.new }
        ensures same { IsStep seat.old seat.new × StaysAtWant seat.old seat.new }
        ensures read { read seat.new ≡ read seat.old }
        ensures given { (holds seat.new ≡ false) × (left seat.new ≡ Some flight) }
    {
        let shared = &self.table.shared;
        let _empty = shared.exchange(&mut seat.place, FLIGHT, Some(flight));
        shared.store::<GiveBack>(&mut seat.place, TURN, 0);
    }

    /// Raises the want to the number, where it is below it. The want is 0 or a number to which some
    /// seat raised it.
    pub fn raise_want(&self, seat: &mut TurnSeat<F>, n: u64)
        requires seat { IsSeatOf F.mark self.now seat.old }
        ensures seat { IsSeatOf F.mark self.now seat.new }
        ensures same { IsStep seat.old seat.new × StaysAtTurn seat.old seat.new }
        ensures raised { (n ≤ recorded seat.new) × (recorded seat.old ≤ recorded seat.new) }
        ensures by { raised_to seat.new ≡ max n (raised_to seat.old) }
        ensures alone { seats_of self.now ≡ 1 → recorded seat.new ≡ raised_to seat.new }
    {
        let shared = &self.table.shared;
        shared.fetch_max::<Raise>(&mut seat.place, WANT, n);
    }

    /// The want: no less than this seat raised it to or read before. It is 0 or a number to which
    /// some seat raised it.
    pub fn want(&self, seat: &mut TurnSeat<F>) -> u64
        requires seat { IsSeatOf F.mark self.now seat.old }
        ensures seat { IsSeatOf F.mark self.now seat.new }
        ensures same { IsStep seat.old seat.new × StaysAtTurn seat.old seat.new }
        ensures want { (result ≡ recorded seat.new) × (recorded seat.old ≤ result) }
        ensures by { (raised_to seat.new ≡ raised_to seat.old) × (raised_to seat.old ≤ result) }
        ensures alone { seats_of self.now ≡ 1 → result ≡ raised_to seat.new }
    {
        self.table.shared.load::<Ask>(&mut seat.place, WANT)
    }
}
