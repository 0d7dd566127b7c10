//! Links that meet.
ghost use Rattle.std.specs.Prelude.{◌≡◌, ◌≢◌, [], IfOk, IfErr};
ghost use Rattle.repo_shared.specs.Seats.{IsAt};
ghost use Rattle.repo_shared.specs.Links.{repo_of, number_of, knowledge};
ghost use Rattle.repo_shared.specs.Meets.{AreApart, HasLearnt, HaveMet, IsLongerOf, HasMet, IsLikeBefore};

use crate::board::{Board, BoardSeat};
use crate::handles::Link;
use crate::locking::COUNT;
use crate::plays::{Count, Learn, Tell};
use dp_base::{Grows, Memory};
use key_elements::ElementList;

// The seat learns what another knows, of which nothing is left.
pub(crate) fn take_in<K>(board: &Board<K>, seat: &mut BoardSeat<K>, other: BoardSeat<K>)
    requires table { IsAt board.now.shared.table_id seat.old }
    requires other { (other.table_id ≡ seat.old.table_id) × (other.me.1 ≡ []) }
    ensures { HasLearnt other seat.old seat.new }
{
    board.shared.join_seat::<Learn>(seat, other);
    board.shared.load::<Count>(seat, COUNT);
}

// The seat learns what another knows.
fn learn<K>(board: &Board<K>, seat: &mut BoardSeat<K>, other: &mut BoardSeat<K>)
    requires table { IsAt board.now.shared.table_id seat.old }
    requires other { (other.old.table_id ≡ seat.old.table_id) × (other.old.me.1 ≡ []) }
    ensures learnt { HasLearnt other.old seat.old seat.new }
    ensures other { (other.new.table_id ≡ other.old.table_id) × (other.new.me ≡ other.old.me) }
{
    let told = board.shared.split_seat::<Tell>(other);
    take_in(board, seat, told);
}

// Each of two seats learns what the other knows.
fn learn_each<K>(board: &Board<K>, a: &mut BoardSeat<K>, b: &mut BoardSeat<K>)
    requires table { IsAt board.now.shared.table_id a.old }
    requires other { (b.old.table_id ≡ a.old.table_id) × (b.old.me.1 ≡ []) × (a.old.me.1 ≡ []) }
    ensures { HaveMet a.old b.old a.new b.new }
{
    learn(board, a, b);
    learn(board, b, a);
}

// The longer of two lists.
fn longer_of(a: &ElementList, b: &ElementList) -> Result<ElementList, Memory>
    ensures { IfOk result (IsLongerOf a.now b.now) }
{
    if a.len() < b.len() {
        b.share()
    } else {
        a.share()
    }
}

/// Two links of one repository meet: both then have seen the longer of the two lists, which extends
/// the other. They share no place of their appends.
pub fn meet<K: Drop>(a: &mut Link<K>, b: &mut Link<K>) -> Result<(), Memory>
    requires repo { repo_of a.old ≡ repo_of b.old }
    requires numbers { number_of a.old ≢ number_of b.old }
    ensures one { IfOk result (λ _. b.new.seen ≡ a.new.seen) }
    ensures longer { IfOk result (λ _. HasMet a.old.seen b.old.seen a.new.seen) }
    ensures apart { IfOk result (λ _. AreApart (knowledge a.new).mine (knowledge b.new).mine) }
    ensures same { IsLikeBefore a.old a.new × IsLikeBefore b.old b.new }
    ensures memory { IfErr result (λ _. (a.new.seen ≡ a.old.seen) × (b.new.seen ≡ b.old.seen)) }
{
    let first = longer_of(&a.seen, &b.seen)?;
    let second = first.share()?;
    learn_each(&a.board, &mut a.seat, &mut b.seat);
    a.seen = first;
    b.seen = second;
    Ok(())
}
