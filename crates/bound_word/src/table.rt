//! The word.
ghost use Rattle.std.specs.Prelude.{◌≡◌, ◌≤◌, min, All, IfOk};
ghost use Rattle.bound_word.specs.Views.{least, first_view, with_seen, with_post, after_split, split_off, joined};

use crate::seat::BoundSeat;
use crate::steps::{BoundRule, CountStep, JoinStep, LoadStep, LowerStep, SplitStep};
use crate::view::{Opening, View};
use atomic_table::Table;
use no_memory::NoMemory;
use std::alloc::Global;
use std::marker::Model;

/// The word that holds the best cost. Each load, `fetch_min`, split and join is an atomic step of its
/// own.
#[derive(Drop)]
pub struct BoundTable {
    table: Table<u8, View, Opening, BoundRule, Global>,
}

impl Model for BoundTable {
    ghost use Rattle.std.specs.Prelude.{◌≡◌};
    ghost use Rattle.bound_word.specs.Seats.{Opened};

    ghost Value = { Opened };

    ghost view = { λ t. record { table = t.table.shared.table_id; about = t.table.shared.key } };

    ghost invariant = { λ t. (t.table.shared.table_id.words ≡ 1) × (t.table.shared.table_id.slots ≡ 0) };
}

impl BoundTable {
    /// A table that holds the opening number, and its first seat, which holds all parts, has seen that
    /// number and has posted nothing. Refuses want of memory alone.
    pub fn new(alloc: Global, opening: u64, parts: u8) -> Result<(BoundTable, BoundSeat), NoMemory>
        requires { 1 ≤ parts }
        ensures about { IfOk result (λ made. made.0.about ≡ record { number = opening; parts = parts }) }
        ensures table { IfOk result (λ made. made.1.table ≡ made.0.table) }
        ensures view { IfOk result (λ made. made.1.view ≡ first_view (record { number = opening; parts = parts })) }
    {
        let about = Opening {
            number: opening,
            parts: parts as u64,
        };
        let (table, seat) = Table::of_words(alloc, &[opening], &about)?;
        Ok((BoundTable { table }, BoundSeat { seat, parts }))
    }

    /// The least number that the seat, one of this table, has then seen. It is at most the opening
    /// number and at most all that the seat had seen or posted; where the seat holds all parts it is
    /// the least of the opening number and of what the seat posted. Takes no memory.
    pub fn load(&self, seat: &mut BoundSeat) -> u64
        requires { seat.old.table ≡ self.now.table }
        ensures table { seat.new.table ≡ seat.old.table }
        ensures view { seat.new.view ≡ with_seen seat.old.view result }
        ensures seen { result ≤ seat.old.view.seen }
        ensures opening { result ≤ seat.old.view.opening }
        ensures posted { All (λ number. result ≤ number) seat.old.view.posted }
        ensures alone { seat.old.view.parts ≡ seat.old.view.whole → result ≡ least seat.old.view.opening seat.old.view.posted }
    {
        self.table.shared.load::<LoadStep>(&mut seat.seat, 0)
    }

    /// Posts a cost by a seat of this table, so that the word is no greater, and gives the number that
    /// stood there before. That is at most the opening number and at most all that the seat had seen
    /// or posted before; where the seat holds all parts it is the least of the opening number and of
    /// what the seat had posted. Takes no memory.
    pub fn lower(&self, seat: &mut BoundSeat, cost: u64) -> u64
        requires { seat.old.table ≡ self.now.table }
        ensures table { seat.new.table ≡ seat.old.table }
        ensures view { seat.new.view ≡ with_post seat.old.view (min result cost) cost }
        ensures seen { result ≤ seat.old.view.seen }
        ensures opening { result ≤ seat.old.view.opening }
        ensures posted { All (λ number. result ≤ number) seat.old.view.posted }
        ensures alone { seat.old.view.parts ≡ seat.old.view.whole → result ≡ least seat.old.view.opening seat.old.view.posted }
    {
        self.table
            .shared
            .fetch_min::<LowerStep>(&mut seat.seat, 0, cost)
    }

    /// A new seat with one part of this one, which is of this table and holds two parts or more. The
    /// new seat has seen what this one has, and has posted nothing. Takes no memory.
    pub fn split(&self, seat: &mut BoundSeat) -> BoundSeat
        requires table { seat.old.table ≡ self.now.table }
        requires parts { 2 ≤ seat.old.view.parts }
        ensures table { (seat.new.table ≡ seat.old.table) × (result.table ≡ seat.old.table) }
        ensures left { seat.new.view ≡ after_split seat.old.view }
        ensures right { result.view ≡ split_off seat.old.view }
    {
        let new = self.table.shared.split_seat::<SplitStep>(&mut seat.seat);
        seat.parts -= 1;
        BoundSeat {
            seat: new,
            parts: 1,
        }
    }

    /// Makes one seat of two of this table. It then holds the parts of both, has seen the less of both
    /// and has posted what both posted. Takes no memory.
    pub fn join(&self, seat: &mut BoundSeat, other: BoundSeat)
        requires { (seat.old.table ≡ self.now.table) × (other.table ≡ self.now.table) }
        ensures table { seat.new.table ≡ seat.old.table }
        ensures view { seat.new.view ≡ joined seat.old.view other.view }
    {
        let BoundSeat {
            seat: other_seat,
            parts,
        } = other;
        self.table
            .shared
            .join_seat::<JoinStep>(&mut seat.seat, other_seat);
        // tells that the sum of the parts is at most all parts, so no condition has to
        self.table.shared.load::<CountStep>(&mut seat.seat, 0);
        seat.parts += parts;
    }

    /// The least of the opening number and of all that was posted, by the seat and by those joined
    /// into it. The seat is of this table and holds all parts, so every other seat was joined. Takes
    /// no memory.
    pub fn close(self, seat: BoundSeat) -> u64
        requires table { seat.table ≡ self.table }
        requires parts { seat.view.parts ≡ self.about.parts }
        ensures { result ≡ least self.about.number seat.view.posted }
    {
        let BoundTable { table } = self;
        let BoundSeat { seat, parts: _ } = seat;
        let closed = table.close_with(seat);
        let word = closed.word(0);
        closed.free();
        word
    }
}
