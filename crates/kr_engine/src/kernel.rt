//! What lies under the lock.
ghost use Rattle.std.specs.Prelude.{◌≡◌, ◌+◌, ◌<◌, ◌≤◌, ◌∷◌, ◌++◌, [], true, false, length, None, Some, Err, IfOk, IfErr, OnErr, OnOk, IsTrue, slice_set};
ghost use Rattle.kr_model.specs.Map.{IsMap};
ghost use Rattle.kr_model.specs.State.{start};
ghost use Rattle.kr_model.specs.Step.{step, is_end as ends, may_lack_memory};
ghost use Rattle.kr_model.specs.Run.{is_granted};
ghost use Rattle.kr_records.specs.declared.faults.EngineFault.TheVariants as fault;
ghost use Rattle.kr_records.specs.Faults.{TellsReply, is_of_attempt, is_of_begin};
ghost use Rattle.kr_records.specs.Histories.{IsHistory, AreOfOneSeat, IsSerialHistory, entry, event};
ghost use Rattle.kr_records.specs.Numbers.{is_begun as begun_by_seat, was_begun as begun_by_some};
ghost use Rattle.kr_records.specs.Cores.{CountsAre, LastAreOwn, LastAre, AreOfSeats, AreBegun, AreBegunByOne, seat_at, no_seat, is_active as active_in, freed, unended, without};

use crate::writes::write;
use kr_index::Tree;
use kr_locks::Buckets;
use kr_machine::Stepper;
use kr_model::{Event, Op, Reply, Txn, is_end};
use kr_protocol::Covered;
use kr_records::{
    EngineFault, EngineName, Entry, Numbers, PlaceRow, Receipt, SeatNote, Seen, forget,
};
use std::alloc::{AllocError, Global};
use std::marker::{Model, PhantomData};

/// All that lies under the lock: the machine, and what is known of the row's used places, of the numbers that were begun,
/// of the seats and of the operations that wait.
#[derive(Drop)]
pub struct Core<P: Covered, K: EngineName> {
    pub(crate) alloc: Global,
    pub(crate) machine: Stepper<P, Tree, Buckets>,
    /// What is known of the used places.
    pub(crate) history: Seen<K>,
    /// The numbers that were begun, in order.
    pub(crate) numbers: Numbers,
    /// What is noted of each seat, by its number.
    pub(crate) seats: Vec<SeatNote>,
    /// How many places are kept for the ends of transactions.
    pub(crate) kept: usize,
    /// The operations that wait, at most one for each transaction.
    pub(crate) waiting: Vec<Event>,
    pub(crate) of: PhantomData<K>,
}

impl<P: Covered, K: EngineName> Model for Core<P, K> {
    ghost use Rattle.kr_records.specs.Cores.{Shown, IsCore};
    ghost use Rattle.kr_records.specs.Numbers.{begun_by};

    ghost Value = { Shown P };

    ghost view = { λ c. record { protocol = c.machine.protocol; state = c.machine.state; entries = c.history; numbers = begun_by c.numbers; seats = c.seats.items; kept = c.kept; waiting = c.waiting.items } };

    ghost invariant = { λ c. IsCore K.table K.opening K.places (P.table c.machine.protocol) c.machine.pending c.machine.state c.history c.numbers c.seats.items c.kept };
}

impl<P: Covered, K: EngineName> Core<P, K> {
    /// A core without seats and history, for this protocol, this row and an opening whose keys rise; or an error where a
    /// growth is refused.
    pub fn new(
        alloc: Global,
        protocol: P,
        opening: &[(u64, u64)],
        row: &PlaceRow,
    ) -> Result<Core<P, K>, AllocError>
        requires row { row.now ≡ K.places }
        requires opening { opening.now ≡ K.opening }
        requires table { P.table protocol ≡ K.table }
        requires is_map { IsMap opening.now }
        ensures { IfOk result (λ c. c ≡ record { protocol = protocol; state = start opening.now; entries = []; numbers = []; seats = []; kept = 0; waiting = [] }) }
    {
        let index = Tree::from_pairs(alloc, opening)?;
        Ok(Core {
            alloc,
            machine: Stepper::new(alloc, protocol, index, Buckets::new(alloc)),
            history: Seen::new(row),
            numbers: Numbers::new(alloc),
            seats: Vec::new(alloc),
            kept: 0,
            waiting: Vec::new(alloc),
            of: PhantomData,
        })
    }

    /// What holds of every core. Its protocol's table is the engine's; the used places are a run of granted steps under it
    /// from the opening map, and the machine is where it ends; all entries of one transaction are of one seat, and each
    /// seat's count is the number of its entries; the last number that is noted of a seat is the number that it began last,
    /// and each number was begun by one seat that was given, and each entry's transaction by the entry's seat; the main
    /// theorem holds of the run, so the transactions that committed are serializable in commit order; and one place is kept for each number
    /// whose transaction hasn't ended, with room for all of them in the row.
    pub fn lemma_invariant(&self)
        ensures table { P.table self.now.protocol ≡ K.table }
        ensures run { IsHistory K.table K.opening self.now.entries self.now.state }
        ensures one_seat { AreOfOneSeat self.now.entries }
        ensures counts { CountsAre self.now.seats self.now.entries }
        ensures last_own { LastAreOwn self.now.numbers self.now.seats }
        ensures lasts { LastAre self.now.numbers self.now.seats }
        ensures given { AreOfSeats self.now.numbers self.now.seats }
        ensures begun { AreBegun self.now.numbers self.now.entries }
        ensures by_one { AreBegunByOne self.now.numbers }
        ensures serial { IsSerialHistory K.opening self.now.entries self.now.state }
        ensures kept { self.now.kept ≡ unended self.now.state self.now.numbers }
        ensures room { length self.now.entries + self.now.kept ≤ length K.places }
    {
        self.numbers.lemma_distinct();
    }

    /// Gives a new seat: its number, from 0 in the order in which they are given. Where a growth is refused it answers an
    /// error, and nothing has changed.
    pub fn new_seat(&mut self) -> Result<usize, AllocError>
        ensures seat { IfOk result (λ k. k ≡ length self.old.seats) }
        ensures ok { OnOk result (self.new ≡ record self.old { seats = self.old.seats ++ no_seat ∷ [] }) }
        ensures err { OnErr result (self.new ≡ self.old) }
    {
        let number = self.seats.len();
        self.seats.push(SeatNote {
            count: 0,
            last: None,
            left: false,
        })?;
        Ok(number)
    }

    /// Notes the number as begun by the seat, and keeps one place of the row and the memory of one entry for the
    /// transaction's end. Machine and history stay.
    ///
    /// The first of these that applies is answered, and nothing has changed:
    ///
    /// - `Open`: the number that the seat began last is active.
    /// - `Taken`: the number was begun before, by whichever seat.
    /// - `RowFull`: the used and the kept places are all places of the row.
    /// - `Memory`: a growth was refused.
    pub fn begin(&mut self, row: &PlaceRow, seat: usize, txn: Txn) -> Result<(), EngineFault>
        requires row { row.now ≡ K.places }
        requires seat { seat < length self.old.seats }
        ensures ok { OnOk result (self.new ≡ record self.old { numbers = self.old.numbers ++ (txn, seat) ∷ []; kept = self.old.kept + 1; seats = self.new.seats }) }
        ensures seats { OnOk result (self.new.seats ≡ slice_set self.old.seats seat (record { count = (seat_at self.old.seats seat).count; last = Some txn; left = (seat_at self.old.seats seat).left })) }
        ensures err { OnErr result (self.new ≡ self.old) }
        ensures open { active_in self.old.state (seat_at self.old.seats seat).last ≡ true → result ≡ Err fault.Open }
        ensures only_open { result ≡ Err fault.Open → active_in self.old.state (seat_at self.old.seats seat).last ≡ true }
        ensures taken { active_in self.old.state (seat_at self.old.seats seat).last ≡ false → begun_by_some self.old.numbers txn ≡ true → result ≡ Err fault.Taken }
        ensures only_taken { result ≡ Err fault.Taken → begun_by_some self.old.numbers txn ≡ true }
        ensures full { active_in self.old.state (seat_at self.old.seats seat).last ≡ false → begun_by_some self.old.numbers txn ≡ false → length self.old.entries + self.old.kept ≡ length K.places → result ≡ Err fault.RowFull }
        ensures only_full { result ≡ Err fault.RowFull → length self.old.entries + self.old.kept ≡ length K.places }
        ensures faults { IfErr result (λ f. is_of_begin f ≡ true) }
    {
        if self.is_open(seat) {
            return Err(EngineFault::Open);
        }
        if self.numbers.has(txn) {
            return Err(EngineFault::Taken);
        }
        let place = self.history.len();
        let places = row.len();
        if self.kept >= places - place {
            return Err(EngineFault::RowFull);
        }
        let Ok(end) = Box::new(
            self.alloc,
            Entry {
                seat,
                event: Event {
                    txn,
                    op: Op::Commit,
                },
                reply: Reply::Committed,
            },
        ) else {
            return Err(EngineFault::Memory);
        };
        match self.numbers.add(txn, seat, end) {
            Ok(()) => {
                self.kept += 1;
                self.seats[seat].last = Some(txn);
                Ok(())
            }
            Err(_) => Err(EngineFault::Memory),
        }
    }

    /// Attempts an operation of a transaction that the seat began: one step of the machine, with the write of its entry at
    /// the first place that isn't used, or neither. An operation of the transaction that was noted as waiting is so no
    /// more, whatever is answered.
    ///
    /// At a fault nothing else has changed:
    ///
    /// - `RowFull`: the used and the kept places are all places, and the operation is neither commit nor abort.
    /// - `Refused`: the machine refused the step or blocked it, with this reply.
    /// - `Memory`: a growth was refused. The end of an active transaction never answers so.
    /// - `PlaceTaken`: the place refused the write of a step that would be granted.
    pub fn perform(
        &mut self,
        row: &PlaceRow,
        seat: usize,
        txn: Txn,
        op: Op,
    ) -> Result<Receipt, EngineFault>
        requires row { row.now ≡ K.places }
        requires seat { seat < length self.old.seats }
        requires begun { begun_by_seat self.old.numbers txn seat ≡ true }
        ensures entry { IfOk result (λ r. self.new.entries ≡ self.old.entries ++ entry seat (event txn op) r.reply ∷ []) }
        ensures receipt { IfOk result (λ r. (r.place ≡ length self.old.entries) × (r.event ≡ event txn op) × (r.reply ≡ (step (P.table self.old.protocol) self.old.state txn op).0) × (is_granted r.reply ≡ true)) }
        ensures small { IfOk result (λ r. r.place < 1000000) }
        ensures state { OnOk result (self.new.state ≡ (step (P.table self.old.protocol) self.old.state txn op).1) }
        ensures others { (self.new.protocol ≡ self.old.protocol) × (self.new.numbers ≡ self.old.numbers) × (self.new.waiting ≡ without txn self.old.waiting) }
        ensures seats { OnOk result (self.new.seats ≡ slice_set self.old.seats seat (record { count = (seat_at self.old.seats seat).count + 1; last = (seat_at self.old.seats seat).last; left = (seat_at self.old.seats seat).left })) }
        ensures kept { OnOk result (self.old.kept ≡ self.new.kept + freed op) }
        ensures err { OnErr result (self.new ≡ record self.old { waiting = without txn self.old.waiting }) }
        ensures refused { IfErr result (λ f. TellsReply f (step (P.table self.old.protocol) self.old.state txn op).0) }
        ensures faults { IfErr result (λ f. is_of_attempt f ≡ true) }
        ensures taken { result ≡ Err fault.PlaceTaken → is_granted (step (P.table self.old.protocol) self.old.state txn op).0 ≡ true }
        ensures full { length self.old.entries + self.old.kept ≡ length K.places → ends op ≡ false → result ≡ Err fault.RowFull }
        ensures only_full { result ≡ Err fault.RowFull → (length self.old.entries + self.old.kept ≡ length K.places) × (ends op ≡ false) }
        ensures memory { result ≡ Err fault.Memory → ends op ≡ true → IsTrue (may_lack_memory (P.table self.old.protocol) self.old.state txn op) }
    {
        forget(&mut self.waiting, txn);
        let place = self.history.len();
        let places = row.len();
        let (reply, note) = match write(
            &mut self.machine,
            self.alloc,
            row,
            &mut self.numbers,
            self.kept,
            places - place,
            place,
            seat,
            txn,
            op,
        ) {
            Ok(done) => done,
            Err(fault) => return Err(fault),
        };
        self.history.add(note);
        self.seats[seat].count += 1;
        self.kept = kept_after(op, self.kept);
        Ok(Receipt {
            place,
            event: Event { txn, op },
            reply,
        })
    }

    /// Notes that the seat left. All else stays: a transaction that it leaves active is so still, and its locks are held.
    pub fn leave(&mut self, seat: usize)
        requires { seat < length self.old.seats }
        ensures others { self.new ≡ record self.old { seats = self.new.seats } }
        ensures left { self.new.seats ≡ slice_set self.old.seats seat (record { count = (seat_at self.old.seats seat).count; last = (seat_at self.old.seats seat).last; left = true }) }
    {
        self.seats[seat].left = true;
    }

    /// Whether the number that the seat began last is active.
    fn is_open(&self, seat: usize) -> bool
        requires { seat < length self.now.seats }
        ensures { result ≡ active_in self.now.state (seat_at self.now.seats seat).last }
    {
        match self.seats[seat].last {
            Some(txn) => self.machine.active(txn),
            None => false,
        }
    }

    /// Whether the number was begun by this seat.
    pub fn has_begun(&self, txn: Txn, seat: usize) -> bool
        ensures { result ≡ begun_by_seat self.now.numbers txn seat }
    {
        self.numbers.is_of(txn, seat)
    }
}

/// How many places are kept after an operation.
fn kept_after(op: Op, kept: usize) -> usize
    requires { freed op ≤ kept }
    ensures { kept ≡ result + freed op }
{
    if is_end(op) { kept - 1 } else { kept }
}
