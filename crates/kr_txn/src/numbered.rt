//! Lists of what belongs to a transaction each, by their numbers.
ghost use Rattle.std.specs.Prelude.{◌≡◌, ℕ, IfSome, IfNone, length};
ghost use Rattle.kr_txn.specs.Numbered.{IsPosition, IsPlace, AreOthers};

use kr_model::Txn;

/// What belongs to one transaction.
pub trait Numbered {
    /// The transaction's number.
    ghost number: { Self → ℕ };

    /// The transaction's number.
    fn number(&self) -> Txn
        ensures { result ≡ number self.now };
}

/// The place of a transaction in the list, the first from 0, or `None` where it isn't there. Looks at one after another.
pub fn position<T: Numbered>(list: &[T], txn: Txn) -> Option<usize>
    ensures some { IfSome result (IsPosition T.number txn list.now) }
    ensures none { IfNone result (AreOthers T.number txn list.now (length list.now)) }
{
    for i in 0..list.len() {
        if list[i].number() == txn {
            return Some(i);
        }
    }
    None
}

/// The place of the first transaction with a greater number, or else the end of the list.
pub(crate) fn place<T: Numbered>(list: &[T], txn: Txn) -> usize
    requires { AreOthers T.number txn list.now (length list.now) }
    ensures { IsPlace T.number txn list.now result }
{
    for i in 0..list.len() {
        if txn < list[i].number() {
            return i;
        }
    }
    list.len()
}
