// The charge of some literals: one text for every case and every kind of charge.
ghost use Rattle.std.specs.Prelude.{◌≡◌};
ghost use Rattle.cases.specs.Literals.{members};
ghost use Rattle.charges.specs.Charges.{contents, charge, total, Once, OrderFree};
ghost use Rattle.charges.specs.Generic.{kind_of};

use crate::charge::Charge;
use cases::case::Case;

// The sum of the prices of the literals, whatever their order. Where none stands twice and all exist, it is the charge of their set.
pub fn charge_of<C: Case, K: Charge>(case: &C, literals: &[u8]) -> K
    ensures summed { result ≡ total (kind_of K.Charge) (contents (C.Case.meaning case.now)) literals.now }
    ensures charged { Once (contents (C.Case.meaning case.now)).options literals.now → result ≡ charge (kind_of K.Charge) (contents (C.Case.meaning case.now)) (members literals.now) }
    ensures orderless { OrderFree (kind_of K.Charge) (contents (C.Case.meaning case.now)) }
{
    literals.iter().fold(K::zero(), |charge, l| charge.sum(K::price(case.amount(*l))))
}
