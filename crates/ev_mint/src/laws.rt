//! What holds of the money of mints.

ghost use Rattle.ev_mint.specs.Laws.{BalancesAddUp};

/// The balances of a mint's purses add up to what it issued, behind any orders.
pub fn balances_add_up()
    ensures { BalancesAddUp }
{}
