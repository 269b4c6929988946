// Why the facts of a dictionary have no order.
ghost use Rattle.std.specs.Prelude.{◌≡◌};
ghost use Rattle.dict_order.specs.declared.fault.OrderFault.TheVariants as faults;

use fact_values::NoMemory;

/// Why facts have no ranks.
#[derive(Clone, Copy, Debug, PartialEq, Eq)]
pub enum OrderFault {
    /// The fact of this number, from 1, reaches itself by one or more mentions, and no fact of a
    /// lower number does.
    Cycle(u32),
    /// There was no memory left for the lists that the order needs.
    NoMemory,
}

impl From<NoMemory> for OrderFault {
    ghost from_gives = { λ _ fault. fault ≡ faults.NoMemory };

    fn from(_error: NoMemory) -> OrderFault {
        OrderFault::NoMemory
    }
}
