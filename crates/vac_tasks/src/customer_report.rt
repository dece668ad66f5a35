//! Sums over customers and their bookings.

ghost use Rattle.std.specs.Prelude.{◌≡◌, IfOk, IfErr};
ghost use Rattle.vac_records.specs.InMemory.{HoldsState};
ghost use Rattle.vac_tasks.specs.Sums.{CustomersFit, customers_together, CanCount, CustomerCounted, CustomersSummed};

use tx_alloc::Block;
use tx_alloc::place::MOST_BLOCKS;
use tx_memory::TxRead;
use tx_tree::Walk;
use vac_records::place::BOOKINGS;
use vac_records::{CUSTOMERS, sum_at, units_at};

/// The number of customers, and the sums over the units and the prices of their bookings.
#[derive(Clone, Copy)]
pub(crate) struct CustomerSums {
    pub count: u64,
    pub units: u64,
    pub billed: u64,
}

impl CustomerSums {
    /// Returns the sums over both parts.
    fn plus(self, other: CustomerSums) -> CustomerSums
        requires { CustomersFit self other }
        ensures { result ≡ customers_together self other }
    {
        CustomerSums {
            count: self.count + other.count,
            units: self.units + other.units,
            billed: self.billed + other.billed,
        }
    }
}

/// Sums up the bookings of the customer in a block. Bounded loop: the prover needs a measure; a
/// customer has at most 262,144 bookings.
fn sums_of_customer<M: TxRead>(memory: &mut M, customer: Block) -> Result<CustomerSums, M::Stop>
    requires { CanCount (M.view memory.old) customer }
    ensures origin { M.origin memory.new ≡ M.origin memory.old }
    ensures answer { IfOk result (λ sums.
        CustomerCounted (M.view memory.old) (M.view memory.new) customer sums) }
    ensures stopped { IfErr result (λ stop. M.stopped_for memory.new stop) }
{
    let mut next = vac_bookings::first(memory, customer.word(BOOKINGS))?;
    let mut units = 0;
    let mut billed = 0;
    for _ in 0..MOST_BLOCKS {
        match next {
            None => break,
            Some(block) => {
                units += units_at(memory, block)?;
                billed += sum_at(memory, block)?;
                next = vac_bookings::next(memory, block)?;
            }
        }
    }
    Ok(CustomerSums {
        count: 1,
        units,
        billed,
    })
}

/// Sums up the bookings of all customers. Bounded loop: the prover needs a measure; a table has at
/// most 262,144 entries.
pub(crate) fn sum_customers<M: TxRead>(memory: &mut M) -> Result<CustomerSums, M::Stop>
    requires { HoldsState (M.view memory.old) }
    ensures origin { M.origin memory.new ≡ M.origin memory.old }
    ensures answer { IfOk result (λ sums.
        CustomersSummed (M.view memory.old) (M.view memory.new) sums) }
    ensures stopped { IfErr result (λ stop. M.stopped_for memory.new stop) }
{
    let mut sums = CustomerSums {
        count: 0,
        units: 0,
        billed: 0,
    };
    let mut walk = Walk::begin(memory, CUSTOMERS)?;
    for _ in 0..MOST_BLOCKS {
        match walk.next(memory)? {
            None => return Ok(sums),
            Some(block) => {
                sums = sums.plus(sums_of_customer(memory, block)?);
            }
        }
    }
    Ok(sums)
}
