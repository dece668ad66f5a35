//! Histories of a few lines that claim no order, and the searches that are made of them.

use judge_linear::{Outcome, Settings, order_history};
use judge_object::{Level, Watcher};
use std::alloc::Global;
use std::test::Fail;
use vac_lines::StreamFault;

/// A history whose last call gives its reply only before the first call.
const LAST_FIRST: &str = "1 0 9 newcust 1 -> true\n2 0 9 newcust 2 -> true\n3 0 9 leave 1 -> -1\n";

/// A history in which both orders of the third and the fourth call give correct replies; the bill
/// shows that the call that ended later came first.
const GOES_BACK: &str = "0 0 1 add car 1 9 50 -> true\n0 1 2 newcust 1 -> true\n\
    1 3 8 reserve 1 car 1 -> true\n2 3 9 add car 1 1 80 -> true\n0 10 11 bill 1 -> 80\n";

/// Write skew: the trip found the customer whom the leave removed, and the leave's bill has no
/// flight.
const WRITE_SKEW: &str = "0 0 1 add car 1 1 5 -> true\n0 1 2 add flight 1 1 8 -> true\n\
    0 2 3 newcust 1 -> true\n0 3 4 reserve 1 car 1 -> true\n1 5 9 leave 1 -> 5\n\
    2 5 9 trip 1 flight 1 -> trip cust=exists car=- flight=1:true room=-\n";

/// A history whose first three calls reach one state in any order; in none of these orders does
/// the last call give its reply.
const NEVER_RIGHT: &str = "0 0 9 newcust 1 -> true\n1 0 9 newcust 2 -> true\n\
    2 0 9 newcust 3 -> true\n3 0 9 bill 1 -> 7\n";

/// A watcher that counts the searches that begin.
#[derive(Drop)]
struct Begun {
    searches: u64,
}

impl Watcher for Begun {
    fn tell(&mut self, _placed: u64, steps: u64) {
        if steps == 0 {
            self.searches = self.searches.wrapping_add(1);
        }
    }
}

/// Returns the number of searches begun for a history, and the outcome.
fn searches(alloc: Global, steps: u64, history: &str) -> Result<(u64, Outcome), StreamFault> {
    let mut history = history.as_bytes();
    let mut text = Vec::new(alloc);
    let mut begun = Begun { searches: 0 };
    let how = Settings {
        blocks: 9,
        level: Level::Linearizable,
        steps,
    };
    let outcome = order_history(alloc, how, &mut history, &mut text, &mut begun)?;
    Ok((begun.searches, outcome))
}

#[test]
fn searches_that_decide(rt: HostRuntime) -> Result<(), Fail> {
    let rows: [(&str, u64, u64, Outcome); 7] = [
        // no search is needed
        ("1 2 - add car 1 1 5 -> ?\n", 10, 0, Outcome::Ordered),
        // the quick search finds a linearization, in exactly as many steps
        (LAST_FIRST, 3, 1, Outcome::Ordered),
        (GOES_BACK, 7, 1, Outcome::Ordered),
        // only exact searches can decide that there is no linearization: of a part at its last end,
        // and then at the ends that the bisection tries
        (NEVER_RIGHT, 100, 2, Outcome::Illegal),
        (WRITE_SKEW, 100, 4, Outcome::Illegal),
        (GOES_BACK, 6, 2, Outcome::Undecided),
        (GOES_BACK, 0, 0, Outcome::Undecided),
    ];
    for (history, steps, wanted, told) in rows {
        let (begun, outcome) = searches(rt.alloc(), steps, history)?;
        assert_eq!(rt; begun, wanted);
        assert_eq!(rt; outcome, told);
    }
    Ok(())
}
