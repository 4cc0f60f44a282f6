//! Every order of a scenario.
ghost use Rattle.std.specs.Prelude.{◌≡◌, IfOk};
ghost use Rattle.ep_orders.specs.Orders.{Explores};

use crate::course::Course;
use crate::explorer::{Explorer, Makes};
use crate::fault::Fault;
use crate::scenario::Scenario;
use crate::turn::Rules;
use crate::visitor::Visitor;
use ep_calls::Kernel;
use ep_paths::run_all;
use std::alloc::Global;

/// What came of an exploration.
#[derive(Drop)]
pub struct Explored<V> {
    /// Who was told of the orders.
    pub visitor: V,
    /// Whether these were all orders, or `most` was reached; or why the exploration did not come so far.
    pub end: Result<bool, Fault>,
}

/// Runs every order of the scenario, each once, and tells the visitor of each at its end. It stops before it would run
/// more than `most`, and at the first fault; what the visitor was told up to then stays.
pub fn explore<M: Makes<K>, K: Kernel + Drop, V: Visitor>(
    alloc: Global,
    scenario: &Scenario,
    maker: &M,
    rules: Rules,
    most: u64,
    visitor: V,
) -> Explored<V>
    ensures { IfOk result.end (λ whole. Explores
        (record { limits = M.limits maker.now; rules = rules; lines = scenario.now.lines.items })
        scenario.now.setup.items most V.notes visitor result.visitor whole) }
{
    let kernel = match maker.make(alloc) {
        Ok(kernel) => kernel,
        Err(error) => {
            return Explored {
                visitor,
                end: Err(Fault::from(error)),
            };
        }
    };
    let course = match Course::begin(alloc, kernel, scenario, rules) {
        Ok(course) => course,
        Err(fault) => {
            return Explored {
                visitor,
                end: Err(fault),
            };
        }
    };
    let Course { kernel, turns, .. } = course;
    let mut explorer = Explorer {
        alloc,
        maker,
        scenario,
        rules,
        turns,
        kernel,
        visitor,
    };
    let end = run_all(alloc, &mut explorer, most);
    Explored {
        visitor: explorer.visitor,
        end,
    }
}
