// Order, Split, Cut and Route called on one network and one k. The promise is that of the four, answer by answer and list by
// list, and demand 3 and the last two of the order (document 02, #107) of what they return and leave.
#![tactic(auto)]

ghost use Rattle.std.specs.Prelude.{◌≡◌};
ghost use Rattle.definitions.specs.Order.{order_answer, relays_after, places_after};
ghost use Rattle.definitions.specs.Forests.{split_answer, forests_after, cut_answer, marks_after};
ghost use Rattle.definitions.specs.Route.{route_answer, counts_after, route_relays_after, scratch_after};
ghost use Rattle.network.specs.Tables.{of_table};
ghost use Rattle.forests.specs.Answers.{order_outcome, split_outcome, cut_outcome};
ghost use Rattle.routes.specs.Answers.{route_outcome};
ghost use Rattle.routes.specs.Wishes.{of_wish};
ghost use Rattle.together.specs.Together.{Together};

use network::{Refusal, Table};
use routes::Wish;

// The four answers.
#[derive(Clone, Copy, PartialEq, Eq)]
pub struct FourAnswers {
    pub order: Result<(), Refusal>,
    pub split: Result<u16, Refusal>,
    pub cut: Result<u16, Refusal>,
    pub route: Result<usize, Refusal>,
}

// Calls the four in turn, each with its own lists, which stay parameters: of a struct that holds them by `&mut`, a contract could say
// what is left in each by its position alone.
pub fn all_four(
    table: Table,
    wish: Wish,
    relays: &mut [u16],
    places: &mut [u16],
    forests: &mut [u16],
    marks: &mut [u16],
    counts: &mut [u16],
    written: &mut [u16],
    scratch: &mut [u16],
) -> FourAnswers
    ensures order { order_outcome result.order ≡ of_table order_answer table.entry relays.old places.old }
    ensures relays { relays.new ≡ of_table relays_after table.entry relays.old places.old }
    ensures places { places.new ≡ of_table places_after table.entry relays.old places.old }
    ensures split { split_outcome result.split ≡ of_table split_answer table.entry forests.old }
    ensures forests { forests.new ≡ of_table forests_after table.entry forests.old }
    ensures cut { cut_outcome result.cut ≡ of_table cut_answer table.entry wish.k marks.old }
    ensures marks { marks.new ≡ of_table marks_after table.entry wish.k marks.old }
    ensures route { route_outcome result.route
        ≡ of_wish route_answer table.entry wish counts.old written.old scratch.old }
    ensures counts { counts.new ≡ of_wish counts_after table.entry wish counts.old written.old scratch.old }
    ensures written { written.new ≡ of_wish route_relays_after table.entry wish counts.old written.old scratch.old }
    ensures scratch { scratch.new ≡ of_wish scratch_after table.entry wish counts.old written.old scratch.old }
    ensures demand { Together table.entry.n table.entry.lows.now table.entry.highs.now table.entry.states.now
        wish.k wish.from.0 wish.to.0 relays.old
        places.old forests.old marks.old counts.old written.old
        scratch.old relays.new places.new forests.new marks.new
        counts.new written.new (route_outcome result.route) }
{
    FourAnswers {
        order: forests::order(table, relays, places),
        split: forests::split(table, forests),
        cut: forests::cut(table, wish.k, marks),
        route: routes::route(table, wish, counts, written, scratch),
    }
}
