// Order, Split and Cut of document 01 over the scan, which places relays one after another and gives each link its forest
// number in the same pass. What each answer stands for is said in specs/Answers.antt.
#![tactic(auto)]

ghost use Rattle.std.specs.Prelude.{◌≡◌, ◌≤◌, length};
ghost use Rattle.definitions.specs.Lists.{overwrite, total};
ghost use Rattle.definitions.specs.Order.{order_answer, relays_after, places_after};
ghost use Rattle.definitions.specs.Forests.{split_answer, forests_after, marks_of, cut_answer, marks_after};
ghost use Rattle.network.specs.Tables.{of_table};
ghost use Rattle.forests.specs.Answers.{order_outcome, split_outcome, cut_outcome};

use marks::{highest, mark_links};
use network::limits::ROUTES;
use network::{Network, Refusal, Table};
use results::{number_links, place_relays};

mod buckets;
mod busiest;
mod chains;
pub mod clear;
mod counts;
pub mod idle;
pub mod left;
pub mod marks;
mod placing;
mod relays;
pub mod results;
pub mod scan;
mod walk;

// The relay at each place and the place of each relay.
pub fn order(table: Table, relays: &mut [u16], places: &mut [u16]) -> Result<(), Refusal>
    ensures answer { order_outcome result ≡ of_table order_answer table.entry relays.old places.old }
    ensures relays { relays.new ≡ of_table relays_after table.entry relays.old places.old }
    ensures places { places.new ≡ of_table places_after table.entry relays.old places.old }
{
    let network = table.check()?;
    let size = usize::from(table.n);
    if relays.len() < size || places.len() < size {
        return Err(Refusal::Room);
    }
    place_relays(network, relays, places);
    Ok(())
}

// The forest number of each link. Gives the highest forest used, 0 without links.
pub fn split(table: Table, forests: &mut [u16]) -> Result<u16, Refusal>
    ensures answer { split_outcome result ≡ of_table split_answer table.entry forests.old }
    ensures forests { forests.new ≡ of_table forests_after table.entry forests.old }
{
    let network = table.check()?;
    let m = table.lows.len();
    if forests.len() < m {
        return Err(Refusal::Room);
    }
    number_links(network, forests);
    Ok(highest(&forests[..m]))
}

// Cut of an accepted table, into a list with room for the marks. Returns how many links are kept.
pub fn cut_accepted(network: Network, k: u16, marks: &mut [u16]) -> u16
    requires { length network.table.lows.now ≤ length marks.old }
    ensures value { result ≡ total (of_table marks_of network.entry.table k) }
    ensures marks_left { marks.new ≡ overwrite (of_table marks_of network.entry.table k) marks.old }
{
    number_links(network, marks);
    mark_links(k, &mut marks[..network.table.lows.len()])
}

// The mark of each link: 1 kept, 0 dropped. Gives how many links are kept.
pub fn cut(table: Table, k: u16, marks: &mut [u16]) -> Result<u16, Refusal>
    ensures answer { cut_outcome result ≡ of_table cut_answer table.entry k marks.old }
    ensures marks { marks.new ≡ of_table marks_after table.entry k marks.old }
{
    let network = table.check()?;
    if k < 1 || ROUTES < k {
        return Err(Refusal::RouteCount);
    }
    if marks.len() < table.lows.len() {
        return Err(Refusal::Room);
    }
    Ok(cut_accepted(network, k, marks))
}
