// The sweep of document 01 over a left table, on the lists of the two sides (`side`): A starts at s, the later place, B at t.
// Route writes its routes out of these lists (crate `routes`).
#![tactic(auto)]

ghost use Rattle.std.specs.Prelude.{◌≡◌, ◌+◌, ◌*◌, ◌≤◌, ◌<◌, pred, length};
ghost use Rattle.sweep.specs.Side.{left_of, prior_start};
ghost use Rattle.sweep.specs.Sides.{sides, some_index, highest_in, start_a, start_b, leave_at, leave_from, pass_at, step_in, sweep_in, swept_in};

use network::Place;
use side::{LeftTable, Neighbour, end_of, extend, set_path, trade_below};

pub mod side;
pub mod sides;

// The largest index up to k whose A-path or B-path ends at v.
fn highest(a: &[u16], b: &[u16], k: u16, v: Place) -> Option<u16>
    ensures { result ≡ some_index (highest_in k v.0 a.now b.now) }
{
    for i in (1..=k).rev() {
        if end_of(a, i).0 == v.0 || end_of(b, i).0 == v.0 {
            return Some(i);
        }
    }
    None
}

// Path i of side A starts as s, left(i, s).
fn start_a(a: &mut [u16], table: LeftTable, k: u16, s: Place)
    requires { (k ≤ 32) × (prior_start ≤ length a.old) }
    ensures { a.new ≡ start_a (left_of table.entry) s.0 k a.old }
{
    for i in (1..=k).rev() {
        let next = table.left(i, s);
        set_path(a, i, next, s);
    }
}

// Path i of side B starts as t alone.
fn start_b(b: &mut [u16], k: u16, t: Place)
    requires { (k ≤ 32) × (prior_start ≤ length b.old) }
    ensures { b.new ≡ start_b t.0 k b.old }
{
    for i in (1..=k).rev() {
        set_path(b, i, Neighbour { place: t, link: 0 }, Place(0));
    }
}

// At t: B-path i goes on to left(i, t), unless A-path i ends there.
fn leave_at(b: &mut [u16], a: &[u16], table: LeftTable, t: Place, i: u16)
    requires { (i ≤ 32) × (prior_start ≤ length b.old) }
    ensures { b.new ≡ leave_at (left_of table.entry) t.0 a.now i b.old }
{
    if end_of(a, i).0 != t.0 {
        let next = table.left(i, t);
        set_path(b, i, next, t);
    }
}

fn leave(b: &mut [u16], a: &[u16], table: LeftTable, k: u16, t: Place)
    requires { (k ≤ 32) × (prior_start ≤ length b.old) }
    ensures { b.new ≡ leave_from (left_of table.entry) t.0 a.now k b.old }
{
    for i in (1..=k).rev() {
        leave_at(b, a, table, t, i);
    }
}

// At another place v, where j is the highest index that ends there: both sides trade for j, and its paths meet or one of
// them goes on.
fn pass(a: &mut [u16], b: &mut [u16], table: LeftTable, v: Place, j: u16)
    requires { (j ≤ 32)
        × (prior_start + (2 * v.0 + 1) < length a.old) × (prior_start + (2 * v.0 + 1) < length b.old) }
    ensures { sides a.new b.new
        ≡ pass_at (left_of table.entry) v.0 j a.old b.old }
{
    trade_below(a, table, v, j);
    trade_below(b, table, v, j);
    let end_a = end_of(a, j);
    let end_b = end_of(b, j);
    if end_a.0 == v.0 {
        if end_b.0 != v.0 {
            extend(a, table, v, j);
        }
    } else if end_b.0 == v.0 {
        extend(b, table, v, j);
    }
}

fn step(a: &mut [u16], b: &mut [u16], table: LeftTable, k: u16, t: Place, v: Place)
    requires { (k ≤ 32)
        × (prior_start + (2 * v.0 + 1) < length a.old) × (prior_start + (2 * v.0 + 1) < length b.old) }
    ensures { sides a.new b.new
        ≡ step_in (left_of table.entry) k t.0 v.0 a.old b.old }
{
    if v.0 == t.0 {
        leave(b, a, table, k, t);
    } else if let Some(j) = highest(a, b, k, v) {
        pass(a, b, table, v, j);
    }
}

// The steps at s - 1, ..., 1.
fn steps(a: &mut [u16], b: &mut [u16], table: LeftTable, k: u16, t: Place, s: Place)
    requires { (k ≤ 32)
        × (prior_start + (2 * s.0 + 1) < length a.old) × (prior_start + (2 * s.0 + 1) < length b.old) }
    ensures { sides a.new b.new
        ≡ sweep_in (left_of table.entry) k t.0 (pred s.0) a.old b.old }
{
    for v in (1..s.0).rev() {
        step(a, b, table, k, t, Place(v));
    }
}

// The whole sweep: from the start through the steps at s - 1, ..., 1.
pub fn sweep(a: &mut [u16], b: &mut [u16], table: LeftTable, k: u16, s: Place, t: Place)
    requires { (k ≤ 32)
        × (prior_start + (2 * s.0 + 1) < length a.old) × (prior_start + (2 * s.0 + 1) < length b.old) }
    ensures { sides a.new b.new
        ≡ swept_in (left_of table.entry) k s.0 t.0 a.old b.old }
{
    start_a(a, table, k, s);
    start_b(b, k, t);
    steps(a, b, table, k, t, s);
}
