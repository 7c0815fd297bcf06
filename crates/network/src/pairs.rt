// Pair numbers, and the marks of the pairs seen so far, a bit for each pair number. What they hold is said in specs/Seen.antt.
ghost use Rattle.std.specs.Prelude.{◌≡◌, ◌+◌, ◌<◌, ◌≤◌};
ghost use Rattle.definitions.specs.Network.{pair_number, pair_answer};
ghost use Rattle.network.specs.Answers.{pair_outcome};
ghost use Rattle.network.specs.RowStarts.{RowsFor, RowsFor-prop};
ghost use Rattle.network.specs.Seen.{RoomFor, LinkChecked};

use crate::limits::RELAYS;
use crate::refusal::Refusal;
use crate::row_starts::row_start;
use crate::{LinkFault, Relay, number_check, row_starts};

// The pair number, from row starts for both relays.
fn pair_index(a: Relay, b: Relay, rows: &[u32]) -> u32
    requires { (a.0 < b.0) × (b.0 < 1000) × RowsFor (b.0 + 1) rows.now }
    ensures { result ≡ pair_number a.0 b.0 }
{
    row_start(b, rows) + a.0 as u32
}

// The pairs of n relays that were seen so far: the row starts, and a bit for each pair number. Both are lent: arrays that it owned
// would be copied, up to 66 KB, where it is made.
#[derive(Drop)]
pub struct PairMarks<'a> {
    pub n: u16,
    pub rows: &'a [u32],
    pub seen: &'a mut [u64],
    ghost few: { n ≤ 1000 },
    ghost rows_for: { RowsFor n rows.now } by { RowsFor-prop n rows.now },
}

impl<'a> PairMarks<'a> {
    // Looks for the pair a b among those that are marked, and marks it if it is not there.
    fn mark_pair(&mut self, a: Relay, b: Relay) -> Result<(), LinkFault>
        requires { RoomFor self.old.n self.old.seen.now × (a.0 < b.0) × (b.0 < self.old.n) }
        ensures checked { LinkChecked self.old.n a.0 b.0 self.old.seen.now self.new.seen.now result }
        ensures same { self.new.n ≡ self.old.n }
        ensures same_marks { self.new.seen.ghost_name ≡ self.old.seen.ghost_name }
    {
        let pair = pair_index(a, b, self.rows) as usize;
        let word = pair / 64;
        let bit = pair % 64;
        let bits = self.seen[word];
        let marked = bits | (1u64 << bit);
        if (bits >> bit) % 2 == 1 {
            return Err(LinkFault::Repeated);
        }
        self.seen[word] = marked;
        Ok(())
    }

    // Checks the link a b after those whose pairs are marked, and marks its pair if it is fine.
    pub fn check_link(&mut self, a: Relay, b: Relay) -> Result<(), LinkFault>
        requires { RoomFor self.old.n self.old.seen.now }
        ensures checked { LinkChecked self.old.n a.0 b.0 self.old.seen.now self.new.seen.now result }
        ensures same { self.new.n ≡ self.old.n }
        ensures same_marks { self.new.seen.ghost_name ≡ self.old.seen.ghost_name }
    {
        if a.0 < b.0 && b.0 < self.n {
            return self.mark_pair(a, b);
        }
        number_check(self.n, a, b)
    }
}

// The pair number of the link a b.
pub fn pair_number(a: Relay, b: Relay) -> Result<u32, Refusal>
    ensures { pair_outcome result ≡ pair_answer a.0 b.0 }
{
    if RELAYS <= a.0 || RELAYS <= b.0 {
        return Err(Refusal::RelayRange(0));
    }
    if b.0 <= a.0 {
        return Err(Refusal::NotBelow(0));
    }
    let rows = row_starts::row_starts();
    Ok(pair_index(a, b, &rows))
}
