// How a group shares its bitpool by need: its needs stand in a slice, 32 higher, in the order in which they are served.
#![tactic(auto)]

ghost use Rattle.std.specs.Prelude.{◌≡◌, ◌++◌, map, ◌-◌, ◌≤◌, ◌<◌, nat_lt, min, max, length, take, drop, replicate};
ghost use Rattle.std.specs.List.{fold, sum_by};
ghost use Rattle.sbc_share.specs.Share.{sum, level_part, level_bits, descend, level_of, base_bits, round_gain, round_bits, last_bit, share};
ghost use Rattle.sbc_share.specs.Raised.{lowered, excesses, Servable};

use laws::sum_of;

// The bits that a need adds at the level that it stands k above. The longest range comes first: so the loop over the needs is the shortest.
#[tactic(auto, using(crate::proofs::Sharing::part_cases))]
fn level_part(k: u32) -> u32
    ensures { (result ≡ level_part k) × (result ≤ 2) }
{
    match k {
        2..=15 => 1,
        1 => 2,
        _ => 0,
    }
}

// The base bits of a need that stands k above the level.
#[tactic(auto, unfolding(crate::specs::Share::base_bits))]
fn base_bits(k: u32) -> u32
    ensures { (result ≡ base_bits k) × (result ≤ 16) }
{
    if k < 2 { 0 } else { k.min(16) }
}

// What a need that stands k above the level gains in the round.
#[tactic(auto, using(crate::proofs::Sharing::gain_cases))]
fn round_gain(k: u32, left: u32) -> u32
    ensures { (result ≡ round_gain k left) × (result ≤ 2) × (result ≤ left) }
{
    match (k, left) {
        (_, 0) => 0,
        (1, 2..) => 2,
        (2..=15, _) => 1,
        _ => 0,
    }
}

// A group's needs, 32 higher, in the order in which they are served, and its bitpool.
#[derive(Clone, Copy)]
struct Group<'a> {
    needs: &'a [u32],
    bitpool: u32,
    ghost servable: { Servable needs.now bitpool },
}

impl Group<'_> {
    // The bits of a level.
    // Kept: this chain and that of `base_total` are two. One method that takes the function in which they differ proves, but it must ask
    // that all the function gives is at most 16, and say its sum for any definition that the function meets; each caller names that one.
    fn level_bits(&self, level: u32) -> u32
        ensures { result ≡ sum_by (λ need. level_part (need - level)) self.now.needs.now }
    {
        self.needs
            .iter()
            .map(|need| level_part(need.saturating_sub(level)))
            .sum()
    }

    // The base bits of all needs.
    fn base_total(&self, level: u32) -> u32
        ensures { result ≡ sum_by (λ need. base_bits (need - level)) self.now.needs.now }
    {
        self.needs
            .iter()
            .map(|need| base_bits(need.saturating_sub(level)))
            .sum()
    }

    // The greatest need, where the level search starts.
    fn greatest_need(&self) -> u32
        ensures { result ≡ fold max 0 self.now.needs.now }
    {
        self.needs.iter().copied().fold(0, u32::max)
    }

    // The least need, with the greatest as the first guess.
    fn least_need(&self, top: u32) -> u32
        ensures { result ≡ fold min top self.now.needs.now }
    {
        self.needs.iter().copied().fold(top, u32::min)
    }

    // The level search: from a level down by one, to where the running sum reaches or passes the bitpool. It never passes the floor, the
    // least need minus sixteen, where each need has 16 bits.
    // Kept: recursion, the form that document 01 names for this place: "a function that calls itself with the level one lower".
    fn find_level(&self, floor: u32, level: u32, count: u32) -> u32
        requires { count ≤ self.now.bitpool }
        ensures { lowered result ≡ descend (level - floor) (map lowered self.now.needs.now) self.now.bitpool (lowered level) count }
    {
        if level <= floor {
            return level;
        }
        let reached = count + self.level_bits(level);
        if reached < self.bitpool {
            self.find_level(floor, level - 1, reached)
        } else if reached == self.bitpool {
            level - 1
        } else {
            level
        }
    }

    // The level that the search ends at.
    fn level_of(&self) -> u32
        ensures { lowered result ≡ level_of (map lowered self.now.needs.now) self.now.bitpool }
    {
        let top = self.greatest_need();
        let low = self.least_need(top);
        self.find_level(low - 16, top, 0)
    }

    // The base bits with one round of gains, in order; zeros stand behind them.
    fn round_bits(&self, level: u32, left: u32) -> [u8; 16]
        ensures { result ≡ round_bits (excesses level self.now.needs.now) left ++ replicate (16 - length self.now.needs.now) 0 }
    {
        let mut bits = [0u8; 16];
        let mut rest = left;
        for (i, need) in self.needs.iter().enumerate() {
            let k = need.saturating_sub(level);
            let gain = round_gain(k, rest);
            bits[i] = (base_bits(k) + gain) as u8;
            rest -= gain;
        }
        bits
    }
}

// One bit more for the first with fewer than 16.
// Kept: the index, and no `position`: a search that begins at the second is then wrong by one operand, and refused by a fact.
#[tactic(auto, using(crate::proofs::Loops::last_found, crate::proofs::Loops::none_found))]
fn last_bit(bits: &mut [u8])
    ensures { bits.new ≡ last_bit 1 bits.old }
{
    for first in 0..bits.len() {
        if bits[first] < 16 {
            bits[first] += 1;
            return;
        }
    }
}

// The bits of a group, by its needs; zeros stand behind them.
// Kept: sixteen places by value, whatever the group has. The codec has no heap, and if they were lent, each of the two callers would make
// the same array of sixteen first.
pub fn share_bits(needs: &[u32], bitpool: u32) -> [u8; 16]
    requires { Servable needs.now bitpool }
    ensures { result ≡ share (map lowered needs.now) bitpool ++ replicate (16 - length needs.now) 0 }
{
    let group = Group { needs, bitpool };
    let level = group.level_of();
    let left = bitpool.saturating_sub(group.base_total(level));
    let mut bits = group.round_bits(level, left);
    if sum_of(&bits) < bitpool {
        last_bit(&mut bits[..needs.len()]);
    }
    bits
}
