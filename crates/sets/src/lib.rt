// Sets of the numbers 0 to 255: "Four u64 words; trailing zeros of the complement find the lowest free ID, ones count the used."
//
// Promised of any four words and any number: `put` leaves `with_number`, `contains` answers `holds`, `count` how many `members`
// there are, and `lowest` `lowest_out`, of specs/Sets.antt. What follows from these definitions, of any number of words and
// without a word on how a set is stored, stands in proofs/Laws.antt.
//
// Lent, since four words by value are copied at each call.
#![tactic(auto)]

ghost use Rattle.std.specs.Prelude.{◌≡◌, length};
ghost use Rattle.sets.specs.Sets.{holds, with_number, members, lowest_out};

#[tactic(auto, using(crate::proofs::Words::shift_put))]
pub fn put(set: &mut [u64; 4], n: u8)
    ensures { set.new ≡ with_number set.old n }
{
    let k = (n / 64) as usize;
    set[k] |= 1 << (n % 64);
}

#[tactic(auto, unfolding(crate::specs::Sets::holds, mps::specs::Words::bit))]
pub fn contains(set: &[u64; 4], n: u8) -> bool
    ensures { result ≡ holds set.now n }
{
    (set[(n / 64) as usize] >> (n % 64)) % 2 == 1
}

// How many numbers are in a set.
#[tactic(auto, using(crate::proofs::Words::counts_first))]
pub fn count(set: &[u64; 4]) -> usize
    ensures { result ≡ length (members set.now) }
{
    let mut n = 0;
    for at in 0..set.len() {
        n += set[at].count_ones() as usize;
    }
    n
}

// The lowest number that is in neither of two sets, 256 where each is in one.
pub fn lowest(a: &[u64; 4], b: &[u64; 4]) -> usize
    ensures { result ≡ lowest_out a.now b.now }
{
    for at in 0..a.len() {
        let free = !(a[at] | b[at]);
        if free != 0 {
            return at * 64 + free.trailing_zeros() as usize;
        }
    }
    256
}
