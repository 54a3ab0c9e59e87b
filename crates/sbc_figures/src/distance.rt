// How far two lists of samples are apart.
ghost use Rattle.std.specs.Prelude.{◌≡◌, length, not, count_by, fold, map, max};
ghost use Rattle.std.specs.List.{zip};
ghost use Rattle.std.specs.Ordering.{int_eq};
ghost use Rattle.sbc_figures.specs.Distance.{apart, differing, farthest};

// How many pairs of samples differ.
fn unequal_pairs(ours: &[i16], theirs: &[i16]) -> usize
    ensures { result ≡ count_by (λ pair. not (int_eq pair.0 pair.1)) (zip ours.now theirs.now) }
{
    ours.iter().zip(theirs).filter(|(a, b)| a != b).count()
}

// How many samples differ.
// Kept: equal lengths are asked here, in `farthest` and in `streams::measure`, of two slices that a caller has by themselves.
// A struct would hold the two for one call.
#[tactic(auto, using(crate::proofs::Chains::counted))]
pub fn differing(ours: &[i16], theirs: &[i16]) -> usize
    requires { length ours.now ≡ length theirs.now }
    ensures { result ≡ differing ours.now theirs.now }
{
    unequal_pairs(ours, theirs)
}

// The greatest distance of a pair, 0 of no pairs.
#[tactic(auto, unfolding(crate::specs::Distance::apart))]
fn widest_pair(ours: &[i16], theirs: &[i16]) -> u16
    ensures { result ≡ fold max 0 (map (λ pair. apart pair.0 pair.1) (zip ours.now theirs.now)) }
{
    ours.iter()
        .zip(theirs)
        .map(|(a, b)| a.abs_diff(*b))
        .fold(0, u16::max)
}

// The greatest distance, 0 of no samples.
#[tactic(auto, using(crate::proofs::Chains::seen))]
pub fn farthest(ours: &[i16], theirs: &[i16]) -> u16
    requires { length ours.now ≡ length theirs.now }
    ensures { result ≡ farthest ours.now theirs.now }
{
    widest_pair(ours, theirs)
}
