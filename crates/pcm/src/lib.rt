// Samples of 16 bits as bytes, little endian.
#![tactic(auto)]

ghost use Rattle.std.specs.Prelude.{◌≡◌, [], ◌∷◌, ◌*◌, length, get_or, pos};
ghost use Rattle.laws.specs.Lists.{collect};
ghost use Rattle.pcm.specs.Samples.{samples_in, sample_of, low_byte, high_byte};

// The sample of two bytes, the low one first.
// Kept: a function of its own, as the next is, so that a wrong one is refused by what it gives, and not for its form.
#[tactic(auto, using(crate::proofs::Bytes::read_word))]
fn sample_in(pair: [u8; 2]) -> i16
    ensures { result ≡ sample_of (get_or pair 0 0) (get_or pair 1 0) }
{
    i16::from_le_bytes(pair)
}

// The two bytes of a sample, the low one first.
#[tactic(auto, using(crate::proofs::Bytes::written_word))]
fn bytes_of(sample: i16) -> [u8; 2]
    ensures { result ≡ low_byte sample ∷ high_byte sample ∷ [] }
{
    sample.to_le_bytes()
}

// Reads each sample from its two bytes.
#[tactic(auto, unfolding(crate::specs::Samples::samples_in, laws::specs::Lists::build, laws::specs::Lists::collect))]
pub fn read(bytes: &[u8], samples: &mut [i16])
    requires { length bytes.now ≡ 2 * length samples.old }
    ensures { samples.new ≡ samples_in (length samples.old) bytes.now }
{
    let (pairs, _) = bytes.as_chunks::<2>();
    // Kept: the index. With `samples.iter_mut().zip(pairs)` the goal `returns` stays open: a proof then knows the samples' number alone.
    for (i, sample) in samples.iter_mut().enumerate() {
        *sample = sample_in(pairs[i]);
    }
}

// Writes each sample as its two bytes.
#[tactic(auto, unfolding(laws::specs::Lists::collect))]
pub fn write(samples: &[i16], bytes: &mut [u8])
    requires { length bytes.old ≡ 2 * length samples.now }
    ensures { bytes.new
        ≡ collect (length samples.now) (λ i. low_byte (get_or samples.now i (pos 0)) ∷ high_byte (get_or samples.now i (pos 0)) ∷ []) }
{
    // Kept: the index. With `bytes.chunks_exact_mut(2).zip(samples)` the goal `returns` stays open, as in `read`.
    for (i, sample) in samples.iter().enumerate() {
        let [low, high] = bytes_of(*sample);
        bytes[2 * i] = low;
        bytes[2 * i + 1] = high;
    }
}
