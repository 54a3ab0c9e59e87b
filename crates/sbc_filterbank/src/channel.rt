// A channel of a frame's PCM.
ghost use Rattle.std.specs.Prelude.{◌<◌, ◌≤◌};

// One of the channels, `count` of them; the samples of two channels alternate.
#[derive(Clone, Copy)]
pub struct PcmChannel {
    pub index: usize,
    pub count: usize,
    pub ghost is_one: { index < count },
    pub ghost at_most_two: { count ≤ 2 },
}
