// How a frame codes its channels and spreads its bits: the two enums of the parameters, their numbers in the header, and what a mode says.
#![tactic(auto)]

ghost use Rattle.std.specs.Prelude.{◌≡◌, get_or};
ghost use Rattle.sbc_modes.specs.Modes.{channel_modes, allocations, mode_number, allocation_number, channels_of, separate, is_joint};
ghost use Rattle.sbc_modes.specs.declared.SbcChannelMode.TheVariants.{JointStereo};
ghost use Rattle.sbc_modes.specs.declared.SbcAllocation.TheVariants.{Snr};

// How a frame codes its channels.
#[derive(Clone, Copy, Debug, PartialEq, Eq)]
pub enum SbcChannelMode {
    // One channel.
    Mono,
    // Two channels coded independently, each with its own bitpool.
    DualChannel,
    // Two channels sharing one bitpool.
    Stereo,
    // Two channels sharing one bitpool, where each subband can be coded as the sum and difference of the channels.
    JointStereo,
}

// How the bitpool is spread across subbands.
#[derive(Clone, Copy, Debug, PartialEq, Eq)]
pub enum SbcAllocation {
    // Weighted by a model of hearing, the usual choice.
    Loudness,
    // In proportion to the scale factors only.
    Snr,
}

impl SbcChannelMode {
    // 1 in mono, else 2.
    pub fn channels(self) -> u8
        ensures { result ≡ channels_of self }
    {
        match self {
            SbcChannelMode::Mono => 1,
            _ => 2,
        }
    }

    // Whether each channel has a bitpool of its own.
    pub fn is_separate(self) -> bool
        ensures { result ≡ separate self }
    {
        matches!(self, SbcChannelMode::Mono | SbcChannelMode::DualChannel)
    }

    // Whether subbands may be joined.
    pub fn is_joint(self) -> bool
        ensures { result ≡ is_joint self }
    {
        matches!(self, SbcChannelMode::JointStereo)
    }

    // The mode of a number in the header; every number past 2 counts as 3.
    // Kept: no number is refused, so that it is no TryFrom. A From is for what loses nothing, and this takes 253 numbers as
    // joint stereo.
    #[tactic(auto, using(crate::proofs::Numbers::mode_rest), unfolding(crate::specs::Modes::channel_modes))]
    pub fn from_number(number: u8) -> SbcChannelMode
        ensures { result ≡ get_or channel_modes number JointStereo }
    {
        match number {
            0 => SbcChannelMode::Mono,
            1 => SbcChannelMode::DualChannel,
            2 => SbcChannelMode::Stereo,
            _ => SbcChannelMode::JointStereo,
        }
    }
}

// The mode's number in the header.
impl From<SbcChannelMode> for u8 {
    ghost from_gives = { λ mode number. number ≡ mode_number mode };

    fn from(mode: SbcChannelMode) -> u8 {
        match mode {
            SbcChannelMode::Mono => 0,
            SbcChannelMode::DualChannel => 1,
            SbcChannelMode::Stereo => 2,
            SbcChannelMode::JointStereo => 3,
        }
    }
}

impl SbcAllocation {
    // The allocation of a number in the header; every number past 0 counts as 1.
    // Kept: as the mode of a number: 255 numbers are taken as SNR.
    #[tactic(auto, using(crate::proofs::Numbers::allocation_rest), unfolding(crate::specs::Modes::allocations))]
    pub fn from_number(number: u8) -> SbcAllocation
        ensures { result ≡ get_or allocations number Snr }
    {
        match number {
            0 => SbcAllocation::Loudness,
            _ => SbcAllocation::Snr,
        }
    }
}

// The allocation's number in the header.
impl From<SbcAllocation> for u8 {
    ghost from_gives = { λ allocation number. number ≡ allocation_number allocation };

    fn from(allocation: SbcAllocation) -> u8 {
        match allocation {
            SbcAllocation::Loudness => 0,
            SbcAllocation::Snr => 1,
        }
    }
}
