ghost use Rattle.std.specs.Prelude.{◌≡◌, true, false, IfOk, IfErr};
ghost use Rattle.codec.specs.declared.Error.TheVariants.{InvalidParameter};
ghost use Rattle.sbc_parameters.specs.Parameters.{accepted};

use crate::SbcParameters;
use codec::Error;

// A set of parameters that is accepted: a function that takes one asks its caller for no more.
#[derive(Clone, Copy)]
pub struct AcceptedSet {
    pub set: SbcParameters,
    pub ghost is_accepted: { accepted set ≡ true },
}

// The check that `validate` makes, which hands on what it found in the type of what it gives.
impl TryFrom<SbcParameters> for AcceptedSet {
    type Error = Error;

    ghost try_from_gives = { λ set r. IfOk r (λ taken. taken.set ≡ set)
        × IfErr r (λ error. (error ≡ InvalidParameter) × (accepted set ≡ false)) };

    fn try_from(set: SbcParameters) -> Result<AcceptedSet, Error> {
        if set.is_accepted() {
            return Ok(AcceptedSet { set });
        }
        Err(Error::InvalidParameter)
    }
}
