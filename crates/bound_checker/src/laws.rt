//! What a verdict shows.
ghost use Rattle.bound_checker.specs.Laws.{ValidIsCertified, ValidIsPassed, TightIsValid};

/// Where the verdict is valid, the cuts are feasible and cost what is claimed, and no feasible cuts
/// cost less, whoever made the rows.
pub fn valid_is_certified()
    ensures { ValidIsCertified }
{}

/// The verdict is valid exactly where the rows pass the local check and no source has a parent.
pub fn valid_is_passed()
    ensures { ValidIsPassed }
{}

/// The tight bounds of a problem over a radial network are valid.
pub fn tight_is_valid()
    ensures { TightIsValid }
{
    outage_rules::tight_passes();
}
