ghost use Rattle.std.specs.Prelude.{◌≡◌};
ghost use Rattle.answer.specs.First.{required};

// A rule, or what is wrong where it does not hold.
pub fn require<E: Drop>(holds: bool, error: E) -> Result<(), E>
    ensures { result ≡ required holds error }
{
    if holds { Ok(()) } else { Err(error) }
}
