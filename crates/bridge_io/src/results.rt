// Results of parts as the result of the whole.
ghost use Rattle.std.specs.Prelude.{◌≡◌, ◌⊎◌, Ok, Err, IsOk, IfOk, IfErr};

/// Two results as one: both values, or else the error of the first that failed, and the other value is let go. What is made of
/// several parts has one early end so, over which its maker owns none of them.
pub fn together<A: Drop, B: Drop, E: Drop>(a: Result<A, E>, b: Result<B, E>) -> Result<(A, B), E>
    ensures ok { IfOk result (λ both. (a ≡ Ok both.0) × (b ≡ Ok both.1)) }
    ensures err { IfErr result (λ e. (a ≡ Err e) ⊎ (IsOk a × (b ≡ Err e))) }
{
    let first = a?;
    let second = b?;
    Ok((first, second))
}
