// The number of an answer, for the exported functions.
ghost use Rattle.std.specs.Prelude.{◌≡◌, MatchResult};

// 0, or the number of the refusal.
pub(crate) fn number_of<T: Copy, E: Copy + Into<u8>>(answer: Result<T, E>) -> u8
    ensures { MatchResult answer (λ _. result ≡ 0) (λ refusal. E.converts refusal result) }
{
    match answer {
        Ok(_) => 0,
        Err(refusal) => refusal.into(),
    }
}
